// Blank texts: `text.trim().is_empty()`.
ghost use Rattle.std.specs.Prelude.{◌≡◌, ◌-◌, length};
ghost use Rattle.model.specs.Utf8.{is_within_any, white_spaces, code_point, is_blank};

use utf8::sequence_at;

// The bits that the byte gives to a character's number, of those from `least` on.
fn above(b: u8, least: u8) -> u32
    ensures { result ≡ b - least }
{
    u32::from(b.saturating_sub(least))
}

// The number of a character, of whose bytes none but the first is looked at where it is alone.
#[tactic(auto, unfolding(model::specs::Utf8::code_point))]
fn code_point(s: &[u8]) -> u32
    ensures { result ≡ code_point (length s.now) s.now }
{
    match s {
        [] => 0,
        [a] => u32::from(*a),
        [a, b] => above(*a, 0xC0) * 64 + above(*b, 0x80),
        [a, b, c] => above(*a, 0xE0) * 4096 + above(*b, 0x80) * 64 + above(*c, 0x80),
        [a, b, c, d, ..] => {
            above(*a, 0xF0) * 262144
                + above(*b, 0x80) * 4096
                + above(*c, 0x80) * 64
                + above(*d, 0x80)
        }
    }
}

// Has the character the Unicode property White_Space?
#[tactic(auto, unfolding(model::specs::Utf8::is_within_any, model::specs::Utf8::white_spaces))]
fn is_white_space(c: u32) -> bool
    ensures { result ≡ is_within_any c white_spaces }
{
    matches!(c, 0x0009..=0x000D | 0x0020 | 0x0085 | 0x00A0 | 0x1680 | 0x2000..=0x200A | 0x2028..=0x2029 | 0x202F | 0x205F | 0x3000)
}

// Is a text of White_Space alone? It is read up to the first character that is none. A byte that begins no sequence is a character.
#[tactic(auto, using(crate::proofs::Blankness::characters))]
pub fn is_blank(s: &[u8]) -> bool
    ensures { result ≡ is_blank s.now }
{
    let mut rest = s;
    while !rest.is_empty() {
        let n = sequence_at(rest, 0).unwrap_or(1);
        let (character, behind) = rest.split_at(n);
        if !is_white_space(code_point(character)) {
            return false;
        }
        rest = behind;
    }
    true
}
