// `trim_text`: the spaces of one text node, which is made from one source or, by a tref, from several.
ghost use Rattle.std.specs.Prelude.{◌≡◌, ◌+◌, ◌≤◌, length};
ghost use Rattle.std.proofs.lemmas.List.Edits.{sets};
ghost use Rattle.model.specs.Text.{converted, trim_text_after};
ghost use Rattle.text.specs.Spaces.{space_in, trimmed, is_dropped};

use crate::space::is_default;
use crate::{Trimmed, XmlSpace};

// Carriage return, newline and tab become a space. Each is tested alone: 9 and 10 in one pattern would make a range, with goals of its own.
#[tactic(auto, unfolding(model::specs::Base::among, model::specs::Text::converted))]
fn converted(b: u8) -> u8
    ensures { result ≡ converted b }
{
    if b == 13 {
        return 32;
    }
    if b == 10 {
        return 32;
    }
    if b == 9 {
        return 32;
    }
    b
}

// Default drops a space after a space.
fn is_dropped(default: bool, prev: u8, c: u8) -> bool
    ensures { result ≡ is_dropped default prev c }
{
    let is_preserved = !default;
    !is_preserved && c == 32 && c == prev
}

// `trim_text` of one source, written into the node's place from the byte on that `begun` names. The bytes before it, and those behind what
// is written, stay as they are.
pub fn trim_text(source: &[u8], place: &mut [u8], space: XmlSpace, begun: Trimmed) -> Trimmed
    requires { begun.size + length source.now ≤ length place.old }
    ensures answer { result ≡ trimmed (space_in space) begun source.now }
    ensures place { place.new ≡ sets place.old begun.size (trim_text_after (space_in space) begun.prev source.now) }
{
    let default = is_default(space);
    let mut n = begun.size;
    let mut prev = begun.prev;
    for &b in source {
        let c = converted(b);
        if !is_dropped(default, prev, c) {
            place[n] = c;
            n += 1;
        }
        prev = c;
    }
    Trimmed { size: n, prev }
}
