// UTF-8: the Unicode Standard, table 3-7.
#![tactic(auto)]

ghost use Rattle.std.specs.Prelude.{◌≡◌, ℕ, true, false, not, ◌+◌, ◌-◌, ◌<◌, ◌≤◌, length, drop, get_or, SomeIff, IfSome, MatchOption};
ghost use Rattle.model.specs.Utf8.{◌to◌, is_within, sequence_of, well_formed, is_utf8, is_utf8_from};
ghost use Rattle.utf8.specs.Lead.{length_of, second_of, never, left_out, misplaced, misplaced_of_two};
ghost use Rattle.utf8.specs.Lead.{misplaced_in, misplaced_of_two_in, begun_at, beyond_in};

// Is the byte in a range?
fn is_within(b: u8, least: u8, greatest: u8) -> bool
    ensures { result ≡ is_within b (least to greatest) }
{
    least <= b && b <= greatest
}

// Has the byte its place behind the first one of a sequence?
fn is_further(b: u8) -> bool
    ensures { result ≡ is_within b (0x80 to 0xBF) }
{
    is_within(b, 0x80, 0xBF)
}

// May the byte stand behind the first one of a sequence of three or four?
#[tactic(auto, unfolding(crate::specs::Lead::second_of))]
fn is_second(first: u8, b: u8) -> bool
    ensures { result ≡ is_within b (second_of first) }
{
    match first {
        0xE0 => is_within(b, 0xA0, 0xBF),
        0xED => is_within(b, 0x80, 0x9F),
        0xF0 => is_within(b, 0x90, 0xBF),
        0xF4 => is_within(b, 0x80, 0x8F),
        _ => is_further(b),
    }
}

// The sequence at i, whose first byte says two bytes.
#[tactic(auto, using(crate::proofs::Sequence::second_byte))]
fn two_at(s: &[u8], i: usize) -> Option<usize>
    requires i_in_bounds { i < length s.now }
    requires i_value { length_of (get_or s.now i 0) ≡ 2 }
    ensures { SomeIff result (0 < sequence_of well_formed (drop i s.now)) (sequence_of well_formed (drop i s.now)) }
{
    if 2 <= s.len() - i && is_further(s[i + 1]) {
        Some(2)
    } else {
        None
    }
}

// The sequence at i, whose first byte says three.
fn three_at(s: &[u8], i: usize) -> Option<usize>
    requires i_in_bounds { i + 3 ≤ length s.now }
    requires i_value { length_of (get_or s.now i 0) ≡ 3 }
    ensures { SomeIff result (0 < sequence_of well_formed (drop i s.now)) (sequence_of well_formed (drop i s.now)) }
{
    if is_second(s[i], s[i + 1]) && is_further(s[i + 2]) {
        Some(3)
    } else {
        None
    }
}

// The sequence at i, whose first byte says four.
fn four_at(s: &[u8], i: usize) -> Option<usize>
    requires i_in_bounds { i < length s.now }
    requires i_value { length_of (get_or s.now i 0) ≡ 4 }
    ensures { SomeIff result (0 < sequence_of well_formed (drop i s.now)) (sequence_of well_formed (drop i s.now)) }
{
    if 4 <= s.len() - i
        && is_second(s[i], s[i + 1])
        && is_further(s[i + 2])
        && is_further(s[i + 3])
    {
        Some(4)
    } else {
        None
    }
}

// How many bytes the sequence at i has, if a sequence of the table stands there. The first byte has as many leading ones as the
// sequence has bytes. Each length is answered by a number written out: the next place then waits for no count.
#[tactic(auto, using(crate::proofs::Sequence::first_byte))]
pub fn sequence_at(s: &[u8], i: usize) -> Option<usize>
    requires { i < length s.now }
    ensures { SomeIff result (0 < sequence_of well_formed (drop i s.now)) (sequence_of well_formed (drop i s.now)) }
{
    let b = s[i];
    if b < 0x80 {
        return Some(1);
    }
    let n = b.leading_ones();
    if n == 2 {
        if b < 0xC2 {
            return None;
        }
        return two_at(s, i);
    }
    if s.len() - i < 3 {
        return None;
    }
    if n == 3 {
        return three_at(s, i);
    }
    if n == 4 && b <= 0xF4 {
        return four_at(s, i);
    }
    None
}

// Is each byte ASCII? It looks at them all, with no way out before the end: the compiler makes vector instructions of that where
// the length is known. On a block of 256 bytes the library's `is_ascii` takes twice as long.
fn is_ascii(s: &[u8]) -> bool
    ensures { result ≡ not (beyond_in s.now 0 (length s.now)) }
{
    !s.iter().fold(false, |beyond, &b| beyond | (0x80 <= b))
}

// The place behind the blocks of N bytes of ASCII that stand from a place on. It stays a loop over places: the place is the answer,
// and `chunks_exact` would give it by a product and a sum.
fn past_blocks_of_ascii<const N: usize>(s: &[u8], from: usize) -> usize
    requires from_in_bounds { from ≤ length s.now }
    requires size { 0 < N }
    ensures { (from ≤ result) × (result ≤ length s.now) × (is_utf8_from 0 (drop result s.now) ≡ is_utf8_from 0 (drop from s.now)) }
{
    let mut i = from;
    while N <= s.len() - i && is_ascii(&s[i..i + N]) {
        i += N;
    }
    i
}

// The place behind the blocks of ASCII that stand from a place on, long ones first. Where fewer than 16 bytes are left, these are
// read with some before them.
fn past_ascii(s: &[u8], from: usize) -> usize
    requires { from ≤ length s.now }
    ensures { (from ≤ result) × (result ≤ length s.now) × (is_utf8_from 0 (drop result s.now) ≡ is_utf8_from 0 (drop from s.now)) }
{
    let i = past_blocks_of_ascii::<256>(s, from);
    let j = past_blocks_of_ascii::<32>(s, i);
    let k = past_blocks_of_ascii::<16>(s, j);
    if 16 <= s.len() && s.len() - k <= 16 && is_ascii(&s[s.len() - 16..]) {
        s.len()
    } else {
        k
    }
}

// The place behind the sequences that begin before stop, if a sequence stands at each place before it.
fn past_sequences(s: &[u8], from: usize, stop: usize) -> Option<usize>
    requires { (from ≤ stop) × (stop ≤ length s.now) }
    ensures { MatchOption result (is_utf8_from 0 (drop from s.now) ≡ false)
        (λ i. (stop ≤ i) × (i ≤ length s.now) × (is_utf8_from 0 (drop i s.now) ≡ is_utf8_from 0 (drop from s.now))) }
{
    let mut i = from;
    while i < stop {
        let n = sequence_at(s, i)?;
        i += n;
    }
    Some(i)
}

// Has the byte no place at all?
fn is_never(b: u8) -> bool
    ensures { result ≡ never b }
{
    ((b == 0xC0) | (b == 0xC1)) | (0xF4 < b)
}

// Does the byte make, behind that first one, an overlong form, a surrogate or a number past U+10FFFF?
fn is_left_out(first: u8, b: u8) -> bool
    ensures { result ≡ left_out first b }
{
    (((first == 0xE0) & (b < 0xA0)) | ((first == 0xED) & (0x9F < b)))
        | (((first == 0xF0) & (b < 0x90)) | ((first == 0xF4) & (0x8F < b)))
}

// Is the byte out of place behind the three before it, of which p1 is the last? There is no branch here nor in what it calls:
// the compiler makes vector instructions of a loop over it. With `||` in place of `|` a text in Chinese takes a seventh longer.
fn is_misplaced(p3: u8, p2: u8, p1: u8, b: u8) -> bool
    ensures { result ≡ misplaced p3 p2 p1 b }
{
    let goes_on = (0xC0 <= p1) | ((0xE0 <= p2) | (0xF0 <= p3));
    ((is_further(b) != goes_on) | is_never(b)) | is_left_out(p1, b)
}

// Is the byte out of place behind the one before it, where every sequence has one byte or two?
#[tactic(auto, unfolding(crate::specs::Lead::misplaced_of_two))]
fn is_misplaced_of_two(p: u8, b: u8) -> bool
    ensures { result ≡ misplaced_of_two p b }
{
    ((is_further(b) != (0xC0 <= p)) | (0xE0 <= b)) | ((b == 0xC0) | (b == 0xC1))
}

// How many bytes of a sequence that goes on stand at the end of the three bytes from a on.
#[tactic(auto, unfolding(crate::specs::Lead::begun_by))]
fn begun_at(s: &[u8], a: usize) -> usize
    requires { a + 3 ≤ length s.now }
    ensures { result ≡ begun_at s.now a }
{
    if 0xC0 <= s[a + 2] {
        return 1;
    }
    let is_three = 0xE0 <= s[a + 1];
    if is_three {
        return 2;
    }
    if 0xF0 <= s[a] {
        return 3;
    }
    0
}

// Is one of the bytes behind the first three out of place?
fn has_misplaced(s: &[u8]) -> bool
    requires { 3 ≤ length s.now }
    ensures { result ≡ misplaced_in s.now 0 (length s.now - 3) }
{
    s.array_windows::<4>().fold(
        false,
        |found, &[p3, p2, p1, b]| found | is_misplaced(p3, p2, p1, b),
    )
}

// Is one of the bytes behind the first three out of place, where every sequence has one byte or two?
fn has_misplaced_of_two(s: &[u8]) -> bool
    requires { 3 ≤ length s.now }
    ensures { result ≡ misplaced_of_two_in s.now 0 (length s.now - 3) }
{
    s[2..]
        .array_windows::<2>()
        .fold(false, |found, &[p, b]| found | is_misplaced_of_two(p, b))
}

// The place behind the 32 bytes from i on, or before a sequence that goes on behind them; none where they do not tell.
fn past_block(s: &[u8], i: usize) -> Option<usize>
    requires { (3 ≤ i) × (i + 32 ≤ length s.now) }
    ensures { IfSome result (λ next. (i < next) × (next ≤ length s.now)
        × (is_utf8_from 0 (drop next s.now) ≡ is_utf8_from 0 (drop i s.now))) }
{
    if is_ascii(&s[i..i + 32]) {
        return Some(i + 32);
    }
    if 0 < begun_at(s, i - 3) {
        return None;
    }
    let near = &s[i - 3..i + 32];
    if has_misplaced_of_two(near) && has_misplaced(near) {
        return None;
    }
    Some(i + 32 - begun_at(s, i + 29))
}

// The same of all that is left, at most 32 bytes: of the last 32 some were read before. It is i where they do not tell.
fn past_last(s: &[u8], i: usize) -> usize
    requires { (3 ≤ i) × (i ≤ length s.now) × (35 ≤ length s.now) × (length s.now ≤ i + 32) }
    ensures { (result ≤ length s.now) × (is_utf8_from 0 (drop result s.now) ≡ is_utf8_from 0 (drop i s.now)) }
{
    if 0 < begun_at(s, i - 3) || has_misplaced(&s[s.len() - 35..]) {
        return i;
    }
    s.len() - begun_at(s, s.len() - 3)
}

// The place behind the blocks from a place on, where none of them has a byte out of place.
fn past_blocks(s: &[u8], from: usize) -> usize
    requires { (3 ≤ from) × (from ≤ length s.now) × (35 ≤ length s.now) }
    ensures { (result ≤ length s.now) × (is_utf8_from 0 (drop result s.now) ≡ is_utf8_from 0 (drop from s.now)) }
{
    let mut i = from;
    while 32 <= s.len() - i {
        let Some(next) = past_block(s, i) else {
            return i;
        };
        i = next;
    }
    past_last(s, i)
}

// Is the string UTF-8 from a place on, sequence by sequence?
#[tactic(auto, unfolding(model::specs::Utf8::is_utf8_from))]
fn are_sequences(s: &[u8], from: usize) -> bool
    requires { from ≤ length s.now }
    ensures { result ≡ is_utf8_from 0 (drop from s.now) }
{
    past_sequences(s, from, s.len()).is_some()
}

// Is a long string UTF-8 from a place on? Blocks first, and what they leave sequence by sequence. The first three bytes have
// too few before them. Apart from what short strings need, it leaves more registers to the loop over blocks.
#[inline(never)]
fn are_blocks(s: &[u8], from: usize) -> bool
    requires { (from ≤ length s.now) × (35 ≤ length s.now) }
    ensures { result ≡ is_utf8_from 0 (drop from s.now) }
{
    past_sequences(s, from, from.max(3)).is_some_and(|i| are_sequences(s, past_blocks(s, i)))
}

// Is the string UTF-8 from a place on? Blocks of ASCII first.
#[tactic(auto, unfolding(model::specs::Utf8::is_utf8_from))]
fn is_utf8_from(s: &[u8], from: usize) -> bool
    requires { from ≤ length s.now }
    ensures { result ≡ is_utf8_from 0 (drop from s.now) }
{
    let i = past_ascii(s, from);
    i == s.len()
        || if s.len() < 35 {
            are_sequences(s, i)
        } else {
            are_blocks(s, i)
        }
}

// Is the string UTF-8? A short one is read here as far as it is ASCII, to be quick.
#[tactic(auto, unfolding(model::specs::Utf8::is_utf8))]
pub fn is_utf8(s: &[u8]) -> bool
    ensures { result ≡ is_utf8 s.now }
{
    if 16 <= s.len() {
        return is_utf8_from(s, 0);
    }
    match s.iter().position(|&b| 0x80 <= b) {
        Some(i) => is_utf8_from(s, i),
        None => true,
    }
}
