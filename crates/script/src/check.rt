// check: whether a script and its characters are accepted, or why not.
ghost use Rattle.std.specs.Prelude.{◌≡◌, not, List, [], ◌∷◌, ℕ, ◌+◌, ◌≤◌, ◌<◌, eqb, leb, ltb, length, None, false};
ghost use Rattle.std.proofs.Math.Seq.{slice};
ghost use Rattle.model.specs.Base.{and, or};
ghost use Rattle.model.specs.Drawing.{opening, attribute, declaration, reading, text, other, closing, broken};
ghost use Rattle.model.specs.Check.{◌if◌, may_attribute, may_declare, is_half_font};
ghost use Rattle.model.specs.Check.{is_element_code, is_attribute_code, is_declaration_code};
ghost use Rattle.model.specs.Check.{first_of, string_tests, tests_of, tests_at_end, check};
ghost use Rattle.model.specs.Utf8.{is_utf8};
ghost use Rattle.refusal.specs.Number.{number_of, answer_of};
ghost use Rattle.script.specs.Step.{Fit, most_place};
ghost use Rattle.script.specs.Known.{stage_of, bit, Kinds, last_of, Held, Inside, state_of, test_of, Judged, onward_of, Turned};

use super::cursor::{Cursor, Step};
use super::drawing::Drawing;
use names::{is_attribute, is_element};
use refusal::Refusal;
use utf8::is_utf8;

// What may come inside the innermost open element: attributes and all else; declarations and children; children alone.
#[derive(Clone, Copy, PartialEq, Eq)]
pub enum Stage {
    Attributes,
    Declarations,
    Children,
}

// A value that readings may follow: where it begins, its length, and a bit for each kind of its readings.
#[derive(Clone, Copy)]
pub struct LastValue {
    pub start: usize,
    pub size: usize,
    pub kinds: u32,
}

// What check knows between two commands, besides the cursor.
#[derive(Clone, Copy)]
pub struct State {
    pub depth: usize,
    pub stage: Stage,
    pub begun: bool,
    pub last: Option<LastValue>,
}

// The longest script, and the most characters.
const MOST_BYTES: usize = 1048576;

// The most elements that may be open at once.
const MOST_OPEN: usize = 2048;

fn may_attribute(stage: Stage) -> bool
    ensures { result ≡ may_attribute (stage_of stage) }
{
    stage == Stage::Attributes
}

fn may_declare(stage: Stage) -> bool
    ensures { result ≡ may_declare (stage_of stage) }
{
    stage != Stage::Children
}

// A bit of the kinds.
fn has(kinds: u32, kind: u8) -> bool
    requires { kind ≤ 10 }
    ensures { result ≡ bit kinds kind }
{
    let n = u32::from(kind);
    (kinds >> n) % 2 == 1
}

// The kinds with one more.
fn with(kinds: u32, kind: u8) -> u32
    requires { kind ≤ 10 }
    ensures { (ks : List ℕ) → Kinds kinds ks → Kinds result (kind ∷ ks) }
{
    let n = u32::from(kind);
    kinds | (1 << n)
}

// Has the value parts of a font, without both size and family? The bits 5 to 10 are the parts, 9 and 10 are these two.
fn is_half_font(last: Option<LastValue>) -> bool
    ensures { (ks : List ℕ) → Held last ks → result ≡ is_half_font (last_of last ks) }
{
    let Some(value) = last else {
        return false;
    };
    32 <= value.kinds && value.kinds < 1536
}

// A code of an element, or that of a name outside the list.
fn is_element_code(name: u8) -> bool
    ensures { result ≡ is_element_code name }
{
    is_element(u32::from(name)) || name == 255
}

// A code of an attribute, or that of a name outside the list.
fn is_attribute_code(name: u8) -> bool
    ensures { result ≡ is_attribute_code name }
{
    is_attribute(u32::from(name)) || name == 255
}

// A code that a declaration may have: 254 is `marker`.
fn is_declaration_code(name: u8) -> bool
    ensures { result ≡ is_declaration_code name }
{
    is_attribute_code(name) || name == 254
}

// A second element at the top level.
fn is_second(depth: usize, begun: bool) -> bool
    ensures { result ≡ and (eqb depth 0) begun }
{
    depth == 0 && begun
}

// A kind that the value has already, and may have only once.
fn is_repeated(kinds: u32, kind: u8) -> bool
    requires { kind ≤ 10 }
    ensures { result ≡ and (not (eqb kind 4)) (bit kinds kind) }
{
    kind != 4 && has(kinds, kind)
}

// The tests of a string of len characters that begins at a place.
fn test_string(characters: &[u8], at: usize, len: u32) -> Result<(), Refusal>
    requires { at ≤ most_place }
    ensures { answer_of result ≡ first_of (string_tests characters.now (length characters.now) at len) }
{
    let end = at + len as usize;
    if characters.len() < end {
        return Err(Refusal::OutOfCharacters);
    }
    if !is_utf8(&characters[at..end]) {
        return Err(Refusal::NotUtf8);
    }
    Ok(())
}

// The tests of a reading's kind and part, for a value of size characters that begins at start.
fn test_part(
    characters: &[u8],
    value: LastValue,
    kind: u8,
    offset: u32,
    len: u32,
) -> Result<(), Refusal>
    requires { (kind ≤ 10) × (value.start + value.size ≤ length characters.now) }
    ensures { answer_of result ≡ first_of (6 if ltb value.size (offset + len) ∷ 7 if and (not (eqb kind 4)) (bit value.kinds kind)
        ∷ 9 if not (is_utf8 (slice (value.start + offset) (value.start + offset + len) characters.now)) ∷ []) }
{
    let start = value.start;
    let size = value.size;
    let from = start + offset as usize;
    let end = offset as usize + len as usize;
    let is_behind = size < end;
    if is_behind {
        return Err(Refusal::OutOfCharacters);
    }
    if is_repeated(value.kinds, kind) {
        return Err(Refusal::WrongReadings);
    }
    let to = start + end;
    if !is_utf8(&characters[from..to]) {
        return Err(Refusal::NotUtf8);
    }
    Ok(())
}

impl State {
    fn start() -> State
        ensures { result ≡ record { depth = 0; stage = Stage.Children; begun = false; last = None } }
    {
        State {
            depth: 0,
            stage: Stage::Children,
            begun: false,
            last: None,
        }
    }
}

// THE TESTS OF EACH COMMAND, in their order, and what is known behind it
fn judge_open(s: State, name: u8, space: u8) -> Result<State, Refusal>
    ensures { (chars : List ℕ) (at : ℕ) (ks : List ℕ) → Held s.last ks → Judged chars s at ks (opening name space) result }
{
    if is_half_font(s.last) {
        return Err(Refusal::WrongReadings);
    }
    if !is_element_code(name) || 4 < space {
        return Err(Refusal::UnknownCode);
    }
    if is_second(s.depth, s.begun) {
        return Err(Refusal::Misplaced);
    }
    let is_deep = MOST_OPEN <= s.depth;
    if is_deep {
        return Err(Refusal::TooManyOpen);
    }
    Ok(State {
        depth: s.depth + 1,
        stage: Stage::Attributes,
        begun: true,
        last: None,
    })
}

fn judge_attribute(
    characters: &[u8],
    s: State,
    at: usize,
    name: u8,
    space: u8,
    len: u32,
) -> Result<State, Refusal>
    requires { at ≤ most_place }
    ensures { (ks : List ℕ) → Held s.last ks → Judged characters.now s at ks (attribute name space len) result }
{
    if is_half_font(s.last) {
        return Err(Refusal::WrongReadings);
    }
    if !is_attribute_code(name) || 4 < space {
        return Err(Refusal::UnknownCode);
    }
    if !may_attribute(s.stage) {
        return Err(Refusal::Misplaced);
    }
    test_string(characters, at, len)?;
    let value = LastValue {
        start: at,
        size: len as usize,
        kinds: 0,
    };
    Ok(State {
        stage: Stage::Attributes,
        last: Some(value),
        ..s
    })
}

fn judge_declaration(
    characters: &[u8],
    s: State,
    at: usize,
    name: u8,
    important: u8,
    len: u32,
) -> Result<State, Refusal>
    requires { at ≤ most_place }
    ensures { (ks : List ℕ) → Held s.last ks → Judged characters.now s at ks (declaration name important len) result }
{
    if is_half_font(s.last) {
        return Err(Refusal::WrongReadings);
    }
    if !is_declaration_code(name) || 1 < important {
        return Err(Refusal::UnknownCode);
    }
    if !may_declare(s.stage) {
        return Err(Refusal::Misplaced);
    }
    test_string(characters, at, len)?;
    let value = LastValue {
        start: at,
        size: len as usize,
        kinds: 0,
    };
    Ok(State {
        stage: Stage::Declarations,
        last: Some(value),
        ..s
    })
}

fn judge_reading(
    characters: &[u8],
    s: State,
    kind: u8,
    offset: u32,
    len: u32,
) -> Result<State, Refusal>
    requires { Inside characters.now s.last }
    ensures { (at : ℕ) (ks : List ℕ) → Held s.last ks → Judged characters.now s at ks (reading kind offset len) result }
{
    if kind < 1 || 10 < kind {
        return Err(Refusal::UnknownCode);
    }
    let Some(value) = s.last else {
        return Err(Refusal::Misplaced);
    };
    test_part(characters, value, kind, offset, len)?;
    let kinds = with(value.kinds, kind);
    Ok(State {
        last: Some(LastValue { kinds, ..value }),
        ..s
    })
}

fn judge_text(characters: &[u8], s: State, at: usize, len: u32) -> Result<State, Refusal>
    requires { at ≤ most_place }
    ensures { (ks : List ℕ) → Held s.last ks → Judged characters.now s at ks (text len) result }
{
    if is_half_font(s.last) {
        return Err(Refusal::WrongReadings);
    }
    if s.depth == 0 {
        return Err(Refusal::Misplaced);
    }
    test_string(characters, at, len)?;
    Ok(State {
        stage: Stage::Children,
        last: None,
        ..s
    })
}

fn judge_other(s: State) -> Result<State, Refusal>
    ensures { (chars : List ℕ) (at : ℕ) (ks : List ℕ) → Held s.last ks → Judged chars s at ks (other) result }
{
    if is_half_font(s.last) {
        return Err(Refusal::WrongReadings);
    }
    Ok(State {
        stage: Stage::Children,
        last: None,
        ..s
    })
}

fn judge_close(s: State) -> Result<State, Refusal>
    ensures { (chars : List ℕ) (at : ℕ) (ks : List ℕ) → Held s.last ks → Judged chars s at ks (closing) result }
{
    let value = s.last;
    if is_half_font(value) {
        return Err(Refusal::WrongReadings);
    }
    if s.depth == 0 {
        return Err(Refusal::Misplaced);
    }
    Ok(State {
        depth: s.depth - 1,
        stage: Stage::Children,
        last: None,
        ..s
    })
}

// Of a broken command: a reading has no test of what stands before it.
fn judge_broken(s: State, b: u8) -> Refusal
    ensures { (chars : List ℕ) (at : ℕ) (ks : List ℕ) → Held s.last ks → number_of result ≡ test_of chars s at ks (broken b) }
{
    if b != 4 && is_half_font(s.last) {
        return Refusal::WrongReadings;
    }
    Refusal::UnknownCommand
}

// At the end of the script.
fn judge_end(characters: &[u8], s: State, at: usize) -> Result<(), Refusal>
    ensures { (ks : List ℕ) → Held s.last ks
        → answer_of result ≡ first_of (tests_at_end characters.now (length characters.now) (state_of s at ks)) }
{
    if is_half_font(s.last) {
        return Err(Refusal::WrongReadings);
    }
    let is_open = 1 <= s.depth;
    if is_open {
        return Err(Refusal::Misplaced); // An element was never closed.
    }
    if !s.begun {
        return Err(Refusal::Misplaced); // There is none.
    }
    let is_more = at < characters.len();
    if is_more {
        return Err(Refusal::CharactersLeft);
    }
    Ok(())
}

// What a command that was judged leads to: the next turn behind it.
fn onward(judged: Result<State, Refusal>, c: Cursor) -> Result<Option<(State, Cursor)>, Refusal>
    ensures { result ≡ onward_of judged c }
{
    Ok(Some((judged?, c)))
}

// One command, with what is known behind it; nothing at the end.
fn advance(drawing: &Drawing, s: State, c: Cursor) -> Result<Option<(State, Cursor)>, Refusal>
    requires fit { Fit drawing.now c }
    requires inside { Inside drawing.now.characters.now s.last }
    ensures { (ks : List ℕ) → Held s.last ks → Turned drawing.now s c ks result }
{
    let characters = drawing.characters;
    let at = c.chars;
    match c.next_inlined(drawing) {
        Step::Open(name, space, n) => onward(judge_open(s, name, space), n),
        Step::Attribute(name, space, len, n) => onward(
            judge_attribute(characters, s, at, name, space, len),
            n,
        ),
        Step::Declaration(name, important, len, n) => onward(
            judge_declaration(characters, s, at, name, important, len),
            n,
        ),
        Step::Reading(kind, offset, len, n) => onward(
            judge_reading(characters, s, kind, offset, len),
            n,
        ),
        Step::Text(len, n) => onward(judge_text(characters, s, at, len), n),
        Step::Other(n) => onward(judge_other(s), n),
        Step::Close(n) => onward(judge_close(s), n),
        Step::Broken(b) => Err(judge_broken(s, b)),
        Step::End => {
            judge_end(characters, s, at)?;
            Ok(None)
        }
    }
}

// Are a script and its characters accepted? If not, the first rule that they break.
#[tactic(auto, using(crate::proofs::Judging::checks))]
pub fn check(drawing: &Drawing) -> Result<(), Refusal>
    ensures { answer_of result ≡ check drawing.now.script.now drawing.now.characters.now }
{
    if MOST_BYTES < drawing.script.len() {
        return Err(Refusal::TooLong);
    }
    let is_long = MOST_BYTES < drawing.characters.len();
    if is_long {
        return Err(Refusal::TooLong);
    }
    let mut s = State::start();
    let mut c = Cursor::start();
    while let Some((next, n)) = advance(drawing, s, c)? {
        s = next;
        c = n;
    }
    Ok(())
}
