// `parse_svg_element`: an element's attributes and declarations become entries of the lent table, and the element a node.
#![tactic(auto)]

ghost use Rattle.std.specs.Prelude.{◌≡◌, ◌≤◌};
ghost use Rattle.model.specs.Check.{most_bytes};
ghost use Rattle.element.specs.Font.{value_from};

use entries::Value;
use script::cursor::Cursor;
use tree::Counts;
use walk::value::ValueAt;

pub mod attribute;
pub mod declaration;
pub mod font;
pub mod parse;

// Where a run of steps left the entries, and the cursor behind what was read.
#[derive(Clone, Copy)]
pub struct Run {
    pub next: u32,
    pub behind: Cursor,
}

// How much of the tables is taken behind an element, and the cursor behind what belongs to it, where its children begin.
#[derive(Clone, Copy)]
pub struct Parsed {
    pub counts: Counts,
    pub behind: Cursor,
}

// A value of the drawing: its place, its length and the number of its command.
pub fn value_of(v: ValueAt) -> Value
    requires { (v.own.chars ≤ most_bytes) × (v.own.number ≤ most_bytes) }
    ensures { result ≡ value_from v }
{
    Value {
        start: v.own.chars as u32,
        size: v.len,
        command: v.own.number as u32 + 1,
    }
}
