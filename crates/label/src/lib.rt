// The inside of a text element: the texts that it holds and that its trefs quote, and the elements that are read in it.
#![tactic(auto)]

use pieces::Levels;
use script::cursor::Cursor;
use text::XmlSpace;
use tree::Counts;

pub mod whole;
pub mod within;

// A place inside a text element, the node of the element that is open there, how much of the tables is taken, and the space that the open
// node hands down.
#[derive(Clone, Copy)]
pub struct State {
    pub c: Cursor,
    pub p: u32,
    pub counts: Counts,
    pub space: XmlSpace,
}
