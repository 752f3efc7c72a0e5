// Nodes, their children and what a use copies: the recursion of the parser.
#![tactic(auto)]

use script::cursor::Cursor;
use tree::Counts;

pub mod begin;
pub mod met;
pub mod name;
pub mod node;
pub mod unbuilt;

// Where the recursion stands, and how much of the tables is taken: it is lent to every level, and a level's own frame has none of it. A
// cursor, and where the children of the last `use` that copies begin.
#[derive(Clone, Copy)]
pub struct State {
    pub cursor: Cursor,
    pub children: Cursor,
    // The number of that `use`: its command's, from 1 on, and 0 where none has copied.
    pub copier: usize,
    // The number of the `use` by which the nodes at the cursor are copied, 0 where they are not. It is no `Option`: the model's `node`
    // takes this number, with its 0.
    pub origin: usize,
    pub counts: Counts,
}

// What a node comes to before what stands below it is built: it is done and the cursor stands behind it, or its own element stands in the
// tables, and its children, or what it copies, come next, from the cursor inside it.
#[derive(Clone, Copy)]
pub enum Begun {
    Passed(Counts, Cursor),
    Children(Counts, Cursor),
    Use(Counts, Cursor),
}
