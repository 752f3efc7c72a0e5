// The nodes of a document, one after another.
ghost use Rattle.std.specs.Prelude.{◌≡◌, ◌≤◌, leb};
ghost use Rattle.model.specs.Base.{and};
ghost use Rattle.model.specs.Names.{is_element};
ghost use Rattle.model.specs.Drawing.{texts_in};
ghost use Rattle.script.specs.Step.{Fit};
ghost use Rattle.walk.specs.Values.{events_at};
ghost use Rattle.walk.specs.Nodes.{leave, events_of, ItemFit, Others, sources_of, TextFit};

use names::is_element;
use script::cursor::{Cursor, Step};
use script::drawing::Drawing;

// An element that was opened: its own place, its name and namespace, and the cursor inside it.
#[derive(Clone, Copy)]
pub struct Opened {
    pub own: Cursor,
    pub name: u8,
    pub space: u8,
    pub inside: Cursor,
}

// The next node inside an element. A text: its own place, its length, and the cursor behind it; of the others the cursor behind them.
#[derive(Clone, Copy)]
pub enum Item {
    Begin(Opened),
    Text(Cursor, u32, Cursor),
    Other(Cursor),
    Close(Cursor),
    End,
}

// A text inside an element, at any depth: its own place, its length, the cursor behind it, and how many elements are open there.
#[derive(Clone, Copy)]
pub struct TextAt {
    pub own: Cursor,
    pub len: u32,
    pub behind: Cursor,
    pub open_elements: usize,
}

// The next node from the cursor on; attributes, declarations and readings are passed over.
pub fn next_item(drawing: &Drawing, from: Cursor) -> Item
    requires { Fit drawing.now from }
    ensures same { events_of drawing.now result ≡ events_at drawing.now from }
    ensures fit { ItemFit drawing.now from result }
{
    let mut c = from;
    loop {
        match c.next(drawing) {
            Step::Open(name, space, n) => {
                let e = Opened {
                    own: c,
                    name,
                    space,
                    inside: n,
                };
                return Item::Begin(e);
            }
            Step::Text(len, n) => {
                return Item::Text(c, len, n);
            }
            Step::Other(n) => {
                return Item::Other(n);
            }
            Step::Close(n) => {
                return Item::Close(n);
            }
            Step::Attribute(_, _, _, n) => {
                c = n;
            }
            Step::Declaration(_, _, _, n) => {
                c = n;
            }
            Step::Reading(_, _, _, n) => {
                c = n;
            }
            Step::Broken(_) | Step::End => {
                return Item::End;
            }
        }
    }
}

// Behind the nodes that are no element and no text, from the cursor on up to the next command of another sort.
pub fn past_others(drawing: &Drawing, from: Cursor) -> Cursor
    requires { Fit drawing.now from }
    ensures { Others drawing.now from result }
{
    let mut c = from;
    while let Step::Other(n) = c.next_inlined(drawing) {
        c = n;
    }
    c
}

// Behind the close of the element in which the cursor stands.
#[tactic(auto, using(crate::proofs::Along::leaves))]
pub fn past_element(drawing: &Drawing, from: Cursor) -> Cursor
    requires { Fit drawing.now from }
    ensures same { events_at drawing.now result ≡ leave 0 (events_at drawing.now from) }
    ensures fit { Fit drawing.now result }
    ensures further { from.at ≤ result.at }
{
    let mut c = from;
    let mut level: usize = 0;
    loop {
        match next_item(drawing, c) {
            Item::Begin(e) => {
                level += 1;
                c = e.inside;
            }
            Item::Text(_, _, n) => {
                c = n;
            }
            Item::Other(n) => {
                c = past_others(drawing, n);
            }
            Item::Close(n) => {
                if level == 0 {
                    return n;
                }
                level -= 1;
                c = n;
            }
            Item::End => {
                return c;
            }
        }
    }
}

// The next text from the cursor on, with that many elements open inside the element that is walked.
#[tactic(auto, using(crate::proofs::Along::texts))]
pub fn next_text(drawing: &Drawing, from: Cursor, open_elements: usize) -> Option<TextAt>
    requires fit_2 { Fit drawing.now from }
    requires open_elements_le_at { open_elements ≤ from.at }
    ensures same { sources_of drawing.now result ≡ texts_in open_elements (events_at drawing.now from) }
    ensures fit { TextFit drawing.now from result }
{
    let mut c = from;
    let mut level = open_elements;
    loop {
        match next_item(drawing, c) {
            Item::Begin(e) => {
                level += 1;
                c = e.inside;
            }
            Item::Text(own, len, n) => {
                return Some(TextAt {
                    own,
                    len,
                    behind: n,
                    open_elements: level,
                });
            }
            Item::Other(n) => {
                c = past_others(drawing, n);
            }
            Item::Close(n) => {
                if level == 0 {
                    return None;
                }
                level -= 1;
                c = n;
            }
            Item::End => {
                return None;
            }
        }
    }
}

// Does the name give an element of the tree: no namespace or SVG, and a name of the list?
pub fn has_tag_name(name: u8, space: u8) -> bool
    ensures { result ≡ and (leb space 1) (is_element name) }
{
    space <= 1 && is_element(u32::from(name))
}
