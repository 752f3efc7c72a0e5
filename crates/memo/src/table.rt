// The search in the table of ids.
ghost use Rattle.std.specs.Prelude.{◌≡◌, true, ◌<◌, ◌≤◌, length};
ghost use Rattle.model.specs.Check.{most_bytes};
ghost use Rattle.model.specs.Drawing.{first_with_id};
ghost use Rattle.script.specs.Step.{Fit, document};
ghost use Rattle.walk.specs.Values.{events_at};
ghost use Rattle.memo.specs.Plain.{node_of, NodeFit};
ghost use Rattle.memo.specs.Words.{slot_count, key_of, is_open};
ghost use Rattle.memo.specs.Table.{within, sees, probed, seen_as, LookFit, outcome_as, ProbeFit, Held, Memo};

use super::key::key_of;
use super::plain::{first_with_id, has_id};
use super::words::{
    MARKS, PRINT, PROBES, is_open, mark_at, next_slot, slot_at, spacing, start_of, step_of,
};
use script::cursor::Cursor;
use script::drawing::Drawing;
use walk::node::{Item, Opened, next_item};

// What stands in a slot, for the search of an id: an element with it, another, or nothing.
#[derive(Clone, Copy)]
pub enum Look {
    This(Opened),
    Another,
    Empty,
}

// Where the search for an id ends: at an element with it, at a free slot, or nowhere within the slots that may be looked at.
#[derive(Clone, Copy)]
pub enum Probe {
    Found(Opened),
    Free,
    Over,
}

// The first element with that id among the next `most` elements from the cursor on.
#[tactic(auto, using(crate::proofs::Sets::within_set))]
fn within(drawing: &Drawing, from: Cursor, most: usize, id: &[u8]) -> Option<Opened>
    requires { Fit drawing.now from }
    ensures same { node_of drawing.now result ≡ within most id.now (events_at drawing.now from) }
    ensures fit { NodeFit drawing.now result }
{
    // No range: only elements are counted, not the other nodes that are passed.
    let mut c = from;
    let mut left = most;
    while 0 < left {
        match next_item(drawing, c) {
            Item::Begin(e) => match has_id(drawing, e, id) {
                Ok(()) => return Some(e),
                Err(n) => {
                    left -= 1;
                    c = n;
                }
            },
            Item::Text(_, _, n) | Item::Other(n) | Item::Close(n) => c = n,
            Item::End => return None,
        }
    }
    None
}

// What stands in slot i, for the search of an id with that key.
#[tactic(auto, using(crate::proofs::Sets::look_at_set))]
fn look_at(drawing: &Drawing, slots: &[u16], i: usize, id: &[u8], key: usize) -> Look
    requires held { Held drawing.now slots.now }
    requires in_bounds { 16 ≤ length slots.now }
    requires i_bound { i < slot_count slots.now }
    requires key_value { key ≡ key_of id.now }
    ensures same { seen_as drawing.now result ≡ sees drawing.now slots.now id.now i }
    ensures fit { LookFit drawing.now result }
{
    let v = slot_at(slots, i);
    if v == 0 {
        return Look::Empty;
    }
    if (v - 1) / MARKS != key / PRINT {
        return Look::Another;
    }
    let mark = mark_at(slots, (v - 1) % MARKS);
    match within(drawing, mark, spacing(slots), id) {
        Some(e) => Look::This(e),
        None => Look::Another,
    }
}

// The search for an id with that key, of which the table tells.
#[tactic(auto, using(crate::proofs::Sets::look_for_set))]
fn look_for(drawing: &Drawing, slots: &[u16], id: &[u8], key: usize) -> Probe
    requires held { Held drawing.now slots.now }
    requires key_value { key ≡ key_of id.now }
    requires key_value_2 { is_open slots.now key ≡ true }
    ensures same { outcome_as drawing.now result ≡ probed drawing.now slots.now id.now }
    ensures fit { ProbeFit drawing.now result }
{
    let step = step_of(slots, key);
    let mut i = start_of(slots, key);
    for _ in 0..PROBES {
        match look_at(drawing, slots, i, id, key) {
            Look::This(e) => return Probe::Found(e),
            Look::Another => i = next_slot(slots, step, i),
            Look::Empty => return Probe::Free,
        }
    }
    Probe::Over
}

// The first element with that unprefixed id, by the table; where it does not tell, by the plain search.
#[tactic(auto, using(crate::proofs::Sets::find_set))]
pub fn find(drawing: &Drawing, slots: &[u16], id: &[u8]) -> Option<Opened>
    requires script_len_bound { length drawing.now.script.now ≤ most_bytes }
    requires memo { Memo drawing.now slots.now }
    ensures same { node_of drawing.now result ≡ first_with_id id.now (document drawing.now) }
    ensures fit { NodeFit drawing.now result }
{
    let key = key_of(id);
    if !is_open(slots, key) {
        return first_with_id(drawing, id);
    }
    match look_for(drawing, slots, id, key) {
        Probe::Found(e) => Some(e),
        Probe::Free => None,
        Probe::Over => first_with_id(drawing, id),
    }
}
