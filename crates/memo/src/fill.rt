// The table of ids is filled: keys that links have are wanted, marks are set, and each element with a wanted id gets a slot.
ghost use Rattle.std.specs.Prelude.{◌≡◌, ℕ, ◌<◌, ◌≤◌, IfSome, length, replicate};
ghost use Rattle.model.specs.Check.{most_bytes};
ghost use Rattle.script.specs.Step.{Fit};
ghost use Rattle.walk.specs.Nodes.{node_at, Standing};
ghost use Rattle.memo.specs.Words.{unit, slot_count, Apart};
ghost use Rattle.memo.specs.Table.{free_for, Blank, Memo, IdEntered, Ready, Entered, Filling, Passed};

use super::key::key_of;
use super::link::{HREF, is_link};
use super::plain::first_id;
use super::words::{
    MARKS, PRINT, PROBES, has_room, is_open, next_slot, put_mark, put_slot, set_spacing, slot_at,
    spacing, start_of, step_of, want,
};
use script::cursor::Cursor;
use script::drawing::Drawing;
use walk::node::{Item, Opened, next_item};
use walk::value::{attribute_in, part_at, reading_of};

// How far the filling is: the cursor, how many marks are set, and how many elements more are looked at from the last mark on.
#[derive(Clone, Copy)]
pub struct Progress {
    pub place: Cursor,
    pub next: usize,
    pub left: usize,
}

// How many elements are looked at from a mark on, where there are that many elements and words: enough for all marks.
fn spaced(count: usize, words: usize) -> u16
    requires le_words { 256 ≤ words }
    requires count_le_most_bytes { count ≤ most_bytes }
{
    (count / (words / 27 - 2) + 1).min(65535) as u16
}

// The first free slot in which an id with that key may stand.
#[tactic(auto, using(crate::proofs::Sets::free_slot_set))]
fn free_slot(slots: &[u16], key: usize) -> Option<usize>
    requires { 16 ≤ length slots.now }
    ensures same { result ≡ free_for slots.now key }
    ensures low { IfSome result (λ i. i < slot_count slots.now) }
{
    let step = step_of(slots, key);
    let mut i = start_of(slots, key);
    for _ in 0..PROBES {
        let is_free = slot_at(slots, i) == 0;
        if is_free {
            return Some(i);
        }
        i = next_slot(slots, step, i);
    }
    None
}

// An element with that id gets a slot, if the table tells of its key and a slot is free: a search from mark m on meets it.
#[tactic(auto, using(crate::proofs::Sets::enter_id_set))]
fn enter_id(slots: &mut [u16], m: usize, id: &[u8])
    requires { m < 2047 }
    ensures { IdEntered slots.old m id.now slots.new }
{
    let key = key_of(id);
    if !is_open(slots, key) {
        return;
    }
    if let Some(i) = free_slot(slots, key) {
        put_slot(slots, i, (m + MARKS * (key / PRINT) + 1) as u16);
    }
}

// The element e is entered, if it has an id. The cursor inside it, behind the attributes that were read.
fn enter(drawing: &Drawing, slots: &mut [u16], e: Opened, m: usize) -> Cursor
    requires standing { Standing drawing.now e }
    requires m_bound { m < 2047 }
    ensures { (next : ℕ) → Ready drawing.now slots.old next m e → Entered drawing.now slots.old next e slots.new result }
{
    match first_id(drawing, e) {
        Ok(v) => {
            enter_id(slots, m, part_at(drawing.characters, v.own.chars, v.len));
            v.behind
        }
        Err(n) => n,
    }
}

// The element e, which has an id, is passed, before which the filling is that far. Where no mark is near, one is set at it; where that
// cannot be, the table tells nothing any more.
fn pass_named(drawing: &Drawing, slots: &mut [u16], e: Opened, next: usize, left: usize) -> Progress
    requires standing { Standing drawing.now e }
    requires filling { Filling drawing.now slots.old next left (node_at drawing.now e) }
    ensures { Passed drawing.now slots.old e slots.new result }
{
    let inside = e.inside;
    if spacing(slots) == 0 {
        return Progress {
            place: inside,
            next,
            left: 0,
        };
    }
    if 0 < left {
        let place = enter(drawing, slots, e, next - 1);
        return Progress {
            place,
            next,
            left: left - 1,
        };
    }
    let own = e.own;
    if !has_room(slots, next, own) {
        set_spacing(slots, 0);
        return Progress {
            place: inside,
            next,
            left: 0,
        };
    }
    put_mark(slots, next, own);
    let most = spacing(slots);
    let place = enter(drawing, slots, e, next);
    Progress {
        place,
        next: next + 1,
        left: most - 1,
    }
}

// The element e is passed. Marks are set at elements with an id alone.
fn pass(drawing: &Drawing, slots: &mut [u16], e: Opened, next: usize, left: usize) -> Progress
    requires standing { Standing drawing.now e }
    requires filling { Filling drawing.now slots.old next left (node_at drawing.now e) }
    ensures { Passed drawing.now slots.old e slots.new result }
{
    match first_id(drawing, e) {
        Ok(_) => pass_named(drawing, slots, e, next, left),
        Err(n) => Progress {
            place: n,
            next,
            left: left.saturating_sub(1),
        },
    }
}

// All elements are passed.
#[tactic(auto, using(crate::proofs::Sets::pass_all_set))]
fn pass_all(drawing: &Drawing, slots: &mut [u16])
    requires script_len_bound { length drawing.now.script.now ≤ most_bytes }
    requires blank { Blank slots.old }
    ensures { Memo drawing.now slots.new }
{
    let mut c = Cursor::start();
    let mut next: usize = 0;
    let mut left: usize = 0;
    loop {
        match next_item(drawing, c) {
            Item::Begin(e) => {
                let p = pass(drawing, slots, e, next, left);
                c = p.place;
                next = p.next;
                left = p.left;
            }
            Item::Text(_, _, n) | Item::Other(n) | Item::Close(n) => c = n,
            Item::End => return,
        }
    }
}

// The key of the link in that namespace is wanted, if there is one.
#[tactic(auto, using(crate::proofs::Sets::want_link_set))]
fn want_link(drawing: &Drawing, slots: &mut [u16], inside: Cursor, space: u8)
    requires fit { Fit drawing.now inside }
    requires in_bounds { 16 ≤ length slots.old }
    ensures { Apart slots.old 0 (unit slots.old) slots.new }
{
    if let Ok(v) = attribute_in(drawing, inside, space, HREF)
        && let Some(p) = reading_of(drawing, v.behind, v.own.chars, 1)
    {
        want(slots, key_of(part_at(drawing.characters, p.start, p.len)));
    }
}

// The key of an element's own id is wanted.
#[tactic(auto, using(crate::proofs::Sets::want_own_set))]
fn want_own(drawing: &Drawing, slots: &mut [u16], e: Opened)
    requires standing { Standing drawing.now e }
    requires in_bounds { 16 ≤ length slots.old }
    ensures { Apart slots.old 0 (unit slots.old) slots.new }
{
    if let Ok(v) = first_id(drawing, e) {
        want(
            slots,
            key_of(part_at(drawing.characters, v.own.chars, v.len)),
        );
    }
}

// The later of two counts of elements: that of the element e if it has an id.
fn if_named(drawing: &Drawing, e: Opened, count: usize, last: usize) -> usize
    requires standing { Standing drawing.now e }
    requires last_le_count { last ≤ count }
    ensures { result ≤ count }
{
    if first_id(drawing, e).is_ok() {
        count
    } else {
        last
    }
}

// The keys of all links are wanted, and those of the ids that the linking elements have. How many elements there are up to the last one
// with an id.
#[tactic(auto, using(crate::proofs::Sets::want_links_set))]
fn want_links(drawing: &Drawing, slots: &mut [u16]) -> usize
    requires script_len_bound { length drawing.now.script.now ≤ most_bytes }
    requires in_bounds { 16 ≤ length slots.old }
    ensures kept { Apart slots.old 0 (unit slots.old) slots.new }
    ensures few { result ≤ most_bytes }
{
    let mut c = Cursor::start();
    let mut count: usize = 0;
    let mut last: usize = 0;
    loop {
        match next_item(drawing, c) {
            Item::Begin(e) => {
                count += 1;
                last = if_named(drawing, e, count, last);
                c = e.inside;
                if is_link(e.name) {
                    want_link(drawing, slots, c, 0);
                    want_link(drawing, slots, c, 2);
                    want_own(drawing, slots, e);
                }
            }
            Item::Text(_, _, n) | Item::Other(n) | Item::Close(n) => c = n,
            Item::End => return last,
        }
    }
}

// The table of a drawing, in words that are all zero; a table of few words stays so.
#[tactic(auto, using(crate::proofs::Sets::fill_set))]
pub fn fill(drawing: &Drawing, slots: &mut [u16])
    requires script_len_bound { length drawing.now.script.now ≤ most_bytes }
    requires slots_value { slots.old ≡ replicate (length slots.old) 0 }
    ensures { Memo drawing.now slots.new }
{
    if slots.len() < 256 {
        return;
    }
    let count = want_links(drawing, slots);
    set_spacing(slots, spaced(count, slots.len()));
    pass_all(drawing, slots);
}
