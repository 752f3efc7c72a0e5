// Nodes of which nothing is built are passed over, many at a time.
ghost use Rattle.std.specs.Prelude.{◌≡◌, ◌≤◌};
ghost use Rattle.script.specs.Step.{Fit};
ghost use Rattle.walk.specs.Values.{events_at};
ghost use Rattle.parse.specs.Unbuilt.{is_built, past_unbuilt, Skipped};

use crate::State;
use crate::name::is_parsed;
use script::cursor::Cursor;
use script::drawing::Drawing;
use walk::node::{Item, next_item, past_others};

// Is something built of an element with that name, with that many elements open around it that become no nodes?
fn is_built(level: usize, name: u8, space: u8) -> bool
    ensures { result ≡ is_built level name space }
{
    level == 0 && is_parsed(name, space)
}

// Behind the texts, comments and elements that become no nodes, from the cursor on.
fn past_unbuilt(drawing: &Drawing, from: Cursor) -> Cursor
    requires { Fit drawing.now from }
    ensures same { events_at drawing.now result ≡ past_unbuilt 0 (events_at drawing.now from) }
    ensures fit { Fit drawing.now result }
    ensures further { from.at ≤ result.at }
{
    let mut c = from;
    let mut level: usize = 0;
    loop {
        match next_item(drawing, c) {
            Item::Begin(e) => {
                if is_built(level, e.name, e.space) {
                    return c;
                }
                level += 1;
                c = e.inside;
            }
            Item::Text(_, _, n) => {
                c = n;
            }
            Item::Other(n) => {
                c = past_others(drawing, n);
            }
            Item::Close(n) => {
                if level == 0 {
                    return c;
                }
                level -= 1;
                c = n;
            }
            Item::End => {
                return c;
            }
        }
    }
}

// The cursor is moved over such nodes, if a level is left for them.
pub fn pass_unbuilt(state: &mut State, drawing: &Drawing, left: u32)
    requires { Fit drawing.now state.old.cursor }
    ensures { Skipped drawing.now left state.old state.new }
{
    if left == 0 {
        return;
    }
    state.cursor = past_unbuilt(drawing, state.cursor);
}
