// The `use`s inside an element, one after another.
ghost use Rattle.std.specs.Prelude.{◌≡◌, ◌≤◌, eqb};
ghost use Rattle.model.specs.Base.{and};
ghost use Rattle.model.specs.EId;
ghost use Rattle.model.specs.Drawing.{uses_in};
ghost use Rattle.script.specs.Step.{Fit};
ghost use Rattle.walk.specs.Values.{events_at};
ghost use Rattle.links.specs.Uses.{uses_of, UseFit};

use names::eid;
use script::cursor::Cursor;
use script::drawing::Drawing;
use walk::node::{Item, Opened, next_item, past_others};

// A use in the SVG namespace inside an element, at any depth, and how many elements are open inside it, itself among them.
#[derive(Clone, Copy)]
pub struct InnerUse {
    pub element: Opened,
    pub open_elements: usize,
}

// The code of the element use.
const USE: u8 = eid::USE as u8;

// Is it the name of a use in the SVG namespace?
fn is_use(name: u8, space: u8) -> bool
    ensures { result ≡ and (eqb name EId.Use) (eqb space 1) }
{
    name == USE && space == 1
}

// The next use from the cursor on, with that many elements open inside the element that is walked.
#[tactic(auto, using(crate::proofs::Sets::next_use_set))]
pub fn next_use(drawing: &Drawing, from: Cursor, open_elements: usize) -> Option<InnerUse>
    requires fit_2 { Fit drawing.now from }
    requires open_elements_le_at { open_elements ≤ from.at }
    ensures same { uses_of drawing.now result ≡ uses_in open_elements (events_at drawing.now from) }
    ensures fit { UseFit drawing.now from result }
{
    let mut c = from;
    let mut level = open_elements;
    loop {
        match next_item(drawing, c) {
            Item::Begin(e) => {
                level += 1;
                if is_use(e.name, e.space) {
                    return Some(InnerUse {
                        element: e,
                        open_elements: level,
                    });
                }
                c = e.inside;
            }
            Item::Text(_, _, n) => c = n,
            Item::Other(n) => c = past_others(drawing, n),
            Item::Close(n) => {
                if level == 0 {
                    return None;
                }
                level -= 1;
                c = n;
            }
            Item::End => return None,
        }
    }
}
