// The plain search for the first element with an id, from the beginning of the drawing on.
ghost use Rattle.std.specs.Prelude.{◌≡◌, ◌≤◌, length};
ghost use Rattle.model.specs.AId;
ghost use Rattle.model.specs.Check.{most_bytes};
ghost use Rattle.model.specs.Drawing.{attribute_in, first_with_id};
ghost use Rattle.script.specs.Step.{document};
ghost use Rattle.walk.specs.Values.{attributes_in, value_in, ValueFit};
ghost use Rattle.walk.specs.Nodes.{Standing};
ghost use Rattle.memo.specs.Plain.{node_of, NodeFit, Tested};

use names::{aid, same};
use script::cursor::Cursor;
use script::drawing::Drawing;
use walk::node::{Item, Opened, next_item};
use walk::value::{ValueAt, attribute_in, part_at};

const ID: u8 = aid::ID as u8;

// The first unprefixed id of an element.
pub fn first_id(drawing: &Drawing, e: Opened) -> Result<ValueAt, Cursor>
    requires { Standing drawing.now e }
    ensures same { value_in drawing.now result ≡ attribute_in 0 AId.Id (attributes_in drawing.now e.inside) }
    ensures fit { ValueFit drawing.now e.inside result }
{
    attribute_in(drawing, e.inside, 0, ID)
}

// Has the element an unprefixed id, and the first one is this? Where not, the cursor behind the attributes that were read. Each element of
// a search is asked, so no other function lies between this one and the attributes.
#[tactic(auto, using(crate::proofs::Sets::has_id_set))]
pub fn has_id(drawing: &Drawing, e: Opened, id: &[u8]) -> Result<(), Cursor>
    requires { Standing drawing.now e }
    ensures { Tested drawing.now id.now e result }
{
    let v = attribute_in(drawing, e.inside, 0, ID)?;
    let first = part_at(drawing.characters, v.own.chars, v.len);
    if same(first, id) {
        return Ok(());
    }
    Err(v.behind)
}

// The first element with that unprefixed id. Each attribute is read once.
#[tactic(auto, using(crate::proofs::Sets::first_with_id_set))]
pub fn first_with_id(drawing: &Drawing, id: &[u8]) -> Option<Opened>
    requires { length drawing.now.script.now ≤ most_bytes }
    ensures same { node_of drawing.now result ≡ first_with_id id.now (document drawing.now) }
    ensures fit { NodeFit drawing.now result }
{
    let mut c = Cursor::start();
    loop {
        match next_item(drawing, c) {
            Item::Begin(e) => match has_id(drawing, e, id) {
                Ok(()) => return Some(e),
                Err(n) => c = n,
            },
            Item::Text(_, _, n) | Item::Other(n) | Item::Close(n) => c = n,
            Item::End => return None,
        }
    }
}
