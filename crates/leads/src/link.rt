// The links of nodes: the id that an attribute's value leads to.
ghost use Rattle.std.specs.Prelude.{◌≡◌, [], IfSome, IfNone, length};
ghost use Rattle.model.specs.Repair.{readings_of_attribute, link_of};
ghost use Rattle.script.specs.Step.{Fit};
ghost use Rattle.walk.specs.Values.{part_of, PartFit};
ghost use Rattle.places.specs.Seeks.{readings_here};
ghost use Rattle.tree.specs.Lent.{read_of, ReadableIn};
ghost use Rattle.leads.specs.Links.{Drawn, values_of};

use places::marks::{Marks, seek_near};
use places::seek::reading_at;
use script::cursor::Cursor;
use script::drawing::Drawing;
use tree::read::attribute_of;
use tree::word;
use tree::word::entry_word;
use walk::value::Part;

// A link that is looked for: where its id stands in the characters. Either way a place in the script from which to look for the next link.
#[derive(Clone, Copy)]
pub struct FoundLink {
    pub part: Option<Part>,
    pub hint: Cursor,
}

// The place of the command that has the value of attribute a of node i; none where the attribute is absent or has a fixed value. The hint
// only saves time.
#[tactic(auto, using(crate::proofs::Sets::value_place_set))]
pub fn value_place(
    drawing: &Drawing,
    marks: &Marks,
    nodes: &[u32],
    attributes: &[u32],
    i: u32,
    a: u32,
    hint: Cursor,
) -> Option<Cursor>
    requires drawn { Drawn drawing.now marks.now hint }
    requires readable_in { ReadableIn (length drawing.now.characters.now) (read_of nodes.now attributes.now) i }
    ensures some { IfSome result (λ c. readings_here drawing.now c
        ≡ readings_of_attribute drawing.now.characters.now (values_of drawing.now) (read_of nodes.now attributes.now) a i) }
    ensures none { IfNone result
        (readings_of_attribute drawing.now.characters.now (values_of drawing.now) (read_of nodes.now attributes.now) a i ≡ []) }
    ensures fit { IfSome result (Fit drawing.now) }
{
    let j = attribute_of(nodes, attributes, drawing.characters, i, a)?;
    let number = entry_word(attributes, j, word::COMMAND).checked_sub(1)?;
    let c = seek_near(drawing, marks, number as usize, hint);
    Some(c)
}

// The link of node i by its attribute a: the first reading of that kind, asked for by the command of its entry. The hint only saves time.
#[tactic(auto, using(crate::proofs::Sets::link_of_set))]
pub fn link_of(
    drawing: &Drawing,
    marks: &Marks,
    nodes: &[u32],
    attributes: &[u32],
    i: u32,
    a: u32,
    kind: u8,
    hint: Cursor,
) -> FoundLink
    requires drawn { Drawn drawing.now marks.now hint }
    requires readable_in { ReadableIn (length drawing.now.characters.now) (read_of nodes.now attributes.now) i }
    ensures same { part_of drawing.now.characters.now result.part
        ≡ link_of drawing.now.characters.now (values_of drawing.now) kind
        (read_of nodes.now attributes.now) a i }
    ensures part { PartFit result.part }
    ensures fit { Fit drawing.now result.hint }
{
    let Some(c) = value_place(drawing, marks, nodes, attributes, i, a, hint) else {
        return FoundLink { part: None, hint };
    };
    let part = reading_at(drawing, c, kind);
    FoundLink { part, hint: c }
}
