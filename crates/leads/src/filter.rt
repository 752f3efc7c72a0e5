// The filter links of a node: every one is compared with an id.
ghost use Rattle.std.specs.Prelude.{◌≡◌, ℕ, ◌≤◌, Option, length};
ghost use Rattle.model.specs.AId;
ghost use Rattle.model.specs.Repair.{any_reading, readings_of_attribute};
ghost use Rattle.script.specs.Step.{Fit, most_place};
ghost use Rattle.walk.specs.Values.{readings_in};
ghost use Rattle.places.specs.Seeks.{readings_here};
ghost use Rattle.tree.specs.Lent.{read_of, entries_of, ReadableIn};
ghost use Rattle.leads.specs.Links.{Drawn, values_of, Stands, id_at};

use crate::id::is_id;
use crate::link::value_place;
use names::aid;
use places::marks::Marks;
use places::seek::behind_value;
use script::cursor::Cursor;
use script::drawing::Drawing;
use walk::value::{next_reading, part_at};

// Do filters lead to an id? And a place in the script from which to look for the next link.
#[derive(Clone, Copy)]
pub struct Filtered {
    pub back: bool,
    pub hint: Cursor,
}

// Has a value that begins at start, from behind it, a filter link with the id in entry j?
#[tactic(auto, using(crate::proofs::Sets::any_id_set))]
fn any_id(drawing: &Drawing, attributes: &[u32], from: Cursor, start: usize, j: Option<u32>) -> bool
    requires fit { Fit drawing.now from }
    requires start_le_most_place { start ≤ most_place }
    requires stands { Stands (length drawing.now.characters.now) (entries_of attributes.now) j }
    ensures { result ≡ any_reading 4 (id_at drawing.now.characters.now (entries_of attributes.now) j) (readings_in drawing.now start from) }
{
    let mut c = from;
    while let Some(x) = next_reading(drawing, c, start) {
        let is_filter = x.kind == 4;
        if is_filter
            && is_id(
                attributes,
                drawing.characters,
                j,
                part_at(drawing.characters, x.part.start, x.part.len),
            )
        {
            return true;
        }
        c = x.behind;
    }
    false
}

// The same of the value whose command stands at the cursor.
#[tactic(auto, using(crate::proofs::Sets::any_id_at_set))]
fn any_id_at(drawing: &Drawing, attributes: &[u32], c: Cursor, j: Option<u32>) -> bool
    requires fit { Fit drawing.now c }
    requires stands { Stands (length drawing.now.characters.now) (entries_of attributes.now) j }
    ensures { result ≡ any_reading 4 (id_at drawing.now.characters.now (entries_of attributes.now) j) (readings_here drawing.now c) }
{
    match behind_value(drawing, c) {
        Some(behind) => any_id(drawing, attributes, behind, c.chars, j),
        None => false,
    }
}

// Does one of the filters of node m lead to the id in entry j? Every filter link is compared.
#[tactic(auto, using(crate::proofs::Sets::has_filter_set))]
pub fn has_filter(
    drawing: &Drawing,
    marks: &Marks,
    nodes: &[u32],
    attributes: &[u32],
    m: u32,
    j: Option<u32>,
    hint: Cursor,
) -> Filtered
    requires drawn { Drawn drawing.now marks.now hint }
    requires readable_in { ReadableIn (length drawing.now.characters.now) (read_of nodes.now attributes.now) m }
    requires stands { Stands (length drawing.now.characters.now) (entries_of attributes.now) j }
    ensures same { result.back ≡ any_reading 4 (id_at drawing.now.characters.now (entries_of attributes.now) j)
        (readings_of_attribute drawing.now.characters.now (values_of drawing.now)
        (read_of nodes.now attributes.now) AId.Filter m) }
    ensures fit { Fit drawing.now result.hint }
{
    let Some(c) = value_place(drawing, marks, nodes, attributes, m, aid::FILTER, hint) else {
        return Filtered { back: false, hint };
    };
    let back = any_id_at(drawing, attributes, c, j);
    Filtered { back, hint: c }
}
