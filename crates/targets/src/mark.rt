// The marks of links.
ghost use Rattle.std.specs.Prelude.{◌≡◌, true, ◌+◌, ◌<◌, ◌≤◌, length, get_or};
ghost use Rattle.model.specs.Theorems.Kept.{Kept};
ghost use Rattle.script.specs.Step.{Fit, Checked};
ghost use Rattle.places.specs.Marks.{Marked};
ghost use Rattle.tree.specs.Lent.{read_of, Readable};
ghost use Rattle.ids.specs.Chains.{Indexed};
ghost use Rattle.leads.specs.Links.{Drawn, values_of};
ghost use Rattle.targets.specs.Pass.{pass_number};
ghost use Rattle.targets.specs.Targets.{seen_of, mark_for, mark_of, stored_mark, Targeted};

use crate::name::{Pass, cut_name, pass_kind};
use ids::find::find_id;
use ids::heads::Heads;
use leads::link::link_of;
use places::marks::Marks;
use script::cursor::Cursor;
use script::drawing::Drawing;
use tree::read::attribute_id;
use tree::word::entry_word;
use tree::{Counts, word};
use walk::value::part_at;

// The mark of a link, and a place in the script from which to look for the next one.
#[derive(Clone, Copy)]
pub struct FoundMark {
    pub mark: usize,
    pub hint: Cursor,
}

// The mark of a link with that id: its element is searched for.
fn mark_for(
    nodes: &[u32],
    attributes: &[u32],
    characters: &[u8],
    heads: &Heads,
    id: &[u8],
    counts: Counts,
) -> usize
    requires kept { Kept (length characters.now) (seen_of nodes.now attributes.now counts) }
    requires indexed { Indexed characters.now (read_of nodes.now attributes.now) heads.now counts.nodes }
    ensures same { result ≡ mark_for characters.now (seen_of nodes.now attributes.now counts) id.now }
    ensures within { result ≤ counts.nodes + 1 }
{
    match find_id(nodes, attributes, characters, heads, id, counts.nodes) {
        Some(w) => w as usize + 2,
        None => usize::from(id.len() == 0),
    }
}

// The mark of node m's link in a pass: the link is read in the script and its element searched for.
pub fn find_mark(
    drawing: &Drawing,
    marks: &Marks,
    heads: &Heads,
    nodes: &[u32],
    attributes: &[u32],
    counts: Counts,
    pass: Pass,
    m: u32,
    hint: Cursor,
) -> FoundMark
    requires drawn { Drawn drawing.now marks.now hint }
    requires kept { Kept (length drawing.now.characters.now) (seen_of nodes.now attributes.now counts) }
    requires indexed { Indexed drawing.now.characters.now (read_of nodes.now attributes.now) heads.now counts.nodes }
    requires m_lt_nodes { m < counts.nodes }
    ensures same { result.mark
        ≡ mark_of drawing.now.characters.now (values_of drawing.now) (pass_number pass)
        (seen_of nodes.now attributes.now counts) m }
    ensures fit { Fit drawing.now result.hint × (result.mark ≤ counts.nodes + 1) }
{
    let name = cut_name(pass);
    let kind = pass_kind(u32::from(pass));
    let found = link_of(drawing, marks, nodes, attributes, m, name, kind, hint);
    let Some(p) = found.part else {
        return FoundMark {
            mark: 0,
            hint: found.hint,
        };
    };
    let id = part_at(drawing.characters, p.start, p.len);
    let mark = mark_for(nodes, attributes, drawing.characters, heads, id, counts);
    FoundMark {
        mark,
        hint: found.hint,
    }
}

// What is stored for the link of node m by that attribute.
fn stored_mark(nodes: &[u32], attributes: &[u32], m: u32, name: u32) -> u32
    requires { Readable (read_of nodes.now attributes.now) m }
    ensures { result ≡ stored_mark (read_of nodes.now attributes.now) name m }
{
    let Some(j) = attribute_id(nodes, attributes, m, name) else {
        return 0;
    };
    if entry_word(attributes, j, word::COMMAND) == 0 {
        return 0;
    }
    entry_word(attributes, j, word::IMPORTANT) / 2
}

// The mark of node m's link in a pass: as it is stored. Where the word behind the heads is 0 none is, and it is found.
pub fn mark_of(
    drawing: &Drawing,
    marks: &Marks,
    heads: &Heads,
    nodes: &[u32],
    attributes: &[u32],
    counts: Counts,
    pass: Pass,
    m: u32,
) -> usize
    requires characters_value { Checked drawing.now }
    requires marked { Marked drawing.now marks.now }
    requires kept { Kept (length drawing.now.characters.now) (seen_of nodes.now attributes.now counts) }
    requires indexed { Indexed drawing.now.characters.now (read_of nodes.now attributes.now) heads.now counts.nodes }
    requires m_lt_nodes { m < counts.nodes }
    requires targeted { heads.now.is_whole ≡ true
        → Targeted drawing.now.characters.now (values_of drawing.now) (pass_number pass) (seen_of nodes.now attributes.now counts) }
    ensures { result
        ≡ mark_of drawing.now.characters.now (values_of drawing.now) (pass_number pass)
        (seen_of nodes.now attributes.now counts) m }
{
    if !heads.is_whole {
        let found = find_mark(
            drawing,
            marks,
            heads,
            nodes,
            attributes,
            counts,
            pass,
            m,
            Cursor::start(),
        );
        return found.mark;
    }
    let name = cut_name(pass);
    stored_mark(nodes, attributes, m, name) as usize
}
