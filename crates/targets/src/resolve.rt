// The marks of all links of a pass are found and stored.
ghost use Rattle.std.specs.Prelude.{◌≡◌, ℕ, ◌<◌, ◌≤◌, length};
ghost use Rattle.model.specs.Repair.{cut_name};
ghost use Rattle.model.specs.Theorems.Kept.{Tidy};
ghost use Rattle.script.specs.Step.{Fit};
ghost use Rattle.tree.specs.Lent.{read_of};
ghost use Rattle.ids.specs.Chains.{Like, Indexed};
ghost use Rattle.leads.specs.Links.{Drawn, values_of};
ghost use Rattle.targets.specs.Pass.{pass_number};
ghost use Rattle.targets.specs.Targets.{seen_of, mark_of, Targeted, Markable};
ghost use Rattle.targets.specs.Storing.{Stored, StoredBefore};

use crate::mark::find_mark;
use crate::name::{Pass, cut_name};
use crate::recent::{keep_recent, twin_of};
use ids::chain::set_next;
use ids::heads::Heads;
use places::marks::Marks;
use script::cursor::Cursor;
use script::drawing::Drawing;
use tree::read::attribute_id;
use tree::word::entry_word;
use tree::{Counts, word};

// Node m, if it has the attribute of the pass: its mark is that of a node before it with the same value, or is found.
fn resolve_one(
    drawing: &Drawing,
    marks: &Marks,
    heads: &Heads,
    recent: &mut [u32; 512],
    nodes: &[u32],
    attributes: &mut [u32],
    counts: Counts,
    pass: Pass,
    m: u32,
    hint: Cursor,
) -> Cursor
    requires drawn { Drawn drawing.now marks.now hint }
    requires tidy { Tidy (length drawing.now.characters.now) (seen_of nodes.now attributes.old counts) }
    requires indexed { Indexed drawing.now.characters.now (read_of nodes.now attributes.old) heads.now counts.nodes }
    requires nodes_bound { counts.nodes < 1073741824 }
    requires m_lt_nodes { m < counts.nodes }
    requires stored_before { StoredBefore drawing.now.characters.now (values_of drawing.now) (pass_number pass)
        (seen_of nodes.now attributes.old counts) m }
    ensures stored { Stored nodes.now attributes.old (cut_name (pass_number pass)) m
        (mark_of drawing.now.characters.now (values_of drawing.now) (pass_number pass)
        (seen_of nodes.now attributes.old counts) m) attributes.new }
    ensures fit { Fit drawing.now result }
{
    let name = cut_name(pass);
    let Some(j) = attribute_id(nodes, attributes, m, name) else {
        return hint;
    };
    if let Some(twin) = twin_of(nodes, attributes, recent, name, m, j) {
        set_next(
            attributes,
            j,
            entry_word(attributes, twin, word::IMPORTANT) / 2,
        );
        return hint;
    }
    keep_recent(recent, entry_word(attributes, j, word::COMMAND), m);
    let found = find_mark(
        drawing, marks, heads, nodes, attributes, counts, pass, m, hint,
    );
    set_next(attributes, j, found.mark as u32);
    found.hint
}

// All nodes. A mark stands behind the importance of its link's entry.
pub fn resolve(
    drawing: &Drawing,
    marks: &Marks,
    heads: &Heads,
    nodes: &[u32],
    attributes: &mut [u32],
    counts: Counts,
    pass: Pass,
)
    requires markable { Markable drawing.now marks.now heads.now nodes.now attributes.old counts }
    requires pass_bound { pass_number pass ≤ 5 }
    ensures like { Like counts.attributes attributes.old attributes.new }
    ensures indexed { Indexed drawing.now.characters.now (read_of nodes.now attributes.new) heads.now counts.nodes }
    ensures targeted { Targeted drawing.now.characters.now (values_of drawing.now) (pass_number pass)
        (seen_of nodes.now attributes.new counts) }
    ensures others { (k : ℕ) → 1 ≤ k → k ≤ 5 → (k ≡ pass_number pass → ⊥)
        → Targeted drawing.now.characters.now (values_of drawing.now) k
        (seen_of nodes.now attributes.old counts)
        → Targeted drawing.now.characters.now (values_of drawing.now) k
        (seen_of nodes.now attributes.new counts) }
{
    let mut recent: [u32; 512] = [0; 512];
    let mut hint = Cursor::start();
    for m in 0..counts.nodes {
        hint = resolve_one(
            drawing,
            marks,
            heads,
            &mut recent,
            nodes,
            attributes,
            counts,
            pass,
            m,
            hint,
        );
    }
}
