// The cut: the one place where a repair writes.
ghost use Rattle.std.specs.Prelude.{◌≡◌};
ghost use Rattle.model.specs.Repair.{cut_at, apply_cut};
ghost use Rattle.targets.specs.Pass.{pass_number};
ghost use Rattle.tree.specs.Lent.{read_of, Readable};

use targets::name::{Pass, cut_name};
use tree::read::attribute_id;
use tree::write::set_none;

// The value that the pass cuts at node i becomes none.
#[tactic(auto, using(crate::proofs::Sets::cut_set))]
pub fn cut(nodes: &[u32], attributes: &mut [u32], pass: Pass, i: u32)
    requires { Readable (read_of nodes.now attributes.old) i }
    ensures { attributes.new
        ≡ (apply_cut (read_of nodes.now attributes.old)
        (cut_at (read_of nodes.now attributes.old) (pass_number pass) i)).attributes }
{
    let name = cut_name(pass);
    if let Some(j) = attribute_id(nodes, attributes, i, name) {
        set_none(attributes, j);
    }
}
