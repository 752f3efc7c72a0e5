// The node that has an attribute: a node itself, or one above it.
ghost use Rattle.std.specs.Prelude.{◌≡◌, ℕ, ◌<◌, ◌≤◌, IfSome};
ghost use Rattle.model.specs.Tables.{parent_of};
ghost use Rattle.model.specs.Questions.{element_from, self_or_parent, find_attribute_impl};
ghost use Rattle.tree.specs.Lent.{plus_one, read_of, nodes_read, Placed, Climbable};

use names::is_inheritable;
use tree::read::{attribute_id, holder_of};
use tree::word::{has_kind, node_link};
use tree::{Kind, word};

// `parent_element`: the nearest element above node i.
#[tactic(auto, using(tree::proofs::Climbs::climbs))]
pub fn parent_element(nodes: &[u32], i: u32) -> Option<u32>
    requires { (k : ℕ) → k ≤ i → Placed nodes.now k }
    ensures found { plus_one result ≡ element_from (nodes_read nodes.now) i (parent_of (nodes_read nodes.now) i) }
    ensures within { IfSome result (λ k. k < i) }
{
    let mut above = node_link(nodes, i, word::PARENT);
    while let Some(k) = above {
        let is_named = has_kind(nodes, k, Kind::Element);
        if is_named {
            return Some(k);
        }
        above = node_link(nodes, k, word::PARENT);
    }
    None
}

// Node i or its parent element, if it has the attribute.
fn self_or_parent(nodes: &[u32], attributes: &[u32], i: u32, a: u32) -> Option<u32>
    requires { Climbable (read_of nodes.now attributes.now) i }
    ensures found { plus_one result ≡ self_or_parent (read_of nodes.now attributes.now) i a }
    ensures within { IfSome result (λ k. k ≤ i) }
{
    if attribute_id(nodes, attributes, i, a).is_some() {
        return Some(i);
    }
    let parent = parent_element(nodes, i)?;
    if attribute_id(nodes, attributes, parent, a).is_some() {
        return Some(parent);
    }
    None
}

// `find_attribute_impl`: the node that has the attribute.
#[tactic(auto, unfolding(model::specs::Questions::find_attribute_impl))]
pub fn find_attribute_impl(nodes: &[u32], attributes: &[u32], i: u32, a: u32) -> Option<u32>
    requires { Climbable (read_of nodes.now attributes.now) i }
    ensures found { plus_one result ≡ find_attribute_impl (read_of nodes.now attributes.now) i a }
    ensures within { IfSome result (λ k. k ≤ i) }
{
    if is_inheritable(a) {
        holder_of(nodes, attributes, a, i)
    } else {
        self_or_parent(nodes, attributes, i, a)
    }
}
