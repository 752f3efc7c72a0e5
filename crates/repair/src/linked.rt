// Is there anything to repair?
ghost use Rattle.std.specs.Prelude.{◌≡◌, false, ℕ, ◌+◌, ◌*◌, ◌<◌, ◌≤◌, length};
ghost use Rattle.tree.specs.Lent.{nodes_read};
ghost use Rattle.repair.specs.Passes.{is_linked};

use crate::pass::is_named;
use names::eid;

// Is node i an element that one of the passes looks at?
fn is_linked(nodes: &[u32], i: u32) -> bool
    requires { 8 * i + 7 < length nodes.now }
    ensures { result ≡ is_linked (nodes_read nodes.now) i }
{
    is_named(nodes, eid::PATTERN, i)
        || is_named(nodes, eid::CLIP_PATH, i)
        || is_named(nodes, eid::MASK, i)
        || is_named(nodes, eid::FILTER, i)
        || is_named(nodes, eid::FE_IMAGE, i)
}

// Is one of the first `count` nodes such an element?
pub fn any_linked(nodes: &[u32], count: u32) -> bool
    requires { 8 * count ≤ length nodes.now }
    ensures { result ≡ false → (i : ℕ) → i < count → is_linked (nodes_read nodes.now) i ≡ false }
{
    (0..count).any(|i| is_linked(nodes, i))
}
