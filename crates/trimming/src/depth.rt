// Which of two text nodes stands deeper.
ghost use Rattle.std.specs.Prelude.{◌≡◌, ◌<◌, ltb};
ghost use Rattle.model.specs.Text.{depth_below};
ghost use Rattle.tree.specs.Lent.{nodes_read};
ghost use Rattle.trimming.specs.Nodes.{Below};

use tree::word;
use tree::word::node_word;

// Does b stand deeper below the text element than a? Both ways up are followed to where they meet. From one text to the next that is no
// more steps than there are elements between them, so the way from the first text to the last is as long as the element has nodes. The
// element and the count are named for the contract alone. The parents are compared as the table holds them, an index plus 1: none is
// missing up to the element, so options would only be unwrapped.
pub fn is_deeper(nodes: &[u32], element: u32, count: u32, a: u32, b: u32) -> bool
    requires below { Below nodes.now element count }
    requires element_lt_a { (element < a) × (a < count) }
    requires element_lt_b { (element < b) × (b < count) }
    ensures { result ≡ ltb (depth_below (nodes_read nodes.now) element a a) (depth_below (nodes_read nodes.now) element b b) }
{
    let mut x = node_word(nodes, a, word::PARENT);
    let mut y = node_word(nodes, b, word::PARENT);
    let mut up1: u32 = 0;
    let mut up2: u32 = 0;
    while x != y {
        if x > y {
            x = node_word(nodes, x - 1, word::PARENT);
            up1 += 1;
        } else {
            y = node_word(nodes, y - 1, word::PARENT);
            up2 += 1;
        }
    }
    up1 < up2
}
