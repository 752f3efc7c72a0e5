// One step of `trim_text_nodes`: a single text node, or a pair of them.
ghost use Rattle.std.specs.Prelude.{◌≡◌, ◌+◌, ◌≤◌, true, not, eqb};
ghost use Rattle.model.specs.Base.{and};
ghost use Rattle.tree.specs.Lent.{texts_of};
ghost use Rattle.edges.specs.Pairs.{Ordered, Ranged, Filled, size_of, cut_if, after_single, edges_of, after_between, after_outer};
ghost use Rattle.edges.specs.Pairs.{after_last, after_pair};

use crate::edge::{
    begins_with_space, cut_text, ends_with_space, remove_first_space, remove_last_space, size_of,
};
use crate::{Edges, Pair};

// A byte is given up at the beginning or at the end, where a test passed.
fn cut_if(nodes: &mut [u32], text: &mut [u8], i: u32, first: u32, last: u32, passed: bool)
    requires filled { passed ≡ true → Filled (texts_of nodes.old text.old) i }
    requires one { first + last ≤ 1 }
    ensures { texts_of nodes.new text.new ≡ cut_if passed i first last (texts_of nodes.old text.old) }
{
    if passed {
        cut_text(nodes, text, i, first, last);
    }
}

// A text element with a single text node: a lone space is cleared, else a space goes at each edge.
pub fn trim_single(nodes: &mut [u32], text: &mut [u8], i: u32)
    requires { Ranged (texts_of nodes.old text.old) i }
    ensures { texts_of nodes.new text.new ≡ after_single i (texts_of nodes.old text.old) }
{
    let begins = begins_with_space(nodes, text, i);
    if size_of(nodes, i) == 1 {
        cut_if(nodes, text, i, 0, 1, begins);
        return;
    }
    let ends = ends_with_space(nodes, text, i);
    cut_if(nodes, text, i, 1, 0, begins);
    cut_if(nodes, text, i, 0, 1, ends);
}

// Which edges of two texts have a space.
fn edges_of(nodes: &[u32], text: &[u8], a: u32, b: u32) -> Edges
    requires ranged { Ranged (texts_of nodes.now text.now) a }
    requires ranged_2 { Ranged (texts_of nodes.now text.now) b }
    ensures { result ≡ edges_of (texts_of nodes.now text.now) a b }
{
    Edges {
        c1: begins_with_space(nodes, text, a),
        c2: ends_with_space(nodes, text, a),
        c3: begins_with_space(nodes, text, b),
        c4: ends_with_space(nodes, text, b),
    }
}

// The space between the two texts: the second gives up its first one, or the first its last one.
#[tactic(auto, unfolding(crate::specs::Pairs::after_between))]
fn trim_between(nodes: &mut [u32], text: &mut [u8], p: Pair, c: Edges)
    requires ranged { Ranged (texts_of nodes.old text.old) p.node1 }
    requires ranged_2 { Ranged (texts_of nodes.old text.old) p.node2 }
    requires c_value { c ≡ edges_of (texts_of nodes.old text.old) p.node1 p.node2 }
    ensures { texts_of nodes.new text.new ≡ after_between p c (texts_of nodes.old text.old) }
{
    if p.deeper {
        if c.c3 && p.default2 {
            remove_first_space(nodes, text, p.node2);
        }
    } else if c.c2 && c.c3 && p.default2 {
        if p.default1 {
            remove_last_space(nodes, text, p.node1);
        } else {
            remove_first_space(nodes, text, p.node2);
        }
    }
}

// Does the first text of the element give up a leading space?
fn is_first_trimmed(nodes: &[u32], p: Pair, c: Edges) -> bool
    requires { Ordered nodes.now p.node1 }
    ensures { result ≡ and (and p.first c.c1) (and p.default1 (not (eqb (size_of nodes.now p.node1) 0))) }
{
    p.first && c.c1 && p.default1 && size_of(nodes, p.node1) != 0
}

// Does the last text of the element give up a trailing space?
fn is_last_trimmed(nodes: &[u32], p: Pair, c: Edges) -> bool
    requires { Ordered nodes.now p.node2 }
    ensures { result ≡ and (and p.last c.c4) (and (not (eqb (size_of nodes.now p.node2) 0)) p.default2) }
{
    p.last && c.c4 && size_of(nodes, p.node2) != 0 && p.default2
}

// A leading space of the first text, or else a trailing space of the last one.
#[tactic(auto, using(crate::proofs::Steps::edge_steps))]
fn trim_outer(nodes: &mut [u32], text: &mut [u8], p: Pair, c: Edges)
    requires ranged { Ranged (texts_of nodes.old text.old) p.node1 }
    requires ranged_2 { Ranged (texts_of nodes.old text.old) p.node2 }
    ensures { texts_of nodes.new text.new ≡ after_outer p c (texts_of nodes.old text.old) }
{
    if is_first_trimmed(nodes, p, c) {
        remove_first_space(nodes, text, p.node1);
    } else if is_last_trimmed(nodes, p, c) {
        remove_last_space(nodes, text, p.node2);
    }
}

// A trailing space of the first text of the last pair, where the second is empty.
#[tactic(auto, using(crate::proofs::Steps::edge_steps))]
fn trim_last_edge(nodes: &mut [u32], text: &mut [u8], p: Pair, c: Edges)
    requires ranged { Ranged (texts_of nodes.old text.old) p.node1 }
    requires ranged_2 { Ranged (texts_of nodes.old text.old) p.node2 }
    ensures { texts_of nodes.new text.new ≡ after_last p c (texts_of nodes.old text.old) }
{
    if p.last && c.c2 && size_of(nodes, p.node2) == 0 && ends_with_space(nodes, text, p.node1) {
        remove_last_space(nodes, text, p.node1);
    }
}

// One pair whole.
#[tactic(auto, unfolding(crate::specs::Pairs::after_pair))]
pub fn trim_pair(nodes: &mut [u32], text: &mut [u8], p: Pair)
    requires ranged { Ranged (texts_of nodes.old text.old) p.node1 }
    requires ranged_2 { Ranged (texts_of nodes.old text.old) p.node2 }
    ensures { texts_of nodes.new text.new ≡ after_pair p (texts_of nodes.old text.old) }
{
    let c = edges_of(nodes, text, p.node1, p.node2);
    trim_between(nodes, text, p, c);
    trim_outer(nodes, text, p, c);
    trim_last_edge(nodes, text, p, c);
}
