// `trim_text_nodes`: the text nodes of a text element, pair by pair.
ghost use Rattle.std.specs.Prelude.{◌≡◌, true, ◌+◌, ◌-◌, ◌*◌, ◌≤◌, ◌<◌, length, IfSome, SomeIff};
ghost use Rattle.std.proofs.Math.Option.{none};
ghost use Rattle.model.specs.Text.{run, pairs, text_nodes, trim_text_nodes};
ghost use Rattle.tree.specs.Lent.{read_of, texts_of, tree_of};
ghost use Rattle.text.specs.Spaces.{space_by};
ghost use Rattle.edges.specs.Pairs.{Ordered, Ranged, after_pair};
ghost use Rattle.trimming.specs.Nodes.{Fair, IsTextOf, next_text, stands_by, pair_of, kept_behind, node_at, Trimmable};

use crate::Turn;
use crate::depth::is_deeper;
use edges::Pair;
use edges::edge::{is_blank_text, size_of};
use edges::step::{trim_pair, trim_single};
use text::space::{is_default, is_default_at, space_of};
use tree::word::has_kind;
use tree::{Counts, Kind};

// The first text node from `from` up to `to`.
#[tactic(auto, using(crate::proofs::Collected::steps), unfolding(crate::specs::Nodes::next_text))]
fn next_text(nodes: &[u32], from: u32, to: u32) -> Option<u32>
    requires { (from ≤ to) × (8 * to ≤ length nodes.now) }
    ensures { SomeIff result (next_text nodes.now from (to - from) < to) (next_text nodes.now from (to - from)) }
{
    for i in from..to {
        if has_kind(nodes, i, Kind::Text) {
            return Some(i);
        }
    }
    None
}

// The node that stands for a in its pair: an empty text gives way to the last one before it that was not blank, if there is one.
fn stands_for(nodes: &[u32], a: u32, kept: Option<u32>) -> u32
    requires { Ordered nodes.now a }
    ensures { result ≡ stands_by nodes.now a kept }
{
    if size_of(nodes, a) == 0 {
        kept.unwrap_or(a)
    } else {
        a
    }
}

// `last_non_empty` behind a pair whose first text is c. A text that was kept before is not looked at again: so each is looked at once.
fn kept_behind(nodes: &[u32], text: &[u8], c: u32, kept: Option<u32>) -> Option<u32>
    requires { Ranged (texts_of nodes.now text.now) c }
    ensures { result ≡ kept_behind (texts_of nodes.now text.now) c kept }
{
    if kept == Some(c) || is_blank_text(nodes, text, c) {
        kept
    } else {
        Some(c)
    }
}

// One turn: the pair of two text nodes, and what is kept behind it.
#[tactic(auto, using(crate::proofs::Turning::turns))]
fn trim_turn(
    nodes: &mut [u32],
    attributes: &[u32],
    text: &mut [u8],
    characters: &[u8],
    element: u32,
    count: u32,
    default: bool,
    turn: Turn,
) -> Option<u32>
    requires fair { Fair (length characters.now) nodes.old attributes.now text.old element count }
    requires text_of { IsTextOf nodes.old element count turn.a }
    requires text_of_2 { IsTextOf nodes.old element count turn.b }
    requires text_of_3 { IfSome turn.kept (IsTextOf nodes.old element count) }
    ensures tables { texts_of nodes.new text.new ≡ after_pair
        (pair_of characters.now (read_of nodes.old attributes.now) (space_by default) element turn)
        (texts_of nodes.old text.old) }
    ensures kept { result ≡ kept_behind (texts_of nodes.new text.new) (stands_by nodes.old turn.a turn.kept) turn.kept }
{
    let c = stands_for(nodes, turn.a, turn.kept);
    let deeper = is_deeper(nodes, element, count, turn.a, turn.b);
    let default1 = is_default_at(nodes, attributes, characters, c, default);
    let default2 = is_default_at(nodes, attributes, characters, turn.b, default);
    let pair = Pair {
        node1: c,
        node2: turn.b,
        deeper,
        first: turn.first,
        last: turn.last,
        default1,
        default2,
    };
    trim_pair(nodes, text, pair);
    kept_behind(nodes, text, c, turn.kept)
}

// All pairs, from the first two text nodes on.
#[tactic(auto, unfolding(model::specs::Text::pairs, model::specs::Text::run, model::specs::Text::text_nodes))]
fn trim_pairs(
    nodes: &mut [u32],
    attributes: &[u32],
    text: &mut [u8],
    characters: &[u8],
    element: u32,
    count: u32,
    default: bool,
    first: u32,
    second: u32,
)
    requires fair { Fair (length characters.now) nodes.old attributes.now text.old element count }
    requires text_of { IsTextOf nodes.old element count first }
    requires text_of_2 { IsTextOf nodes.old element count second }
    requires first_lt_second { first < second }
    ensures { texts_of nodes.new text.new ≡ run (pairs true none
        (node_at characters.now (read_of nodes.old attributes.now) (space_by default) element first)
        (text_nodes characters.now (read_of nodes.old attributes.now) (space_by default) element second
        (count - second))) (texts_of nodes.old text.old) }
{
    let mut a = first;
    let mut behind = Some(second);
    let mut kept = None;
    while let Some(b) = behind {
        behind = next_text(nodes, b + 1, count);
        let turn = Turn {
            a,
            b,
            kept,
            first: a == first,
            last: behind.is_none(),
        };
        kept = trim_turn(
            nodes, attributes, text, characters, element, count, default, turn,
        );
        a = b;
    }
}

// `trim_text_nodes` of the text element e.
#[tactic(auto, using(crate::proofs::Entire::ends))]
pub fn trim_text_nodes(
    nodes: &mut [u32],
    attributes: &[u32],
    text: &mut [u8],
    characters: &[u8],
    counts: Counts,
    e: u32,
)
    requires { Trimmable characters.now (tree_of nodes.old attributes.now text.old counts) e }
    ensures { tree_of nodes.new attributes.now text.new counts
        ≡ trim_text_nodes characters.now e
        (tree_of nodes.old attributes.now text.old counts) }
{
    let default = is_default(space_of(nodes, attributes, characters, e));
    let count = counts.nodes;
    let Some(first) = next_text(nodes, e + 1, count) else {
        return;
    };
    match next_text(nodes, first + 1, count) {
        Some(second) => trim_pairs(
            nodes, attributes, text, characters, e, count, default, first, second,
        ),
        None => {
            if default {
                trim_single(nodes, text, first);
            }
        }
    }
}
