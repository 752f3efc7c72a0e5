// The words of the records.
ghost use Rattle.std.specs.Prelude.{◌≡◌, ◌+◌, ◌*◌, ◌<◌, eqb, length, get_or};
ghost use Rattle.model.specs.Tables.{word};
ghost use Rattle.tree.specs.Lent.{plus_one, number_of_kind};

use crate::Kind;

// The places of words are numbers, since they are added to the index where a record begins: an enum would be cast at each use.
// The words of a node's record.
pub const KIND: usize = 0;

pub const PARENT: usize = 1;

pub const NEXT_SIBLING: usize = 2;

pub const FIRST_CHILD: usize = 3;

pub const LAST_CHILD: usize = 4;

pub const CODE: usize = 5;

pub const FROM: usize = 6;

pub const TO: usize = 7;

// The words of an attribute's record.
pub const NAME: usize = 0;

pub const IMPORTANT: usize = 1;

pub const START: usize = 2;

pub const SIZE: usize = 3;

pub const COMMAND: usize = 4;

// Word k of the record of node i.
pub fn node_word(nodes: &[u32], i: u32, k: usize) -> u32
    requires { 8 * i + k < length nodes.now }
    ensures { result ≡ word nodes.now i k }
{
    nodes[8 * (i as usize) + k]
}

// Is node i of that kind?
pub fn has_kind(nodes: &[u32], i: u32, kind: Kind) -> bool
    requires { 8 * i < length nodes.now }
    ensures { result ≡ eqb (word nodes.now i 0) (number_of_kind kind) }
{
    node_word(nodes, i, KIND) == u32::from(kind)
}

// The node that word k of node i links to. In the table a link is an index plus 1, 0 for none.
pub fn node_link(nodes: &[u32], i: u32, k: usize) -> Option<u32>
    requires { 8 * i + k < length nodes.now }
    ensures { plus_one result ≡ word nodes.now i k }
{
    node_word(nodes, i, k).checked_sub(1)
}

// Word k of attribute entry j.
pub fn entry_word(attributes: &[u32], j: u32, k: usize) -> u32
    requires { 5 * j + k < length attributes.now }
    ensures { result ≡ get_or attributes.now (5 * j + k) 0 }
{
    attributes[5 * (j as usize) + k]
}
