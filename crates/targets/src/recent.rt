// Nodes whose links were read last, in 512 slots by the numbers of commands. The copies of an element have the values of the same commands,
// and so the same marks.
ghost use Rattle.std.specs.Prelude.{◌≡◌, true, ℕ, ◌+◌, ◌*◌, ◌<◌, ◌≤◌, IfSome, length, set};
ghost use Rattle.tree.specs.Lent.{read_of, Readable};
ghost use Rattle.targets.specs.Storing.{slot_of, SameValue, Twin};

use tree::read::attribute_id;
use tree::word;
use tree::word::entry_word;

// Have two entries the same value, of the same command?
fn same_value(attributes: &[u32], j: u32, l: u32) -> bool
    requires j_in_bounds { 5 * j + 4 < length attributes.now }
    requires l_in_bounds { 5 * l + 4 < length attributes.now }
    ensures { result ≡ true → SameValue attributes.now j l }
{
    entry_word(attributes, j, word::COMMAND) == entry_word(attributes, l, word::COMMAND)
        && entry_word(attributes, j, word::START) == entry_word(attributes, l, word::START)
        && entry_word(attributes, j, word::SIZE) == entry_word(attributes, l, word::SIZE)
}

// Where the node is kept that has a value of the command with that number. Numbers that lie evenly apart have different slots.
fn slot_of(number: u32) -> usize
    ensures same { result ≡ slot_of number }
    ensures low { result < 512 }
{
    (number as usize) * 2654435769 % 4294967296 / 8388608
}

// An entry of a node before m, of the same name and value as node m's entry j. None where none is known, and for fixed values.
pub fn twin_of(
    nodes: &[u32],
    attributes: &[u32],
    recent: &[u32; 512],
    name: u32,
    m: u32,
    j: u32,
) -> Option<u32>
    requires by_index { (i : ℕ) → i ≤ m → Readable (read_of nodes.now attributes.now) i }
    requires j_in_bounds { 5 * j + 4 < length attributes.now }
    ensures { IfSome result (Twin nodes.now attributes.now name m j) }
{
    let number = entry_word(attributes, j, word::COMMAND);
    if number == 0 {
        return None;
    }
    let q = recent[slot_of(number)].checked_sub(1)?;
    if m <= q {
        return None;
    }
    let l = attribute_id(nodes, attributes, q, name)?;
    if same_value(attributes, l, j) {
        return Some(l);
    }
    None
}

// Node m is the last one that has a value of the command with that number.
pub fn keep_recent(recent: &mut [u32; 512], number: u32, m: u32)
    requires { m < 4294967295 }
    ensures { recent.new ≡ set recent.old (slot_of number) (m + 1) }
{
    recent[slot_of(number)] = m + 1;
}
