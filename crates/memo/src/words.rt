// The words of the table: bits of wanted keys, marks, slots.
ghost use Rattle.std.specs.Prelude.{◌≡◌, true, ◌+◌, ◌*◌, ◌%◌, ◌<◌, ◌≤◌, length, get_or, set};
ghost use Rattle.memo.specs.Words.{unit, spacing, upper_of, mark_in, slot_count, slot_in};
ghost use Rattle.memo.specs.Words.{start_of, step_of, next_slot, is_wanted, bit_of, is_open, Apart, RoomFor, MarkPut, SlotPut};

use script::cursor::Cursor;

// So many slots are looked at, at most.
pub const PROBES: usize = 512;

// A slot's word, less one, has a mark below this, and above it what tells the key.
pub const MARKS: usize = 2048;

// What tells a key in a slot's word: how many times it has this.
pub const PRINT: usize = 134217728;

// The numbers of a cursor that can be a mark are less: 20 bits each.
const MARK_BOUND: usize = 1048576;

// The words of one of sixteen parts.
fn unit(slots: &[u16]) -> usize
    ensures same { result ≡ unit slots.now }
    ensures low { 16 * result ≤ length slots.now }
{
    slots.len() / 16
}

fn word(slots: &[u16], k: usize) -> usize
    requires { k < length slots.now }
    ensures { (result ≡ get_or slots.now k 0) × (result < 65536) }
{
    usize::from(slots[k])
}

// Mark m.
pub fn mark_at(slots: &[u16], m: usize) -> Cursor
    requires { 5 * m + 6 ≤ 3 * unit slots.now }
    ensures { result ≡ mark_in slots.now m }
{
    let k = unit(slots) + 5 * m + 1;
    let upper = word(slots, k + 4);
    Cursor {
        at: word(slots, k) + 65536 * (upper % 16),
        chars: word(slots, k + 1) + 65536 * (upper / 16 % 16),
        number: word(slots, k + 2) + 65536 * (upper / 256 % 16),
        texts: word(slots, k + 3) + 65536 * (upper / 4096),
    }
}

// Is there room for mark m, which is to become c?
pub fn has_room(slots: &[u16], m: usize, c: Cursor) -> bool
    ensures { result ≡ true → RoomFor slots.now m c }
{
    m < MARKS - 1
        && 5 * m + 6 <= 3 * unit(slots)
        && c.at < MARK_BOUND
        && c.chars < MARK_BOUND
        && c.number < MARK_BOUND
        && c.texts < MARK_BOUND
}

// The upper bits of the numbers of c.
fn upper_of(c: Cursor) -> u16
    requires at_bound { c.at < 1048576 }
    requires chars_bound { c.chars < 1048576 }
    requires number_bound { c.number < 1048576 }
    requires texts_bound { c.texts < 1048576 }
    ensures { result ≡ upper_of c }
{
    (c.at / 65536
        + 16 * (c.chars / 65536)
        + 256 * (c.number / 65536)
        + 4096 * (c.texts / 65536)) as u16
}

// Mark m becomes c.
#[tactic(auto, using(crate::proofs::Sets::put_mark_set))]
pub fn put_mark(slots: &mut [u16], m: usize, c: Cursor)
    requires { RoomFor slots.old m c }
    ensures { MarkPut slots.old m c slots.new }
{
    let k = unit(slots) + 5 * m + 1;
    slots[k] = (c.at % 65536) as u16;
    slots[k + 1] = (c.chars % 65536) as u16;
    slots[k + 2] = (c.number % 65536) as u16;
    slots[k + 3] = (c.texts % 65536) as u16;
    slots[k + 4] = upper_of(c);
}

// How many elements are looked at from a mark on.
pub fn spacing(slots: &[u16]) -> usize
    requires { 16 ≤ length slots.now }
    ensures { result ≡ spacing slots.now }
{
    word(slots, unit(slots))
}

// So many elements are looked at from now on.
pub fn set_spacing(slots: &mut [u16], n: u16)
    requires { 16 ≤ length slots.old }
    ensures { slots.new ≡ set slots.old (unit slots.old) n }
{
    let k = unit(slots);
    slots[k] = n;
}

// The word of slot i.
pub fn slot_at(slots: &[u16], i: usize) -> usize
    requires { i < slot_count slots.now }
    ensures { (result ≡ slot_in slots.now i) × (result < 65536) }
{
    word(slots, 4 * unit(slots) + i)
}

// The word of slot i becomes v.
pub fn put_slot(slots: &mut [u16], i: usize, v: u16)
    requires { i < slot_count slots.old }
    ensures { SlotPut slots.old i v slots.new }
{
    let k = 4 * unit(slots) + i;
    slots[k] = v;
}

// Where the search for a key begins.
#[tactic(auto, using(crate::proofs::Sets::start_of_set))]
pub fn start_of(slots: &[u16], key: usize) -> usize
    requires { 16 ≤ length slots.now }
    ensures same { result ≡ start_of (unit slots.now) key }
    ensures low { result < slot_count slots.now }
{
    key / 256 % (12 * unit(slots))
}

// How many slots it goes on at a time.
#[tactic(auto, using(crate::proofs::Sets::step_of_set))]
pub fn step_of(slots: &[u16], key: usize) -> usize
    requires { 16 ≤ length slots.now }
    ensures same { result ≡ step_of (unit slots.now) key }
    ensures low { result < slot_count slots.now }
{
    2 * (key / 4096 % (6 * unit(slots))) + 1
}

// The slot that is looked at behind slot i.
#[tactic(auto, using(crate::proofs::Sets::next_slot_set))]
pub fn next_slot(slots: &[u16], step: usize, i: usize) -> usize
    requires i_bound { i < slot_count slots.now }
    requires step_bound { step < slot_count slots.now }
    ensures same { result ≡ next_slot (unit slots.now) step i }
    ensures low { result < slot_count slots.now }
{
    let count = 12 * unit(slots);
    if i + step < count {
        return i + step;
    }
    i + step - count
}

// The bit of a key among those that are wanted.
#[tactic(auto, using(crate::proofs::Sets::bit_of_set))]
fn bit_of(slots: &[u16], key: usize) -> usize
    requires { 16 ≤ length slots.now }
    ensures same { result ≡ bit_of slots.now key }
    ensures low { result < 16 * unit slots.now }
{
    key / 64 % (16 * unit(slots))
}

// Is the bit of a key set?
fn is_wanted(slots: &[u16], key: usize) -> bool
    requires { 16 ≤ length slots.now }
    ensures { result ≡ is_wanted slots.now key }
{
    let b = bit_of(slots, key);
    slots[b / 16] >> (b % 16) & 1 == 1
}

// Does the table tell of ids with that key?
#[tactic(auto, unfolding(crate::specs::Words::is_open))]
pub fn is_open(slots: &[u16], key: usize) -> bool
    ensures { result ≡ is_open slots.now key }
{
    slots.len() >= 16 && spacing(slots) != 0 && is_wanted(slots, key)
}

// The key is wanted: its bit is set.
pub fn want(slots: &mut [u16], key: usize)
    requires { 16 ≤ length slots.old }
    ensures { Apart slots.old 0 (unit slots.old) slots.new }
{
    let b = bit_of(slots, key);
    slots[b / 16] |= 1 << (b % 16);
}
