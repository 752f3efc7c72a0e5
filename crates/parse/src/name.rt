// What an element's name makes of it outside text elements.
ghost use Rattle.std.specs.Prelude.{◌≡◌, ◌-◌};
ghost use Rattle.parse.specs.Cycle.{is_parsed, tag_named};
ghost use Rattle.parse.specs.Met.{is_copied};

use names::eid;
use walk::node::has_tag_name;

// Does an element with that name become a node? Not `style`, and nothing without a name of the list.
pub fn is_parsed(name: u8, space: u8) -> bool
    ensures { result ≡ is_parsed name space }
{
    has_tag_name(name, space) && u32::from(name) != eid::STYLE
}

// Its name in the tree: a link is a group.
pub fn tag_of(name: u32) -> u32
    ensures { result ≡ tag_named name }
{
    if name == eid::A {
        return eid::G;
    }
    name
}

// The levels left for what a use copies: it is two deeper.
pub fn two_less(left: u32) -> u32
    ensures { result ≡ left - 2 }
{
    left.saturating_sub(2)
}

// Are nodes copied that have this origin? Then their ids are ignored.
pub fn is_copied(origin: usize) -> bool
    ensures { result ≡ is_copied origin }
{
    origin != 0
}
