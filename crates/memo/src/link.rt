// Has a drawing links that are followed by ids?
ghost use Rattle.std.specs.Prelude.{◌≡◌};
ghost use Rattle.memo.specs.Table.{is_link, opens_link, may_link};

use names::{aid, eid};

// The code of the name that links have, in a byte of the script.
pub const HREF: u8 = aid::HREF as u8;

// Do elements with that name have links that are followed by ids?
pub fn is_link(name: u8) -> bool
    ensures { result ≡ is_link name }
{
    matches!(u32::from(name), eid::USE | eid::TREF)
}

// Can a command that opens such an element begin with these two bytes?
fn opens_link(a: u8, b: u8) -> bool
    ensures { result ≡ opens_link a b }
{
    let is_open = a == 1;
    is_open && is_link(b)
}

// Can the drawing have such links? All bytes are looked at, so that many are looked at together.
pub fn may_link(script: &[u8]) -> bool
    ensures { result ≡ may_link script.now }
{
    script
        .array_windows::<2>()
        .fold(false, |found, &[a, b]| found | opens_link(a, b))
}
