// The words of importance, before the chains are made and when they are taken away again.
ghost use Rattle.std.specs.Prelude.{◌≡◌, true, ℕ, ◌+◌, ◌*◌, ◌<◌, ◌≤◌, length, get_or};
ghost use Rattle.ids.specs.Chains.{Unmarked};

use tree::word;
use tree::word::entry_word;

// Is the importance of each of the first `count` entries 0 or 1?
pub fn is_plain(attributes: &[u32], count: u32) -> bool
    requires { 5 * count ≤ length attributes.now }
    ensures { result ≡ true → (j : ℕ) → j < count → get_or attributes.now (5 * j + 1) 0 ≤ 1 }
{
    (0..count).all(|j| entry_word(attributes, j, word::IMPORTANT) <= 1)
}

// The first `count` entries have their importance alone.
pub fn unchain(attributes: &mut [u32], count: u32)
    requires { 5 * count ≤ length attributes.old }
    ensures { Unmarked attributes.old attributes.new count }
{
    for j in 0..count {
        let at = 5 * (j as usize) + word::IMPORTANT;
        attributes[at] %= 2;
    }
}
