// The heads of the chains of ids.
ghost use Rattle.std.specs.Prelude.{◌≡◌};

// The last node of each of 2,048 buckets of ids, as its index plus 1, 0 for none; and whether every id stands in its chain.
#[derive(Drop)]
pub struct Heads {
    pub last: [u32; 2048],
    pub is_whole: bool,
}

impl Heads {
    ghost use Rattle.ids.specs.Chains.{no_heads};

    // Before any node.
    pub fn new() -> Heads
        ensures { result ≡ no_heads }
    {
        Heads {
            last: [0; 2048],
            is_whole: false,
        }
    }
}
