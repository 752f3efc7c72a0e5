// Nodes below which nothing leads back to the element that is aimed at, so that none of them is looked through twice. Each block of 256
// nodes has a word. 0 is nothing. Else one node of the block is remembered, with the node behind the last one below it: how far it stands
// behind the first node of the block, times 2097152, and the node behind. With 256 for how far, the nodes from the first of the block up
// to the node behind stand below a remembered node before the block.
ghost use Rattle.std.specs.Prelude.{◌≡◌, true, ℕ, ◌*◌, ◌<◌, ◌≤◌, get_or, IfSome};
ghost use Rattle.cuts.specs.Seen.{Covered, Remembered, Hushed, Spread};

// How many blocks the first `count` nodes have, at most all.
fn blocks(count: u32) -> usize
    ensures { (result ≤ 4096) × ((b : ℕ) → 256 * b < count → b < 4096 → b < result) }
{
    ((count / 256) as usize + 1).min(4096)
}

// Nothing is remembered of the first `count` nodes.
pub fn forget(quiet: &mut [u32; 4096], count: u32)
    ensures { (b : ℕ) → 256 * b < count → b < 4096 → get_or quiet.new b 0 ≡ 0 }
{
    quiet[..blocks(count)].fill(0);
}

// Is it known that nothing at or below node w leads back?
pub fn is_quiet(quiet: &[u32; 4096], w: u32) -> bool
    ensures { result ≡ true → Covered quiet.now w }
{
    let b = (w / 256) as usize;
    if b >= 4096 {
        return false;
    }
    let e = quiet[b];
    e / 2097152 % 256 <= w % 256 && w < e % 2097152
}

// The node behind the last one below node m, if m is remembered.
pub fn behind_quiet(quiet: &[u32; 4096], m: u32) -> Option<u32>
    ensures { IfSome result (λ end. (m < end) × Remembered quiet.now m end) }
{
    let b = (m / 256) as usize;
    if b >= 4096 {
        return None;
    }
    let e = quiet[b];
    if e / 2097152 != m % 256 {
        return None;
    }
    let end = e % 2097152;
    if end <= m {
        return None;
    }
    Some(end)
}

// Block b, whose nodes up to the node `end` stand below a remembered node before it. A word that reaches further is kept.
fn cover(quiet: &mut [u32; 4096], b: usize, end: u32)
    requires { (b < 4096) × (end < 2097152) }
    ensures { Spread quiet.old b end quiet.new }
{
    if quiet[b] % 2097152 <= end {
        quiet[b] = 536870912 + end;
    }
}

// The blocks from block a up to the one in which the node `end` stands.
fn spread(quiet: &mut [u32; 4096], a: usize, end: u32)
    requires { end < 2097152 }
    ensures { Spread quiet.old a end quiet.new }
{
    for b in a..blocks(end) {
        cover(quiet, b, end);
    }
}

// Node w is remembered, with `end` behind the last node below it, if a word holds that. A word that reaches further is kept: it is about a
// node behind the nodes below w, and these are few.
pub fn hush(quiet: &mut [u32; 4096], w: u32, end: u32)
    ensures { Hushed quiet.old w end quiet.new }
{
    let b = (w / 256) as usize;
    if b >= 4096 || end >= 2097152 || end < quiet[b] % 2097152 {
        return;
    }
    quiet[b] = w % 256 * 2097152 + end;
    spread(quiet, b + 1, end);
}
