// The bucket of an id.
ghost use Rattle.std.specs.Prelude.{◌≡◌, ◌<◌};
ghost use Rattle.ids.specs.Chains.{bucket_of};

// A number below 2,048 for a string.
#[tactic(auto, using(crate::proofs::Sets::bucket_set))]
pub fn bucket(bytes: &[u8]) -> usize
    ensures same { result ≡ bucket_of bytes.now }
    ensures small { result < 2048 }
{
    let mut h: usize = 0;
    for &b in bytes {
        h = (h * 7735 + usize::from(b)) % 2048;
    }
    h
}
