// The keys of ids: numbers made from their bytes.
ghost use Rattle.std.specs.Prelude.{◌≡◌, ◌<◌};
ghost use Rattle.memo.specs.Words.{key_of};

// The key of an id: any function of its bytes will do.
#[tactic(auto, using(crate::proofs::Sets::key_of_set))]
pub fn key_of(id: &[u8]) -> usize
    ensures same { result ≡ key_of id.now }
    ensures low { result < 4294967296 }
{
    let mut h: usize = 0;
    for &b in id {
        h = (h * 131 + usize::from(b)) % 4294967296;
    }
    h * 2654435769 % 4294967296
}
