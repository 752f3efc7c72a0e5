// Numbers and bytes from standard input.
ghost use Rattle.std.specs.Prelude.{◌≡◌, IfOk};
ghost use Rattle.std.specs.Vec.{vec_len};

use std::alloc::Global;
use std::io::{self, Read};

// Reads until `to` is full or the input ends; what is past the end stays as it was.
fn fill<R: Read>(from: &mut R, to: &mut [u8]) -> io::Result<()> {
    let mut done = 0;
    while done < to.len() {
        let n = from.read(&mut to[done..])?;
        if n == 0 {
            break;
        }
        done += n;
    }
    Ok(())
}

// The next four bytes as a number, little-endian; what is past the end reads as 0.
pub fn number<R: Read>(from: &mut R) -> io::Result<u32> {
    let mut b = [0u8; 4];
    fill(from, &mut b)?;
    Ok(u32::from_le_bytes(b))
}

// The next n bytes; what is past the end reads as 0.
pub fn bytes<R: Read>(alloc: Global, from: &mut R, n: u32) -> io::Result<Vec<u8>>
    ensures { IfOk result (λ to. vec_len to ≡ n) }
{
    let mut to = vec![in alloc; 0u8; n as usize]?;
    fill(from, &mut to)?;
    Ok(to)
}

// The same with numbers.
pub fn numbers<R: Read>(alloc: Global, from: &mut R, n: u32) -> io::Result<Vec<u32>>
    ensures { IfOk result (λ to. vec_len to ≡ n) }
{
    let mut to = Vec::new(alloc);
    for _ in 0..n {
        to.push(number(from)?)?;
    }
    Ok(to)
}
