// Runs vectors: reads them from standard input and writes the answers, one to a line.
// The input is a u32 with the number of vectors, and the vectors; a number is four bytes, little-endian (tools/vectors writes it).
#![tactic(auto)]

mod built;
mod input;
mod judged;

use std::alloc::Global;
use std::io::{self, BufReader, BufWriter, Read, Write};

// A vector begins with what it asks: 1 check, 2 the questions, 3 build, 4 exchange.
fn run_vector<R: Read, W: Write>(
    alloc: Global,
    from: &mut R,
    to: &mut W,
    kind: u32,
) -> io::Result<()> {
    match kind {
        1 => judged::run_check(alloc, from, to),
        2 => judged::run_questions(alloc, from, to),
        3 => built::run_build(alloc, from, to),
        4 => built::run_exchange(alloc, from, to),
        _ => to.write_all(b"no such vector\n"),
    }
}

fn main(rt: HostRuntime) -> io::Result<()> {
    let alloc = rt.alloc();
    let mut from = BufReader::new(alloc, rt.reader())?;
    let mut to = BufWriter::new(alloc, io::writer(&rt))?;
    let n = input::number(&mut from)?;
    for _ in 0..n {
        let kind = input::number(&mut from)?;
        run_vector(alloc, &mut from, &mut to, kind)?;
    }
    to.flush()
}
