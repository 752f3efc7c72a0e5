// Build and exchange: the tables hold other words before, and every word of them is written behind the call.
ghost use Rattle.std.specs.Prelude.{◌≤◌, length};

use crate::input;
use crate::judged::{line, say, say_bytes, space};
use build::Built;
use script::drawing::Drawing;
use std::alloc::Global;
use std::io::{self, Read, Write};

// The most that a vector of build or exchange has: a length that is greater counts as this one, and what follows in the input is read as
// what comes behind that part.
const SCRIPT: u32 = 8192;

const CHARACTERS: u32 = 1024;

const NEW_BYTES: u32 = 64;

// The most words and bytes of the tables that are lent to build, and to exchange.
const BUILT_NODES: u32 = 73728;

const BUILT_ATTRIBUTES: u32 = 46080;

const BUILT_TEXT: u32 = 4096;

const EXCHANGED_NODES: u32 = 2048;

const EXCHANGED_ATTRIBUTES: u32 = 1024;

const EXCHANGED_TEXT: u32 = 128;

// How many words there are up to the last that is not 0.
fn used(words: &[u32]) -> usize
    ensures { result ≤ length words.now }
{
    for k in (0..words.len()).rev() {
        if words[k] != 0 {
            return k + 1;
        }
    }
    0
}

// The words of a table up to the last that is not 0, then how many are left.
fn say_words<W: Write>(to: &mut W, words: &[u32]) -> io::Result<()> {
    let k = used(words);
    for &word in &words[..k] {
        say(to, word)?;
        space(to)?;
    }
    let left = words.len() - k;
    write!(to, "{left}")?;
    line(to)
}

// The answer, and the three tables.
fn say_tables<W: Write>(
    to: &mut W,
    built: Built,
    nodes: &[u32],
    attributes: &[u32],
    text: &[u8],
) -> io::Result<()> {
    say(to, built.number)?;
    space(to)?;
    say(to, built.nodes)?;
    space(to)?;
    say(to, built.attributes)?;
    space(to)?;
    say(to, built.text)?;
    line(to)?;
    say_words(to, nodes)?;
    say_words(to, attributes)?;
    say_bytes(to, text)
}

fn build_drawing<W: Write>(
    to: &mut W,
    script: &[u8],
    characters: &[u8],
    nodes: &mut [u32],
    attributes: &mut [u32],
    text: &mut [u8],
) -> io::Result<()> {
    let built = build::whole::build(&Drawing { script, characters }, nodes, attributes, text);
    say_tables(to, Built::from(built), nodes, attributes, text)
}

fn exchange_text<W: Write>(
    to: &mut W,
    script: &[u8],
    characters: &mut [u8],
    number: u32,
    new: &[u8],
    nodes: &mut [u32],
    attributes: &mut [u32],
    text: &mut [u8],
) -> io::Result<()> {
    let built = exchange::whole::exchange(script, characters, number, new, nodes, attributes, text);
    say_tables(to, Built::from(built), nodes, attributes, text)?;
    say_bytes(to, characters)
}

// The lengths of script, characters and tables, the script, the characters.
pub fn run_build<R: Read, W: Write>(alloc: Global, from: &mut R, to: &mut W) -> io::Result<()> {
    let a = input::number(from)?;
    let b = input::number(from)?;
    let n = input::number(from)?;
    let m = input::number(from)?;
    let t = input::number(from)?;
    let script = input::bytes(alloc, from, a.min(SCRIPT))?;
    let characters = input::bytes(alloc, from, b.min(CHARACTERS))?;
    let mut nodes = vec![in alloc; 7u32; n.min(BUILT_NODES) as usize]?;
    let mut attributes = vec![in alloc; 7u32; m.min(BUILT_ATTRIBUTES) as usize]?;
    let mut text = vec![in alloc; 7u8; t.min(BUILT_TEXT) as usize]?;
    build_drawing(
        to,
        &script,
        &characters,
        &mut nodes,
        &mut attributes,
        &mut text,
    )
}

// The same with the number of a text and its new bytes; the characters are written, too.
pub fn run_exchange<R: Read, W: Write>(alloc: Global, from: &mut R, to: &mut W) -> io::Result<()> {
    let a = input::number(from)?;
    let b = input::number(from)?;
    let n = input::number(from)?;
    let m = input::number(from)?;
    let t = input::number(from)?;
    let number = input::number(from)?;
    let e = input::number(from)?;
    let script = input::bytes(alloc, from, a.min(SCRIPT))?;
    let mut characters = input::bytes(alloc, from, b.min(CHARACTERS))?;
    let new = input::bytes(alloc, from, e.min(NEW_BYTES))?;
    let mut nodes = vec![in alloc; 7u32; n.min(EXCHANGED_NODES) as usize]?;
    let mut attributes = vec![in alloc; 7u32; m.min(EXCHANGED_ATTRIBUTES) as usize]?;
    let mut text = vec![in alloc; 7u8; t.min(EXCHANGED_TEXT) as usize]?;
    exchange_text(
        to,
        &script,
        &mut characters,
        number,
        &new,
        &mut nodes,
        &mut attributes,
        &mut text,
    )
}
