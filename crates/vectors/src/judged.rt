// One vector of each kind: its input is read, the operation is called, the answer is written.
use crate::input;
use refusal::answer_number;
use script::drawing::Drawing;
use std::alloc::Global;
use std::io::{self, Read, Write};

// The most that a vector has: a length that is greater counts as this one, and what follows in the input is read as what comes behind
// that part. Of a drawing to check, script and characters each; of tables that are asked about, words, bytes of text, characters; an id.
const CHECKED: u32 = 16384;

const ASKED_WORDS: u32 = 512;

const ASKED_TEXT: u32 = 256;

const ASKED_CHARACTERS: u32 = 512;

const ID: u32 = 64;

pub fn say<W: Write>(to: &mut W, n: u32) -> io::Result<()> {
    write!(to, "{n}")
}

pub fn space<W: Write>(to: &mut W) -> io::Result<()> {
    to.write_all(b" ")
}

pub fn line<W: Write>(to: &mut W) -> io::Result<()> {
    to.write_all(b"\n")
}

// Two lengths, the script, the characters: the number.
pub fn run_check<R: Read, W: Write>(alloc: Global, from: &mut R, to: &mut W) -> io::Result<()> {
    let n = input::number(from)?;
    let m = input::number(from)?;
    let script = input::bytes(alloc, from, n.min(CHECKED))?;
    let characters = input::bytes(alloc, from, m.min(CHECKED))?;
    let judged = script::check::check(&Drawing {
        script: &script,
        characters: &characters,
    });
    say(to, answer_number(judged))?;
    line(to)
}

// The number of an answer, whether something was found, and its index.
fn say_answer<W: Write>(to: &mut W, a: questions::Answer) -> io::Result<()> {
    say(to, a.number)?;
    space(to)?;
    say(to, a.found)?;
    space(to)?;
    say(to, a.index)?;
    line(to)
}

// The bytes in hexadecimal.
pub fn say_bytes<W: Write>(to: &mut W, s: &[u8]) -> io::Result<()> {
    for b in s {
        say_byte(to, *b)?;
    }
    line(to)
}

fn say_byte<W: Write>(to: &mut W, b: u8) -> io::Result<()> {
    write!(to, "{b:02x}")
}

// A node and a name: what the two attribute questions answer.
fn ask_attribute<R: Read, W: Write>(
    from: &mut R,
    to: &mut W,
    nodes: &[u32],
    attributes: &[u32],
    text: &[u8],
    characters: &[u8],
    counts: tree::Counts,
) -> io::Result<()> {
    let node = input::number(from)?;
    let name = input::number(from)?;
    let own = questions::question::attribute(
        nodes, attributes, text, characters, counts, node, name,
    );
    say_answer(to, questions::Answer::from(own))?;
    let found = questions::question::find_attribute(
        nodes, attributes, text, characters, counts, node, name,
    );
    say_answer(to, questions::Answer::from(found))
}

// An id with its length: what the id question answers.
fn ask_id<R: Read, W: Write>(
    alloc: Global,
    from: &mut R,
    to: &mut W,
    nodes: &[u32],
    attributes: &[u32],
    text: &[u8],
    characters: &[u8],
    counts: tree::Counts,
) -> io::Result<()> {
    let n = input::number(from)?;
    let id = input::bytes(alloc, from, n.min(ID))?;
    let found = questions::question::element_by_id(
        nodes, attributes, text, characters, counts, &id,
    );
    say_answer(to, questions::Answer::from(found))
}

// A question begins with its kind: 1 the attribute questions, 2 the id question, 3 the text question.
fn ask<R: Read, W: Write>(
    alloc: Global,
    from: &mut R,
    to: &mut W,
    nodes: &[u32],
    attributes: &[u32],
    text: &[u8],
    characters: &[u8],
    counts: tree::Counts,
) -> io::Result<()> {
    let kind = input::number(from)?;
    match kind {
        1 => ask_attribute(from, to, nodes, attributes, text, characters, counts),
        2 => ask_id(alloc, from, to, nodes, attributes, text, characters, counts),
        _ => {
            let node = input::number(from)?;
            say_bytes(
                to,
                questions::question::text(nodes, attributes, text, characters, counts, node),
            )
        }
    }
}

fn ask_all<R: Read, W: Write>(
    alloc: Global,
    from: &mut R,
    to: &mut W,
    nodes: &[u32],
    attributes: &[u32],
    text: &[u8],
    characters: &[u8],
    counts: tree::Counts,
) -> io::Result<()> {
    let n = input::number(from)?;
    for _ in 0..n {
        ask(alloc, from, to, nodes, attributes, text, characters, counts)?;
    }
    Ok(())
}

// The lengths of the tables and of the characters, the counts, the tables, the characters, the number of questions, and the questions.
pub fn run_questions<R: Read, W: Write>(alloc: Global, from: &mut R, to: &mut W) -> io::Result<()> {
    let n = input::number(from)?;
    let m = input::number(from)?;
    let t = input::number(from)?;
    let c = input::number(from)?;
    let counts = tree::Counts {
        nodes: input::number(from)?,
        attributes: input::number(from)?,
        text: input::number(from)?,
    };
    let nodes = input::numbers(alloc, from, n.min(ASKED_WORDS))?;
    let attributes = input::numbers(alloc, from, m.min(ASKED_WORDS))?;
    let text = input::bytes(alloc, from, t.min(ASKED_TEXT))?;
    let characters = input::bytes(alloc, from, c.min(ASKED_CHARACTERS))?;
    ask_all(
        alloc,
        from,
        to,
        &nodes,
        &attributes,
        &text,
        &characters,
        counts,
    )
}
