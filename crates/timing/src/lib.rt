// The walks as functions that bench/ measures. Nothing else uses them; what they answer only shows that the walk was made.
#![tactic(auto)]

use links::link::use_target;
use links::uses::next_use;
use memo::fill::fill;
use places::seek::seek;
use script::cursor::Cursor;
use script::drawing::Drawing;
use walk::node::Opened;

// The commands before an element that was found; 0 where none was.
fn number_in(found: Option<Opened>) -> usize {
    match found {
        Some(l) => l.own.number,
        None => 0,
    }
}

// The element that the first use in the SVG namespace copies.
#[tactic(auto, using(script::proofs::Commands::placed_first))]
#[unsafe(no_mangle)]
pub extern "C" fn timing_first_use(script: &[u8], characters: &[u8]) -> usize {
    if 1048576 < script.len() {
        return 0;
    }
    let drawing = &Drawing { script, characters };
    let mut slots: [u16; 32768] = [0; 32768];
    fill(drawing, &mut slots);
    let c = Cursor::start();
    match next_use(drawing, c, 0) {
        Some(u) => number_in(use_target(drawing, &slots, u.element, 0)),
        None => 0,
    }
}

// The elements that all of them copy, one after another; the last is answered.
#[tactic(auto, using(script::proofs::Commands::placed_first))]
#[unsafe(no_mangle)]
pub extern "C" fn timing_every_use(script: &[u8], characters: &[u8]) -> usize {
    if 1048576 < script.len() {
        return 0;
    }
    let drawing = &Drawing { script, characters };
    let mut slots: [u16; 32768] = [0; 32768];
    fill(drawing, &mut slots);
    let mut c = Cursor::start();
    let mut level: usize = 0;
    let mut last: usize = 0;
    while let Some(u) = next_use(drawing, c, level) {
        last = number_in(use_target(drawing, &slots, u.element, 0));
        level = u.open_elements;
        c = u.element.inside;
    }
    last
}

// The places of the first n commands, in order, each sought from the one before.
#[tactic(auto, using(script::proofs::Commands::placed_first))]
#[unsafe(no_mangle)]
pub extern "C" fn timing_seek(script: &[u8], characters: &[u8], n: usize) -> usize {
    if 1048576 < script.len() {
        return 0;
    }
    let drawing = &Drawing { script, characters };
    let mut c = Cursor::start();
    for i in 0..n {
        c = seek(drawing, i, c);
    }
    c.at
}
