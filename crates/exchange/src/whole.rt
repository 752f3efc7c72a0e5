// exchange: its faults, the bytes put in place, and the build of the drawing with them.
ghost use Rattle.std.specs.Prelude.{◌≡◌, ◌≤◌, length};
ghost use Rattle.std.proofs.lemmas.List.Edits.{sets};
ghost use Rattle.model.specs.Check.{check};
ghost use Rattle.model.specs.Build.{build, settled, exchange};
ghost use Rattle.build.specs.Results.{built_of, result_of};
ghost use Rattle.exchange.specs.Changes.{Changeable};

use crate::fault::target_of;
use crate::put::put_bytes;
use build::whole::build_checked;
use refusal::Refusal;
use script::drawing::Drawing;
use tree::Counts;

// The build of a drawing that check takes, with the characters as they are now.
fn build_with(
    script: &[u8],
    characters: &[u8],
    nodes: &mut [u32],
    attributes: &mut [u32],
    text: &mut [u8],
) -> Result<Counts, Refusal>
    requires { check script.now characters.now ≡ 0 }
    ensures { result_of characters.now nodes.new attributes.new text.new (built_of result)
        ≡ build script.now characters.now (length nodes.old) (length attributes.old) (length text.old) }
{
    build_checked(&Drawing { script, characters }, nodes, attributes, text)
}

// A text of at most 256 bytes: the old ones are kept, and put back where the build is refused.
fn exchange_short(
    script: &[u8],
    characters: &mut [u8],
    start: usize,
    new: &[u8],
    nodes: &mut [u32],
    attributes: &mut [u32],
    text: &mut [u8],
) -> Result<Counts, Refusal>
    requires changeable { Changeable script.now characters.old start new.now }
    requires len_bound { length new.now ≤ 256 }
    ensures { result_of characters.new nodes.new attributes.new text.new (built_of result)
        ≡ settled characters.old (build script.now (sets characters.old start new.now)
        (length nodes.old) (length attributes.old) (length text.old)) }
{
    let size = new.len();
    let end = start + size;
    let mut old: [u8; 256] = [0; 256];
    old[..size].copy_from_slice(&characters[start..end]);
    put_bytes(characters, start, new);
    let built = build_with(script, characters, nodes, attributes, text);
    let is_refused = built.is_err();
    if is_refused {
        characters[start..end].copy_from_slice(&old[..size]);
    }
    built
}

// A longer text: the drawing is built as it is first, and the build with the new bytes gives the same number.
fn exchange_long(
    script: &[u8],
    characters: &mut [u8],
    start: usize,
    new: &[u8],
    nodes: &mut [u32],
    attributes: &mut [u32],
    text: &mut [u8],
) -> Result<Counts, Refusal>
    requires { Changeable script.now characters.old start new.now }
    ensures { result_of characters.new nodes.new attributes.new text.new (built_of result)
        ≡ settled characters.old (build script.now (sets characters.old start new.now)
        (length nodes.old) (length attributes.old) (length text.old)) }
{
    let before = build_with(script, characters, nodes, attributes, text);
    let is_refused = before.is_err();
    if is_refused {
        return before;
    }
    put_bytes(characters, start, new);
    build_with(script, characters, nodes, attributes, text)
}

// The text with that number becomes these bytes, and the tables are built anew. A fault of the call touches nothing; a build that is
// refused leaves the characters and clears the tables.
pub fn exchange(
    script: &[u8],
    characters: &mut [u8],
    number: u32,
    new: &[u8],
    nodes: &mut [u32],
    attributes: &mut [u32],
    text: &mut [u8],
) -> Result<Counts, Refusal>
    ensures { result_of characters.new nodes.new attributes.new text.new (built_of result)
        ≡ exchange script.now characters.old number new.now nodes.old
        attributes.old text.old }
{
    let start = target_of(&Drawing { script, characters }, number, new)?;
    let is_short = new.len() <= 256;
    if is_short {
        return exchange_short(script, characters, start, new, nodes, attributes, text);
    }
    exchange_long(script, characters, start, new, nodes, attributes, text)
}
