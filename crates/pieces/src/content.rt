// Which elements are read inside a text element, and under which name.
ghost use Rattle.std.specs.Prelude.{◌≡◌};
ghost use Rattle.pieces.specs.Content.{is_content_name, is_content, tag_in};

use names::eid;
use walk::node::has_tag_name;

// The code of a name.
pub fn code_of(name: u8) -> u32
    ensures { result ≡ name }
{
    u32::from(name)
}

// Is it a link, a tspan or a tref, or a textPath directly under the text element?
#[tactic(auto, unfolding(model::specs::Base::among))]
fn is_content_name(code: u32, direct: bool) -> bool
    ensures { result ≡ is_content_name code direct }
{
    code == eid::A || code == eid::TSPAN || code == eid::TREF || direct && code == eid::TEXT_PATH
}

// Is an element of that name and namespace read inside a text element?
pub fn is_text_content(name: u8, space: u8, direct: bool) -> bool
    ensures { result ≡ is_content name space direct }
{
    has_tag_name(name, space) && is_content_name(code_of(name), direct)
}

// Its name in the tree: a link and a tref are tspans.
#[tactic(auto, unfolding(model::specs::Base::among))]
pub fn text_tag_of(name: u32) -> u32
    ensures { result ≡ tag_in name }
{
    if name == eid::A || name == eid::TREF {
        eid::TSPAN
    } else {
        name
    }
}
