// How many records, entries and bytes the lent tables have room for.
ghost use Rattle.std.specs.Prelude.{◌≡◌, [], min};
ghost use Rattle.model.specs.Tables.{most, node_room, attribute_room, text_room};
ghost use Rattle.tree.specs.Lent.{nodes_read, entries_of, texts_of};

// What is past the 4,294,967,295th is no room.
fn limited(n: usize) -> u32
    ensures { result ≡ min n most }
{
    n.min(u32::MAX as usize) as u32
}

// Words left over behind the last whole record are no room.
#[tactic(auto, unfolding(model::specs::Tables::node_room))]
pub fn node_room(nodes: &[u32]) -> u32
    ensures { result ≡ node_room (nodes_read nodes.now) }
{
    limited(nodes.len() / 8)
}

#[tactic(auto, unfolding(model::specs::Tables::attribute_room))]
pub fn attribute_room(attributes: &[u32]) -> u32
    ensures { result ≡ attribute_room (entries_of attributes.now) }
{
    limited(attributes.len() / 5)
}

#[tactic(auto, unfolding(model::specs::Tables::text_room))]
pub fn text_room(text: &[u8]) -> u32
    ensures { result ≡ text_room (texts_of [] text.now) }
{
    limited(text.len())
}
