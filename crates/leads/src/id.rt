// An id is compared with that of an element.
ghost use Rattle.std.specs.Prelude.{◌≡◌, length};
ghost use Rattle.model.specs.Base.{same_bytes};
ghost use Rattle.tree.specs.Lent.{entries_of};
ghost use Rattle.leads.specs.Links.{Stands, id_at};

use tree::read::has_value;

// Is it the id in entry j? Where there is none, the id is empty.
#[tactic(auto, using(crate::proofs::Sets::is_id_set))]
pub fn is_id(attributes: &[u32], characters: &[u8], j: Option<u32>, value: &[u8]) -> bool
    requires { Stands (length characters.now) (entries_of attributes.now) j }
    ensures { result ≡ same_bytes value.now (id_at characters.now (entries_of attributes.now) j) }
{
    match j {
        Some(j) => has_value(attributes, characters, j, value),
        None => value.len() == 0,
    }
}
