// The commands that read an index: its authorization, and its authority over the index.

ghost use Rattle.std.specs.Prelude.{◌≡◌, ℕ, Option};
ghost use Rattle.tpm_rules.specs.Rule.{Obeys};
ghost use Rattle.tpol_choose.specs.Lent.{client_of_lent, entity_of_lent};
ghost use Rattle.tpol_choose.specs.Moves as spec;

use crate::answer::password_rule;
use crate::client::Client;
use crate::entity_at::EntityAt;
use tpm_rules::nv_authority_rule;
use tpol_base::{CommandCode, Rc};
use tpol_name::IndexEntry;

// What authorizes the reading of an index: the index itself, or the owner.
fn reader_of<'a>(client: &Client<'a>, index: &'a IndexEntry) -> EntityAt<'a>
    ensures { entity_of_lent result ≡ spec.reader_of (client_of_lent client.now) index.now }
{
    let public = &index.public;
    let handle = client.grants.authority(public.index, public.attributes);
    if handle == public.index {
        EntityAt::of_index(index)
    } else {
        EntityAt::of_hierarchy(client.sight, handle)
    }
}

// That it is authorized and has the authority, and behind that a rule of the command's own.
pub fn reading_rule(
    client: &Client<'_>,
    index: &IndexEntry,
    code: CommandCode,
    own: Result<(), Rc>,
) -> Result<(), Rc>
    ensures { (rule : Option ℕ) → Obeys own rule
        → Obeys result (spec.reading_rule (client_of_lent client.now) index.now code rule) }
{
    let reader = reader_of(client, index);
    password_rule(client.grants, &reader, code)?;
    nv_authority_rule(reader.handle, &index.public, code.number())?;
    own
}
