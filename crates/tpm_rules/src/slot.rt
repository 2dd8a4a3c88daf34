//! The slot of a policy session for the digest of parameters or of Names.

ghost use Rattle.std.specs.Prelude.{◌≡◌};
ghost use Rattle.tpm_bindings.specs.State.{SessionState};
ghost use Rattle.tpm_rules.specs.Slot as spec;
ghost use Rattle.tpm_rules.specs.Standing.{standing_of};

use crate::Standing;
use tpol_base::Digest32;

// Whether the slot takes a cpHash.
pub fn takes_cp_hash(session: &Standing, digest: &Digest32) -> bool
    ensures { (state : SessionState) → session.now ≡ standing_of state
        → result ≡ spec.takes_cp_hash state.facts digest.now }
{
    !session.bindings.sets_name_hash() && session.bindings.every_cp_hash(*digest)
}

// The same of a cpHashA, which may be left out.
pub fn takes_optional_cp_hash(session: &Standing, digest: Option<Digest32>) -> bool
    ensures { (state : SessionState) → session.now ≡ standing_of state
        → result ≡ spec.takes_optional_cp_hash state.facts digest }
{
    match digest {
        None => true,
        Some(digest) => takes_cp_hash(session, &digest),
    }
}

// Whether the slot takes a nameHash.
pub fn takes_name_hash(session: &Standing, digest: &Digest32) -> bool
    ensures { (state : SessionState) → session.now ≡ standing_of state
        → result ≡ spec.takes_name_hash state.facts digest.now }
{
    !session.bindings.sets_cp_hash() && session.bindings.every_name_hash(*digest)
}

// Whether the slot is set, with any kind and value.
pub fn is_slot_set(session: &Standing) -> bool
    ensures { (state : SessionState) → session.now ≡ standing_of state
        → result ≡ spec.is_slot_set state.facts }
{
    session.bindings.sets_cp_hash() || session.bindings.sets_name_hash()
}
