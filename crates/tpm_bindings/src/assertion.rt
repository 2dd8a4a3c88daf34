// What one assertion binds.

ghost use Rattle.std.specs.Prelude.{◌≡◌};
ghost use Rattle.tpm_bindings.specs.Facts as spec;
ghost use Rattle.tpol_tree.specs.declared.path.Move.TheVariants.{Assert};

use crate::LastAuth;
use tpol_base::{CommandCode, Digest32, Name};
use tpol_hash::Hasher;
use tpol_tree::Assertion;

// The command code that it asks for.
pub fn code(assertion: &Assertion) -> Option<u32>
    ensures { result ≡ spec.code_in assertion.now }
{
    match assertion {
        Assertion::CommandCode(code) => Some(*code),
        Assertion::Duplication { .. } => Some(CommandCode::Duplicate.number()),
        _ => None,
    }
}

// The set of localities that it allows.
pub fn localities(assertion: &Assertion) -> Option<u8>
    ensures { result ≡ spec.locality_in assertion.now }
{
    match assertion {
        Assertion::Locality(localities) => Some(*localities),
        _ => None,
    }
}

// The digest of a PolicyCpHash.
pub fn cp_hash(assertion: &Assertion) -> Option<Digest32>
    ensures { result ≡ spec.cp_hash_in assertion.now }
{
    match assertion {
        Assertion::CpHash(digest) => Some(*digest),
        _ => None,
    }
}

// The digest of a PolicyNameHash, or of a PolicyDuplicationSelect that includes the object.
pub fn name_hash(assertion: &Assertion) -> Option<Digest32>
    ensures { result ≡ spec.name_hash_in assertion.now }
{
    match assertion {
        Assertion::NameHash(digest) => Some(*digest),
        Assertion::Duplication {
            object,
            parent,
            include: true,
        } => Some(hash_of_names(object, parent)),
        _ => None,
    }
}

// The digest of a PolicyDuplicationSelect whose policy digest leaves out the object's Name.
pub fn parent_hash(assertion: &Assertion) -> Option<Digest32>
    ensures { result ≡ spec.parent_hash_in assertion.now }
{
    match assertion {
        Assertion::Duplication {
            object,
            parent,
            include: false,
        } => Some(hash_of_names(object, parent)),
        _ => None,
    }
}

// The state of a PolicyNvWritten.
pub fn written(assertion: &Assertion) -> Option<bool>
    ensures { result ≡ spec.written_in assertion.now }
{
    match assertion {
        Assertion::NvWritten(written) => Some(*written),
        _ => None,
    }
}

// What a PolicyAuthValue or PolicyPassword asks for.
pub fn auth(assertion: &Assertion) -> Option<LastAuth>
    ensures { result ≡ spec.auth_in assertion.now }
{
    match assertion {
        Assertion::AuthValue => Some(LastAuth::AuthValue),
        Assertion::Password => Some(LastAuth::Password),
        _ => None,
    }
}

// Whether it is a PolicyPCR.
pub fn is_pcr(assertion: &Assertion) -> bool
    ensures { result ≡ spec.is_pcr (Assert assertion.now) }
{
    match assertion {
        Assertion::Pcr { .. } => true,
        _ => false,
    }
}

// Whether it is a PolicyPhysicalPresence.
pub fn is_presence(assertion: &Assertion) -> bool
    ensures { result ≡ spec.is_presence (Assert assertion.now) }
{
    match assertion {
        Assertion::PhysicalPresence => true,
        _ => false,
    }
}

// The nameHash of the object's Name and the new parent's.
fn hash_of_names(object: &Name, parent: &Name) -> Digest32
    ensures { result ≡ spec.hash_of_names object.now parent.now }
{
    let mut hasher = Hasher::new();
    hasher.put_name(object);
    hasher.put_name(parent);
    hasher.done()
}
