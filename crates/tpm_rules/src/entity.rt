//! The entity that a command's first handle stands for, and how it may be authorized.

ghost use Rattle.std.specs.Prelude.{◌≡◌};
ghost use Rattle.tpm_rules.specs.Entity as spec;
ghost use Rattle.tpm_rules.specs.EntityView.{entity_of};

use tpol_base::CommandCode;
use tpol_base::attributes::{
    NV_AUTHREAD, NV_AUTHWRITE, NV_NO_DA, NV_POLICYREAD, NV_POLICYWRITE, OBJECT_NO_DA,
    OBJECT_USER_WITH_AUTH, has_attribute,
};
use tpol_base::handle::TPM_RH_LOCKOUT;
use tpol_name::{IndexEntry, ObjectEntry, written};

/// What a handle that is authorized stands for (TPM 2.0 Part 1, "Authorizations and Acknowledgments").
#[derive(Clone, Copy)]
pub enum Entity<'a> {
    /// A hierarchy, with its authorization value.
    Hierarchy { handle: u32, auth: &'a [u8] },
    /// A PCR, whose authorization value is empty.
    Pcr,
    Object(&'a ObjectEntry),
    Index(&'a IndexEntry),
}

impl<'a> Entity<'a> {
    /// The authorization value.
    pub fn auth_value(&self) -> &'a [u8]
        ensures value { result.now ≡ spec.auth_value_of (entity_of self.now) }
    {
        match *self {
            Entity::Hierarchy { handle: _, auth } => auth,
            Entity::Pcr => &[],
            Entity::Object(object) => object.auth.as_slice(),
            Entity::Index(index) => index.auth.as_slice(),
        }
    }

    /// The authPolicy; empty of a hierarchy and of a PCR.
    pub fn auth_policy(&self) -> &'a [u8]
        ensures policy { result.now ≡ spec.auth_policy_of (entity_of self.now) }
    {
        match *self {
            Entity::Hierarchy { .. } | Entity::Pcr => &[],
            Entity::Object(object) => object.public.auth_policy.as_slice(),
            Entity::Index(index) => index.public.auth_policy.as_slice(),
        }
    }

    /// Whether its authorization value may authorize the command of this code: that of a hierarchy and of a PCR
    /// always, that of an object with userWithAuth for all but Duplicate, that of an index with AUTHWRITE for
    /// NV_Write and NV_Increment and with AUTHREAD for the rest.
    pub fn is_password_available(&self, code: u32) -> bool
        ensures available { result ≡ spec.is_password_available (entity_of self.now) code }
    {
        match *self {
            Entity::Hierarchy { .. } | Entity::Pcr => true,
            Entity::Object(object) => {
                !is_duplicate(code)
                    && has_attribute(object.public.attributes, OBJECT_USER_WITH_AUTH)
            }
            Entity::Index(index) => {
                let attribute = if is_nv_writing(code) {
                    NV_AUTHWRITE
                } else {
                    NV_AUTHREAD
                };
                has_attribute(index.public.attributes, attribute)
            }
        }
    }

    /// Whether a policy session may authorize the command of this code: for an object always, for an index
    /// with POLICYWRITE for writing and with POLICYREAD for the rest.
    pub fn is_policy_available(&self, code: u32) -> bool
        ensures available { result ≡ spec.is_policy_available (entity_of self.now) code }
    {
        match *self {
            Entity::Hierarchy { .. } | Entity::Pcr => false,
            Entity::Object(_) => true,
            Entity::Index(index) => {
                let attribute = if is_nv_writing(code) {
                    NV_POLICYWRITE
                } else {
                    NV_POLICYREAD
                };
                has_attribute(index.public.attributes, attribute)
            }
        }
    }

    /// Whether a wrong value counts as a dictionary attack.
    pub fn is_da_protected(&self) -> bool
        ensures protected { result ≡ spec.is_da_protected (entity_of self.now) }
    {
        match *self {
            Entity::Hierarchy { handle, auth: _ } => handle == TPM_RH_LOCKOUT,
            Entity::Pcr => false,
            Entity::Object(object) => !has_attribute(object.public.attributes, OBJECT_NO_DA),
            Entity::Index(index) => !has_attribute(index.public.attributes, NV_NO_DA),
        }
    }

    /// Whether it was written where it is an index; `None` where it is none.
    pub fn written_state(&self) -> Option<bool>
        ensures state { result ≡ spec.written_state (entity_of self.now) }
    {
        match *self {
            Entity::Index(index) => Some(written(&index.public)),
            Entity::Hierarchy { .. } | Entity::Pcr | Entity::Object(_) => None,
        }
    }
}

// Whether the command of this code writes an index.
pub fn is_nv_writing(code: u32) -> bool
    ensures { result ≡ spec.is_nv_writing code }
{
    code == CommandCode::NvWrite.number() || code == CommandCode::NvIncrement.number()
}

// Whether the command of this code needs the role DUP.
pub fn is_duplicate(code: u32) -> bool
    ensures { result ≡ spec.is_duplicate code }
{
    code == CommandCode::Duplicate.number()
}
