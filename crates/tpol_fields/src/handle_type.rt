ghost use Rattle.std.specs.Prelude.{◌≡◌};
ghost use Rattle.tpol_fields.specs.HandleTypes.{is_of_type};

use tpol_base::handle::{TPM_RH_ENDORSEMENT, TPM_RH_LOCKOUT, TPM_RH_NULL, TPM_RH_OWNER};

/// What a handle of a command may name (TPM 2.0 Part 2, "Interface Types").
#[derive(Clone, Copy)]
pub enum HandleType {
    /// A policy session (TPMI_SH_POLICY).
    PolicySession,
    /// A loaded object (TPMI_DH_OBJECT).
    Object,
    /// An NV index (TPMI_RH_NV_INDEX).
    Index,
    /// The owner, lockout or endorsement hierarchy, an object or an index (TPMI_DH_ENTITY).
    Entity,
    /// The owner hierarchy or an index (TPMI_RH_NV_AUTH).
    Authority,
    /// A PCR (TPMI_DH_PCR).
    Pcr,
    /// The null hierarchy.
    Null,
    /// The null hierarchy or an object.
    Parent,
}

impl HandleType {
    /// Whether a handle is of this type.
    pub fn has(self, handle: u32) -> bool
        ensures { result ≡ is_of_type self handle }
    {
        let range = handle >> 24;
        match self {
            HandleType::PolicySession => range == 0x03,
            HandleType::Object => range == 0x80,
            HandleType::Index => range == 0x01,
            HandleType::Entity => {
                handle == TPM_RH_OWNER
                    || handle == TPM_RH_LOCKOUT
                    || handle == TPM_RH_ENDORSEMENT
                    || range == 0x80
                    || range == 0x01
            }
            HandleType::Authority => handle == TPM_RH_OWNER || range == 0x01,
            HandleType::Pcr => handle < 24,
            HandleType::Null => handle == TPM_RH_NULL,
            HandleType::Parent => handle == TPM_RH_NULL || range == 0x80,
        }
    }
}
