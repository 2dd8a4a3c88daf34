//! The types of elements, and the members that each has.

ghost use Rattle.std.specs.Prelude.{◌≡◌, map, OnOk};
ghost use Rattle.serde_json.specs.View.{view};
ghost use Rattle.tpol_json.specs.Reading.{Gives};
ghost use Rattle.tpol_members.specs.Members.{noted};
ghost use Rattle.tpol_elements.specs.Types.{leaf_members, type_in};

use serde_json::Value;
use std::alloc::Global;
use tpol_base::NoMemory;
use tpol_json::PlaceRef;
use tpol_members::{ElementFault, PolicyKind, Walk, note_unknown, only_word};

/// What an element of a policy document is, by its `type`.
#[derive(Clone, Copy)]
pub enum ElementType {
    /// POLICYOR.
    Or,
    /// An element that holds no other elements.
    Leaf(LeafType),
    /// POLICYTEMPLATE and POLICYACTION.
    Unsupported,
}

/// The elements that hold no other elements.
#[derive(Clone, Copy)]
pub enum LeafType {
    /// POLICYPCR.
    Pcr,
    /// POLICYNV.
    Nv,
    /// POLICYSECRET.
    Secret,
    /// POLICYSIGNED.
    Signed,
    /// POLICYAUTHORIZE.
    Authorize,
    /// POLICYAUTHORIZENV.
    AuthorizeNv,
    /// POLICYLOCALITY.
    Locality,
    /// POLICYCOMMANDCODE.
    CommandCode,
    /// POLICYCPHASH.
    CpHash,
    /// POLICYNAMEHASH.
    NameHash,
    /// POLICYCOUNTERTIMER.
    CounterTimer,
    /// POLICYDUPLICATIONSELECT.
    DuplicationSelect,
    /// POLICYNVWRITTEN.
    NvWritten,
    /// POLICYAUTHVALUE.
    AuthValue,
    /// POLICYPASSWORD.
    Password,
    /// POLICYPHYSICALPRESENCE.
    PhysicalPresence,
}

/// The type that a text names, in any case, with or without `POLICY` in front; other texts are
/// `UnknownType`, and a value of another kind is `WrongKind`.
#[tactic(auto, unfolding(crate::specs::Types::type_in))]
pub fn element_type(
    alloc: Global,
    value: &Value,
    place: &PlaceRef<'_>,
) -> Result<ElementType, ElementFault>
    ensures { Gives result (type_in (view value.now) place.now) }
{
    only_word(
        alloc,
        value,
        "POLICY",
        &[
            ("OR", ElementType::Or),
            ("PCR", ElementType::Leaf(LeafType::Pcr)),
            ("NV", ElementType::Leaf(LeafType::Nv)),
            ("SECRET", ElementType::Leaf(LeafType::Secret)),
            ("SIGNED", ElementType::Leaf(LeafType::Signed)),
            ("AUTHORIZE", ElementType::Leaf(LeafType::Authorize)),
            ("AUTHORIZENV", ElementType::Leaf(LeafType::AuthorizeNv)),
            ("LOCALITY", ElementType::Leaf(LeafType::Locality)),
            ("COMMANDCODE", ElementType::Leaf(LeafType::CommandCode)),
            ("CPHASH", ElementType::Leaf(LeafType::CpHash)),
            ("NAMEHASH", ElementType::Leaf(LeafType::NameHash)),
            ("COUNTERTIMER", ElementType::Leaf(LeafType::CounterTimer)),
            (
                "DUPLICATIONSELECT",
                ElementType::Leaf(LeafType::DuplicationSelect),
            ),
            ("NVWRITTEN", ElementType::Leaf(LeafType::NvWritten)),
            ("AUTHVALUE", ElementType::Leaf(LeafType::AuthValue)),
            ("PASSWORD", ElementType::Leaf(LeafType::Password)),
            (
                "PHYSICALPRESENCE",
                ElementType::Leaf(LeafType::PhysicalPresence),
            ),
            ("TEMPLATE", ElementType::Unsupported),
            ("ACTION", ElementType::Unsupported),
        ],
        PolicyKind::UnknownType,
        place,
    )
}

/// The members that an element of this type may have. `approvedPolicy` of an AUTHORIZE is one of them, and is
/// passed over.
fn leaf_members(leaf: LeafType) -> &'static [&'static str]
    ensures { map (λ name. name.now) result.now ≡ leaf_members leaf }
{
    match leaf {
        LeafType::Pcr => &["type", "pcrs", "currentPCRs", "currentPCRandBanks"],
        LeafType::Nv => &[
            "type",
            "nvPath",
            "nvPublic",
            "operandB",
            "offset",
            "operation",
        ],
        LeafType::Secret => &[
            "type",
            "objectPath",
            "objectName",
            "policyRef",
            "cpHashA",
            "expiration",
        ],
        LeafType::Signed => &[
            "type",
            "keyPath",
            "keyPublic",
            "publicKey",
            "policyRef",
            "cpHashA",
            "expiration",
        ],
        LeafType::Authorize => &[
            "type",
            "keyPath",
            "keyPublic",
            "publicKey",
            "policyRef",
            "approvedPolicy",
        ],
        LeafType::AuthorizeNv => &["type", "nvPath", "nvPublic"],
        LeafType::Locality => &["type", "locality"],
        LeafType::CommandCode => &["type", "code"],
        LeafType::CpHash => &["type", "cpHash"],
        LeafType::NameHash => &["type", "nameHash", "objectNames", "namePaths"],
        LeafType::CounterTimer => &["type", "operandB", "offset", "operation"],
        LeafType::DuplicationSelect => &[
            "type",
            "newParentPath",
            "newParentPublic",
            "newParentName",
            "includeObject",
            "objectName",
        ],
        LeafType::NvWritten => &["type", "writtenSet"],
        LeafType::AuthValue => &["type"],
        LeafType::Password => &["type"],
        LeafType::PhysicalPresence => &["type"],
    }
}

/// Notes the members of an element that its row has not.
pub fn note_leaf(
    alloc: Global,
    leaf: LeafType,
    value: &Value,
    place: &PlaceRef<'_>,
    walk: &mut Walk,
) -> Result<(), NoMemory>
    ensures { OnOk result (walk.new
        ≡ noted (leaf_members leaf) (view value.now) place.now walk.old) }
{
    note_unknown(alloc, value, leaf_members(leaf), place, walk)
}
