//! Policy documents.

ghost use Rattle.std.specs.Prelude.{IfOk, IfErr};
ghost use Rattle.serde_json.specs.View.{view};
ghost use Rattle.tpol_read.specs.Documents.{ReadsAsPolicy, IsRefused, document_in};
ghost use Rattle.tpol_members.specs.Walks.{LeavesAs};
ghost use Rattle.tpol_read.specs.RisingPcrs.{HasRisingPcrs};
ghost use Rattle.tpol_tree.specs.Bounds.{HasBounds};
ghost use Rattle.tpol_tree.specs.Elements.{HasBranchCounts};
ghost use Rattle.tpol_tree.specs.Erased.{erased_policy};

use crate::approvals::approvals_of_document;
use crate::elements::{MAX_LEVELS, policy};
use crate::members::description;
use serde_json::Value;
use std::alloc::Global;
use tpol_json::{Notes, ParseFault, Place, PlaceRef, check_object, parse};
use tpol_members::{ElementFault, PolicyFault, Walk, note_unknown};
use tpol_tree::Policy;

/// How many elements a document may have, those of ORs among them.
pub const MAX_ELEMENTS: u32 = 1024;

/// Reads a policy document (TCG TSS 2.0 JSON Data Types and Policy Language, TPMS_POLICY): the policy that
/// it stands for, and the places of its unknown members in reading order.
///
/// Ok comes exactly where the bytes are a JSON text whose document has no fault. Otherwise, want of memory
/// aside, `NotJson` comes exactly where the bytes are no JSON text, and else the first fault in reading order
/// with its kind and place: `description`, `policy`, `policyAuthorizations`; in an element its `type`, and then
/// the members of its row. An element past the 1,024th and an authorization past the eighth are `TooMany`, an
/// OR inside sixteen others is `TooDeep`, each before anything of it but an OR's type is read.
///
/// Each OR of a policy that is read has 2 to 64 branches, each field of its elements is within the bounds of the
/// wire, and each list of PCR values stands in strictly rising order of the PCRs, whatever the order in which the
/// document has them.
pub fn read_policy(alloc: Global, bytes: &[u8]) -> Result<(Policy, Notes), PolicyFault>
    ensures stands { IfOk result
        (λ found. ReadsAsPolicy bytes.now (erased_policy found.0) found.1) }
    ensures branches { IfOk result (λ found. HasBranchCounts found.0.elements) }
    ensures bounded { IfOk result (λ found. HasBounds found.0) }
    ensures rising { IfOk result (λ found. HasRisingPcrs found.0.elements) }
    ensures refused { IfErr result (IsRefused bytes.now) }
{
    let value = match parse(alloc, bytes) {
        Ok(value) => value,
        Err(ParseFault::NotJson) => return Err(PolicyFault::NotJson),
        Err(ParseFault::NoMemory) => return Err(PolicyFault::NoMemory),
    };
    let mut walk = Walk {
        notes: Notes::new(alloc),
        left: MAX_ELEMENTS,
    };
    let root = Place::root(alloc);
    match document(alloc, &value, &PlaceRef::at(&root), &mut walk) {
        Ok(policy) => Ok((policy, walk.notes)),
        Err(ElementFault::Bad { kind, place }) => Err(PolicyFault::Bad { kind, place }),
        Err(ElementFault::NoMemory) => Err(PolicyFault::NoMemory),
    }
}

#[tactic(auto, unfolding(crate::specs::Documents::document_in))]
fn document(
    alloc: Global,
    value: &Value,
    place: &PlaceRef<'_>,
    walk: &mut Walk,
) -> Result<Policy, ElementFault>
    ensures { LeavesAs erased_policy result walk.new
        (document_in (view value.now) place.now walk.old) }
{
    check_object(alloc, value, place)?;
    let description = description(alloc, value, place)?;
    let elements = policy(alloc, value, place, MAX_LEVELS, walk)?;
    let approvals = approvals_of_document(alloc, value, place, walk)?;
    let known = [
        "description",
        "policy",
        "policyDigests",
        "policyAuthorizations",
    ];
    note_unknown(alloc, value, &known, place, walk)?;
    Ok(Policy {
        description,
        elements,
        approvals,
    })
}
