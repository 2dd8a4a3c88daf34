// The strings that are hashed for a digest, in order of making.

ghost use Rattle.std.specs.Prelude.{◌≡◌, ◌++◌, IfOk, OnOk};
ghost use Rattle.std.specs.Option.{option_map, option_to_list};
ghost use Rattle.tpol_digest.specs.Digest as digest;
ghost use Rattle.tpol_digest.specs.Inputs as spec;
ghost use Rattle.tpol_tree.specs.Facts.{moves_of};
ghost use Rattle.tpol_digest.specs.Update.{update_of};
ghost use Rattle.tpol_digest.specs.UpdateBytes.{update_value};

use crate::policy::zero_digest;
use crate::update_bytes::{
    UpdateBytes, joined_digests, update_of_approve, update_of_approve_nv, update_of_assertion,
    update_of_move, update_of_or,
};
use std::alloc::Global;
use tpol_base::{Blob, Digest32, Digests, NoMemory};
use tpol_hash::{Inputs, hash};
use tpol_tree::{
    Approvals, Assertion, Closed, ClosedBranches, ClosedElement, ClosedElements, Fact, Facts, Move,
};

/// Every string that is hashed for a policy's digest, inner ones included, in order of making: in the
/// order of the elements, the PCR values joined or the comparison before the string that uses its hash,
/// and the first of two hashes before the second; the branches of an OR stand before the OR's own string.
/// Then come those of each approved document, in the order of the approvals.
pub fn inputs_of(alloc: Global, policy: &Closed, approvals: &Approvals) -> Result<Inputs, NoMemory>
    ensures { IfOk result (λ inputs. inputs ≡ spec.inputs_of_policy policy.now approvals.now) }
{
    let mut inputs = Inputs::new(alloc);
    let _ = push_elements(alloc, &mut inputs, &policy.elements, zero_digest())?;
    for document in approvals.as_slice() {
        let _ = push_elements(alloc, &mut inputs, &document.closed.elements, zero_digest())?;
    }
    Ok(inputs)
}

/// Every string that is hashed for the digest of the moves of facts, inner ones included, in order of
/// making. A fact has no values of PCRs, so there is no string of them.
pub fn inputs_of_facts(alloc: Global, facts: &Facts) -> Result<Inputs, NoMemory>
    ensures { IfOk result (λ inputs. inputs ≡ spec.inputs_of_facts facts.now) }
{
    let mut inputs = Inputs::new(alloc);
    push_facts(alloc, &mut inputs, facts.as_slice(), zero_digest())?;
    Ok(inputs)
}

// The string of an update's first hash.
fn string_of_first(alloc: Global, update: &UpdateBytes, before: &Digest32) -> Result<Blob, NoMemory>
    ensures { IfOk result (λ string. string
        ≡ digest.first_string (update_value update.now) before.now) }
{
    let mut string = if update.fresh {
        Blob::from_slice(alloc, &Digest32::ZERO.bytes)?
    } else {
        Blob::from_slice(alloc, &before.bytes)?
    };
    push_hashed(&mut string, update)?;
    Ok(string)
}

// Adds what the first hash takes behind its start: the code, the digest of the inner string and the rest.
fn push_hashed(string: &mut Blob, update: &UpdateBytes) -> Result<(), NoMemory>
    ensures { OnOk result (string.new
        ≡ string.old ++ digest.head_of (update_value update.now)) }
{
    string.extend_from_slice(&update.code.to_be_bytes())?;
    if let Some(inner) = &update.inner {
        string.extend_from_slice(&hash(inner.as_slice()).bytes)?;
    }
    string.extend_from_slice(update.rest.as_slice())
}

// Adds the string of a second hash, if there is one, at the end, and answers the digest after it.
fn push_second(
    alloc: Global,
    inputs: &mut Inputs,
    first: Digest32,
    policy_ref: &Option<Blob>,
) -> Result<Digest32, NoMemory>
    ensures digest { IfOk result (λ after. after ≡ digest.after_second policy_ref.now first) }
    ensures strings { OnOk result (inputs.new ≡ inputs.old
        ++ option_to_list (option_map (λ behind. first.bytes ++ behind) policy_ref.now)) }
{
    match policy_ref {
        None => Ok(first),
        Some(behind) => {
            let mut string = Blob::from_slice(alloc, &first.bytes)?;
            string.extend_from_slice(behind.as_slice())?;
            let after = hash(string.as_slice());
            inputs.push(string)?;
            Ok(after)
        }
    }
}

// Adds a copy of a string, if there is one, at the end.
fn push_inner(alloc: Global, inputs: &mut Inputs, inner: &Option<Blob>) -> Result<(), NoMemory>
    ensures { OnOk result (inputs.new ≡ inputs.old ++ option_to_list inner.now) }
{
    match inner {
        None => Ok(()),
        Some(string) => inputs.push(Blob::from_slice(alloc, string.as_slice())?),
    }
}

// Adds the strings of an update at the end, and answers the digest after it.
fn push_strings(
    alloc: Global,
    inputs: &mut Inputs,
    update: &UpdateBytes,
    before: &Digest32,
) -> Result<Digest32, NoMemory>
    ensures digest { IfOk result (λ after. after
        ≡ digest.after_update (update_value update.now) before.now) }
    ensures strings { OnOk result (inputs.new
        ≡ inputs.old ++ spec.strings_of (update_value update.now) before.now) }
{
    push_inner(alloc, inputs, &update.inner)?;
    let string = string_of_first(alloc, update, before)?;
    let first = hash(string.as_slice());
    inputs.push(string)?;
    push_second(alloc, inputs, first, &update.policy_ref)
}

// The same of an update that nothing else uses.
fn push_update(
    alloc: Global,
    inputs: &mut Inputs,
    update: UpdateBytes,
    before: &Digest32,
) -> Result<Digest32, NoMemory>
    ensures digest { IfOk result (λ after. after
        ≡ digest.after_update (update_value update) before.now) }
    ensures strings { OnOk result (inputs.new
        ≡ inputs.old ++ spec.strings_of (update_value update) before.now) }
{
    push_strings(alloc, inputs, &update, before)
}

// Adds the joined values of a PCR assertion at the end.
fn push_pcr_values(
    alloc: Global,
    inputs: &mut Inputs,
    assertion: &Assertion,
) -> Result<(), NoMemory>
    ensures { OnOk result (inputs.new ≡ inputs.old ++ spec.pcr_values assertion.now) }
{
    match assertion {
        Assertion::Pcr {
            mask: _,
            pcr_digest: _,
            values,
        } => {
            let string = joined_digests(alloc, values.as_slice())?;
            inputs.push(string)
        }
        _ => Ok(()),
    }
}

// Adds the strings of elements at the end, and answers the digest after them.
#[cycle(inputs)]
fn push_elements(
    alloc: Global,
    inputs: &mut Inputs,
    elements: &ClosedElements,
    before: Digest32,
) -> Result<Digest32, NoMemory>
    ensures digest { IfOk result (λ after. after ≡ digest.digest_at elements.now before) }
    ensures strings { OnOk result (inputs.new ≡ inputs.old ++ spec.inputs_at elements.now before) }
{
    match elements {
        ClosedElements::End => Ok(before),
        ClosedElements::More(element, rest) => {
            let after = push_element(alloc, inputs, element, before)?;
            push_elements(alloc, inputs, rest, after)
        }
    }
}

// The same of one element.
#[cycle(inputs)]
fn push_element(
    alloc: Global,
    inputs: &mut Inputs,
    element: &ClosedElement,
    before: Digest32,
) -> Result<Digest32, NoMemory>
    ensures digest { IfOk result (λ after. after ≡ digest.digest_at_element element.now before) }
    ensures strings { OnOk result (inputs.new
        ≡ inputs.old ++ spec.inputs_at_element element.now before) }
{
    match element {
        ClosedElement::Assert(assertion) => {
            push_pcr_values(alloc, inputs, assertion)?;
            let update = update_of_assertion(alloc, assertion)?;
            push_update(alloc, inputs, update, &before)
        }
        ClosedElement::Or(branches) => {
            let mut digests = Digests::new(alloc);
            push_branches(alloc, inputs, &mut digests, branches, before)?;
            let update = update_of_or(alloc, &digests)?;
            push_update(alloc, inputs, update, &before)
        }
        ClosedElement::Authorize { key, policy_ref } => {
            let update = update_of_approve(alloc, key, policy_ref)?;
            push_update(alloc, inputs, update, &before)
        }
        ClosedElement::AuthorizeNv { index } => {
            let update = update_of_approve_nv(alloc, index)?;
            push_update(alloc, inputs, update, &before)
        }
    }
}

// Adds the strings of branches at the end; adds the digests of the branches.
#[cycle(inputs)]
fn push_branches(
    alloc: Global,
    inputs: &mut Inputs,
    digests: &mut Digests,
    branches: &ClosedBranches,
    before: Digest32,
) -> Result<(), NoMemory>
    ensures digests { OnOk result (digests.new
        ≡ digests.old ++ digest.branch_digests branches.now before) }
    ensures strings { OnOk result (inputs.new
        ≡ inputs.old ++ spec.inputs_at_branches branches.now before) }
{
    match branches {
        ClosedBranches::End => Ok(()),
        ClosedBranches::More(branch, rest) => {
            let after = push_elements(alloc, inputs, &branch.policy.elements, before)?;
            digests.push(after)?;
            push_branches(alloc, inputs, digests, rest, before)
        }
    }
}

// Adds the strings of one move at the end, and answers the digest after it.
fn push_move(
    alloc: Global,
    inputs: &mut Inputs,
    act: &Move,
    before: &Digest32,
) -> Result<Digest32, NoMemory>
    ensures digest { IfOk result (λ after. after ≡ digest.digest_after act.now before.now) }
    ensures strings { OnOk result (inputs.new
        ≡ inputs.old ++ spec.strings_of (update_of act.now) before.now) }
{
    let update = update_of_move(alloc, act)?;
    push_update(alloc, inputs, update, before)
}

// Adds the strings of the moves of facts at the end.
fn push_facts(
    alloc: Global,
    inputs: &mut Inputs,
    facts: &[Fact],
    before: Digest32,
) -> Result<(), NoMemory>
    ensures { OnOk result (inputs.new
        ≡ inputs.old ++ spec.inputs_of_moves before (moves_of facts.now)) }
{
    match facts.split_first() {
        None => Ok(()),
        Some((fact, rest)) => {
            let after = push_move(alloc, inputs, &fact.act, &before)?;
            push_facts(alloc, inputs, rest, after)
        }
    }
}
