//! Policies, element after element.

ghost use Rattle.std.specs.Prelude.{◌≡◌, ◌∷◌, [], true, IfOk, IfErr, List};
ghost use Rattle.std.specs.Option.{option_copied};
ghost use Rattle.tpol_base.specs.Answers.{IsRefusal};
ghost use Rattle.tpol_digest.specs.Digest.{policy_digest};
ghost use Rattle.tpol_digest.specs.Paths.{paths_of};
ghost use Rattle.tpol_digest.specs.WellFormed.{HasPcrDigest, IsWellFormedPolicy};
ghost use Rattle.tpol_tree.specs.Bounds.{HasBounds, HasClosedBounds};
ghost use Rattle.tpol_tree.specs.Closed.{ApprovalsLead, EachAssertion, HasBranchCounts};
ghost use Rattle.tpol_tree.specs.Elements as written;
ghost use Rattle.tpol_fill.specs.Forms.{IsFilledPolicy};
ghost use Rattle.tpol_fill.specs.declared.fault.FillFault.TheVariants.{NoMemory as no_memory};
ghost use Rattle.tpol_tree.specs.ClosedErased.{erased, erased_element, erased_elements};
ghost use Rattle.tpol_fill.specs.Groups.{branches_in};
ghost use Rattle.tpol_fill.specs.Outcome.{cause};
ghost use Rattle.tpol_tree.specs.Erased.{nowhere};
ghost use Rattle.tpol_fill.specs.Filling.{FillsBranches, FillsElement, FillsElements, fill_faults, filled, first_fault};
ghost use Rattle.tpol_tree.specs.declared.path.ApprovedDoc.{ApprovedDoc as ApprovedDocument};
ghost use Rattle.tpol_tree.specs.declared.closed.ClosedElements.TheVariants.{More'};

use crate::FillFault;
use crate::groups::grouped;
use crate::leaves::{
    fill_authorize, fill_authorize_nv, fill_duplication, fill_entity, fill_name_hash, fill_pcr,
    fill_written,
};
use std::alloc::Global;
use tpol_base::Text;
use tpol_json::{Place, PlaceRef};
use tpol_name::Sight;
use tpol_tree::{
    Branches, Closed, ClosedBranch, ClosedBranches, ClosedElement, ClosedElements, Element,
    Elements, Policy,
};

/// The policy with every wish given, and each OR of more than eight branches as an OR of groups (see `filled`), or the
/// first place that is at fault: places are those of the document's canonical text, `policy[k]`, then the member.
/// `NoMemory` may come in place of either.
///
/// - `NoSuchPath`: no entity of the wanted kind has the path: any entity or hierarchy for `objectPath` and
///   `namePaths`, an object for `keyPath` and `newParentPath`, an index for `nvPath`. Without a sight only the
///   hierarchies `HS`, `HE` and `LOCKOUT` are there.
/// - `NoSuchPcr`: a PCR above 23, or a current value that the sight does not have, as where there is no sight.
/// - `NotKeyedHash`: a key's path or public area is not an HMAC key with the attribute sign.
/// - `VoidPrefix`: a POLICYAUTHORIZE or POLICYAUTHORIZENV has an element before it in its list, or before a
///   POLICYOR that encloses it. It comes before the other kinds at that element.
pub fn fill(alloc: Global, policy: &Policy, sight: Option<&Sight>) -> Result<Closed, FillFault>
    ensures filled { IfOk result (λ closed. erased closed
        ≡ filled policy.now (option_copied sight.entry)) }
    ensures clear { IfOk result (λ _. fill_faults policy.now (option_copied sight.entry) ≡ []) }
    ensures refused { IfErr result
        (λ fault. IsRefusal (cause fault) (first_fault policy.now (option_copied sight.entry))) }
    ensures branches { written.HasBranchCounts policy.now.elements
        → IfOk result (λ closed. HasBranchCounts closed.elements) }
    ensures approvals_lead { IfOk result (λ closed. ApprovalsLead true closed.elements) }
    ensures pcr_digests { IfOk result (λ closed. EachAssertion HasPcrDigest closed.elements) }
    ensures well_formed { IfOk result IsWellFormedPolicy }
    ensures form { written.HasBranchCounts policy.now.elements → IfOk result IsFilledPolicy }
    ensures bounded { HasBounds policy.now → IfOk result HasClosedBounds }
    ensures digest { IfOk result (λ closed.
        policy_digest closed ≡ policy_digest (filled policy.now (option_copied sight.entry))) }
    ensures paths { IfOk result (λ closed. (documents : List ApprovedDocument) →
        paths_of closed documents
        ≡ paths_of (filled policy.now (option_copied sight.entry)) documents) }
{
    let root = Place::root(alloc);
    let document = PlaceRef::at(&root);
    let list = document.member("policy");
    let elements = fill_elements(alloc, &policy.elements, sight, true, &list, 0)?;
    Ok(Closed { elements })
}

// The elements of a list that stands at `list`, from the item `index` on. `leads` says whether no element
// stands before them.
#[cycle(fill)]
fn fill_elements(
    alloc: Global,
    elements: &Elements,
    sight: Option<&Sight>,
    leads: bool,
    list: &PlaceRef<'_>,
    index: usize,
) -> Result<ClosedElements, FillFault>
    ensures { FillsElements (option_copied sight.entry) leads list.now index elements.now result }
{
    match elements {
        Elements::End => Ok(ClosedElements::End),
        Elements::More(element, rest) => {
            let place = (&*list).item(index);
            let Some(next) = index.checked_add(1) else {
                return Err(FillFault::NoMemory);
            };
            let first = fill_element(alloc, element, sight, leads, &place)?;
            match fill_elements(alloc, rest, sight, false, list, next) {
                Ok(others) => join_elements(alloc, first, others),
                Err(fault) => {
                    drop(first);
                    Err(fault)
                }
            }
        }
    }
}

// An element that stands at `place`.
#[cycle(fill)]
#[tactic(auto, using(crate::proofs::GroupLemmas::branches_of_branches_in))]
fn fill_element(
    alloc: Global,
    element: &Element,
    sight: Option<&Sight>,
    leads: bool,
    place: &PlaceRef<'_>,
) -> Result<ClosedElement, FillFault>
    ensures { FillsElement (option_copied sight.entry) leads place.now element.now result }
{
    match element {
        Element::Or(branches) => {
            let list = (&*place).member("branches");
            let closed = fill_branches(alloc, branches, sight, leads, &list, 0)?;
            Ok(ClosedElement::Or(grouped(alloc, closed)?))
        }
        Element::Authorize { key, policy_ref } => {
            fill_authorize(alloc, key, policy_ref, sight, leads, place)
        }
        Element::AuthorizeNv { index } => fill_authorize_nv(alloc, index, sight, leads, place),
        Element::Pcr(wish) => fill_pcr(alloc, wish, sight, place),
        Element::NameHash(wish) => fill_name_hash(alloc, wish, sight, place),
        Element::Duplication {
            object,
            parent,
            include,
        } => fill_duplication(alloc, *object, parent, *include, sight, place),
        Element::Nv { .. } | Element::Secret { .. } | Element::Signed { .. } => {
            fill_entity(alloc, element, sight, place)
        }
        Element::Locality(_)
        | Element::CommandCode(_)
        | Element::CpHash(_)
        | Element::CounterTimer { .. }
        | Element::NvWritten(_)
        | Element::AuthValue
        | Element::Password
        | Element::PhysicalPresence => fill_written(alloc, element),
    }
}

// The branches of a list that stands at `list`, from the item `index` on.
#[cycle(fill)]
fn fill_branches(
    alloc: Global,
    branches: &Branches,
    sight: Option<&Sight>,
    leads: bool,
    list: &PlaceRef<'_>,
    index: usize,
) -> Result<ClosedBranches, FillFault>
    ensures { FillsBranches (option_copied sight.entry) leads list.now index branches.now result }
{
    match branches {
        Branches::End => Ok(ClosedBranches::End),
        Branches::More(branch, rest) => {
            let item = (&*list).item(index);
            let place = item.member("policy");
            let Some(next) = index.checked_add(1) else {
                return Err(FillFault::NoMemory);
            };
            let elements = fill_elements(alloc, &branch.elements, sight, leads, &place, 0)?;
            let others = fill_branches(alloc, rest, sight, leads, list, next)?;
            join_branches(alloc, &branch.name, elements, others)
        }
    }
}

fn join_elements(
    alloc: Global,
    first: ClosedElement,
    others: ClosedElements,
) -> Result<ClosedElements, FillFault>
    ensures value { IfOk result (λ closed. erased_elements closed
        ≡ More' nowhere (erased_element first) nowhere (erased_elements others)) }
    ensures memory { IfErr result (λ fault. fault ≡ no_memory) }
{
    let first = Box::new(alloc, first)?;
    let others = Box::new(alloc, others)?;
    Ok(ClosedElements::More(first, others))
}

fn join_branches(
    alloc: Global,
    name: &Text,
    elements: ClosedElements,
    others: ClosedBranches,
) -> Result<ClosedBranches, FillFault>
    ensures value { IfOk result (λ closed. branches_in closed
        ≡ (name.now, erased_elements elements) ∷ branches_in others) }
    ensures memory { IfErr result (λ fault. fault ≡ no_memory) }
{
    let branch = ClosedBranch {
        name: name.try_clone(alloc)?,
        policy: Closed { elements },
    };
    let first = Box::new(alloc, branch)?;
    let others = Box::new(alloc, others)?;
    Ok(ClosedBranches::More(first, others))
}
