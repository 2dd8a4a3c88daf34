//! The policy, the machine and the client of the command `gen`.

ghost use Rattle.std.specs.Prelude.{◌≡◌, ◌+◌, ◌≤◌, [], ◌∷◌, IfOk, codes};
ghost use Rattle.tpol_generate.specs.Generate.{before, generated_object, generated_or, generated_ors, generated_policy, generated_run, generated_seed, generated_setup, two_branches, zero_pcr, zero_pcrs};
ghost use Rattle.tpol_name.specs.Setups.{IsSetup};
ghost use Rattle.tpol_tree.specs.declared.policy.Branches.TheVariants.{More' as MoreBranches'};
ghost use Rattle.tpol_tree.specs.declared.policy.Element.TheVariants.{Or};
ghost use Rattle.tpol_tree.specs.declared.policy.Elements.TheVariants.{End};
ghost use Rattle.tpol_tree.specs.Elements.{EachElementOfBranches, EachElementWithin, HasBranchCount, HasBranchCounts, branch_count};
ghost use Rattle.tpol_tree.specs.Erased.{erased_branches, erased_element, erased_elements, erased_policy, nowhere};

use std::alloc::Global;
use tpol_base::{Blob, Digest32, Digests, NoMemory, Sequence, Text};
use tpol_digest::zero_digest;
use tpol_goal::{Goal, Grants};
use tpol_name::{Indices, ObjectEntry, ObjectPublic, Objects, Scheme, Setup};
use tpol_perform::NewRun;
use tpol_tree::{ApprovalWishes, Branch, Branches, Element, Elements, PcrValues, PcrWish, Policy};

/// The handle of the sealed object.
const HANDLE: u32 = 0x8000_0000;

/// The policy: so many ORs, whose branches stand in an order by the bits of a number, and PolicyAuthValue behind them.
/// It fails only where memory ran out.
pub fn generated_policy(alloc: Global, ors: u8, order: u32) -> Result<Policy, NoMemory>
    ensures policy { IfOk result (λ policy. erased_policy policy ≡ generated_policy ors order) }
    ensures branches { IfOk result (λ policy. HasBranchCounts policy.elements) }
{
    let elements = generated_ors(alloc, ors, 0, order)?;
    Ok(Policy {
        description: Text::new(alloc),
        elements,
        approvals: ApprovalWishes::new(alloc),
    })
}

// So many ORs from a PCR on.
#[tactic(auto, using(crate::proofs::GeneratedSetups::ors_step), unfolding(crate::specs::Generate::generated_ors))]
fn generated_ors(alloc: Global, more: u8, pcr: u8, bits: u32) -> Result<Elements, NoMemory>
    requires few { pcr + more ≤ 255 }
    ensures elements { IfOk result (λ elements. erased_elements elements
        ≡ generated_ors more pcr bits) }
    ensures branches { IfOk result HasBranchCounts }
{
    if more == 0 {
        return before(alloc, Element::AuthValue, Elements::End);
    }
    let rest = generated_ors(alloc, more - 1, pcr + 1, bits / 2)?;
    match generated_or(alloc, bits % 2 == 1, pcr) {
        Ok(element) => before(alloc, element, rest),
        Err(NoMemory) => {
            drop(rest);
            Err(NoMemory)
        }
    }
}

// An element and those behind it.
fn before(alloc: Global, element: Element, rest: Elements) -> Result<Elements, NoMemory>
    ensures elements { IfOk result (λ elements. erased_elements elements
        ≡ before (erased_element element) (erased_elements rest)) }
    ensures branches { EachElementWithin HasBranchCount element → HasBranchCounts rest
        → IfOk result HasBranchCounts }
{
    match Box::new(alloc, element) {
        Ok(element) => {
            let rest = Box::new(alloc, rest)?;
            Ok(Elements::More(element, rest))
        }
        Err(failed) => {
            drop(rest);
            Err(NoMemory::from(failed))
        }
    }
}

// The OR of a PCR.
fn generated_or(alloc: Global, swapped: bool, pcr: u8) -> Result<Element, NoMemory>
    ensures element { IfOk result (λ element. erased_element element ≡ generated_or swapped pcr) }
    ensures branches { IfOk result (EachElementWithin HasBranchCount) }
{
    let b = branch(alloc, "b", zero_pcr(alloc, pcr)?)?;
    match branch(alloc, "a", Element::Locality(2)) {
        Ok(a) => {
            if swapped {
                two_branches(alloc, b, a)
            } else {
                two_branches(alloc, a, b)
            }
        }
        Err(NoMemory) => {
            drop(b);
            Err(NoMemory)
        }
    }
}

// A PCR of 32 zero bytes.
fn zero_pcr(alloc: Global, pcr: u8) -> Result<Element, NoMemory>
    ensures { IfOk result (λ element. element ≡ zero_pcr pcr) }
{
    let mut values = PcrValues::new(alloc);
    values.push((pcr, zero_digest()))?;
    Ok(Element::Pcr(PcrWish::Values(values)))
}

// A branch with one element.
fn branch(alloc: Global, name: &str, element: Element) -> Result<Branch, NoMemory>
    ensures name { IfOk result (λ branch. branch.name ≡ name.now) }
    ensures description { IfOk result (λ branch. branch.description ≡ []) }
    ensures elements { IfOk result (λ branch. erased_elements branch.elements
        ≡ before (erased_element element) End) }
    ensures branches { EachElementWithin HasBranchCount element
        → IfOk result (λ branch. HasBranchCounts branch.elements) }
{
    let elements = before(alloc, element, Elements::End)?;
    match Text::from_str(alloc, name) {
        Ok(name) => Ok(Branch {
            name,
            description: Text::new(alloc),
            elements,
        }),
        Err(NoMemory) => {
            drop(elements);
            Err(NoMemory)
        }
    }
}

fn two_branches(alloc: Global, first: Branch, second: Branch) -> Result<Element, NoMemory>
    requires descriptions { (first.description ≡ []) × (second.description ≡ []) }
    ensures branches { HasBranchCounts first.elements → HasBranchCounts second.elements
        → IfOk result (EachElementWithin HasBranchCount) }
    ensures element { IfOk result (λ element. erased_element element
        ≡ Or (two_branches first.name (erased_elements first.elements) second.name
        (erased_elements second.elements))) }
{
    match branch_before(alloc, second, Branches::End) {
        Ok(behind) => {
            let branches = branch_before(alloc, first, behind)?;
            Ok(Element::Or(branches))
        }
        Err(NoMemory) => {
            drop(first);
            Err(NoMemory)
        }
    }
}

// A branch and those behind it.
fn branch_before(alloc: Global, branch: Branch, rest: Branches) -> Result<Branches, NoMemory>
    ensures branches { IfOk result (λ branches. erased_branches branches
        ≡ MoreBranches' nowhere branch.name branch.description
        (erased_elements branch.elements) nowhere (erased_branches rest)) }
    ensures count { IfOk result (λ branches. branch_count branches ≡ branch_count rest + 1) }
    ensures within { HasBranchCounts branch.elements → EachElementOfBranches HasBranchCount rest
        → IfOk result (EachElementOfBranches HasBranchCount) }
{
    match Box::new(alloc, branch) {
        Ok(branch) => {
            let rest = Box::new(alloc, rest)?;
            Ok(Branches::More(branch, rest))
        }
        Err(failed) => {
            drop(rest);
            Err(NoMemory::from(failed))
        }
    }
}

/// What the machine starts from: a sealed object with this authPolicy, and a seed that ends with the number. It
/// fails only where memory ran out.
pub fn generated_setup(alloc: Global, order: u32, digest: &Digest32) -> Result<Setup, NoMemory>
    ensures setup { IfOk result (λ setup. setup ≡ generated_setup order digest.now) }
    ensures condition { IfOk result IsSetup }
{
    let setup = setup_of_parts(alloc, order, digest)?;
    Ok(setup)
}

#[tactic(auto, unfolding(crate::specs::Generate::generated_setup))]
fn setup_of_parts(alloc: Global, order: u32, digest: &Digest32) -> Result<Setup, NoMemory>
    ensures { IfOk result (λ setup. setup ≡ generated_setup order digest.now) }
{
    let pcrs = zero_pcrs(alloc)?;
    let objects = generated_objects(alloc, digest)?;
    Ok(Setup {
        seed: generated_seed(order),
        owner: Blob::new(alloc),
        endorsement: Blob::new(alloc),
        lockout: Blob::new(alloc),
        pcrs,
        pcr_counter: 0,
        objects,
        indices: Indices::new(alloc),
        time: 0,
        reset_count: 0,
        restart_count: 0,
        safe: true,
        presence: false,
    })
}

fn generated_objects(alloc: Global, digest: &Digest32) -> Result<Objects, NoMemory>
    ensures { IfOk result (λ objects. objects ≡ generated_object digest.now ∷ []) }
{
    let object = generated_object(alloc, digest)?;
    let mut objects = Objects::new(alloc);
    objects.push(object)?;
    Ok(objects)
}

// 24 PCRs of 32 zero bytes.
#[tactic(auto, unfolding(crate::specs::Generate::zero_pcrs))]
fn zero_pcrs(alloc: Global) -> Result<Digests, NoMemory>
    ensures { IfOk result (λ pcrs. pcrs ≡ zero_pcrs) }
{
    Sequence::from_slice(alloc, &[zero_digest(); 24])
}

// 28 zero bytes and the number.
#[tactic(auto, unfolding(crate::specs::Generate::generated_seed))]
fn generated_seed(order: u32) -> Digest32
    ensures { result ≡ generated_seed order }
{
    let mut bytes = [0; 32];
    bytes[28..].copy_from_slice(&order.to_be_bytes());
    Digest32 { bytes }
}

fn generated_object(alloc: Global, digest: &Digest32) -> Result<ObjectEntry, NoMemory>
    ensures { IfOk result (λ object. object ≡ generated_object digest.now) }
{
    let auth_policy = Blob::from_slice(alloc, &digest.bytes)?;
    let path = Text::from_str(alloc, "gen")?;
    let (auth, secret) = object_values(alloc)?;
    let public = ObjectPublic {
        attributes: 0x40,
        auth_policy,
        scheme: Scheme::Sealed,
        unique: Blob::new(alloc),
    };
    Ok(ObjectEntry {
        path,
        handle: HANDLE,
        public,
        auth,
        secret,
    })
}

// The authorization value of the object, and its secret.
fn object_values(alloc: Global) -> Result<(Blob, Blob), NoMemory>
    ensures { IfOk result (λ values. values ≡ (1 ∷ [], codes "gen")) }
{
    let auth = Blob::from_slice(alloc, &[1])?;
    let secret = Blob::from_slice(alloc, "gen".as_bytes())?;
    Ok((auth, secret))
}

/// The run: client 1 holds the object's value, and wants its secret. It fails only where memory ran out.
pub fn generated_run(alloc: Global) -> Result<NewRun, NoMemory>
    ensures { IfOk result (λ run. run ≡ generated_run) }
{
    let value = Blob::from_slice(alloc, &[1])?;
    let mut secrets = Sequence::new(alloc);
    secrets.push((HANDLE, value))?;
    Ok(NewRun {
        number: 1,
        client: 1,
        locality: 0,
        goal: Goal::Unseal { object: HANDLE },
        grants: Grants {
            secrets,
            keys: Sequence::new(alloc),
        },
    })
}
