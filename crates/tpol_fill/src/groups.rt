//! ORs of more than eight branches. PolicyOR takes at most eight digests (TPM 2.0 Part 3, PolicyOR), so such
//! an OR becomes an OR of groups.

ghost use Rattle.std.specs.Prelude.{◌≡◌, ◌++◌, ◌∷◌, IfOk, codes, decimal, drop, length, nat_lt, take};
ghost use Rattle.tpol_fill.specs.Groups.{branches_in, grouped, in_eights, numbered, or_of};

use std::alloc::Global;
use std::mem;
use tpol_base::{NoMemory, Text};
use tpol_tree::{Closed, ClosedBranch, ClosedBranches, ClosedElement, ClosedElements};

/// The most branches of one PolicyOR.
const MOST_BRANCHES: usize = 8;

/// The branches of the OR that is made of these: up to eight as they are, more in groups.
pub fn grouped(alloc: Global, branches: ClosedBranches) -> Result<ClosedBranches, NoMemory>
    ensures { IfOk result (λ closed. branches_in closed ≡ grouped (branches_in branches)) }
{
    if has_more_than(&branches, MOST_BRANCHES) {
        in_groups(alloc, branches, 1)
    } else {
        Ok(branches)
    }
}

// Whether there are more branches than so many.
fn has_more_than(branches: &ClosedBranches, count: usize) -> bool
    ensures { result ≡ nat_lt count (length (branches_in branches.now)) }
{
    match branches {
        ClosedBranches::End => false,
        ClosedBranches::More(_, rest) => count == 0 || has_more_than(rest, count - 1),
    }
}

// The branches in groups of eight, of which the first has this number.
#[tactic(auto, using(crate::proofs::GroupLemmas::in_eights_more))]
fn in_groups(
    alloc: Global,
    branches: ClosedBranches,
    number: u64,
) -> Result<ClosedBranches, NoMemory>
    ensures { IfOk result (λ closed. branches_in closed
        ≡ numbered number (in_eights (branches_in branches))) }
{
    match branches {
        ClosedBranches::End => Ok(ClosedBranches::End),
        ClosedBranches::More(first, mut rest) => {
            let behind = split_off(&mut rest, MOST_BRANCHES - 1);
            let Some(next) = number.checked_add(1) else {
                return Err(NoMemory);
            };
            let others = in_groups(alloc, behind, next)?;
            match &*rest {
                ClosedBranches::End => { Ok(ClosedBranches::More(first, Box::new(alloc, others)?)) }
                ClosedBranches::More(..) => {
                    let group = ClosedBranches::More(first, rest);
                    with_group(alloc, number, group, others)
                }
            }
        }
    }
}

// The OR of a group with this number, and the groups behind it.
#[tactic(auto, using(crate::proofs::GroupLemmas::branches_of_branches_in))]
fn with_group(
    alloc: Global,
    number: u64,
    group: ClosedBranches,
    others: ClosedBranches,
) -> Result<ClosedBranches, NoMemory>
    ensures { IfOk result (λ closed. branches_in closed
        ≡ (codes "#" ++ decimal number, or_of (branches_in group)) ∷ branches_in others) }
{
    let or = Box::new(alloc, ClosedElement::Or(group))?;
    let elements = ClosedElements::More(or, Box::new(alloc, ClosedElements::End)?);
    let branch = ClosedBranch {
        name: Text::from_string(format!(in alloc; "#{number}")?),
        policy: Closed { elements },
    };
    let first = Box::new(alloc, branch)?;
    Ok(ClosedBranches::More(first, Box::new(alloc, others)?))
}

// Takes the branches behind the first so many from the list.
fn split_off(branches: &mut ClosedBranches, count: usize) -> ClosedBranches
    ensures front { branches_in branches.new ≡ take count (branches_in branches.old) }
    ensures back { branches_in result ≡ drop count (branches_in branches.old) }
{
    if count == 0 {
        return mem::replace(branches, ClosedBranches::End);
    }
    match branches {
        ClosedBranches::End => ClosedBranches::End,
        ClosedBranches::More(_, rest) => split_off(rest, count - 1),
    }
}
