//! Elements and branches put in front of those that follow them.

ghost use Rattle.std.specs.Prelude.{◌≡◌, IfOk};
ghost use Rattle.tpol_tree.specs.Erased.{nowhere, erased_element, erased_elements, erased_branches};
ghost use Rattle.tpol_tree.specs.declared.policy.Branches.TheVariants.{More' as MoreBranches'};
ghost use Rattle.tpol_tree.specs.declared.policy.Elements.TheVariants.{More'};

use std::alloc::Global;
use tpol_base::NoMemory;
use tpol_tree::{Branch, Branches, Element, Elements};

/// An element in front of these.
pub fn element_before(alloc: Global, element: Element, rest: Elements) -> Result<Elements, NoMemory>
    ensures { IfOk result (λ elements. erased_elements elements
        ≡ More' nowhere (erased_element element) nowhere (erased_elements rest)) }
{
    let element = Box::new(alloc, element)?;
    let rest = Box::new(alloc, rest)?;
    Ok(Elements::More(element, rest))
}

/// A branch in front of these.
pub fn branch_before(alloc: Global, branch: Branch, rest: Branches) -> Result<Branches, NoMemory>
    ensures { IfOk result (λ branches. erased_branches branches
        ≡ MoreBranches' nowhere branch.name branch.description
        (erased_elements branch.elements) nowhere (erased_branches rest)) }
{
    let branch = Box::new(alloc, branch)?;
    let rest = Box::new(alloc, rest)?;
    Ok(Branches::More(branch, rest))
}
