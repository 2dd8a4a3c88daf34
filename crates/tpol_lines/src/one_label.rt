// The choices of one path, by its position: the policy is walked to it by counting.

ghost use Rattle.std.specs.Prelude.{◌≡◌, ◌-◌, ◌<◌, ◌≤◌, ◌++◌, IfOk, OnOk, List, ℕ, length, option_map};
ghost use Rattle.std.specs.List.{slice_get};
ghost use Rattle.json.specs.Print.{quoted};
ghost use Rattle.tpol_digest.specs.Limits.{AreWithinLimits};
ghost use Rattle.tpol_digest.specs.Paths.{paths_of};
ghost use Rattle.tpol_lines.specs.OpeningLine.{steps_of};
ghost use Rattle.tpol_lines.specs.PathLine.{label};
ghost use Rattle.tpol_lines.specs.Texts as texts;
ghost use Rattle.tpol_tree.specs.declared.path.ApprovedDoc.{ApprovedDoc as OneDocument};

use std::alloc::Global;
use tpol_base::{NoMemory, Text};
use tpol_digest::{MAX_LEVELS, accepts, count_element_ways, count_ways};
use tpol_json::quoted;
use tpol_tree::{Approvals, ApprovedDoc, Closed, ClosedBranches, ClosedElement, ClosedElements};

// The approved documents, which may be entered `levels` deep where the walk is.
#[derive(Clone, Copy)]
struct Scope<'a> {
    alloc: Global,
    approvals: &'a [ApprovedDoc],
    levels: u8,
}

/// The choices of the path of a policy at a position, from 1 (see `tpol_digest::path_at`), as `label` gives them.
/// The path is not made, and nothing is hashed. It fails only where memory ran out.
pub fn label_at(
    alloc: Global,
    policy: &Closed,
    approvals: &Approvals,
    position: u32,
) -> Result<Text, NoMemory>
    requires within { AreWithinLimits (paths_of policy.now approvals.now) }
    requires positions { (1 ≤ position) × (position ≤ length (paths_of policy.now approvals.now)) }
    ensures { IfOk result (λ text. text
        ≡ label (steps_of (slice_get (paths_of policy.now approvals.now) (position - 1)))) }
{
    let scope = Scope {
        alloc,
        approvals: approvals.as_slice(),
        levels: MAX_LEVELS,
    };
    let elements = behind_assertions(&policy.elements);
    let count = count_ways(scope.approvals, scope.levels, elements);
    let index = u64::from(position - 1);
    let mut choices = Text::new(alloc);
    push_elements(&scope, &mut choices, elements, index, count)?;
    match behind_slash(choices.as_str()) {
        Some(choices) => Text::from_str(alloc, choices),
        None => Text::from_str(alloc, "-"),
    }
}

// Elements without the assertions that stand before all others, which leave no choice.
fn behind_assertions(elements: &ClosedElements) -> &ClosedElements
    ensures { (documents : List OneDocument) (levels : ℕ)
        → texts.element_list_choices documents levels result.now
        ≡ texts.element_list_choices documents levels elements.now }
{
    match elements {
        ClosedElements::End => elements,
        ClosedElements::More(element, rest) => match &**element {
            ClosedElement::Assert(_) => behind_assertions(rest),
            _ => elements,
        },
    }
}

// What follows a slash at the front of a text.
fn behind_slash(text: &str) -> Option<&str>
    ensures { option_map (λ rest. rest.now) result ≡ texts.behind_slash text.now }
{
    text.strip_prefix("/")
}

// Adds the choices of the way through elements that has an index among their `count` ways, from 0, each behind
// a `/`.
#[cycle(one_label)]
fn push_elements(
    scope: &Scope<'_>,
    choices: &mut Text,
    elements: &ClosedElements,
    index: u64,
    count: u64,
) -> Result<(), NoMemory>
    requires counted { count ≡ length
        (texts.element_list_texts scope.now.approvals.now scope.now.levels elements.now) }
    requires few { count ≤ 65536 }
    requires inside { index < count }
    ensures { OnOk result (texts.GoesOn choices.old
        (texts.element_list_texts scope.now.approvals.now scope.now.levels elements.now) index
        choices.new) }
{
    match elements {
        ClosedElements::End => Ok(()),
        ClosedElements::More(element, rest) => {
            let ways = count_element_ways(scope.approvals, scope.levels, element);
            let behind = count / ways;
            push_element(scope, choices, element, index / behind)?;
            push_elements(scope, choices, rest, index % behind, behind)
        }
    }
}

// The same of one element.
#[cycle(one_label)]
fn push_element(
    scope: &Scope<'_>,
    choices: &mut Text,
    element: &ClosedElement,
    index: u64,
) -> Result<(), NoMemory>
    requires few { length (texts.element_texts scope.now.approvals.now scope.now.levels element.now)
        ≤ 65536 }
    requires inside { index < length
        (texts.element_texts scope.now.approvals.now scope.now.levels element.now) }
    ensures { OnOk result (texts.GoesOn choices.old
        (texts.element_texts scope.now.approvals.now scope.now.levels element.now) index
        choices.new) }
{
    match element {
        ClosedElement::Assert(_) => Ok(()),
        ClosedElement::Or(branches) => push_branch(scope, choices, branches, index),
        ClosedElement::Authorize { .. } | ClosedElement::AuthorizeNv { .. } => {
            push_approval(scope, choices, element, index)
        }
    }
}

// The same of branches.
#[cycle(one_label)]
fn push_branch(
    scope: &Scope<'_>,
    choices: &mut Text,
    branches: &ClosedBranches,
    index: u64,
) -> Result<(), NoMemory>
    requires few { length (texts.branch_texts scope.now.approvals.now scope.now.levels branches.now)
        ≤ 65536 }
    requires inside { index < length
        (texts.branch_texts scope.now.approvals.now scope.now.levels branches.now) }
    ensures { OnOk result (texts.GoesOn choices.old
        (texts.branch_texts scope.now.approvals.now scope.now.levels branches.now) index
        choices.new) }
{
    match branches {
        ClosedBranches::End => Ok(()),
        ClosedBranches::More(branch, rest) => {
            let elements = &branch.policy.elements;
            let count = count_ways(scope.approvals, scope.levels, elements);
            if index < count {
                push_choice(scope.alloc, choices, "/", branch.name.as_str())?;
                push_elements(scope, choices, elements, index, count)
            } else {
                push_branch(scope, choices, rest, index - count)
            }
        }
    }
}

// Adds the choice of a name behind its mark.
fn push_choice(alloc: Global, choices: &mut Text, mark: &str, name: &str) -> Result<(), NoMemory>
    ensures { OnOk result (choices.new ≡ choices.old ++ (mark.now ++ quoted name.now)) }
{
    choices.push_str(mark)?;
    choices.push_str(quoted(alloc, name)?.as_str())
}

// The same of an element that asks for an approval.
#[cycle(one_label)]
fn push_approval(
    scope: &Scope<'_>,
    choices: &mut Text,
    element: &ClosedElement,
    index: u64,
) -> Result<(), NoMemory>
    requires few { length (texts.approval_texts scope.now.approvals.now scope.now.levels
        element.now) ≤ 65536 }
    requires inside { index < length
        (texts.approval_texts scope.now.approvals.now scope.now.levels element.now) }
    ensures { OnOk result (texts.GoesOn choices.old
        (texts.approval_texts scope.now.approvals.now scope.now.levels element.now) index
        choices.new) }
{
    if scope.levels > 0 {
        let inside = Scope {
            levels: scope.levels - 1,
            ..*scope
        };
        let mut left = index;
        for document in scope.approvals {
            if accepts(element, document) {
                let elements = &document.closed.elements;
                let count = count_ways(scope.approvals, inside.levels, elements);
                if left < count {
                    push_choice(scope.alloc, choices, "/@", document.document.as_str())?;
                    return push_elements(&inside, choices, elements, left, count);
                }
                left -= count;
            }
        }
    }
    choices.push_str("/@*")
}
