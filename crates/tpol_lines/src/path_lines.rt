// The lines of a policy's paths, written on one walk through the policy, without the paths.

ghost use Rattle.std.specs.Prelude.{◌≡◌, IfOk, OnOk, map};
ghost use Rattle.tpol_digest.specs.Paths.{paths_of};
ghost use Rattle.tpol_lines.specs.PathLine.{label, path_lines};
ghost use Rattle.tpol_lines.specs.Texts as texts;

use crate::kinds::assertion_kind;
use crate::lines::Lines;
use crate::pen::{Form, Pen};
use std::alloc::Global;
use tpol_base::NoMemory;
use tpol_digest::{MAX_LEVELS, accepts};
use tpol_texts::Texts;
use tpol_tree::{Approvals, ApprovedDoc, Closed, ClosedBranches, ClosedElement, ClosedElements};

// What the walk goes through besides the policy: the approved documents; and what it writes of each path.
#[derive(Clone, Copy)]
struct Shelf<'a> {
    alloc: Global,
    form: Form,
    approvals: &'a [ApprovedDoc],
}

// What comes behind the branch, or the document, that is walked: the policy command that closes it, the rest
// of the list that it stands in, in which documents may be entered `levels` deep, and what comes behind that.
#[derive(Clone, Copy)]
enum Ahead<'a> {
    Nothing,
    After {
        kind: &'static str,
        rest: &'a ClosedElements,
        levels: u8,
        ahead: &'a Ahead<'a>,
    },
}

/// A line for each path of a policy, in the order of the paths: its position from 1, its choices, and the
/// kinds of its policy commands. It fails only where memory ran out.
pub fn write_paths(alloc: Global, policy: &Closed, approvals: &Approvals) -> Result<Lines, NoMemory>
    ensures { IfOk result (λ lines. lines ≡ path_lines 1 (paths_of policy.now approvals.now)) }
{
    Lines::of_texts(alloc, write_ways(alloc, Form::Line, policy, approvals)?)
}

/// The choices of each path of a policy, in the order of the paths, as `label` gives them; no path is made. It
/// fails only where memory ran out.
pub fn labels(alloc: Global, policy: &Closed, approvals: &Approvals) -> Result<Texts, NoMemory>
    ensures { IfOk result (λ labels. labels
        ≡ map (λ path. label path.steps) (paths_of policy.now approvals.now)) }
{
    write_ways(alloc, Form::Label, policy, approvals)
}

// What is written of each path of a policy.
fn write_ways(
    alloc: Global,
    form: Form,
    policy: &Closed,
    approvals: &Approvals,
) -> Result<Texts, NoMemory>
    ensures { IfOk result (λ lines. lines
        ≡ texts.lines_behind form 1 texts.no_text
        (map texts.texts_of (paths_of policy.now approvals.now))) }
{
    let mut pen = Pen::new(alloc);
    let shelf = Shelf {
        alloc,
        form,
        approvals: approvals.as_slice(),
    };
    write_elements(
        &shelf,
        &mut pen,
        &policy.elements,
        MAX_LEVELS,
        &Ahead::Nothing,
    )?;
    let Pen {
        lines,
        choices: _,
        kinds: _,
    } = pen;
    Ok(lines)
}

// Writes of all ways through elements and what comes behind them; in the elements documents may
// be entered `levels` deep.
#[cycle(path_lines)]
fn write_elements(
    shelf: &Shelf<'_>,
    pen: &mut Pen,
    elements: &ClosedElements,
    levels: u8,
    ahead: &Ahead<'_>,
) -> Result<(), NoMemory>
    ensures { OnOk result (texts.Writes shelf.now.form pen.old pen.new (texts.both
        (texts.element_list_texts shelf.now.approvals.now levels elements.now)
        (texts.texts_ahead shelf.now.approvals.now ahead.now))) }
{
    match elements {
        ClosedElements::End => write_ahead(shelf, pen, ahead),
        ClosedElements::More(element, rest) => {
            write_element(shelf, pen, element, rest, levels, ahead)
        }
    }
}

// The same of one element and the rest of its list.
#[cycle(path_lines)]
fn write_element(
    shelf: &Shelf<'_>,
    pen: &mut Pen,
    element: &ClosedElement,
    rest: &ClosedElements,
    levels: u8,
    ahead: &Ahead<'_>,
) -> Result<(), NoMemory>
    ensures { OnOk result (texts.Writes shelf.now.form pen.old pen.new (texts.both
        (texts.element_texts shelf.now.approvals.now levels element.now)
        (texts.both (texts.element_list_texts shelf.now.approvals.now levels rest.now)
        (texts.texts_ahead shelf.now.approvals.now ahead.now)))) }
{
    let kind = match element {
        ClosedElement::Assert(assertion) => {
            if let Form::Label = shelf.form {
                return write_elements(shelf, pen, rest, levels, ahead);
            }
            let kept = pen.kinds.len();
            pen.push_kind(assertion_kind(assertion))?;
            write_elements(shelf, pen, rest, levels, ahead)?;
            pen.kinds.truncate(kept);
            return Ok(());
        }
        ClosedElement::Or(branches) => {
            let kind = "Or";
            let behind = Ahead::After {
                kind,
                rest: &*rest,
                levels,
                ahead: &*ahead,
            };
            return write_branches(shelf, pen, branches, levels, &behind);
        }
        ClosedElement::Authorize { .. } => "Approve",
        ClosedElement::AuthorizeNv { .. } => "ApproveNv",
    };
    let behind = Ahead::After {
        kind,
        rest: &*rest,
        levels,
        ahead: &*ahead,
    };
    write_approvals(shelf, pen, element, levels, &behind)
}

// The same of the branches of an OR.
#[cycle(path_lines)]
fn write_branches(
    shelf: &Shelf<'_>,
    pen: &mut Pen,
    branches: &ClosedBranches,
    levels: u8,
    ahead: &Ahead<'_>,
) -> Result<(), NoMemory>
    ensures { OnOk result (texts.Writes shelf.now.form pen.old pen.new (texts.both
        (texts.branch_texts shelf.now.approvals.now levels branches.now)
        (texts.texts_ahead shelf.now.approvals.now ahead.now))) }
{
    match branches {
        ClosedBranches::End => Ok(()),
        ClosedBranches::More(branch, rest) => {
            let kept = pen.choices.len();
            pen.push_name(shelf.alloc, "/", branch.name.as_str())?;
            write_elements(shelf, pen, &branch.policy.elements, levels, ahead)?;
            pen.choices.truncate(kept);
            write_branches(shelf, pen, rest, levels, ahead)
        }
    }
}

// The same of the documents that the element's approver approved, and of the way by another policy.
#[cycle(path_lines)]
fn write_approvals(
    shelf: &Shelf<'_>,
    pen: &mut Pen,
    element: &ClosedElement,
    levels: u8,
    ahead: &Ahead<'_>,
) -> Result<(), NoMemory>
    ensures { OnOk result (texts.Writes shelf.now.form pen.old pen.new (texts.both
        (texts.approval_texts shelf.now.approvals.now levels element.now)
        (texts.texts_ahead shelf.now.approvals.now ahead.now))) }
{
    let kept = pen.choices.len();
    if levels > 0 {
        for document in shelf.approvals {
            if accepts(element, document) {
                pen.push_name(shelf.alloc, "/@", document.document.as_str())?;
                write_elements(shelf, pen, &document.closed.elements, levels - 1, ahead)?;
                pen.choices.truncate(kept);
            }
        }
    }
    pen.push_outside()?;
    write_ahead(shelf, pen, ahead)?;
    pen.choices.truncate(kept);
    Ok(())
}

// The same of what comes behind a branch or a document.
#[cycle(path_lines)]
fn write_ahead(shelf: &Shelf<'_>, pen: &mut Pen, ahead: &Ahead<'_>) -> Result<(), NoMemory>
    ensures { OnOk result (texts.Writes shelf.now.form pen.old pen.new
        (texts.texts_ahead shelf.now.approvals.now ahead.now)) }
{
    match ahead {
        Ahead::Nothing => pen.write(shelf.form),
        Ahead::After {
            kind,
            rest,
            levels,
            ahead,
        } => {
            if let Form::Label = shelf.form {
                return write_elements(shelf, pen, rest, *levels, ahead);
            }
            let kept = pen.kinds.len();
            pen.push_kind(kind)?;
            write_elements(shelf, pen, rest, *levels, ahead)?;
            pen.kinds.truncate(kept);
            Ok(())
        }
    }
}
