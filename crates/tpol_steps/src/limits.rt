ghost use Rattle.std.specs.Prelude.{◌≤◌, All, IfOk, Some, length, map};
ghost use Rattle.std.specs.Option.{option_copied};
ghost use Rattle.tpol_digest.specs.Limits.{AreWithinLimits};
ghost use Rattle.tpol_digest.specs.Paths.{paths_of};
ghost use Rattle.tpol_steps.specs.Filled.{erased_filled};
ghost use Rattle.tpol_steps.specs.Limits.{few_to_try, limit_step, limits_step, tried_limit_step, tried_limits_step};
ghost use Rattle.tpol_steps.specs.Steps.{Answers, IsInside};
ghost use Rattle.tpol_tree.specs.ClosedErased.{erased, erased_document};

use crate::compiled::CompiledDocument;
use crate::filled::FilledDocument;
use crate::halt::Halt;
use crate::refusals::path_limit;
use std::alloc::Global;
use tpol_base::Text;
use tpol_digest::{PathLimit, check_paths, count_paths};
use tpol_tree::{Approvals, Closed};

/// The most paths that a blind run tries.
const MOST_TRIED: u64 = 64;

/// Ends the run where a policy has too many paths, or one that is too long. The policy is that of a document of
/// the shelf where one is named.
///
/// `Refused` tells which of the two it is, the number first; `NoMemory` comes where memory for that line ran out, and
/// nothing else comes.
#[tactic(auto, unfolding(crate::specs::Limits::limit_step))]
pub fn check_limits(
    alloc: Global,
    document: Option<&Text>,
    closed: &Closed,
    approvals: &Approvals,
) -> Result<(), Halt>
    ensures answer { Answers (λ _. tt)
        (limit_step (option_copied document.entry) (erased closed.now)
        (map erased_document approvals.now)) result }
    ensures inside { IsInside result }
    ensures within { IfOk result (λ _. AreWithinLimits (paths_of closed.now approvals.now)) }
{
    match check_paths(closed, approvals) {
        Ok(_) => Ok(()),
        Err(PathLimit::TooManyPaths) => {
            Err(Halt::Refused(path_limit(alloc, "TooManyPaths", document)?))
        }
        Err(PathLimit::TooLong) => Err(Halt::Refused(path_limit(alloc, "TooLong", document)?)),
    }
}

/// Ends the run at the first of these documents that has too many paths, or one that is too long.
///
/// `Refused` tells its name and which of the two it is, the number first; `NoMemory` comes where memory for that
/// line ran out, and nothing else comes.
#[tactic(auto, unfolding(crate::specs::Limits::limits_step))]
pub fn check_documents(
    alloc: Global,
    documents: &[CompiledDocument],
    approvals: &Approvals,
) -> Result<(), Halt>
    ensures answer { Answers (λ _. tt)
        (limits_step (map erased_document approvals.now) (map erased_filled documents.now)) result }
    ensures inside { IsInside result }
    ensures within { IfOk result
        (λ _. All (λ document. AreWithinLimits (paths_of document.closed approvals.now))
        documents.now) }
{
    for document in documents {
        let document = document.filled();
        check_limits(alloc, Some(&document.name), &document.closed, approvals)?;
    }
    Ok(())
}

/// The same of documents whose paths a blind run tries: the command also ends at one that has more than 64 paths.
///
/// `Refused` tells its name and what is wrong with it, the number first; `NoMemory` comes where memory for that line
/// ran out, and nothing else comes.
#[tactic(auto, unfolding(crate::specs::Limits::tried_limits_step))]
pub fn check_tried(
    alloc: Global,
    documents: &[CompiledDocument],
    approvals: &Approvals,
) -> Result<(), Halt>
    ensures answer { Answers (λ _. tt)
        (tried_limits_step (map erased_document approvals.now) (map erased_filled documents.now))
        result }
    ensures inside { IsInside result }
    ensures within { IfOk result
        (λ _. All (λ document. AreWithinLimits (paths_of document.closed approvals.now))
        documents.now) }
    ensures few { IfOk result
        (λ _. All (λ document. length (paths_of document.closed approvals.now)
        ≤ 64) documents.now) }
{
    for document in documents {
        check_tried_document(alloc, document.filled(), approvals)?;
    }
    Ok(())
}

// The same of one document.
#[tactic(auto, unfolding(crate::specs::Limits::tried_limit_step))]
fn check_tried_document(
    alloc: Global,
    document: &FilledDocument,
    approvals: &Approvals,
) -> Result<(), Halt>
    ensures answer { Answers (λ _. tt)
        (tried_limit_step (Some document.now.name) (erased document.now.closed)
        (map erased_document approvals.now)) result }
    ensures inside { IsInside result }
    ensures within { IfOk result
        (λ _. AreWithinLimits (paths_of document.now.closed approvals.now)) }
    ensures few { IfOk result (λ _. length (paths_of document.now.closed approvals.now) ≤ 64) }
{
    check_few(alloc, document, approvals)?;
    check_limits(alloc, Some(&document.name), &document.closed, approvals)
}

// Ends the run where a document has more paths than a blind run tries.
fn check_few(alloc: Global, document: &FilledDocument, approvals: &Approvals) -> Result<(), Halt>
    ensures answer { Answers (λ _. tt)
        (few_to_try (Some document.now.name)
        (paths_of (erased document.now.closed) (map erased_document approvals.now))) result }
    ensures inside { IsInside result }
    ensures few { IfOk result (λ _. length (paths_of document.now.closed approvals.now) ≤ 64) }
{
    if count_paths(&document.closed, approvals) > MOST_TRIED {
        let name = Some(&document.name);
        return Err(Halt::Refused(path_limit(alloc, "TooManyPaths", name)?));
    }
    Ok(())
}
