//! Documents as FAPI exports them.

ghost use Rattle.std.specs.Prelude.{◌≡◌, ◌≤◌, IfOk, Some};
ghost use Rattle.std.specs.String.{string_bytes};
ghost use Rattle.serde_json.specs.Data.{depth};
ghost use Rattle.serde_json.specs.Read.{max_depth, read};
ghost use Rattle.serde_json.specs.View.{view};
ghost use Rattle.tpol_adopt.specs.Normal.{normal};
ghost use Rattle.tpol_bridge.specs.Exports.{export_step, exported, seen};
ghost use Rattle.tpol_steps.specs.ReadStep.{read_document};
ghost use Rattle.tpol_steps.specs.Refusals.{policy_not_json};
ghost use Rattle.tpol_steps.specs.Steps.{Answers, IsInside};
ghost use Rattle.tpol_tree.specs.Erased.{erased_policy};

use serde_json::Value;
use std::alloc::Global;
use tpol_adopt::normal;
use tpol_base::NoMemory;
use tpol_json::{Notes, ParseFault, parse};
use tpol_steps::{Answer, Halt, Verdict, read_document};
use tpol_tree::Policy;

/// A document as it is written, the policy that it says in the profile's spelling, and the notes on it.
#[derive(Drop)]
pub struct Export {
    pub document: Value,
    pub policy: Policy,
    pub notes: Notes,
}

/// Reads the export in the source.
///
/// `Refused` tells that it is no JSON text, or the first fault of the document in the profile's spelling; `NoMemory`
/// comes where memory ran out, and nothing else comes.
#[tactic(auto, unfolding(crate::specs::Exports::export_step))]
pub fn read_export(alloc: Global, input: &[u8]) -> Result<Export, Halt>
    ensures answer { Answers seen (export_step input.now) result }
    ensures inside { IsInside result }
{
    match parse(alloc, input) {
        Ok(document) => export_of(alloc, document),
        Err(ParseFault::NotJson) => Err(Halt::Refused(not_json(alloc)?)),
        Err(ParseFault::NoMemory) => Err(Halt::NoMemory),
    }
}

fn not_json(alloc: Global) -> Result<Answer, NoMemory>
    ensures { IfOk result (λ answer. answer ≡ policy_not_json None) }
{
    Answer::of_line(alloc, "error BadPolicy NotJson", Verdict::BadPolicy)
}

// What a document says.
fn export_of(alloc: Global, document: Value) -> Result<Export, Halt>
    requires { depth (view document) ≤ max_depth }
    ensures answer { Answers seen (exported (view document)) result }
    ensures inside { IsInside result }
{
    let (policy, notes) = policy_of(alloc, &document)?;
    Ok(Export {
        document,
        policy,
        notes,
    })
}

// The policy that a document says in the profile's spelling, and the notes on it.
fn policy_of(alloc: Global, document: &Value) -> Result<(Policy, Notes), Halt>
    requires { depth (view document.now) ≤ max_depth }
    ensures answer { Answers (λ found. (erased_policy found.0, found.1))
        (read_document (Some (normal (view document.now)))) result }
    ensures inside { IsInside result }
{
    let text = spelled(alloc, document)?;
    read_document(alloc, text.as_str().as_bytes())
}

// The text of a document in the profile's spelling.
fn spelled(alloc: Global, document: &Value) -> Result<String, NoMemory>
    requires { depth (view document.now) ≤ max_depth }
    ensures { IfOk result (λ text. read (string_bytes text) ≡ Some (normal (view document.now))) }
{
    let value = normal(alloc, document)?;
    Ok(value.to_string(alloc)?)
}
