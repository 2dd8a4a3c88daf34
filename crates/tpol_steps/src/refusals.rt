ghost use Rattle.std.specs.Prelude.{◌≡◌, ◌++◌, codes, IfOk, OnOk};
ghost use Rattle.std.specs.Option.{option_copied};
ghost use Rattle.tpol_steps.specs.Refusals.{at_place, bad_certificate, bad_policy, bad_scene, fill_kind_name, in_document, no_such_policy, path_limit, policy_kind_name, policy_not_json, scene_kind_name, too_large_in};

use crate::answer::{Answer, Verdict};
use std::alloc::Global;
use tpol_base::{NoMemory, Text};
use tpol_fill::FillKind;
use tpol_json::{Place, place_text};
use tpol_read::PolicyKind;
use tpol_scene::SceneKind;

/// The answer of a policy document that is refused: of the shelf where one is named, else the source's. It fails
/// only where memory ran out.
pub fn bad_policy(
    alloc: Global,
    kind: &str,
    document: Option<&Text>,
    place: &Place,
) -> Result<Answer, NoMemory>
    ensures { IfOk result (λ answer. answer
        ≡ bad_policy kind.now (option_copied document.entry) place.now) }
{
    let mut kind = Text::from_str(alloc, kind)?;
    push_document(&mut kind, document)?;
    let line = at_place(alloc, "BadPolicy", kind.as_str(), place)?;
    Answer::of_line(alloc, line.as_str(), Verdict::BadPolicy)
}

/// The answer of a policy document that is no JSON text. It fails only where memory ran out.
pub fn policy_not_json(alloc: Global, document: Option<&Text>) -> Result<Answer, NoMemory>
    ensures { IfOk result (λ answer. answer ≡ policy_not_json (option_copied document.entry)) }
{
    let mut line = Text::from_str(alloc, "error BadPolicy NotJson")?;
    push_document(&mut line, document)?;
    Answer::of_line(alloc, line.as_str(), Verdict::BadPolicy)
}

/// The answer where the shelf has no policy of this name, which is one of the words. It fails only where memory ran
/// out.
pub fn no_such_policy(alloc: Global, name: &Text) -> Result<Answer, NoMemory>
    ensures { IfOk result (λ answer. answer ≡ no_such_policy name.now) }
{
    let mut line = Text::from_str(alloc, "error BadPolicy NoSuchPolicy in ")?;
    line.push_str(name.as_str())?;
    Answer::of_line(alloc, line.as_str(), Verdict::BadPolicy)
}

/// The answer of a certificate that is refused: what is wrong with it. It fails only where memory ran out.
pub fn bad_certificate(alloc: Global, fault: &str) -> Result<Answer, NoMemory>
    ensures { IfOk result (λ answer. answer ≡ bad_certificate fault.now) }
{
    let mut line = Text::from_str(alloc, "error BadCert ")?;
    line.push_str(fault)?;
    Answer::of_line(alloc, line.as_str(), Verdict::BadCert)
}

/// The answer of a policy whose paths are not walked. It fails only where memory ran out.
pub fn path_limit(alloc: Global, kind: &str, document: Option<&Text>) -> Result<Answer, NoMemory>
    ensures { IfOk result (λ answer. answer ≡ path_limit kind.now (option_copied document.entry)) }
{
    let mut kind = Text::from_str(alloc, kind)?;
    push_document(&mut kind, document)?;
    let mut line = Text::from_str(alloc, "error PathLimit ")?;
    line.push_str(kind.as_str())?;
    Answer::of_line(alloc, line.as_str(), Verdict::PathLimit)
}

/// The answer of a document of the shelf that is too large. It fails only where memory ran out.
pub fn too_large_in(alloc: Global, name: &Text) -> Result<Answer, NoMemory>
    ensures { IfOk result (λ answer. answer ≡ too_large_in name.now) }
{
    let mut line = Text::from_str(alloc, "error TooLarge in ")?;
    line.push_str(name.as_str())?;
    Answer::of_line(alloc, line.as_str(), Verdict::TooLarge)
}

// Says of which document of the shelf, where one is named.
fn push_document(text: &mut Text, document: Option<&Text>) -> Result<(), NoMemory>
    ensures { OnOk result (text.new ≡ text.old ++ in_document (option_copied document.entry)) }
{
    match document {
        None => Ok(()),
        Some(name) => {
            text.push_str(" in ")?;
            text.push_str(name.as_str())
        }
    }
}

/// The answer of a scene that is refused: the word for what is wrong, and the place of it. It fails only where
/// memory ran out.
pub fn bad_scene(alloc: Global, kind: &str, place: &Place) -> Result<Answer, NoMemory>
    ensures { IfOk result (λ answer. answer ≡ bad_scene kind.now place.now) }
{
    let line = at_place(alloc, "BadScene", kind, place)?;
    Answer::of_line(alloc, line.as_str(), Verdict::BadScene)
}

// What is wrong, and where.
fn at_place(alloc: Global, what: &str, kind: &str, place: &Place) -> Result<Text, NoMemory>
    ensures { IfOk result (λ line. line ≡ at_place what.now kind.now place.now) }
{
    let mut line = Text::from_str(alloc, "error ")?;
    push_words(&mut line, what, kind)?;
    line.push_str(place_text(alloc, place)?.as_str())?;
    Ok(line)
}

fn push_words(line: &mut Text, what: &str, kind: &str) -> Result<(), NoMemory>
    ensures { OnOk result
        (line.new ≡ line.old ++ (what.now ++ (codes " " ++ (kind.now ++ codes " at ")))) }
{
    line.push_str(what)?;
    line.push_str(" ")?;
    line.push_str(kind)?;
    line.push_str(" at ")
}

/// The word that is printed for a filling fault.
pub fn fill_kind_name(kind: FillKind) -> &'static str
    ensures { result.now ≡ fill_kind_name kind }
{
    match kind {
        FillKind::NoSuchPath => "NoSuchPath",
        FillKind::NoSuchPcr => "NoSuchPcr",
        FillKind::NotKeyedHash => "NotKeyedHash",
        FillKind::VoidPrefix => "VoidPrefix",
    }
}

/// The word that is printed for a fault of a policy document.
pub fn policy_kind_name(kind: PolicyKind) -> &'static str
    ensures { result.now ≡ policy_kind_name kind }
{
    match kind {
        PolicyKind::NotJson => "NotJson",
        PolicyKind::Missing => "Missing",
        PolicyKind::WrongKind => "WrongKind",
        PolicyKind::BadHex => "BadHex",
        PolicyKind::BadNumber => "BadNumber",
        PolicyKind::UnknownType => "UnknownType",
        PolicyKind::Unsupported => "Unsupported",
        PolicyKind::AsymmetricKey => "AsymmetricKey",
        PolicyKind::OtherHash => "OtherHash",
        PolicyKind::BranchCount => "BranchCount",
        PolicyKind::EmptyPolicy => "EmptyPolicy",
        PolicyKind::TooDeep => "TooDeep",
        PolicyKind::TooMany => "TooMany",
        PolicyKind::Twice => "Twice",
    }
}

/// The word that is printed for a fault of a scene.
pub fn scene_kind_name(kind: SceneKind) -> &'static str
    ensures { result.now ≡ scene_kind_name kind }
{
    match kind {
        SceneKind::Missing => "Missing",
        SceneKind::WrongKind => "WrongKind",
        SceneKind::BadHex => "BadHex",
        SceneKind::BadNumber => "BadNumber",
        SceneKind::UnknownKind => "UnknownKind",
        SceneKind::Twice => "Twice",
        SceneKind::TooMany => "TooMany",
        SceneKind::BadState => "BadState",
        SceneKind::NoSuchPath => "NoSuchPath",
        SceneKind::NoSuchClient => "NoSuchClient",
        SceneKind::NoSuchRun => "NoSuchRun",
        SceneKind::NoSuchPolicy => "NoSuchPolicy",
    }
}
