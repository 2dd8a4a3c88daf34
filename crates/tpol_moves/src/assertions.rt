// The arguments of assertions, each word with a space in front.

ghost use Rattle.std.specs.Prelude.{◌≡◌, ◌∷◌, [], codes, decimal, IfOk};
ghost use Rattle.std.specs.String.{string_bytes};
ghost use Rattle.tpol_base.specs.Pcr.{pcrs_of_mask};
ghost use Rattle.tpol_lines.specs.Hex.{code_text};
ghost use Rattle.tpol_moves.specs.Arguments.{assertion_words, authorization_words, comparison_words, digest_text, name_text, pcrs_text, yes_no_text};
ghost use Rattle.tpol_moves.specs.Steps.{behind_spaces};

use crate::values::{
    bytes_text, code_text, digest_text, name_text, operation_word, pcrs_text, yes_no_text,
};
use std::alloc::Global;
use tpol_base::{Blob, Compare, Digest32, Name, NoMemory, pcr};
use tpol_tree::Assertion;

// The arguments of an assertion's policy command.
pub fn assertion_arguments(alloc: Global, assertion: &Assertion) -> Result<String, NoMemory>
    ensures { IfOk result (λ text. string_bytes text
        ≡ behind_spaces (assertion_words assertion.now)) }
{
    match assertion {
        Assertion::Pcr {
            mask,
            pcr_digest,
            values: _,
        } => pcr_arguments(alloc, *mask, pcr_digest),
        Assertion::Nv {
            index,
            operand,
            offset,
            operation,
        } => nv_arguments(alloc, index, operand, *offset, *operation),
        Assertion::Secret {
            entity,
            policy_ref,
            cp_hash,
            expiration,
        } => secret_arguments(alloc, entity, policy_ref, cp_hash, *expiration),
        Assertion::Signed {
            key,
            policy_ref,
            cp_hash,
            expiration,
        } => signed_arguments(alloc, key, policy_ref, cp_hash, *expiration),
        Assertion::CounterTimer {
            operand,
            offset,
            operation,
        } => comparison_arguments(alloc, operand, *offset, *operation),
        Assertion::CommandCode(code) => code_argument(alloc, *code),
        Assertion::Locality(localities) => locality_argument(alloc, *localities),
        Assertion::CpHash(digest) => digest_argument(alloc, digest),
        Assertion::NameHash(digest) => digest_argument(alloc, digest),
        Assertion::NvWritten(written) => written_argument(alloc, *written),
        Assertion::AuthValue => Ok(String::new(alloc)),
        Assertion::Password => Ok(String::new(alloc)),
        Assertion::PhysicalPresence => Ok(String::new(alloc)),
        Assertion::Duplication {
            object,
            parent,
            include,
        } => duplication_arguments(alloc, object, parent, *include),
    }
}

fn pcr_arguments(alloc: Global, mask: u32, digest: &Digest32) -> Result<String, NoMemory>
    ensures { IfOk result (λ text. string_bytes text
        ≡ behind_spaces (pcrs_text (pcrs_of_mask mask) ∷ digest_text digest.now ∷ [])) }
{
    let pcrs = pcr::pcrs_of_mask(alloc, mask)?;
    let pcrs = pcrs_text(alloc, pcrs.as_slice())?;
    let pcrs = pcrs.as_str();
    let digest = digest_text(alloc, digest)?;
    Ok(format!(in alloc; " {pcrs} {digest}")?)
}

fn nv_arguments(
    alloc: Global,
    index: &Name,
    operand: &Blob,
    offset: u16,
    operation: Compare,
) -> Result<String, NoMemory>
    ensures { IfOk result (λ text. string_bytes text
        ≡ behind_spaces
        (codes "index" ∷ name_text index.now ∷ comparison_words operand.now offset operation)) }
{
    let index = name_text(alloc, index)?;
    let comparison = comparison_arguments(alloc, operand, offset, operation)?;
    Ok(format!(in alloc; " index {index}{comparison}")?)
}

fn comparison_arguments(
    alloc: Global,
    operand: &Blob,
    offset: u16,
    operation: Compare,
) -> Result<String, NoMemory>
    ensures { IfOk result (λ text. string_bytes text
        ≡ behind_spaces (comparison_words operand.now offset operation)) }
{
    let operand = bytes_text(alloc, operand.as_slice())?;
    let operation = operation_word(operation);
    Ok(format!(in alloc; " operand {operand} offset {offset} operation {operation}")?)
}

fn secret_arguments(
    alloc: Global,
    entity: &Name,
    policy_ref: &Blob,
    cp_hash: &Option<Digest32>,
    expiration: i32,
) -> Result<String, NoMemory>
    ensures { IfOk result (λ text. string_bytes text ≡ behind_spaces
        (codes "entity" ∷ name_text entity.now ∷ authorization_words policy_ref.now cp_hash.now
        expiration)) }
{
    let entity = name_text(alloc, entity)?;
    let authorization = authorization_arguments(alloc, policy_ref, cp_hash, expiration)?;
    Ok(format!(in alloc; " entity {entity}{authorization}")?)
}

fn signed_arguments(
    alloc: Global,
    key: &Name,
    policy_ref: &Blob,
    cp_hash: &Option<Digest32>,
    expiration: i32,
) -> Result<String, NoMemory>
    ensures { IfOk result (λ text. string_bytes text ≡ behind_spaces
        (codes "key" ∷ name_text key.now ∷ authorization_words policy_ref.now cp_hash.now
        expiration)) }
{
    let key = name_text(alloc, key)?;
    let authorization = authorization_arguments(alloc, policy_ref, cp_hash, expiration)?;
    Ok(format!(in alloc; " key {key}{authorization}")?)
}

// What PolicySecret and PolicySigned have in common.
fn authorization_arguments(
    alloc: Global,
    policy_ref: &Blob,
    cp_hash: &Option<Digest32>,
    expiration: i32,
) -> Result<String, NoMemory>
    ensures { IfOk result (λ text. string_bytes text
        ≡ behind_spaces (authorization_words policy_ref.now cp_hash.now expiration)) }
{
    let policy_ref = bytes_text(alloc, policy_ref.as_slice())?;
    let cp_hash = bytes_text(alloc, Digest32::optional_bytes(cp_hash))?;
    Ok(format!(in alloc; " ref {policy_ref} cphash {cp_hash} expiration {expiration}")?)
}

fn code_argument(alloc: Global, code: u32) -> Result<String, NoMemory>
    ensures { IfOk result (λ text. string_bytes text ≡ behind_spaces (code_text code ∷ [])) }
{
    let code = code_text(alloc, code)?;
    Ok(format!(in alloc; " {code}")?)
}

fn locality_argument(alloc: Global, localities: u8) -> Result<String, NoMemory>
    ensures { IfOk result (λ text. string_bytes text ≡ behind_spaces (decimal localities ∷ [])) }
{
    Ok(format!(in alloc; " {localities}")?)
}

fn digest_argument(alloc: Global, digest: &Digest32) -> Result<String, NoMemory>
    ensures { IfOk result (λ text. string_bytes text
        ≡ behind_spaces (digest_text digest.now ∷ [])) }
{
    let digest = digest_text(alloc, digest)?;
    Ok(format!(in alloc; " {digest}")?)
}

fn written_argument(alloc: Global, written: bool) -> Result<String, NoMemory>
    ensures { IfOk result (λ text. string_bytes text ≡ behind_spaces (yes_no_text written ∷ [])) }
{
    let written = yes_no_text(written);
    Ok(format!(in alloc; " {written}")?)
}

fn duplication_arguments(
    alloc: Global,
    object: &Name,
    parent: &Name,
    include: bool,
) -> Result<String, NoMemory>
    ensures { IfOk result
        (λ text. string_bytes text ≡ behind_spaces (codes "parent" ∷ name_text parent.now
        ∷ codes "object" ∷ name_text object.now ∷ codes "include" ∷ yes_no_text include ∷ [])) }
{
    let object = name_text(alloc, object)?;
    let parent = name_text(alloc, parent)?;
    let include = yes_no_text(include);
    Ok(format!(in alloc; " parent {parent} object {object} include {include}")?)
}
