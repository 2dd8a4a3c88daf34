//! Each element but OR: its type and the members of its type's row.

ghost use Rattle.std.specs.Prelude.{OnOk, []};
ghost use Rattle.tpol_tree.specs.declared.policy.Element.TheVariants.{Pcr, Nv, Secret, Signed, Authorize, AuthorizeNv, Locality, CommandCode, CpHash, NameHash, CounterTimer, Duplication, NvWritten};
ghost use Rattle.tpol_write.specs.Drafts.{Adds, comparison_tokens, Reads, tokens_of, type_and_end};
ghost use Rattle.tpol_write.specs.Elements.{element_value, typed};
ghost use Rattle.tpol_write.specs.Objects.{natural};

use crate::draft::Draft;
use crate::lists::{put_names, put_pcrs};
use crate::members::{
    put_byte, put_bytes, put_digest, put_name, put_short, put_signed, put_truth, put_word,
};
use crate::names::put_code;
use crate::wishes::{put_cp_hash, put_entity, put_index, put_key, put_parent};
use std::alloc::Global;
use tpol_base::{Blob, Compare, Digest32, Name, NoMemory};
use tpol_tree::{EntityWish, IndexWish, KeyWish, NamesWish, ParentWish, PcrWish};

/// Ends an object whose last member is its type.
pub fn end_typed(draft: &mut Draft, name: &str) -> Result<(), NoMemory>
    ensures { OnOk result (Adds draft.old draft.new (type_and_end name.now)) }
{
    put_word(draft, "type", name)?;
    draft.end_object()
}

/// Writes an element that is its type alone.
pub fn bare(draft: &mut Draft, name: &str) -> Result<(), NoMemory>
    ensures tokens { OnOk result (Adds draft.old draft.new (tokens_of (typed name.now []))) }
    ensures reads { Reads (typed name.now []) }
{
    draft.begin_object()?;
    end_typed(draft, name)
}

/// POLICYPCR, with the PCRs and their values or the current PCRs.
pub fn pcr(draft: &mut Draft, alloc: Global, pcrs: &PcrWish) -> Result<(), NoMemory>
    ensures tokens { OnOk result
        (Adds draft.old draft.new (tokens_of (element_value (Pcr pcrs.now)))) }
    ensures reads { OnOk result (Reads (element_value (Pcr pcrs.now))) }
{
    draft.begin_object()?;
    put_pcrs(draft, alloc, pcrs)?;
    end_typed(draft, "POLICYPCR")
}

/// POLICYNV, with the index and what its content is compared with.
pub fn nv(
    draft: &mut Draft,
    alloc: Global,
    index: &IndexWish,
    operand: &Blob,
    offset: u16,
    operation: Compare,
) -> Result<(), NoMemory>
    ensures tokens { OnOk result
        (Adds draft.old draft.new
        (tokens_of (element_value (Nv index.now operand.now offset operation)))) }
    ensures reads { OnOk result
        (Reads (element_value (Nv index.now operand.now offset operation))) }
{
    draft.begin_object()?;
    put_index(draft, alloc, index)?;
    put_comparison(draft, alloc, operand, offset, operation)?;
    end_typed(draft, "POLICYNV")
}

/// POLICYSECRET, with the entity and the authorization's members.
pub fn secret(
    draft: &mut Draft,
    alloc: Global,
    entity: &EntityWish,
    policy_ref: &Blob,
    cp_hash: &Option<Digest32>,
    expiration: i32,
) -> Result<(), NoMemory>
    ensures tokens { OnOk result
        (Adds draft.old draft.new
        (tokens_of (element_value (Secret entity.now policy_ref.now cp_hash.now expiration)))) }
    ensures reads { OnOk result
        (Reads (element_value (Secret entity.now policy_ref.now cp_hash.now expiration))) }
{
    draft.begin_object()?;
    put_cp_hash(draft, alloc, cp_hash)?;
    put_signed(draft, "expiration", expiration)?;
    put_entity(draft, alloc, entity)?;
    put_bytes(draft, alloc, "policyRef", policy_ref)?;
    end_typed(draft, "POLICYSECRET")
}

/// POLICYSIGNED, with the key and the authorization's members.
pub fn signed(
    draft: &mut Draft,
    alloc: Global,
    key: &KeyWish,
    policy_ref: &Blob,
    cp_hash: &Option<Digest32>,
    expiration: i32,
) -> Result<(), NoMemory>
    ensures tokens { OnOk result
        (Adds draft.old draft.new
        (tokens_of (element_value (Signed key.now policy_ref.now cp_hash.now expiration)))) }
    ensures reads { OnOk result
        (Reads (element_value (Signed key.now policy_ref.now cp_hash.now expiration))) }
{
    draft.begin_object()?;
    put_cp_hash(draft, alloc, cp_hash)?;
    put_signed(draft, "expiration", expiration)?;
    put_key(draft, alloc, key)?;
    put_bytes(draft, alloc, "policyRef", policy_ref)?;
    end_typed(draft, "POLICYSIGNED")
}

/// POLICYAUTHORIZE, with the key and `policyRef`.
pub fn authorize(
    draft: &mut Draft,
    alloc: Global,
    key: &KeyWish,
    policy_ref: &Blob,
) -> Result<(), NoMemory>
    ensures tokens { OnOk result
        (Adds draft.old draft.new (tokens_of (element_value (Authorize key.now policy_ref.now)))) }
    ensures reads { OnOk result (Reads (element_value (Authorize key.now policy_ref.now))) }
{
    draft.begin_object()?;
    put_key(draft, alloc, key)?;
    put_bytes(draft, alloc, "policyRef", policy_ref)?;
    end_typed(draft, "POLICYAUTHORIZE")
}

/// POLICYAUTHORIZENV, with the index.
pub fn authorize_nv(draft: &mut Draft, alloc: Global, index: &IndexWish) -> Result<(), NoMemory>
    ensures tokens { OnOk result
        (Adds draft.old draft.new (tokens_of (element_value (AuthorizeNv index.now)))) }
    ensures reads { OnOk result (Reads (element_value (AuthorizeNv index.now))) }
{
    draft.begin_object()?;
    put_index(draft, alloc, index)?;
    end_typed(draft, "POLICYAUTHORIZENV")
}

/// POLICYLOCALITY, with the localities as a number.
pub fn locality(draft: &mut Draft, localities: u8) -> Result<(), NoMemory>
    ensures tokens { OnOk result
        (Adds draft.old draft.new (tokens_of (element_value (Locality localities)))) }
    ensures reads { OnOk result (Reads (element_value (Locality localities))) }
{
    draft.begin_object()?;
    put_byte(draft, "locality", localities)?;
    end_typed(draft, "POLICYLOCALITY")
}

/// POLICYCOMMANDCODE, with the name of the command or its code.
pub fn command_code(draft: &mut Draft, alloc: Global, code: u32) -> Result<(), NoMemory>
    ensures tokens { OnOk result
        (Adds draft.old draft.new (tokens_of (element_value (CommandCode code)))) }
    ensures reads { OnOk result (Reads (element_value (CommandCode code))) }
{
    draft.begin_object()?;
    put_code(draft, alloc, code)?;
    end_typed(draft, "POLICYCOMMANDCODE")
}

/// POLICYCPHASH, with the digest.
pub fn cp_hash(draft: &mut Draft, alloc: Global, digest: &Digest32) -> Result<(), NoMemory>
    ensures tokens { OnOk result
        (Adds draft.old draft.new (tokens_of (element_value (CpHash digest.now)))) }
    ensures reads { OnOk result (Reads (element_value (CpHash digest.now))) }
{
    draft.begin_object()?;
    put_digest(draft, alloc, "cpHash", digest)?;
    end_typed(draft, "POLICYCPHASH")
}

/// POLICYNAMEHASH, with the digest, the Names or the paths.
pub fn name_hash(draft: &mut Draft, alloc: Global, names: &NamesWish) -> Result<(), NoMemory>
    ensures tokens { OnOk result
        (Adds draft.old draft.new (tokens_of (element_value (NameHash names.now)))) }
    ensures reads { OnOk result (Reads (element_value (NameHash names.now))) }
{
    draft.begin_object()?;
    put_names(draft, alloc, names)?;
    end_typed(draft, "POLICYNAMEHASH")
}

/// POLICYCOUNTERTIMER, with what the time is compared with.
pub fn counter_timer(
    draft: &mut Draft,
    alloc: Global,
    operand: &Blob,
    offset: u16,
    operation: Compare,
) -> Result<(), NoMemory>
    ensures tokens { OnOk result
        (Adds draft.old draft.new
        (tokens_of (element_value (CounterTimer operand.now offset operation)))) }
    ensures reads { OnOk result
        (Reads (element_value (CounterTimer operand.now offset operation))) }
{
    draft.begin_object()?;
    put_comparison(draft, alloc, operand, offset, operation)?;
    end_typed(draft, "POLICYCOUNTERTIMER")
}

/// POLICYDUPLICATIONSELECT, with the new parent, `includeObject` and the object's Name.
pub fn duplication(
    draft: &mut Draft,
    alloc: Global,
    name: &Name,
    parent: &ParentWish,
    include: bool,
) -> Result<(), NoMemory>
    ensures tokens { OnOk result
        (Adds draft.old draft.new
        (tokens_of (element_value (Duplication name.now parent.now include)))) }
    ensures reads { OnOk result (Reads (element_value (Duplication name.now parent.now include))) }
{
    draft.begin_object()?;
    put_truth(draft, "includeObject", include)?;
    put_parent(draft, alloc, parent)?;
    put_name(draft, alloc, "objectName", name)?;
    end_typed(draft, "POLICYDUPLICATIONSELECT")
}

/// POLICYNVWRITTEN, with `writtenSet`.
pub fn nv_written(draft: &mut Draft, written: bool) -> Result<(), NoMemory>
    ensures tokens { OnOk result
        (Adds draft.old draft.new (tokens_of (element_value (NvWritten written)))) }
    ensures reads { OnOk result (Reads (element_value (NvWritten written))) }
{
    draft.begin_object()?;
    put_word(draft, "type", "POLICYNVWRITTEN")?;
    put_truth(draft, "writtenSet", written)?;
    draft.end_object()
}

// Writes the members of what an index's content or the time is compared with.
fn put_comparison(
    draft: &mut Draft,
    alloc: Global,
    operand: &Blob,
    offset: u16,
    operation: Compare,
) -> Result<(), NoMemory>
    ensures tokens { OnOk result
        (Adds draft.old draft.new (comparison_tokens operand.now offset operation)) }
    ensures reads { OnOk result (Reads (natural offset)) }
{
    put_short(draft, "offset", offset)?;
    put_bytes(draft, alloc, "operandB", operand)?;
    put_word(draft, "operation", operation.name())
}
