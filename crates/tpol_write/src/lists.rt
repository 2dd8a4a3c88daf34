//! Lists of Names, texts and PCRs.

ghost use Rattle.std.specs.Prelude.{OnOk, map};
ghost use Rattle.serde_json.specs.Data.{string};
ghost use Rattle.tpol_base.specs.Pcr.{pcrs_of_mask};
ghost use Rattle.tpol_write.specs.Drafts.{Adds, member_tokens, Reads, tokens_of};
ghost use Rattle.tpol_write.specs.Objects.{list_of, natural};
ghost use Rattle.tpol_write.specs.Wishes.{name_value, names_member, pcr_value, pcrs_member};

use crate::draft::Draft;
use crate::members::{put_byte, put_digest, put_word};
use std::alloc::Global;
use tpol_base::pcr::pcrs_of_mask;
use tpol_base::{Digest32, Name, NoMemory, Text};
use tpol_tree::{NamesWish, PcrWish};

/// Writes the member of the Names of a command's handles: their digest, the Names, or paths.
pub fn put_names(draft: &mut Draft, alloc: Global, names: &NamesWish) -> Result<(), NoMemory>
    ensures { OnOk result (Adds draft.old draft.new (member_tokens (names_member names.now))) }
{
    match names {
        NamesWish::Digest(digest) => put_digest(draft, alloc, "nameHash", digest),
        NamesWish::Names(names) => {
            draft.name("objectNames")?;
            write_names(draft, alloc, names.as_slice())
        }
        NamesWish::Paths(paths) => {
            draft.name("namePaths")?;
            write_texts(draft, paths.as_slice())
        }
    }
}

/// Writes the member of the PCRs of a POLICYPCR: their values, or the PCRs whose values are to be current.
pub fn put_pcrs(draft: &mut Draft, alloc: Global, pcrs: &PcrWish) -> Result<(), NoMemory>
    ensures tokens { OnOk result (Adds draft.old draft.new (member_tokens (pcrs_member pcrs.now))) }
    ensures reads { OnOk result (Reads (pcrs_member pcrs.now).1) }
{
    match pcrs {
        PcrWish::Values(values) => {
            draft.name("pcrs")?;
            write_pcrs(draft, alloc, values.as_slice())
        }
        PcrWish::Current(mask) => {
            draft.name("currentPCRs")?;
            write_mask(draft, alloc, *mask)
        }
    }
}

fn write_names(draft: &mut Draft, alloc: Global, names: &[Name]) -> Result<(), NoMemory>
    ensures { OnOk result
        (Adds draft.old draft.new (tokens_of (list_of (map name_value names.now)))) }
{
    draft.begin_list()?;
    for name in names {
        draft.hex(alloc, name.bytes().as_slice())?;
    }
    draft.end_list()
}

fn write_texts(draft: &mut Draft, texts: &[Text]) -> Result<(), NoMemory>
    ensures { OnOk result (Adds draft.old draft.new (tokens_of (list_of (map string texts.now)))) }
{
    draft.begin_list()?;
    for text in texts {
        draft.text(text.as_str())?;
    }
    draft.end_list()
}

fn write_pcrs(draft: &mut Draft, alloc: Global, values: &[(u8, Digest32)]) -> Result<(), NoMemory>
    ensures tokens { OnOk result
        (Adds draft.old draft.new (tokens_of (list_of (map pcr_value values.now)))) }
    ensures reads { OnOk result (Reads (list_of (map pcr_value values.now))) }
{
    draft.begin_list()?;
    for (pcr, digest) in values {
        write_pcr(draft, alloc, *pcr, digest)?;
    }
    draft.end_list()
}

fn write_pcr(draft: &mut Draft, alloc: Global, pcr: u8, digest: &Digest32) -> Result<(), NoMemory>
    ensures tokens { OnOk result
        (Adds draft.old draft.new (tokens_of (pcr_value (pcr, digest.now)))) }
    ensures reads { OnOk result (Reads (pcr_value (pcr, digest.now))) }
{
    draft.begin_object()?;
    put_digest(draft, alloc, "digest", digest)?;
    put_word(draft, "hashAlg", "SHA256")?;
    put_byte(draft, "pcr", pcr)?;
    draft.end_object()
}

// Writes the PCRs of a mask, bit n for PCR n, in rising order.
fn write_mask(draft: &mut Draft, alloc: Global, mask: u32) -> Result<(), NoMemory>
    ensures tokens { OnOk result
        (Adds draft.old draft.new (tokens_of (list_of (map natural (pcrs_of_mask mask))))) }
    ensures reads { OnOk result (Reads (list_of (map natural (pcrs_of_mask mask)))) }
{
    let pcrs = pcrs_of_mask(alloc, mask)?;
    write_numbers(draft, pcrs.as_slice())
}

fn write_numbers(draft: &mut Draft, numbers: &[u8]) -> Result<(), NoMemory>
    ensures tokens { OnOk result
        (Adds draft.old draft.new (tokens_of (list_of (map natural numbers.now)))) }
    ensures reads { OnOk result (Reads (list_of (map natural numbers.now))) }
{
    draft.begin_list()?;
    for number in numbers {
        draft.natural(u32::from(*number))?;
    }
    draft.end_list()
}
