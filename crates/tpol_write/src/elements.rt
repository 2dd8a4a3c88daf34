//! Elements, branches and lists of them.

ghost use Rattle.std.specs.Prelude.{OnOk};
ghost use Rattle.tpol_tree.specs.declared.policy.Element.TheVariants.{Or};
ghost use Rattle.tpol_write.specs.Drafts.{Adds, AllRead, Reads, tokens_of, values_tokens};
ghost use Rattle.tpol_write.specs.Elements.{branch_value, branches_values, element_value, elements_values};

use crate::draft::Draft;
use crate::members::put_text;
use crate::rows;
use std::alloc::Global;
use tpol_base::NoMemory;
use tpol_tree::{Branch, Branches, Element, Elements};

/// Writes elements in turn.
#[cycle(policy)]
pub fn write_elements(draft: &mut Draft, alloc: Global, elements: &Elements) -> Result<(), NoMemory>
    ensures tokens { OnOk result
        (Adds draft.old draft.new (values_tokens (elements_values elements.now))) }
    ensures reads { OnOk result (AllRead (elements_values elements.now)) }
{
    match elements {
        Elements::End => Ok(()),
        Elements::More(element, rest) => {
            write_element(draft, alloc, element)?;
            write_elements(draft, alloc, rest)
        }
    }
}

#[cycle(policy)]
fn write_branches(draft: &mut Draft, alloc: Global, branches: &Branches) -> Result<(), NoMemory>
    ensures tokens { OnOk result
        (Adds draft.old draft.new (values_tokens (branches_values branches.now))) }
    ensures reads { OnOk result (AllRead (branches_values branches.now)) }
{
    match branches {
        Branches::End => Ok(()),
        Branches::More(branch, rest) => {
            write_branch(draft, alloc, branch)?;
            write_branches(draft, alloc, rest)
        }
    }
}

#[cycle(policy)]
fn write_element(draft: &mut Draft, alloc: Global, element: &Element) -> Result<(), NoMemory>
    ensures tokens { OnOk result
        (Adds draft.old draft.new (tokens_of (element_value element.now))) }
    ensures reads { OnOk result (Reads (element_value element.now)) }
{
    match element {
        Element::Or(branches) => or(draft, alloc, branches),
        Element::Pcr(pcrs) => rows::pcr(draft, alloc, pcrs),
        Element::Nv {
            index,
            operand,
            offset,
            operation,
        } => rows::nv(draft, alloc, index, operand, *offset, *operation),
        Element::Secret {
            entity,
            policy_ref,
            cp_hash,
            expiration,
        } => rows::secret(draft, alloc, entity, policy_ref, cp_hash, *expiration),
        Element::Signed {
            key,
            policy_ref,
            cp_hash,
            expiration,
        } => rows::signed(draft, alloc, key, policy_ref, cp_hash, *expiration),
        Element::Authorize { key, policy_ref } => rows::authorize(draft, alloc, key, policy_ref),
        Element::AuthorizeNv { index } => rows::authorize_nv(draft, alloc, index),
        Element::Locality(localities) => rows::locality(draft, *localities),
        Element::CommandCode(code) => rows::command_code(draft, alloc, *code),
        Element::CpHash(digest) => rows::cp_hash(draft, alloc, digest),
        Element::NameHash(names) => rows::name_hash(draft, alloc, names),
        Element::CounterTimer {
            operand,
            offset,
            operation,
        } => rows::counter_timer(draft, alloc, operand, *offset, *operation),
        Element::Duplication {
            object,
            parent,
            include,
        } => rows::duplication(draft, alloc, object, parent, *include),
        Element::NvWritten(written) => rows::nv_written(draft, *written),
        Element::AuthValue => rows::bare(draft, "POLICYAUTHVALUE"),
        Element::Password => rows::bare(draft, "POLICYPASSWORD"),
        Element::PhysicalPresence => rows::bare(draft, "POLICYPHYSICALPRESENCE"),
    }
}

#[cycle(policy)]
fn or(draft: &mut Draft, alloc: Global, branches: &Branches) -> Result<(), NoMemory>
    ensures tokens { OnOk result
        (Adds draft.old draft.new (tokens_of (element_value (Or branches.now)))) }
    ensures reads { OnOk result (Reads (element_value (Or branches.now))) }
{
    draft.begin_object()?;
    draft.name("branches")?;
    draft.begin_list()?;
    write_branches(draft, alloc, branches)?;
    draft.end_list()?;
    rows::end_typed(draft, "POLICYOR")
}

#[cycle(policy)]
fn write_branch(draft: &mut Draft, alloc: Global, branch: &Branch) -> Result<(), NoMemory>
    ensures tokens { OnOk result (Adds draft.old draft.new
        (tokens_of (branch_value branch.now.name branch.now.description
        (elements_values branch.now.elements)))) }
    ensures reads { OnOk result (Reads (branch_value branch.now.name branch.now.description
        (elements_values branch.now.elements))) }
{
    draft.begin_object()?;
    put_text(draft, "description", &branch.description)?;
    put_text(draft, "name", &branch.name)?;
    draft.name("policy")?;
    draft.begin_list()?;
    write_elements(draft, alloc, &branch.elements)?;
    draft.end_list()?;
    draft.end_object()
}
