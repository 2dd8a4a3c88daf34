// The goal's entity, and the rules of its own.

ghost use Rattle.std.specs.Prelude.{◌≡◌, Option, ℕ};
ghost use Rattle.tpm_nv.specs.Contents.{HasContent};
ghost use Rattle.tpm_nv.specs.Counters as counters;
ghost use Rattle.tpm_rules.specs.Rule.{Obeys};
ghost use Rattle.tpol_choose.specs.Goals as spec;
ghost use Rattle.tpol_choose.specs.Judges.{Judges, JudgesOne};
ghost use Rattle.tpol_choose.specs.Entities as entities;
ghost use Rattle.tpol_name.specs.Setups.{IsSight};

use crate::entity_at::EntityAt;
use crate::indices::index_of_handle;
use tpm_nv::{check_read, check_write, next_count, written_count};
use tpm_rules::{duplicate_rule, hmac_rule, nv_authority_rule, unseal_rule};
use tpol_base::{CommandCode, Rc};
use tpol_goal::{Goal, object_of_handle};
use tpol_name::{IndexEntry, ObjectEntry, Sight};

// An entity, and the first rule of the goal's own that is broken on it.
#[derive(Clone, Copy)]
pub struct Judged<'a> {
    pub found: EntityAt<'a>,
    pub rule: Result<(), Rc>,
}

// The goal's entity with the goal's own rules; `None` where the sight does not show it.
pub fn judge_goal<'a>(sight: &'a Sight, goal: &Goal) -> Option<Judged<'a>>
    requires sight { IsSight sight.now }
    ensures { Judges result (spec.judged sight.now goal.now) }
{
    match goal {
        Goal::Unseal { object } => {
            let object = object_of_handle(sight, *object)?;
            Some(on_object(object, unseal_rule(&object.public)))
        }
        Goal::Hmac { key, .. } => {
            let key = object_of_handle(sight, *key)?;
            Some(on_object(key, hmac_rule(&key.public)))
        }
        Goal::Duplicate { object, .. } => {
            let object = object_of_handle(sight, *object)?;
            Some(on_object(object, duplicate_rule(&object.public)))
        }
        Goal::NvRead {
            index,
            size,
            offset,
        } => {
            let index = index_of_handle(sight, *index)?;
            Some(on_index(
                index,
                CommandCode::NvRead,
                check_read(index, *offset, *size),
            ))
        }
        Goal::NvWrite {
            index,
            offset,
            bytes,
        } => {
            let index = index_of_handle(sight, *index)?;
            let own = check_write(index, *offset, bytes.len());
            Some(on_index(index, CommandCode::NvWrite, own))
        }
        Goal::NvIncrement { index } => {
            let index = index_of_handle(sight, *index)?;
            Some(on_index(index, CommandCode::NvIncrement, check_count(sight, index)))
        }
    }
}

fn on_object<'a>(object: &'a ObjectEntry, rule: Result<(), Rc>) -> Judged<'a>
    ensures { (own : Option ℕ) → Obeys rule own
        → JudgesOne result (record { found = entities.object_at object.now; rule = own }) }
{
    Judged {
        found: EntityAt::of_object(object),
        rule,
    }
}

// An index authorizes itself.
fn on_index<'a>(index: &'a IndexEntry, code: CommandCode, own: Result<(), Rc>) -> Judged<'a>
    ensures { (rule : Option ℕ) → Obeys own rule
        → JudgesOne result (spec.on_index code (λ entry. rule) index.now) }
{
    let found = EntityAt::of_index(index);
    match nv_authority_rule(found.handle, &index.public, code.number()) {
        Ok(()) => Judged { found, rule: own },
        Err(rc) => Judged {
            found,
            rule: Err(rc),
        },
    }
}

// NV_Increment: a counter that was never written goes on from the greatest count of all.
fn check_count(sight: &Sight, index: &IndexEntry) -> Result<(), Rc>
    requires sight { IsSight sight.now }
    requires content { HasContent index.now }
    ensures { Obeys result (spec.counting_rule sight.now index.now) }
{
    let _ = next_count(index, greatest_count(sight))?;
    Ok(())
}

// The greatest count of all written counters, and 0 where there is none.
fn greatest_count(sight: &Sight) -> u64
    requires sight { IsSight sight.now }
    ensures { result ≡ counters.greatest_count sight.now.indices }
{
    let mut greatest = 0;
    for entry in sight.indices.as_slice() {
        if let Some(count) = written_count(entry) {
            greatest = greatest.max(count);
        }
    }
    greatest
}
