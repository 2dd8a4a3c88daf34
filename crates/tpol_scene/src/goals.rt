//! The goals of a scene.

ghost use Rattle.std.specs.Prelude.{◌≡◌, codes};
ghost use Rattle.serde_json.specs.View.{view};
ghost use Rattle.tpol_base.specs.Handle.{rh_null};
ghost use Rattle.tpol_json.specs.Reading.{Gives};
ghost use Rattle.tpol_entities.specs.declared.targets.Target.TheVariants as targets;
ghost use Rattle.tpol_json.specs.Members.{optional};
ghost use Rattle.tpol_entities.specs.Members.{needed};
ghost use Rattle.tpol_entities.specs.Targets.{target_in};
ghost use Rattle.tpol_entities.specs.Values.{unsigned_in};
ghost use Rattle.tpol_scene.specs.Goals.{duplicate_in, goal_by, goal_command_in, goal_in, hmac_in, nv_read_in, nv_write_in, offset_in, path_target};

use serde_json::Value;
use std::alloc::Global;
use tpol_base::handle::TPM_RH_NULL;
use tpol_entities::{
    Entities, PartFault, SceneKind, Target, needed_bytes, needed_target, target_of,
};
use tpol_goal::Goal;
use tpol_json::{PlaceRef, check_object, member, needed, refuse, unsigned, word};

/// The most bytes of a goal's buffer, and of what is read from or written into an index at once.
const MAX_BYTES: usize = 1024;

/// The greatest offset in an index's content.
const MAX_OFFSET: u64 = 65_535;

/// The commands that a goal may name.
#[derive(Clone, Copy)]
pub enum GoalCommand {
    Unseal,
    Hmac,
    NvRead,
    NvWrite,
    NvIncrement,
    Duplicate,
}

/// The member `goal`: the command that a client wants, on one of these entities. `Missing` without it, `WrongKind` for
/// what is no object, and else the first fault of `command` (`UnknownKind` for one that no goal has), of `path`
/// (`NoSuchPath` for one of no entity that the command takes), and of the command's own members.
pub fn needed_goal(
    alloc: Global,
    entities: &Entities,
    item: &Value,
    place: &PlaceRef<'_>,
) -> Result<Goal, PartFault>
    ensures { Gives result
        (needed (goal_in entities.now) (codes "goal") (view item.now) place.now) }
{
    let (goal, place) = needed(alloc, item, "goal", place)?;
    goal_of(alloc, entities, goal, &place)
}

#[tactic(auto, unfolding(crate::specs::Goals::goal_in))]
fn goal_of(
    alloc: Global,
    entities: &Entities,
    value: &Value,
    place: &PlaceRef<'_>,
) -> Result<Goal, PartFault>
    ensures { Gives result (goal_in entities.now (view value.now) place.now) }
{
    check_object(alloc, value, place)?;
    let command = needed_command(alloc, value, place)?;
    let target = path_target(command);
    let handle = needed_target(alloc, entities, target, value, "path", place)?;
    goal_by(alloc, command, entities, handle, value, place)
}

fn needed_command(
    alloc: Global,
    value: &Value,
    place: &PlaceRef<'_>,
) -> Result<GoalCommand, PartFault>
    ensures { Gives result (needed goal_command_in (codes "command") (view value.now) place.now) }
{
    let (command, place) = needed(alloc, value, "command", place)?;
    goal_command(alloc, command, &place)
}

// One of the six commands, in any case, with or without `TPM2_CC_` in front.
fn goal_command(
    alloc: Global,
    value: &Value,
    place: &PlaceRef<'_>,
) -> Result<GoalCommand, PartFault>
    ensures { Gives result (goal_command_in (view value.now) place.now) }
{
    let commands = [
        ("Unseal", GoalCommand::Unseal),
        ("HMAC", GoalCommand::Hmac),
        ("NV_Read", GoalCommand::NvRead),
        ("NV_Write", GoalCommand::NvWrite),
        ("NV_Increment", GoalCommand::NvIncrement),
        ("Duplicate", GoalCommand::Duplicate),
    ];
    match word(alloc, value, "TPM2_CC_", &commands, place)? {
        Some(command) => Ok(command),
        None => refuse(alloc, SceneKind::UnknownKind, place),
    }
}

// What `path` names in a goal of the command.
fn path_target(command: GoalCommand) -> Target
    ensures { result ≡ path_target command }
{
    match command {
        GoalCommand::Unseal | GoalCommand::Hmac | GoalCommand::Duplicate => Target::Object,
        GoalCommand::NvRead | GoalCommand::NvWrite | GoalCommand::NvIncrement => Target::Index,
    }
}

// What stands in a goal behind its command and its path, which names the entity with this handle.
#[tactic(auto, unfolding(crate::specs::Goals::goal_by))]
fn goal_by(
    alloc: Global,
    command: GoalCommand,
    entities: &Entities,
    handle: u32,
    value: &Value,
    place: &PlaceRef<'_>,
) -> Result<Goal, PartFault>
    ensures { Gives result (goal_by command entities.now handle (view value.now) place.now) }
{
    match command {
        GoalCommand::Unseal => Ok(Goal::Unseal { object: handle }),
        GoalCommand::Hmac => hmac(alloc, handle, value, place),
        GoalCommand::NvRead => nv_read(alloc, handle, value, place),
        GoalCommand::NvWrite => nv_write(alloc, handle, value, place),
        GoalCommand::NvIncrement => Ok(Goal::NvIncrement { index: handle }),
        GoalCommand::Duplicate => duplicate(alloc, entities, handle, value, place),
    }
}

#[tactic(auto, unfolding(crate::specs::Goals::hmac_in))]
fn hmac(alloc: Global, key: u32, value: &Value, place: &PlaceRef<'_>) -> Result<Goal, PartFault>
    ensures { Gives result (hmac_in key (view value.now) place.now) }
{
    let buffer = needed_bytes(alloc, value, "buffer", MAX_BYTES, place)?;
    Ok(Goal::Hmac { key, buffer })
}

#[tactic(auto, unfolding(crate::specs::Goals::nv_read_in))]
fn nv_read(
    alloc: Global,
    index: u32,
    value: &Value,
    place: &PlaceRef<'_>,
) -> Result<Goal, PartFault>
    ensures { Gives result (nv_read_in index (view value.now) place.now) }
{
    let size = needed_size(alloc, value, place)?;
    let offset = optional_offset(alloc, value, place)?;
    Ok(Goal::NvRead {
        index,
        size,
        offset,
    })
}

#[tactic(auto, unfolding(crate::specs::Goals::nv_write_in))]
fn nv_write(
    alloc: Global,
    index: u32,
    value: &Value,
    place: &PlaceRef<'_>,
) -> Result<Goal, PartFault>
    ensures { Gives result (nv_write_in index (view value.now) place.now) }
{
    let bytes = needed_bytes(alloc, value, "bytes", MAX_BYTES, place)?;
    let offset = optional_offset(alloc, value, place)?;
    Ok(Goal::NvWrite {
        index,
        offset,
        bytes,
    })
}

#[tactic(auto, unfolding(crate::specs::Goals::duplicate_in))]
fn duplicate(
    alloc: Global,
    entities: &Entities,
    object: u32,
    value: &Value,
    place: &PlaceRef<'_>,
) -> Result<Goal, PartFault>
    ensures { Gives result (duplicate_in entities.now object (view value.now) place.now) }
{
    let parent = optional_parent(alloc, entities, value, place)?;
    Ok(Goal::Duplicate { object, parent })
}

// The object that `parent` names, without it the null hierarchy.
fn optional_parent(
    alloc: Global,
    entities: &Entities,
    value: &Value,
    place: &PlaceRef<'_>,
) -> Result<u32, PartFault>
    ensures { Gives result (optional (target_in entities.now targets.Object) rh_null
        (codes "parent") (view value.now) place.now) }
{
    match member(value, "parent") {
        Some(parent) => {
            target_of(
                alloc,
                entities,
                Target::Object,
                parent,
                &place.member("parent"),
            )
        }
        None => Ok(TPM_RH_NULL),
    }
}

// How many bytes are read: at most 1,024.
fn needed_size(alloc: Global, value: &Value, place: &PlaceRef<'_>) -> Result<u16, PartFault>
    ensures { Gives result (needed (unsigned_in 0 1024) (codes "size") (view value.now) place.now) }
{
    let (size, place) = needed(alloc, value, "size", place)?;
    Ok(unsigned(alloc, size, 0, MAX_BYTES as u64, &place)? as u16)
}

// Where in the index's content, without it at its front.
fn optional_offset(alloc: Global, value: &Value, place: &PlaceRef<'_>) -> Result<u16, PartFault>
    ensures { Gives result (offset_in (view value.now) place.now) }
{
    match member(value, "offset") {
        Some(offset) => {
            Ok(unsigned(alloc, offset, 0, MAX_OFFSET, &place.member("offset"))? as u16)
        }
        None => Ok(0),
    }
}
