//! What a machine starts from but for its entities.

ghost use Rattle.std.specs.Prelude.{◌≡◌, codes};
ghost use Rattle.serde_json.specs.View.{view};
ghost use Rattle.tpol_base.specs.Digest.{zero_digest};
ghost use Rattle.tpol_json.specs.Reading.{Gives};
ghost use Rattle.tpol_json.specs.Members.{optional};
ghost use Rattle.tpol_entities.specs.Values.{digest_in};
ghost use Rattle.tpol_scene.specs.Scenes.{GivesStartRest, authorities_in, setup_with, start_in, time_in, times_in};

use serde_json::Value;
use std::alloc::Global;
use tpol_base::{Blob, Digest32, Digests};
use tpol_entities::{
    PartFault, optional_auth, optional_pcrs, optional_truth, optional_u32, zero_digest,
};
use tpol_json::{PlaceRef, digest, member, unsigned};
use tpol_name::{Indices, Objects, Setup};

/// The latest time that a machine may start from, in milliseconds.
const MAX_TIME: u64 = 1 << 62;

/// What a machine starts from but for its entities: the values of the PCRs 0 to 23 and how often they were
/// extended, beside the hierarchies and the clock.
#[derive(Drop)]
pub struct Start {
    pub authorities: Authorities,
    pub pcrs: Digests,
    pub pcr_counter: u32,
    pub times: Times,
}

/// The seed of the nonces and the authorization values of the hierarchies.
#[derive(Drop)]
pub struct Authorities {
    pub seed: Digest32,
    pub owner: Blob,
    pub endorsement: Blob,
    pub lockout: Blob,
}

/// What stands behind the authorities: the values of the PCRs, how often they were extended, and the clock.
pub struct StartRest {
    pub pcrs: Digests,
    pub pcr_counter: u32,
    pub times: Times,
}

/// The time in milliseconds, the counts of resets and restarts with the `safe` flag (TPM 2.0 Part 2,
/// TPMS_CLOCK_INFO), and whether somebody is at the machine (physical presence).
#[derive(Clone, Copy)]
pub struct Times {
    pub time: u64,
    pub reset_count: u32,
    pub restart_count: u32,
    pub safe: bool,
    pub presence: bool,
}

/// What a machine starts from.
pub fn setup_with(start: Start, objects: Objects, indices: Indices) -> Setup
    ensures { result ≡ setup_with start objects indices }
{
    let Start {
        authorities,
        pcrs,
        pcr_counter,
        times,
    } = start;
    let Authorities {
        seed,
        owner,
        endorsement,
        lockout,
    } = authorities;
    Setup {
        seed,
        owner,
        endorsement,
        lockout,
        pcrs,
        pcr_counter,
        objects,
        indices,
        time: times.time,
        reset_count: times.reset_count,
        restart_count: times.restart_count,
        safe: times.safe,
        presence: times.presence,
    }
}

/// Reads what a machine starts from but for its entities: the members `seed` to `presence`.
#[tactic(auto, unfolding(crate::specs::Scenes::start_in))]
pub fn read_start(alloc: Global, value: &Value, place: &PlaceRef<'_>) -> Result<Start, PartFault>
    ensures { Gives result (start_in (view value.now) place.now) }
{
    let authorities = authorities_of(alloc, value, place)?;
    let rest = match start_rest(alloc, value, place) {
        Ok(rest) => rest,
        Err(fault) => {
            drop(authorities);
            return Err(fault);
        }
    };
    let StartRest {
        pcrs,
        pcr_counter,
        times,
    } = rest;
    Ok(Start {
        authorities,
        pcrs,
        pcr_counter,
        times,
    })
}

// The members `pcrs` to `presence`.
fn start_rest(alloc: Global, value: &Value, place: &PlaceRef<'_>) -> Result<StartRest, PartFault>
    ensures { GivesStartRest result (view value.now) place.now }
{
    let bank = optional_pcrs(alloc, value, place)?;
    let pcr_counter = optional_u32(alloc, value, "pcrCounter", 0, place)?;
    let times = times_of(alloc, value, place)?;
    Ok(StartRest {
        pcrs: Digests::from_slice(alloc, &bank.values)?,
        pcr_counter,
        times,
    })
}

#[tactic(auto, unfolding(crate::specs::Scenes::authorities_in))]
fn authorities_of(
    alloc: Global,
    value: &Value,
    place: &PlaceRef<'_>,
) -> Result<Authorities, PartFault>
    ensures { Gives result (authorities_in (view value.now) place.now) }
{
    let seed = optional_seed(alloc, value, place)?;
    let owner = optional_auth(alloc, value, "owner", place)?;
    let endorsement = optional_auth(alloc, value, "endorsement", place)?;
    let lockout = optional_auth(alloc, value, "lockout", place)?;
    Ok(Authorities {
        seed,
        owner,
        endorsement,
        lockout,
    })
}

// The seed, without it 32 zero bytes.
fn optional_seed(alloc: Global, value: &Value, place: &PlaceRef<'_>) -> Result<Digest32, PartFault>
    ensures { Gives result
        (optional digest_in zero_digest (codes "seed") (view value.now) place.now) }
{
    match member(value, "seed") {
        Some(seed) => digest(alloc, seed, &place.member("seed")).map_err(PartFault::from),
        None => Ok(zero_digest()),
    }
}

#[tactic(auto, unfolding(crate::specs::Scenes::times_in))]
fn times_of(alloc: Global, value: &Value, place: &PlaceRef<'_>) -> Result<Times, PartFault>
    ensures { Gives result (times_in (view value.now) place.now) }
{
    let time = optional_time(alloc, value, place)?;
    let reset_count = optional_u32(alloc, value, "resetCount", 0, place)?;
    let restart_count = optional_u32(alloc, value, "restartCount", 0, place)?;
    let safe = optional_truth(alloc, value, "safe", true, place)?;
    let presence = optional_truth(alloc, value, "presence", false, place)?;
    Ok(Times {
        time,
        reset_count,
        restart_count,
        safe,
        presence,
    })
}

// The time in milliseconds, at most 2^62.
fn optional_time(alloc: Global, value: &Value, place: &PlaceRef<'_>) -> Result<u64, PartFault>
    ensures { Gives result (optional time_in 0 (codes "time") (view value.now) place.now) }
{
    match member(value, "time") {
        Some(time) => {
            unsigned(alloc, time, 0, MAX_TIME, &place.member("time")).map_err(PartFault::from)
        }
        None => Ok(0),
    }
}
