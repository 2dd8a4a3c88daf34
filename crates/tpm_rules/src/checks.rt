//! The deferred checks (TPM 2.0 Part 1, "Policy Session Use").

ghost use Rattle.std.specs.Prelude.{◌≡◌, Bool};
ghost use Rattle.tpm_bindings.specs.declared.last_auth.LastAuth.{LastAuth as OneAuth};
ghost use Rattle.tpm_bindings.specs.Facts.{last_auth};
ghost use Rattle.tpm_bindings.specs.State.{SessionState};
ghost use Rattle.tpm_rules.specs.Checks as spec;
ghost use Rattle.tpm_rules.specs.Rule.{Breaks, unless};
ghost use Rattle.tpm_rules.specs.Standing.{standing_of};

use crate::Standing;
use crate::policy_pcr::is_counter_now;
use tpol_base::response_code::{
    AUTH_FAIL, EXPIRED, LOCALITY, PCR_CHANGED, POLICY_CC, POLICY_FAIL, PP, of_session,
};
use tpol_base::{Check, Digest32};

/// What a policy session is used for, and in which surroundings: the command's code, whether it needs the role
/// DUP, as Duplicate does, its cpHash and the hash of its handles' Names; the client's locality, physical
/// presence, the time in milliseconds and the PCR counter; and whether the authorized entity was written,
/// where it is an index.
#[derive(Clone, Copy)]
pub struct Use {
    pub code: u32,
    pub duplicate_role: bool,
    pub cp_hash: Digest32,
    pub name_hash: Digest32,
    pub locality: u8,
    pub presence: bool,
    pub time: u64,
    pub pcr_counter: u32,
    pub written: Option<bool>,
}

/// The first deferred check that a use of the session breaks, on an entity with this authPolicy; no error
/// exactly where all hold. `right` says whether the entity's value is proved, as the caller judges it.
pub fn check_use(
    session: &Standing,
    occasion: &Use,
    auth_policy: &[u8],
    right: bool,
) -> Result<(), Check>
    ensures checks { (state : SessionState) (judge : OneAuth → Bool)
        → session.now ≡ standing_of state
        → right ≡ judge (last_auth state.facts)
        → Breaks result (spec.first_broken_check state occasion.now auth_policy.now judge) }
{
    check_digest(session, occasion, auth_policy)?;
    check_command(session, occasion)?;
    check_surroundings(session, occasion)?;
    check_hashes(session, occasion)?;
    check(right, Check::AuthValue)
}

// A check that holds, or is broken.
fn check(holds: bool, broken: Check) -> Result<(), Check>
    ensures { Breaks result (unless holds broken) }
{
    if holds { Ok(()) } else { Err(broken) }
}

// The PCRs, the digest and the deadlines.
fn check_digest(session: &Standing, occasion: &Use, auth_policy: &[u8]) -> Result<(), Check>
    ensures { (state : SessionState) → session.now ≡ standing_of state
        → Breaks result (spec.broken_digest state occasion.now auth_policy.now) }
{
    check(
        is_counter_now(session.counter, occasion.pcr_counter),
        Check::PcrChanged,
    )?;
    check(
        session.digest.bytes.as_slice() == auth_policy,
        Check::PolicyFail,
    )?;
    check(session.bindings.is_in_time(occasion.time), Check::Expired)
}

// The command's code.
fn check_command(session: &Standing, occasion: &Use) -> Result<(), Check>
    ensures { (state : SessionState) → session.now ≡ standing_of state
        → Breaks result (spec.broken_command state occasion.now) }
{
    let has_code = !occasion.duplicate_role || session.bindings.sets_code();
    check(
        session.bindings.every_code(occasion.code),
        Check::CommandCode,
    )?;
    check(has_code, Check::RoleNeedsCode)
}

// The client's locality and physical presence.
fn check_surroundings(session: &Standing, occasion: &Use) -> Result<(), Check>
    ensures { (state : SessionState) → session.now ≡ standing_of state
        → Breaks result (spec.broken_surroundings state occasion.now) }
{
    let is_present = !session.bindings.asks_presence() || occasion.presence;
    check(
        session.bindings.allows_locality(occasion.locality),
        Check::Locality,
    )?;
    check(is_present, Check::Presence)
}

// The hashes of parameters and of Names, and the state of the index.
fn check_hashes(session: &Standing, occasion: &Use) -> Result<(), Check>
    ensures { (state : SessionState) → session.now ≡ standing_of state
        → Breaks result (spec.broken_hashes state occasion.now) }
{
    let bindings = &session.bindings;
    let are_hashes = bindings.every_cp_hash(occasion.cp_hash)
        && bindings.every_name_hash(occasion.name_hash);
    check(are_hashes, Check::Hashes)?;
    check(
        is_written_as_asked(session, occasion.written),
        Check::NvWritten,
    )
}

// Whether the entity's state is what every PolicyNvWritten asks for.
fn is_written_as_asked(session: &Standing, written: Option<bool>) -> bool
    ensures { (state : SessionState) → session.now ≡ standing_of state
        → result ≡ spec.is_written_as_asked state.facts written }
{
    match written {
        None => !session.bindings.sets_written(),
        Some(written) => session.bindings.every_written(written),
    }
}

/// The response code of a deferred check that is broken.
pub fn code_of_check(check: Check) -> u32
    ensures code { result ≡ spec.code_of_check check }
{
    match check {
        Check::PcrChanged => PCR_CHANGED,
        Check::Locality => LOCALITY,
        Check::PolicyFail | Check::RoleNeedsCode | Check::Hashes | Check::NvWritten => {
            POLICY_FAIL + of_session(1)
        }
        Check::Expired => EXPIRED + of_session(1),
        Check::CommandCode => POLICY_CC + of_session(1),
        Check::Presence => PP + of_session(1),
        Check::AuthValue => AUTH_FAIL + of_session(1),
    }
}
