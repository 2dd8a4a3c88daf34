//! PolicyTicket (TPM 2.0 Part 3, TPM2_PolicyTicket).

ghost use Rattle.std.specs.Prelude.{◌≡◌};
ghost use Rattle.tpm_bindings.specs.State.{SessionState};
ghost use Rattle.tpm_rules.specs.PolicyTicket.{policy_ticket_rule};
ghost use Rattle.tpm_rules.specs.Rule.{Obeys};
ghost use Rattle.tpm_rules.specs.Standing.{standing_of};

use crate::Standing;
use crate::rule::unless;
use crate::slot::takes_optional_cp_hash;
use tpol_base::response_code::{CPHASH, EXPIRED, TICKET, of_parameter};
use tpol_base::{Digest32, Rc};

/// That the ticket's time has not passed (TPM_RC_EXPIRED, parameter 1), that the slot takes the cpHashA
/// (TPM_RC_CPHASH), and that the ticket is right, as the caller judges it: its tag, its hierarchy and its
/// digest (TPM_RC_TICKET, parameter 5). Times are in milliseconds.
pub fn policy_ticket_rule(
    session: &Standing,
    time: u64,
    deadline: u64,
    cp_hash: Option<Digest32>,
    right: bool,
) -> Result<(), Rc>
    ensures rule { (state : SessionState) → session.now ≡ standing_of state
        → Obeys result (policy_ticket_rule state time deadline cp_hash right) }
{
    unless(time <= deadline, EXPIRED + of_parameter(1))?;
    unless(takes_optional_cp_hash(session, cp_hash), CPHASH)?;
    unless(right, TICKET + of_parameter(5))
}
