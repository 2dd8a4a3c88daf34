//! PolicyAuthValue, PolicyPassword and PolicyPhysicalPresence (TPM 2.0 Part 3, TPM2_PolicyAuthValue,
//! TPM2_PolicyPassword and TPM2_PolicyPhysicalPresence), which have no rules of their own.

ghost use Rattle.std.specs.Prelude.{◌≡◌, ◌<◌, length, IsOk};
ghost use Rattle.tpm_policy.specs.Asserted.{with_one_more};
ghost use Rattle.tpm_rules.specs.PolicyAuthValue.{policy_auth_value_fact, policy_password_fact, policy_physical_presence_fact};

use crate::session::{add_unbound, fact_of};
use tpm_session::Session;
use tpol_base::Rc;
use tpol_tree::Assertion;

/// Asks for an HMAC with the entity's authorization value as key at the use. It always succeeds.
pub fn assert_auth_value(session: &mut Session, event: u32) -> Result<(), Rc>
    requires room { length session.old.state.facts < 512 }
    ensures ok { IsOk result }
    ensures session { session.new ≡ with_one_more session.old (policy_auth_value_fact event) 0 }
{
    add_unbound(session, fact_of(event, Assertion::AuthValue), 0);
    Ok(())
}

/// Asks for the entity's authorization value in plain at the use. It always succeeds.
pub fn assert_password(session: &mut Session, event: u32) -> Result<(), Rc>
    requires room { length session.old.state.facts < 512 }
    ensures ok { IsOk result }
    ensures session { session.new ≡ with_one_more session.old (policy_password_fact event) 0 }
{
    add_unbound(session, fact_of(event, Assertion::Password), 0);
    Ok(())
}

/// Asks for physical presence at the use. It always succeeds.
pub fn assert_presence(session: &mut Session, event: u32) -> Result<(), Rc>
    requires room { length session.old.state.facts < 512 }
    ensures ok { IsOk result }
    ensures session { session.new
        ≡ with_one_more session.old (policy_physical_presence_fact event) 0 }
{
    add_unbound(session, fact_of(event, Assertion::PhysicalPresence), 0);
    Ok(())
}
