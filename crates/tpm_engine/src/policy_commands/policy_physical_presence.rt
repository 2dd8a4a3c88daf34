//! PolicyPhysicalPresence (TPM 2.0 Part 3, TPM2_PolicyPhysicalPresence), which has no rules of its own.

ghost use Rattle.std.specs.Prelude.{◌≡◌, ◌<◌, length};
ghost use Rattle.tpm_policy.specs.Asserted.{with_one_more};
ghost use Rattle.tpm_rules.specs.PolicyAuthValue.{policy_physical_presence_fact};

use tpm_policy::assert_presence;
use tpm_session::Session;

// Asks for physical presence at the use.
pub fn carry_out(session: &mut Session, number: u32)
    requires room { length session.old.state.facts < 512 }
    ensures session { session.new
        ≡ with_one_more session.old (policy_physical_presence_fact number) 0 }
{
    match assert_presence(session, number) {
        Ok(()) => {}
        Err(_) => unreachable!(),
    }
}
