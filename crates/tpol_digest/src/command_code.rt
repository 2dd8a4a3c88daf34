// The command code of each assertion (TPM 2.0 Part 2, TPM_CC).

ghost use Rattle.std.specs.Prelude.{◌≡◌};
ghost use Rattle.tpol_base.specs.CommandCode.{number_of_code};
ghost use Rattle.tpol_digest.specs.Update.{update_of_assertion};

use tpol_base::CommandCode;
use tpol_tree::Assertion;

// The code that an assertion hashes.
pub fn code_of_assertion(assertion: &Assertion) -> u32
    ensures { result ≡ (update_of_assertion assertion.now).code }
{
    command_of_assertion(assertion).number()
}

// The policy command whose code an assertion hashes; PolicyPassword hashes that of PolicyAuthValue.
fn command_of_assertion(assertion: &Assertion) -> CommandCode
    ensures { number_of_code result ≡ (update_of_assertion assertion.now).code }
{
    match assertion {
        Assertion::Pcr { .. } => CommandCode::PolicyPcr,
        Assertion::Nv { .. } => CommandCode::PolicyNv,
        Assertion::Secret { .. } => CommandCode::PolicySecret,
        Assertion::Signed { .. } => CommandCode::PolicySigned,
        Assertion::CounterTimer { .. } => CommandCode::PolicyCounterTimer,
        Assertion::CommandCode(_) => CommandCode::PolicyCommandCode,
        Assertion::Locality(_) => CommandCode::PolicyLocality,
        Assertion::CpHash(_) => CommandCode::PolicyCpHash,
        Assertion::NameHash(_) => CommandCode::PolicyNameHash,
        Assertion::NvWritten(_) => CommandCode::PolicyNvWritten,
        Assertion::AuthValue | Assertion::Password => CommandCode::PolicyAuthValue,
        Assertion::PhysicalPresence => CommandCode::PolicyPhysicalPresence,
        Assertion::Duplication { .. } => CommandCode::PolicyDuplicationSelect,
    }
}
