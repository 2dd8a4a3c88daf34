ghost use Rattle.std.specs.Prelude.{◌≡◌};
ghost use Rattle.tpol_lines.specs.PathLine.{assertion_kind};

use tpol_tree::Assertion;

/// The word for an assertion's policy command.
pub fn assertion_kind(assertion: &Assertion) -> &'static str
    ensures { result.now ≡ assertion_kind assertion.now }
{
    match assertion {
        Assertion::Pcr { .. } => "Pcr",
        Assertion::Nv { .. } => "Nv",
        Assertion::Secret { .. } => "Secret",
        Assertion::Signed { .. } => "Signed",
        Assertion::CounterTimer { .. } => "CounterTimer",
        Assertion::CommandCode(_) => "CommandCode",
        Assertion::Locality(_) => "Locality",
        Assertion::CpHash(_) => "CpHash",
        Assertion::NameHash(_) => "NameHash",
        Assertion::NvWritten(_) => "NvWritten",
        Assertion::AuthValue => "AuthValue",
        Assertion::Password => "Password",
        Assertion::PhysicalPresence => "PhysicalPresence",
        Assertion::Duplication { .. } => "Duplication",
    }
}
