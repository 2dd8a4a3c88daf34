//! Lists of assertions that a session can never hold, each of which agrees without its last one: by hand after
//! docs/machine-rules.md, What a session can never hold.

use crate::{Bindings, Disagreement};
use std::process::Abort;
use std::test::Fail;
use tpol_base::handle::{TPM_RH_NULL, TPM_RH_OWNER};
use tpol_base::{CommandCode, Digest32, Name};
use tpol_tree::{Assertion, Move};

fn duplication() -> Assertion {
    Assertion::Duplication {
        object: Name::Handle(TPM_RH_OWNER),
        parent: Name::Handle(TPM_RH_NULL),
        include: false,
    }
}

// The last assertion is the first that does not agree with those before it, by this rule.
fn disagrees(
    rt: &impl Abort,
    first: Assertion,
    second: Assertion,
    last: Assertion,
    rule: Disagreement,
) {
    let mut bindings = Bindings::new();
    bindings.merge(&Move::Assert(first), None, None);
    bindings.merge(&Move::Assert(second), None, None);
    assert!(rt; bindings.disagreement().is_none());
    assert!(rt; bindings.disagreement_with(&Move::Assert(last)) == Some(rule));
}

#[test]
fn assertions_that_exclude_each_other(rt: HostRuntime) -> Result<(), Fail> {
    disagrees(
        &rt,
        Assertion::CommandCode(CommandCode::Unseal.number()),
        Assertion::AuthValue,
        Assertion::CommandCode(CommandCode::Hmac.number()),
        Disagreement::Code,
    );
    disagrees(
        &rt,
        Assertion::Locality(3),
        Assertion::Locality(6),
        Assertion::Locality(5),
        Disagreement::Locality,
    );
    disagrees(
        &rt,
        Assertion::Locality(1),
        Assertion::CpHash(Digest32::ZERO),
        duplication(),
        Disagreement::Kinds,
    );
    Ok(())
}
