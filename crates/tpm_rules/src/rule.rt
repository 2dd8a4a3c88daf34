//! Rules in their order.

ghost use Rattle.tpm_rules.specs.Rule.{Obeys, unless};

use tpol_base::Rc;

/// A rule: nothing where it holds, else the response code of its being broken.
pub fn unless(holds: bool, code: u32) -> Result<(), Rc>
    ensures rule { Obeys result (unless holds code) }
{
    if holds { Ok(()) } else { Err(Rc { code }) }
}
