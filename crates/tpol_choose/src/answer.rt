// Rules that a machine answers by.

ghost use Rattle.std.specs.Prelude.{◌≡◌, ℕ, Option};
ghost use Rattle.tpm_rules.specs.Rule.{Breaks, Obeys};
ghost use Rattle.tpol_choose.specs.Lent.{entity_of_lent};
ghost use Rattle.tpol_choose.specs.Moves as spec;
ghost use Rattle.tpm_rules.specs.EntityView.{entity_of};

use crate::Why;
use crate::entity_at::EntityAt;
use tpm_rules::{
    Denial, Entity, code_of_check, password_denial, unavailable_password_code, wrong_password_code,
};
use tpol_base::{CommandCode, Rc};
use tpol_goal::Grants;

// The machine's answer stands in the way.
pub fn answered(outcome: Result<(), Rc>) -> Result<(), Why>
    ensures { (rule : Option ℕ) → Obeys outcome rule → Breaks result (spec.answered rule) }
{
    match outcome {
        Ok(()) => Ok(()),
        Err(rc) => Err(Why::Answer(rc)),
    }
}

// Authorization by password, with the value that is granted for the entity.
pub fn password_rule(grants: &Grants, found: &EntityAt<'_>, code: CommandCode) -> Result<(), Rc>
    ensures { Obeys result (spec.password_rule grants.now (entity_of_lent found.now) code) }
{
    let given = grants.secret(found.handle);
    match password_denial(&found.entity, code.number(), given) {
        None => Ok(()),
        Some(denial) => Err(Rc {
            code: code_of_denial(&found.entity, code, denial),
        }),
    }
}

fn code_of_denial(entity: &Entity<'_>, code: CommandCode, denial: Denial) -> u32
    ensures { result ≡ spec.code_of_denial (entity_of entity.now) code denial }
{
    match denial {
        Denial::Unavailable => unavailable_password_code(code.number()),
        Denial::Password => wrong_password_code(entity),
        Denial::Deferred(check) => code_of_check(check),
    }
}
