//! PolicyNV (TPM 2.0 Part 3, TPM2_PolicyNV).

ghost use Rattle.std.specs.Prelude.{◌≡◌, ◌<◌, length, None, true};
ghost use Rattle.tpm_bindings.specs.Merged.{fact_of};
ghost use Rattle.tpm_engine.specs.PolicyCommands as spec;
ghost use Rattle.tpm_policy.specs.Asserted.{with_one_more};
ghost use Rattle.tpm_rules.specs.Rule.{Obeys};
ghost use Rattle.tpm_world.specs.Entities.{name_at};
ghost use Rattle.tpol_base.specs.Handle.{is_index};
ghost use Rattle.tpol_tree.specs.declared.closed.Assertion.TheVariants.{Nv};
ghost use Rattle.tpol_tree.specs.declared.path.Move.TheVariants.{Assert};

use tpm_policy::assert_nv;
use tpm_rules::{nv_authority_rule, policy_nv_rule};
use tpm_session::Session;
use tpm_world::{World, missing_index};
use tpol_base::{Blob, CommandCode, Compare, Rc};

// The parameters of a PolicyNV but for its operand.
#[derive(Clone, Copy)]
pub struct PolicyNv {
    pub authority: u32,
    pub index: u32,
    pub offset: u16,
    pub operation: Compare,
}

// That the authorized handle may read the index (TPM_RC_NV_AUTHORIZATION), that it was written
// (TPM_RC_NV_UNINITIALIZED), that the offset (TPM_RC_VALUE, parameter 2) and the operand from there on (TPM_RC_SIZE,
// parameter 1) lie within it, and that the comparison holds (TPM_RC_POLICY).
pub fn rule(world: &World, given: &PolicyNv, operand: &[u8]) -> Result<(), Rc>
    ensures rule { Obeys result (spec.nv_rule world.now given.now.authority given.now.index
        operand.now given.now.offset given.now.operation) }
{
    match world.index(given.index) {
        Some(entry) => {
            nv_authority_rule(
                given.authority,
                &entry.public,
                CommandCode::PolicyNv.number(),
            )?;
            policy_nv_rule(entry, operand, given.offset, given.operation)
        }
        None => Err(missing_index()),
    }
}

// Compares the content of the index with the operand.
pub fn carry_out(world: &World, session: &mut Session, number: u32, given: &PolicyNv, operand: Blob)
    requires room { length session.old.state.facts < 512 }
    requires index { is_index given.now.index ≡ true }
    requires rule { spec.nv_rule world.now given.now.authority given.now.index
        operand given.now.offset given.now.operation ≡ None }
    ensures session { session.new ≡ with_one_more session.old
        (fact_of number (Assert (Nv (name_at world.now given.now.index)
        operand given.now.offset given.now.operation)) None None) 0 }
{
    let Some(entry) = world.index(given.index) else {
        unreachable!();
    };
    match assert_nv(
        session,
        number,
        entry,
        operand,
        given.offset,
        given.operation,
    ) {
        Ok(()) => {}
        Err(_) => unreachable!(),
    }
}
