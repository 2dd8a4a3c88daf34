//! PolicyAuthorizeNV (TPM 2.0 Part 3, TPM2_PolicyAuthorizeNV).

ghost use Rattle.std.specs.Prelude.{◌≡◌, ◌<◌, length, None, true};
ghost use Rattle.tpm_bindings.specs.Merged.{fact_of};
ghost use Rattle.tpm_engine.specs.PolicyCommands as spec;
ghost use Rattle.tpm_policy.specs.Asserted.{with_one_more};
ghost use Rattle.tpm_rules.specs.PolicyAuthorizeNv.{policy_authorize_nv_rule};
ghost use Rattle.tpm_rules.specs.Rule.{Obeys};
ghost use Rattle.tpm_rules.specs.Session.{policy_digest_of};
ghost use Rattle.tpm_world.specs.Entities.{name_at};
ghost use Rattle.tpm_world.specs.Missing.{rule_of_index};
ghost use Rattle.tpol_base.specs.Handle.{is_index};
ghost use Rattle.tpol_tree.specs.declared.path.Move.TheVariants.{ApproveNv};

use tpm_policy::assert_authorize_nv;
use tpm_rules::{nv_authority_rule, policy_authorize_nv_rule};
use tpm_session::Session;
use tpm_world::{World, missing_index};
use tpol_base::{CommandCode, Rc};

// That the authorized handle may read the index (TPM_RC_NV_AUTHORIZATION), that it was written
// (TPM_RC_NV_UNINITIALIZED), that its content begins with the algorithm SHA-256 (TPM_RC_HASH), and that the
// session's digest follows (TPM_RC_VALUE).
pub fn rule(world: &World, session: &Session, authority: u32, index: u32) -> Result<(), Rc>
    ensures rule { Obeys result
        (spec.authorize_nv_rule world.now session.now.state authority index) }
{
    match world.index(index) {
        Some(entry) => {
            nv_authority_rule(
                authority,
                &entry.public,
                CommandCode::PolicyAuthorizeNv.number(),
            )?;
            policy_authorize_nv_rule(&session.standing(), entry)
        }
        None => Err(missing_index()),
    }
}

// Puts the index that holds the session's digest in the place of its policy.
pub fn carry_out(world: &World, session: &mut Session, number: u32, index: u32)
    requires room { length session.old.state.facts < 512 }
    requires index { is_index index ≡ true }
    requires rule { rule_of_index world.now index (policy_authorize_nv_rule session.old.state)
        ≡ None }
    ensures session { session.new ≡ with_one_more session.old
        (fact_of number (ApproveNv (name_at world.now index) (policy_digest_of session.old.state))
        None None) 0 }
{
    let Some(entry) = world.index(index) else {
        unreachable!();
    };
    match assert_authorize_nv(session, number, entry) {
        Ok(()) => {}
        Err(_) => unreachable!(),
    }
}
