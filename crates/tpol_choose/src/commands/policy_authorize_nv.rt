// PolicyAuthorizeNV (TPM 2.0 Part 3, TPM2_PolicyAuthorizeNV).

ghost use Rattle.std.specs.Prelude.{◌≡◌};
ghost use Rattle.tpm_bindings.specs.State.{SessionState};
ghost use Rattle.tpm_rules.specs.PolicyAuthorizeNv.{policy_authorize_nv_rule};
ghost use Rattle.tpm_rules.specs.Rule.{Breaks};
ghost use Rattle.tpm_rules.specs.Standing.{standing_of};
ghost use Rattle.tpol_base.specs.declared.command_code.CommandCode.TheVariants as codes;
ghost use Rattle.tpol_choose.specs.Lent.{client_of_lent};
ghost use Rattle.tpol_choose.specs.Moves.{index_block};
ghost use Rattle.tpol_goal.specs.Entities.{index_in_sight};

use crate::Why;
use crate::answer::answered;
use crate::client::Client;
use crate::commands::reading::reading_rule;
use tpm_rules::Standing;
use tpol_base::{CommandCode, Name};
use tpol_goal::index_in_sight;

pub fn policy_authorize_nv(client: &Client<'_>, session: &Standing, index: &Name) -> Result<(), Why>
    ensures { (state : SessionState) → session.now ≡ standing_of state
        → Breaks result (index_block (client_of_lent client.now) codes.PolicyAuthorizeNv
        (policy_authorize_nv_rule state) (index_in_sight client.now.sight.now index.now)) }
{
    let Some(entry) = index_in_sight(client.sight, index) else {
        return Err(Why::NoEntity);
    };
    let own = tpm_rules::policy_authorize_nv_rule(session, entry);
    answered(reading_rule(client, entry, CommandCode::PolicyAuthorizeNv, own))
}
