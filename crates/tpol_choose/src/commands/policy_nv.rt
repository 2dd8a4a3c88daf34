// PolicyNV (TPM 2.0 Part 3, TPM2_PolicyNV).

ghost use Rattle.tpm_rules.specs.PolicyNv.{policy_nv_rule};
ghost use Rattle.tpm_rules.specs.Rule.{Breaks};
ghost use Rattle.tpol_base.specs.declared.command_code.CommandCode.TheVariants as codes;
ghost use Rattle.tpol_choose.specs.Lent.{client_of_lent};
ghost use Rattle.tpol_choose.specs.Moves.{index_block};
ghost use Rattle.tpol_goal.specs.Entities.{index_in_sight};
ghost use Rattle.tpol_name.specs.Setups.{IsSight};

use crate::Why;
use crate::answer::answered;
use crate::client::Client;
use crate::commands::reading::reading_rule;
use crate::indices::index_of_name;
use tpol_base::{CommandCode, Compare, Name};

pub fn policy_nv(
    client: &Client<'_>,
    index: &Name,
    operand: &[u8],
    offset: u16,
    operation: Compare,
) -> Result<(), Why>
    requires sight { IsSight client.now.sight.now }
    ensures { Breaks result (index_block (client_of_lent client.now) codes.PolicyNv
        (λ entry. policy_nv_rule entry operand.now offset operation)
        (index_in_sight client.now.sight.now index.now)) }
{
    let Some(entry) = index_of_name(client.sight, index) else {
        return Err(Why::NoEntity);
    };
    let own = tpm_rules::policy_nv_rule(entry, operand, offset, operation);
    answered(reading_rule(client, entry, CommandCode::PolicyNv, own))
}
