// The words for policy commands.

ghost use Rattle.std.specs.Prelude.{◌≡◌};
ghost use Rattle.tpol_lines.specs.PathLine.{move_kind};

use tpol_lines::assertion_kind;
use tpol_tree::Move;

// The word for a policy command.
pub fn move_kind(act: &Move) -> &'static str
    ensures { result.now ≡ move_kind act.now }
{
    match act {
        Move::Assert(assertion) => assertion_kind(assertion),
        Move::Or(_) => "Or",
        Move::Approve { .. } => "Approve",
        Move::ApproveNv { .. } => "ApproveNv",
    }
}
