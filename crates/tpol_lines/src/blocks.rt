// The line of a path that cannot be gone.

ghost use Rattle.std.specs.Prelude.{◌≡◌, ◌∷◌, ◌+◌, ◌++◌, ◌≤◌, [], codes, decimal, length, List, OnErr, OnOk};
ghost use Rattle.tpol_lines.specs.BlockLine.{block_line, why_text};
ghost use Rattle.tpol_lines.specs.Lines.{line_of};
ghost use Rattle.tpol_lines.specs.PathLine.{label};
ghost use Rattle.tpol_tree.specs.declared.path.PathStep.{PathStep};

use crate::events::check_word;
use crate::lines::Lines;
use crate::piece::Piece;
use tpol_base::NoMemory;
use tpol_choose::{Block, Why};

/// Adds the line of the path at a position, from 1, with its choices as `label` gives them, and the first thing that
/// stands in its way. It fails only where memory ran out, and the lines are then as before.
pub fn push_block_line(
    lines: &mut Lines,
    position: u32,
    choices: &[u8],
    block: &Block,
) -> Result<(), NoMemory>
    ensures ok { (steps : List PathStep) → choices.now ≡ label steps
        → OnOk result (lines.new
        ≡ lines.old ++ line_of (block_line position steps block.now) ∷ []) }
    ensures err { OnErr result (lines.new ≡ lines.old) }
{
    let mut front = Piece::new();
    front.prepend(b" ");
    front.prepend_decimal(position);
    front.prepend(b"block ");
    let mut end = Piece::new();
    end.prepend(b"\n");
    prepend_why(&mut end, block.at, &block.why);
    end.prepend(b" ");
    lines.push_pieces(&[front.as_slice(), choices, end.as_slice()])
}

// Sets what stands in the way, of the move at a place where it is a move's, before what is there.
fn prepend_why(piece: &mut Piece, place: u32, why: &Why)
    requires { 40 + length piece.old ≤ 112 }
    ensures why { piece.new ≡ why_text place why.now ++ piece.old }
    ensures short { length piece.new ≤ 40 + length piece.old }
{
    match why {
        Why::Outside => piece.prepend(b"outside"),
        Why::NoSession => piece.prepend(b"nosession"),
        Why::NoEntity => {
            piece.prepend(b" noentity");
            prepend_move(piece, place);
        }
        Why::NoKey => {
            piece.prepend(b" nokey");
            prepend_move(piece, place);
        }
        Why::Answer(rc) => {
            piece.prepend_code(rc.code);
            piece.prepend(b" answer ");
            prepend_move(piece, place);
        }
        Why::Deferred(check) => {
            piece.prepend(check_word(check).as_bytes());
            piece.prepend(b"goal denied ");
        }
        Why::GoalRule(rc) => {
            piece.prepend_code(rc.code);
            piece.prepend(b"goal answer ");
        }
    }
}

// Sets the word for the move at a place before what is there.
fn prepend_move(piece: &mut Piece, place: u32)
    requires { 15 + length piece.old ≤ 112 }
    ensures words { piece.new ≡ codes "move " ++ decimal place ++ piece.old }
    ensures short { length piece.new ≤ 15 + length piece.old }
{
    piece.prepend_decimal(place);
    piece.prepend(b"move ");
}
