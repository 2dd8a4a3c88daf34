// The lines of the events of a machine.

ghost use Rattle.std.specs.Prelude.{◌≡◌, ◌+◌, ◌++◌, ◌∷◌, ◌≤◌, [], IfOk, OnErr, OnOk, length};
ghost use Rattle.tpol_lines.specs.Lines.{line_of};
ghost use Rattle.tpol_lines.specs.Events.{check_word, class_text, command_line, denial_word, presence_line, reset_line, switch_word, time_line};

use crate::lines::Lines;
use crate::piece::Piece;
use itoa::Buffer;
use std::alloc::Global;
use tpm_rules::{Denial, Outcome};
use tpol_base::{Check, NoMemory, Text};

/// Adds the line of a command: the number of its event, the client that sent it and from which locality, the
/// codes of the command and of the reply, what became of it, and the reply. It fails only where memory ran out,
/// and the lines are then as before.
///
/// A code has eight hexadecimal digits, those of bytes 7 to 10 of the command or of the reply, whatever they
/// say; where there are fewer than 10 bytes, dashes stand in its place.
pub fn push_command_line(
    lines: &mut Lines,
    event: u32,
    client: u32,
    locality: u8,
    buffer: &[u8],
    reply: &[u8],
    outcome: &Outcome,
) -> Result<(), NoMemory>
    ensures ok { OnOk result (lines.new ≡ lines.old
        ++ line_of (command_line event client locality buffer.now reply.now outcome.now) ∷ []) }
    ensures err { OnErr result (lines.new ≡ lines.old) }
{
    let mut piece = Piece::new();
    piece.prepend(b" reply ");
    prepend_class(&mut piece, outcome);
    piece.prepend(b" ");
    piece.prepend_code_of_buffer(reply);
    piece.prepend(b" rc ");
    piece.prepend_code_of_buffer(buffer);
    piece.prepend(b" code ");
    piece.prepend_decimal(u32::from(locality));
    piece.prepend(b" locality ");
    piece.prepend_decimal(client);
    piece.prepend(b" client ");
    let mut digits = Buffer::new();
    let number = digits.format(u64::from(event));
    lines.push_numbered(number.as_bytes(), piece.as_slice(), reply)
}

// Sets what became of a command before what is there.
fn prepend_class(piece: &mut Piece, outcome: &Outcome)
    requires { 20 + length piece.old ≤ 112 }
    ensures class { piece.new ≡ class_text outcome.now ++ piece.old }
    ensures short { length piece.new ≤ 20 + length piece.old }
{
    match outcome {
        Outcome::Accepted => piece.prepend(b"accepted"),
        Outcome::Served => piece.prepend(b"served"),
        Outcome::Denied(denial) => {
            piece.prepend(denial_word(denial).as_bytes());
            piece.prepend(b"denied ");
        }
        Outcome::Refused(_) => piece.prepend(b"refused"),
    }
}

// The word for a failed authorization.
fn denial_word(denial: &Denial) -> &'static str
    ensures word { result.now ≡ denial_word denial.now }
    ensures short { length result.now ≤ 13 }
{
    match denial {
        Denial::Unavailable => "Unavailable",
        Denial::Password => "Password",
        Denial::Deferred(check) => check_word(check),
    }
}

// The word for a deferred check.
pub(crate) fn check_word(check: &Check) -> &'static str
    ensures word { result.now ≡ check_word check.now }
    ensures short { length result.now ≤ 13 }
{
    match check {
        Check::PcrChanged => "PcrChanged",
        Check::PolicyFail => "PolicyFail",
        Check::Expired => "Expired",
        Check::CommandCode => "CommandCode",
        Check::RoleNeedsCode => "RoleNeedsCode",
        Check::Locality => "Locality",
        Check::Presence => "Presence",
        Check::Hashes => "Hashes",
        Check::NvWritten => "NvWritten",
        Check::AuthValue => "AuthValue",
    }
}

/// The line of time that passed, in milliseconds. It fails only where memory ran out.
pub fn time_line(alloc: Global, event: u32, milliseconds: u32) -> Result<Text, NoMemory>
    ensures { IfOk result (λ line. line ≡ time_line event milliseconds) }
{
    Ok(Text::from_string(format!(in alloc; "{event} time {milliseconds}")?))
}

/// The line of physical presence that was asserted (`on`) or taken back. It fails only where memory ran out.
pub fn presence_line(alloc: Global, event: u32, on: bool) -> Result<Text, NoMemory>
    ensures { IfOk result (λ line. line ≡ presence_line event on) }
{
    let word = switch_word(on);
    Ok(Text::from_string(format!(in alloc; "{event} presence {word}")?))
}

fn switch_word(on: bool) -> &'static str
    ensures { result.now ≡ switch_word on }
{
    if on { "on" } else { "off" }
}

/// The line of a TPM Reset. It fails only where memory ran out.
pub fn reset_line(alloc: Global, event: u32) -> Result<Text, NoMemory>
    ensures { IfOk result (λ line. line ≡ reset_line event) }
{
    Ok(Text::from_string(format!(in alloc; "{event} reset")?))
}
