//! What a reply says.

ghost use Rattle.std.specs.Prelude.{◌≡◌, IfOk};
ghost use Rattle.tpol_base.specs.CommandCode.{number_of_code};
ghost use Rattle.tpol_wire.specs.ReplyReading.{reply_reading};
ghost use Rattle.tpol_driver.specs.Answers.{HasWholeTicket, answer_of};

use std::alloc::Global;
use tpol_base::{CommandCode, NoMemory, Rc};
use tpol_wire::{Reply, ReplyAuth, ReplyFault, read_reply};

/// What the bytes that came say of the command that was sent.
#[derive(Drop)]
pub(crate) enum Answer {
    /// It was carried out: the fields of its reply, and the authorization of a command that had one.
    Done(Reply, Option<ReplyAuth>),
    /// It was refused with this code.
    Denied(Rc),
    /// The bytes are no reply to it.
    Malformed,
}

/// What these bytes say of a command with this code.
pub(crate) fn read_answer(
    alloc: Global,
    code: CommandCode,
    reply: &[u8],
) -> Result<Answer, NoMemory>
    ensures whole { IfOk result HasWholeTicket }
    ensures answer { IfOk result (λ answer. answer
        ≡ answer_of (reply_reading (number_of_code code) reply.now)) }
{
    match read_reply(alloc, code.number(), reply) {
        Ok((Reply::Refused(rc), _)) => Ok(Answer::Denied(rc)),
        Ok((reply, auth)) => Ok(Answer::Done(reply, auth)),
        Err(ReplyFault::Malformed) => Ok(Answer::Malformed),
        Err(ReplyFault::NoMemory) => Err(NoMemory),
    }
}
