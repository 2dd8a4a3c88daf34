//! The program's commands.

use crate::adopt::adopt;
use crate::differences::differences;
use crate::digests::digests;
use crate::fapi_text::fapi_text;
use crate::request::{Request, request_of_words};
use crate::steps::steps;
use std::alloc::Global;
use tpol_base::{NoMemory, Shelf};
use tpol_front::Command;
use tpol_steps::{Answer, Halt};
use tpol_who::who;

impl Command for Request {
    ghost use Rattle.std.specs.Prelude.{⊤};
    ghost use Rattle.tpol_bridge.specs.Commands.{bridge_commands};
    ghost use Rattle.tpol_bridge.specs.Reached.{IsDocumentFor};

    ghost commands = { bridge_commands };

    ghost IsDocument = { IsDocumentFor };

    ghost IsTrueOf = { λ command input all answer. ⊤ };

    fn from_words(alloc: Global, words: &Vec<String>) -> Result<Option<Request>, NoMemory> {
        request_of_words(alloc, words)
    }

    fn reads_source(&self) -> bool {
        true
    }

    fn carry_out<H: Shelf>(
        &self,
        alloc: Global,
        input: &[u8],
        shelf: &mut H,
    ) -> Result<Answer, Halt> {
        match self {
            Request::Adopt => adopt(alloc, input),
            Request::Export => fapi_text(alloc, input),
            Request::Differences => differences(alloc, input),
            Request::Digests { scene } => digests(alloc, scene, input, shelf),
            Request::Steps { position, scene } => steps(alloc, *position, scene, input, shelf),
            Request::Who => who(alloc, input, shelf),
        }
    }
}
