//! The program's commands.

use crate::canon::canon;
use crate::check::check_source;
use crate::compile::compile;
use crate::import::import;
use crate::paths::{PathView, list_paths};
use crate::request::{Request, request_of_words};
use std::alloc::Global;
use tpol_base::{NoMemory, Shelf};
use tpol_front::Command;
use tpol_generate::perform_generated;
use tpol_perform::perform_scene;
use tpol_steps::{Answer, Halt};

impl Command for Request {
    ghost use Rattle.tpol_top.specs.Commands.{policy_commands};
    ghost use Rattle.tpol_top.specs.Explain.{IsExplanation};
    ghost use Rattle.tpol_top.specs.Reached.{IsDocumentFor};

    ghost commands = { policy_commands };

    ghost IsDocument = { IsDocumentFor };

    ghost IsTrueOf = { IsExplanation };

    fn from_words(alloc: Global, words: &Vec<String>) -> Result<Option<Request>, NoMemory> {
        request_of_words(alloc, words)
    }

    fn reads_source(&self) -> bool {
        !matches!(self, Request::Generate { .. })
    }

    fn carry_out<H: Shelf>(
        &self,
        alloc: Global,
        input: &[u8],
        shelf: &mut H,
    ) -> Result<Answer, Halt> {
        match self {
            Request::Compile { scene } => compile(alloc, scene, input, shelf),
            Request::Paths { scene } => list_paths(alloc, PathView::All, scene, input, shelf),
            Request::Lint { scene } => list_paths(alloc, PathView::Dead, scene, input, shelf),
            Request::Canon => canon(alloc, input),
            Request::Import { name } => import(alloc, name, input, shelf),
            Request::Check { name, scene } => check_source(alloc, name, scene, input, shelf),
            Request::Perform { manner } => perform_scene(alloc, *manner, input, shelf),
            Request::Generate { ors, order } => perform_generated(alloc, *ors, *order),
        }
    }
}
