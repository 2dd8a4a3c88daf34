//! What a session keeps of its policy commands.

ghost use Rattle.std.specs.Prelude.{◌≡◌, ◌∷◌, ◌++◌, ◌<◌, ◌≤◌, [], length, IfOk, IsTrue, ◌↔◌};

use crate::Move;
use std::alloc::Global;
use std::marker::Model;
use tpol_base::{Digest32, NoMemory};

/// What a session keeps of one policy command: the event's number, the move, its cpHashA, and the moment
/// in milliseconds after which it no longer holds.
#[derive(Clone, Drop)]
pub struct Fact {
    pub event: u32,
    pub act: Move,
    pub cp_hash: Option<Digest32>,
    pub deadline: Option<u64>,
}

/// A session's facts, at most 512, in order; contracts see the list of them. The room for 512 is taken
/// once, by `new`.
#[derive(Drop)]
pub struct Facts {
    items: Vec<Fact>,
}

impl Model for Facts {
    ghost use Rattle.std.specs.Prelude.{List, ◌≤◌, vec_len};
    ghost use Rattle.std.specs.Vec.{vec_capacity};
    ghost use Rattle.tpol_tree.specs.declared.facts.Fact.{Fact as OneFact};

    ghost Value = { List OneFact };

    ghost view = { λ f. f.items.items };

    ghost invariant = { λ f. (vec_len f.items ≤ 512) × (512 ≤ vec_capacity f.items) };
}

impl Facts {
    /// The greatest number of facts.
    pub const ROOM: usize = 512;

    /// No facts, and room for 512.
    pub fn new(alloc: Global) -> Result<Facts, NoMemory>
        ensures { IfOk result (λ facts. facts ≡ []) }
    {
        Ok(Facts {
            items: Vec::with_capacity(alloc, Facts::ROOM)?,
        })
    }

    /// The number of facts.
    pub fn len(&self) -> usize
        ensures count { result ≡ length self.now }
        ensures within_room { result ≤ 512 }
    {
        self.items.len()
    }

    /// Whether there is no fact.
    pub fn is_empty(&self) -> bool
        ensures { IsTrue result ↔ (self.now ≡ []) }
    {
        self.items.is_empty()
    }

    /// The facts in order.
    pub fn as_slice(&self) -> &[Fact]
        ensures { result.now ≡ self.now }
    {
        self.items.as_slice()
    }

    /// Adds a fact at the end. It takes no memory.
    pub fn push(&mut self, fact: Fact)
        requires room { length self.old < 512 }
        ensures { self.new ≡ self.old ++ fact ∷ [] }
    {
        self.items.push_reserved(fact);
    }

    /// Drops all facts and keeps the room. It takes no memory.
    pub fn clear(&mut self)
        ensures { self.new ≡ [] }
    {
        self.items.clear();
    }
}
