//! What a machine keeps.

ghost use Rattle.std.specs.Prelude.{◌≡◌, ◌+◌, ◌≤◌, ◌^◌, None, IfOk, replicate};
ghost use Rattle.tpol_name.specs.Setups.{IsSetup, IsSight};
ghost use Rattle.tpm_session.specs.Slots.{slot_count};
ghost use Rattle.tpm_engine.specs.Deeds.{Passes, Resets, Shifts, after_deed};
ghost use Rattle.tpm_engine.specs.Sights.{sight_of_tables};
ghost use Rattle.tpm_engine.specs.Tables.{first_tables};

use std::alloc::Global;
use std::marker::Model;
use tpm_context::Saved;
use tpm_session::Sessions;
use tpm_world::World;
use tpol_base::NoMemory;
use tpol_name::{Setup, Sight};

/// What a machine keeps: its world, and the policy sessions that are live or saved. No session is both.
#[derive(Drop)]
pub struct Tables {
    pub(crate) world: World,
    pub(crate) sessions: Sessions,
    pub(crate) saved: Saved,
}

impl Model for Tables {
    ghost use Rattle.tpm_context.specs.Saved.{AreApart};
    ghost use Rattle.tpm_engine.specs.Tables.{TableState};

    ghost Value = { TableState };

    ghost view = { λ t. record { world = t.world; sessions = t.sessions; saved = t.saved } };

    ghost invariant = { λ t. AreApart t.sessions t.saved };
}

impl Tables {
    /// The tables of a machine that starts from this setup.
    pub fn new(alloc: Global, setup: &Setup) -> Result<Tables, NoMemory>
        requires setup { IsSetup setup.now }
        ensures tables { IfOk result (λ tables. tables ≡ first_tables setup.now) }
    {
        let world = World::new(alloc, setup)?;
        match no_sessions(alloc) {
            Ok((sessions, saved)) => Ok(Tables {
                world,
                sessions,
                saved,
            }),
            Err(NoMemory) => {
                drop(world);
                Err(NoMemory)
            }
        }
    }

    /// The time in milliseconds.
    pub fn time(&self) -> u64
        ensures time { result ≡ self.now.world.time }
        ensures early { result ≤ 2 ^ 63 }
    {
        self.world.time()
    }

    /// What the machine shows at this moment.
    pub fn sight(&self, alloc: Global) -> Result<Sight, NoMemory>
        ensures sight { IfOk result (λ sight. sight ≡ sight_of_tables self.now) }
        ensures condition { IfOk result IsSight }
    {
        let free_sessions = self.sessions.free(self.saved.slots());
        self.world.sight(alloc, free_sessions)
    }

    /// Lets so many milliseconds pass.
    pub fn advance(&mut self, ms: u32)
        requires early { self.old.world.time + ms ≤ 2 ^ 63 }
        ensures tables { self.new ≡ after_deed 0 (Passes ms) self.old }
    {
        self.world.advance(ms);
    }

    /// Turns physical presence on or off.
    pub fn set_presence(&mut self, on: bool)
        ensures tables { self.new ≡ after_deed 0 (Shifts on) self.old }
    {
        self.world.set_presence(on);
    }

    /// Resets the machine (TPM 2.0 Part 1, "TPM Reset"): all sessions end, saved ones too.
    pub fn reset(&mut self)
        ensures tables { self.new ≡ after_deed 0 Resets self.old }
    {
        self.world.reset();
        self.sessions.clear();
        self.saved.clear();
    }
}

// No session that is live, and none that is saved.
fn no_sessions(alloc: Global) -> Result<(Sessions, Saved), NoMemory>
    ensures sessions { IfOk result (λ none. none.0 ≡ replicate slot_count None) }
    ensures saved { IfOk result (λ none. none.1 ≡ replicate slot_count None) }
{
    let sessions = Sessions::new(alloc)?;
    match Saved::new(alloc) {
        Ok(saved) => Ok((sessions, saved)),
        Err(NoMemory) => {
            drop(sessions);
            Err(NoMemory)
        }
    }
}
