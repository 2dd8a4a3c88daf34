//! What the definitions promise together: functions without a body, whose clauses are the laws.

ghost use Rattle.std.specs.Prelude.{◌≡◌, ◌≤◌, ◌<◌, ℕ, [], ◌∷◌, ◌++◌, length, map, option_map, reverse, true, false, List, Some, Ok};
ghost use Rattle.tpol_digest.specs.Update.{update_of};
ghost use Rattle.tpol_name.specs.declared.setup.Setup.{Setup as SetupOf};
ghost use Rattle.tpol_wire.specs.declared.command.Command.{Command as CommandOf};
ghost use Rattle.tpol_wire.specs.Reading.{reading};
ghost use Rattle.tpm_bindings.specs.State.{SessionState};
ghost use Rattle.tpm_context.specs.Saved.{is_saved};
ghost use Rattle.tpm_rules.specs.declared.outcome.Outcome.TheVariants.{Accepted};
ghost use Rattle.tpm_rules.specs.Slot.{takes_optional_cp_hash};
ghost use Rattle.tpm_session.specs.Slots.{is_live, state_at};
ghost use Rattle.tpm_engine.specs.declared.event.Event.{Event as EventOf};
ghost use Rattle.tpm_engine.specs.Calls.{Call, call_of, journal_after};
ghost use Rattle.tpm_engine.specs.Deeds.{Loads, Saves, deed_of};
ghost use Rattle.tpm_engine.specs.Events.{succeeded};
ghost use Rattle.tpm_engine.specs.Facts.{Moment, shown_by};
ghost use Rattle.tpm_engine.specs.Legal.{IsLegal, answer_to};
ghost use Rattle.tpm_engine.specs.PolicyCommands.{policy_command_reply};
ghost use Rattle.tpm_engine.specs.SavedSessions.{has_save};
ghost use Rattle.tpm_engine.specs.Tickets as tickets;
ghost use Rattle.tpm_engine.specs.Views.{next_number, sequence_of, time_of, view_of};

/// A command that does not succeed changes nothing that a machine has but its journal.
pub fn failures_change_nothing()
    ensures same_view { (setup : SetupOf) (past : List EventOf) (event : EventOf)
        → succeeded event ≡ false → view_of setup (event ∷ past) ≡ view_of setup past }
{}

/// Calls in any order make a journal that has their events in order, and in which each answer is that of the
/// events before.
pub fn calls_make_the_journal()
    ensures legal { (setup : SetupOf) (calls : List Call)
        → IsLegal setup (journal_after setup calls []) }
    ensures in_order { (setup : SetupOf) (calls : List Call)
        → map call_of (reverse (journal_after setup calls [])) ≡ calls }
{}

/// A session is at most one of live and saved. Between two loads of it there is a save, and a load by the
/// context of a save gives it back live, with the facts, the start and the nonce that it had before the save.
pub fn saved_sessions_come_back_once()
    ensures apart { (setup : SetupOf) (past : List EventOf) (session : ℕ)
        → is_live (view_of setup past).sessions session ≡ true
        → is_saved (view_of setup past).saved session ≡ false }
    ensures once { (setup : SetupOf) (past middle : List EventOf) (first second : EventOf)
        (session : ℕ)
        → IsLegal setup (second ∷ middle ++ first ∷ past) → deed_of first ≡ Loads session
        → deed_of second ≡ Loads session
        → has_save session middle ≡ true }
    ensures same { (setup : SetupOf) (past middle : List EventOf) (save load : EventOf)
        (session : ℕ)
        → IsLegal setup (load ∷ middle ++ save ∷ past) → deed_of save ≡ Saves session
        → deed_of load ≡ Loads session
        → sequence_of (middle ++ save ∷ past) session ≡ Some (next_number past)
        → state_at (view_of setup (load ∷ middle ++ save ∷ past)).sessions session
        ≡ state_at (view_of setup past).sessions session }
{}

/// The reply to a policy command tells a ticket, with its deadline, exactly where the command gives one: to a
/// PolicySecret or PolicySigned with a negative expiration. That ticket is accepted by PolicyTicket with its
/// fields on every live session that has room and whose slot takes the cpHashA, while the time is at most its
/// deadline and no Reset came since; and its fact hashes what the first one's does.
pub fn tickets_are_accepted()
    ensures told { (setup : SetupOf) (past : List EventOf) (command : CommandOf)
        → tickets.told_ticket (policy_command_reply (view_of setup past) command)
        ≡ option_map (λ given. (given.deadline, given.ticket))
        (tickets.ticket_by (view_of setup past) command) }
    ensures same { (setup : SetupOf) (past : List EventOf) (command : CommandOf)
        (given : tickets.Ticketed) (own : ℕ) (now later : Moment)
        → tickets.ticket_by (view_of setup past) command ≡ Some given
        → now.world ≡ (view_of setup past).world
        → option_map (λ shown. update_of (shown.1 later).act)
        (shown_by (tickets.ticket_command own given))
        ≡ option_map (λ shown. update_of (shown.1 now).act) (shown_by command) }
    ensures accepted { (setup : SetupOf) (past later : List EventOf) (command : CommandOf)
        (given : tickets.Ticketed) (own locality : ℕ) (buffer : List ℕ) (state : SessionState)
        → tickets.ticket_by (view_of setup past) command ≡ Some given
        → tickets.has_reset later ≡ false
        → state_at (view_of setup (later ++ past)).sessions own ≡ Some state
        → length state.facts < 512
        → takes_optional_cp_hash state.facts given.cp_hash ≡ true
        → time_of setup (later ++ past) ≤ given.deadline
        → reading buffer ≡ Ok (tickets.ticket_command own given)
        → (answer_to setup (later ++ past) locality buffer).outcome ≡ Accepted }
{}
