//! What the definitions promise together: functions whose clauses are the laws.

ghost use Rattle.std.specs.Prelude.{◌≡◌, ◌≢◌, ◌≤◌, ◌<◌, ◌↔◌, ◌+◌, ◌*◌, ◌^◌, ◌++◌, [], ◌∷◌, ◌⊎◌, ℕ, All, List, Ok, Option, None, Some, find, is_some, length, map, option_map, replicate, slice_get, take, true};
ghost use Rattle.std.specs.List.{Contains};
ghost use Rattle.tpol_choose.specs.declared.block.Block.{Block};
ghost use Rattle.tpol_choose.specs.Blocks.{chosen_path, first_block};
ghost use Rattle.tpol_digest.specs.Digest.{digest_of_moves, policy_digest};
ghost use Rattle.tpol_digest.specs.Paths.{paths_of};
ghost use Rattle.tpol_tree.specs.Facts.{moves_of as moves_of_facts};
ghost use Rattle.tpol_digest.specs.Update.{update_of};
ghost use Rattle.tpol_driver.specs.declared.plan.Plan.{Plan};
ghost use Rattle.tpol_driver.specs.declared.blind_end.BlindEnd.TheVariants as blind_ends;
ghost use Rattle.tpol_driver.specs.Blind as blind;
ghost use Rattle.tpol_driver.specs.Blind.{first_complete, most_blind};
ghost use Rattle.tpol_driver.specs.BlindStates.{is_blind_over};
ghost use Rattle.tpol_base.specs.declared.rc.Rc.{Rc as RcOf};
ghost use Rattle.tpol_driver.specs.declared.end.End.TheVariants.{BadReply, Denied, Served};
ghost use Rattle.tpol_driver.specs.declared.end.Stage.TheVariants as stages;
ghost use Rattle.tpol_driver.specs.declared.session.Session.{Session};
ghost use Rattle.tpol_driver.specs.Driving.{Closing, Moving, Over, Sends, Starting, hears, sends, stage_of_move};
ghost use Rattle.tpol_fields.specs.declared.ticket.Ticket.{Ticket};
ghost use Rattle.tpol_tree.specs.declared.path.Move.{Move};
ghost use Rattle.tpol_driver.specs.Plans.{is_complete};
ghost use Rattle.tpol_driver.specs.States.{is_over};
ghost use Rattle.tpol_name.specs.declared.setup.Setup.{Setup as SetupOf};
ghost use Rattle.tpol_name.specs.Directories.{directory_of};
ghost use Rattle.tpol_name.specs.Setups.{IsSetup};
ghost use Rattle.tpol_tree.specs.declared.closed.Closed.{Closed};
ghost use Rattle.tpol_tree.specs.declared.path.ApprovedDoc.{ApprovedDoc};
ghost use Rattle.tpol_scene.specs.declared.script.ScriptEvent.{ScriptEvent};
ghost use Rattle.tpol_scene.specs.declared.script.ScriptEvent.TheVariants as events;
ghost use Rattle.tpm_engine.specs.declared.event.Event.{Event as EventOf};
ghost use Rattle.tpol_wire.specs.declared.command.Command.{Command as CommandOf};
ghost use Rattle.tpol_wire.specs.Commands.{spelling};
ghost use Rattle.tpol_wire.specs.Reading.{reading};
ghost use Rattle.tpm_engine.specs.Events.{is_success};
ghost use Rattle.tpm_engine.specs.Legal.{answer_to};
ghost use Rattle.tpm_engine.specs.Sights.{sight_after};
ghost use Rattle.tpm_engine.specs.Views.{facts_of, world_at};
ghost use Rattle.tpol_base.specs.declared.document.Document.{Document};
ghost use Rattle.tpol_lines.specs.Lines.{line_of};
ghost use Rattle.tpol_lines.specs.Runs.{end_line};
ghost use Rattle.tpol_laws.specs.Acts.{Act, Run, Turn, after_act, after_acts, begun, succeeds, turns_in};
ghost use Rattle.tpol_laws.specs.BlindRuns.{BlindRun, HasBlindChance, IsBlindBegun, blind_begun, blind_turns, most_to};
ghost use Rattle.tpol_laws.specs.Chances.{IsByChance};
ghost use Rattle.tpol_fill.specs.Filling.{filled};
ghost use Rattle.tpol_generate.specs.Generate.{generate_step, generated_answer, generated_performance, generated_policy, generated_setup};
ghost use Rattle.tpol_laws.specs.Courses.{HasCourse, acts_for, course_at_begin, course_of, run_along};
ghost use Rattle.tpol_laws.specs.GoalBytes.{goal_bytes};
ghost use Rattle.tpol_laws.specs.HeldTickets.{IsGenuine, IsUsable};
ghost use Rattle.tpol_laws.specs.Journal.{IsJournal};
ghost use Rattle.tpol_steps.specs.declared.filled.FilledDocument.{FilledDocument};
ghost use Rattle.tpol_laws.specs.Others.{AreOthersApart, AreSecretsOnWritten, HasGoneOn, place_of};
ghost use Rattle.tpol_goal.specs.Goals.{HasShortOffset};
ghost use Rattle.tpol_laws.specs.PathCommands.{commands_along};
ghost use Rattle.tpol_laws.specs.Replies.{IsNoReply, IsRefusal};
ghost use Rattle.tpol_laws.specs.ReplyCodes.{IsSuccessReply};
ghost use Rattle.tpol_laws.specs.Runs.{IsBegun, IsRun};
ghost use Rattle.tpol_laws.specs.Told.{BeginsNowhere, BeginsOn, HasTurns, IsAlone, IsServedOn, IsSighted, IsToldServed, RunOf, before_begin, behind_begin, behind_own, bytes_for, chosen_for, tickets_at_begin, turns_for, with_over};
ghost use Rattle.tpol_laws.specs.ToldBlind.{BeginsBlindly, HasChanceIn, IsBlindScene, IsServedBlindly, blind_plan_for};
ghost use Rattle.tpol_perform.specs.Performance.{PerformanceState, start_of};
ghost use Rattle.tpol_perform.specs.Script.{all_happened, performed, turn_told};
ghost use Rattle.tpol_prepare.specs.declared.manner.Manner.{Manner as MannerOf};
ghost use Rattle.tpol_prepare.specs.declared.scenario.Scenario.{Scenario};
ghost use Rattle.tpol_prepare.specs.declared.scenario.StagedScene.{StagedScene};
ghost use Rattle.tpol_prepare.specs.Scenario.{erased_staged, is_document, staged_step};
ghost use Rattle.tpol_prepare.specs.Staged.{IsStaged};
ghost use Rattle.tpol_runs.specs.Runs.{run_at};

use tpol_driver::{blind_driving_ends, mirrored};

/// Where a machine started from a scene, and a plan has the scene's directory: a path that nothing stops on the
/// machine as it is now is one whose commands can all be made. It is not outside, each Name on it is in the
/// directory with its kind, and each key that signs is granted.
pub fn a_path_that_can_is_complete()
    ensures { (setup : SetupOf) (past : List EventOf) (plan : Plan) (locality : ℕ)
        → IsSetup setup → plan.directory ≡ directory_of setup
        → first_block plan.path (sight_after setup past) plan.grants plan.goal locality ≡ None
        → is_complete plan ≡ true }
{}

/// A run as a script begins it (`IsBegun`), whose path nothing blocks on the machine as it is at the run's begin, and
/// whose tickets that machine takes (`IsUsable`: they are its own, no reset has come since, and their deadlines have not
/// passed), is over, and served with what its goal gives on that machine, after as many turns as its path has commands,
/// where only its own turns come: the start, one for each move, be it by a ticket or not, one more for each approval by a
/// key, and the goal. No run is served after fewer turns of its own, whatever others do.
pub fn a_path_that_can_is_served()
    ensures served { (run : Run) (past : List EventOf) (turns : ℕ)
        → IsBegun run → All (IsUsable run.setup past) run.plan.tickets
        → first_block run.plan.path
        (sight_after run.setup past) run.plan.grants run.plan.goal run.locality ≡ None
        → commands_along run.plan.path ≤ turns
        → (after_acts run (replicate turns Turn) (begun past)).standing
        ≡ Over (Served (goal_bytes (world_at run.setup past) run.plan.goal)) }
    ensures never_sooner { (run : Run) (past : List EventOf) (acts : List Act) (bytes : List ℕ)
        → turns_in acts < commands_along run.plan.path
        → (after_acts run acts (begun past)).standing ≢ Over (Served bytes) }
{}

/// A run as a script begins it (`IsBegun`; the offset of its goal, if it has one, has two bytes) that holds no tickets,
/// and whose path is blocked on the machine as it is at the run's begin, is never served, where its plan is complete
/// and only its own turns come, and the machine does not carry out the command of its goal: some command of it fails.
/// There is one exception: the run sends an HMAC which is the one that the machine asks for, though the blocks of the two
/// keys differ, or the Names that the two are over. Of a run with tickets it is false: the ticket of a secret that was
/// right once serves where the secret that is granted is wrong by now.
pub fn a_blocked_path_fails()
    ensures served { (run : Run) (past : List EventOf) (turns : ℕ) (block : Block) (bytes : List ℕ)
        → IsBegun run → run.plan.tickets ≡ [] → HasShortOffset run.plan.goal
        → is_complete run.plan ≡ true
        → first_block run.plan.path
        (sight_after run.setup past) run.plan.grants run.plan.goal run.locality ≡ Some block
        → (after_acts run (replicate turns Turn) (begun past)).standing ≡ Over (Served bytes)
        → (before : ℕ) × (before ≤ turns)
        × IsByChance run (after_acts run (replicate before Turn) (begun past)) }
    ensures fails { (run : Run) (past : List EventOf) (turns : ℕ) (block : Block) (session : ℕ)
        → IsBegun run → run.plan.tickets ≡ [] → HasShortOffset run.plan.goal
        → is_complete run.plan ≡ true
        → first_block run.plan.path
        (sight_after run.setup past) run.plan.grants run.plan.goal run.locality ≡ Some block
        → place_of (after_acts run (replicate turns Turn) (begun past)).standing
        ≡ Some (session, length run.plan.path.moves)
        → succeeds run (after_acts run (replicate turns Turn) (begun past))
        (sends run.plan (after_acts run (replicate turns Turn) (begun past)).standing) ≡ true
        → (before : ℕ) × (before ≤ turns)
        × IsByChance run (after_acts run (replicate before Turn) (begun past)) }
{}

/// A run is over after as many turns as it has commands at most, whatever others do: two for each move, and the
/// start, the goal and the end of its session.
pub fn a_run_ends()
    ensures { (run : Run) (past : List EventOf) (acts : List Act)
        → 2 * length run.plan.path.moves + 3 ≤ turns_in acts
        → is_over (after_acts run acts (begun past)).standing ≡ true }
{}

/// Where the machine started from a scene, the plan has the scene's directory, is complete, and its grants and
/// moves are within the bounds of the wire (`IsRun`), no event of anybody else names the run's session and no
/// Reset comes (`AreOthersApart`), and each index on which one of its PolicySecret commands is executed is written
/// at that moment (`AreSecretsOnWritten`), a run on its path goes on where the machine carries out its command: it
/// is one move further, or has verified the approval that it makes next. A run whose session is started stands
/// before its first move, without these premises. So with them a run whose commands up to the goal all succeed
/// comes to stand before its goal.
pub fn a_run_goes_on()
    ensures starts { (run : Run) (past : List EventOf)
        → succeeds run (begun past) (sends run.plan Starting) ≡ true
        → option_map (λ place. place.1) (place_of (after_act run (begun past) Turn).standing)
        ≡ Some 0 }
    ensures goes_on { (run : Run) (past : List EventOf) (acts : List Act) (session done : ℕ)
        → IsRun run → AreOthersApart run acts (begun past)
        → AreSecretsOnWritten run acts (begun past)
        → place_of (after_acts run acts (begun past)).standing ≡ Some (session, done)
        → done < length run.plan.path.moves
        → succeeds run (after_acts run acts (begun past))
        (sends run.plan (after_acts run acts (begun past)).standing) ≡ true
        → HasGoneOn session done
        (place_of (after_act run (after_acts run acts (begun past)) Turn).standing) }
{}

/// Of a run as in the law before (`IsRun`): while its commands succeed, no event of anybody else names its
/// session, no Reset comes, and each index on which one of its PolicySecret commands is executed is written at
/// that moment, the facts of its session hash one by one what the moves hash that are done, so they have the
/// digest of these. Before the goal that is the digest of the path, which is the compiled digest of a policy that
/// has this path. No clause asks that its commands succeed: each speaks of a run that stands on its path (`place_of`).
pub fn session_digest_is_compiled()
    ensures hashes { (run : Run) (past : List EventOf) (acts : List Act) (session done : ℕ)
        → IsRun run → AreOthersApart run acts (begun past)
        → AreSecretsOnWritten run acts (begun past)
        → place_of (after_acts run acts (begun past)).standing ≡ Some (session, done)
        → map update_of (moves_of_facts
        (facts_of run.setup (after_acts run acts (begun past)).past session))
        ≡ map update_of (take done run.plan.path.moves) }
    ensures path { (run : Run) (past : List EventOf) (acts : List Act) (session done : ℕ)
        → IsRun run → AreOthersApart run acts (begun past)
        → AreSecretsOnWritten run acts (begun past)
        → place_of (after_acts run acts (begun past)).standing ≡ Some (session, done)
        → digest_of_moves (moves_of_facts
        (facts_of run.setup (after_acts run acts (begun past)).past session))
        ≡ digest_of_moves (take done run.plan.path.moves) }
    ensures compiled { (run : Run) (past : List EventOf) (acts : List Act) (session : ℕ)
        (policy : Closed) (approvals : List ApprovedDoc)
        → IsRun run → Contains (paths_of policy approvals) run.plan.path
        → AreOthersApart run acts (begun past) → AreSecretsOnWritten run acts (begun past)
        → place_of (after_acts run acts (begun past)).standing
        ≡ Some (session, length run.plan.path.moves)
        → digest_of_moves (moves_of_facts
        (facts_of run.setup (after_acts run acts (begun past)).past session))
        ≡ policy_digest policy }
{}

/// A blind run as a script begins it (`IsBlindBegun`; the offset of its goal, if it has one, has two bytes) sees
/// nothing of the machine. Where only its own turns come, it is served all the same exactly where some path is such
/// that nothing blocks it on the machine as it is at the run's begin, and on the first of these, with what its goal
/// gives on that machine. It takes at most as many turns as the paths have commands that it tries until there: those of
/// the moves, the goal's, and the start or a PolicyRestart before each path. A blind run that has a path to try is over
/// after as many turns as it has commands at most. There is one exception: on a path that it tries, the run sends an
/// HMAC which is the one that the machine asks for, though the blocks of the two keys differ, or the Names that the two
/// are over.
///
/// It stands on two laws of the driver, which its body calls.
pub fn blind_runs_are_served()
    ensures exactly_on { (run : BlindRun) (past : List EventOf) (turns position : ℕ)
        → IsBlindBegun run → HasShortOffset run.plan.goal
        → chosen_path run.plan.paths
        (sight_after run.setup past) run.plan.grants run.plan.goal run.locality ≡ Some position
        → most_to run.plan position ≤ turns
        → ((blind_turns run turns (blind_begun past)).standing
        ≡ blind.Over (blind_ends.Served position
        (goal_bytes (world_at run.setup past) run.plan.goal)))
        ⊎ HasBlindChance run turns past }
    ensures only { (run : BlindRun) (past : List EventOf) (turns position : ℕ) (bytes : List ℕ)
        → IsBlindBegun run → HasShortOffset run.plan.goal
        → (blind_turns run turns (blind_begun past)).standing
        ≡ blind.Over (blind_ends.Served position bytes)
        → ((chosen_path run.plan.paths
        (sight_after run.setup past) run.plan.grants run.plan.goal run.locality ≡ Some position)
        × (bytes ≡ goal_bytes (world_at run.setup past) run.plan.goal))
        ⊎ HasBlindChance run turns past }
    ensures ends { (run : BlindRun) (past : List EventOf) (turns : ℕ)
        → is_some (first_complete run.plan) ≡ true → most_blind run.plan ≤ turns
        → is_blind_over (blind_turns run turns (blind_begun past)).standing ≡ true }
{
    mirrored();
    blind_driving_ends();
}

/// Each scene that a command stages, of any bytes and any documents of a shelf, can be carried out (`IsStaged`). So
/// the laws of such scenes are laws of the report of `policy_main`, which is made of this scene.
pub fn scenes_are_staged()
    ensures { (manner : MannerOf) (input : List ℕ) (all : List Document) (staged : StagedScene)
        → staged_step manner input all ≡ Ok staged → IsStaged staged }
{}

/// The tickets that a scene keeps for later runs, behind any events at all, are the machine's own (`IsGenuine`); and those
/// that a run of its script is given when it begins are such that the machine takes them then (`IsUsable`). That a run may
/// hold them is so no premise of the laws on the report.
pub fn kept_tickets_are_genuine()
    ensures kept { (staged : StagedScene) (happening : List ScriptEvent)
        → IsStaged staged
        → All (λ kept. IsGenuine staged.setup kept.ticket)
        (all_happened staged.scenario happening (start_of staged.setup)).kept }
    ensures given { (staged : StagedScene) (run : RunOf staged.script)
        → IsStaged staged → All (IsUsable staged.setup (before_begin staged run).past)
        (tickets_at_begin staged run) }
{}

/// What the report of a scene tells of a run of its script, for each scene that is staged and whose runs see the
/// machine (`IsSighted`: all but those of `--blind`; with `--tickets` it may show tickets in the place of secrets and
/// signatures, and all of this holds as without them). The run begins on the first path of its policy that nothing
/// blocks, whose line is printed, or on none: then what blocks each path is printed, in their order. Where only the
/// run's own turns make events behind its begin, and there is one for each command of its path, the report tells that
/// the run is served, with what its goal gives on the machine as it was at the begin, exactly where it begins on a
/// path; turns to its end are enough. A run that begins on none is over, and its turns print that. A scene without the
/// places in memory of its documents' parts is carried out with the same lines.
pub fn runs_are_served_as_told()
    ensures begins_on { (staged : StagedScene) (run : RunOf staged.script) (position : ℕ)
        → IsStaged staged → IsSighted staged → chosen_for staged run ≡ Some position
        → BeginsOn staged run position }
    ensures begins_nowhere { (staged : StagedScene) (run : RunOf staged.script)
        → IsStaged staged → IsSighted staged → chosen_for staged run ≡ None
        → BeginsNowhere staged run }
    ensures served_on { (staged : StagedScene) (run : RunOf staged.script) (position : ℕ)
        → IsStaged staged → IsAlone staged.scenario run.number run.own (behind_begin staged run)
        → (on : BeginsOn staged run position)
        → commands_along on.path ≤ turns_for run.number run.own
        → IsServedOn staged run position on.path }
    ensures to_end { (staged : StagedScene) (run : RunOf staged.script)
        (before after : List ScriptEvent)
        → IsStaged staged → run.own ≡ before ++ events.Turn run.number None ∷ after
        → HasTurns staged run }
    ensures exactly { (staged : StagedScene) (run : RunOf staged.script)
        → IsStaged staged → IsSighted staged
        → IsAlone staged.scenario run.number run.own (behind_begin staged run) → HasTurns staged run
        → IsToldServed run.number (performed staged).lines
        ↔ ((position : ℕ) × BeginsOn staged run position) }
    ensures served_with { (staged : StagedScene) (run : RunOf staged.script) (position : ℕ)
        → IsStaged staged → IsAlone staged.scenario run.number run.own (behind_begin staged run)
        → HasTurns staged run
        → BeginsOn staged run position
        → Contains (performed staged).lines
        (line_of (end_line run.number (Served (bytes_for staged run)))) }
    ensures stays_over { (staged : StagedScene) (run : RunOf staged.script)
        → IsStaged staged → BeginsNowhere staged run
        → run_at (behind_own staged run).runs run.number ≡ None }
    ensures tells_over { (scenario : Scenario) (number : ℕ) (times : Option ℕ)
        (p : PerformanceState)
        → run_at p.runs number ≡ None
        → turn_told scenario number times p ≡ with_over number times p }
    ensures as_printed { (staged : StagedScene)
        → performed (erased_staged staged) ≡ performed staged }
{}

/// What the report of a scene tells of a run of its script where the runs are those of `--blind` (`IsBlindScene`). The
/// begin prints that the run is blind; where no path of its policy can be tried it prints that too, with each path as
/// one that was not tried, and the run is over (`BeginsBlindly`). Where only the run's own turns make events behind its
/// begin (`IsAlone`), some path is such that nothing blocks it on the machine as it is at the begin (`chosen_for`: the
/// first one), and there is a turn for each command of the paths that are tried up to there (`most_to`), the report has
/// this path and right behind it that the run is served, with what its goal gives on that machine, and the run is over
/// (`IsServedBlindly`). Where these turns have it told that the run is served (`only`), it was so on that path. There is
/// one exception: in one of these turns the run sends an HMAC that is right by chance (`HasChanceIn`), as in
/// `blind_runs_are_served`. Behind as many turns as the run has commands at most (`most_blind`) it is over. Turns to its
/// end are enough for both. Of a run that is over the whole report tells that it is served exactly where the lines up to
/// there do (`in_report`).
///
/// It stands on two laws of the driver, which its body calls.
pub fn blind_runs_are_told()
    ensures begins { (staged : StagedScene) (run : RunOf staged.script)
        → IsStaged staged → IsBlindScene staged
        → BeginsBlindly staged run (first_complete (blind_plan_for staged run)) }
    ensures served_on { (staged : StagedScene) (run : RunOf staged.script) (position : ℕ)
        → IsStaged staged → IsBlindScene staged → HasShortOffset run.goal
        → IsAlone staged.scenario run.number run.own (behind_begin staged run)
        → chosen_for staged run ≡ Some position
        → most_to (blind_plan_for staged run) position ≤ turns_for run.number run.own
        → IsServedBlindly staged run position ⊎ HasChanceIn staged run }
    ensures only { (staged : StagedScene) (run : RunOf staged.script)
        → IsStaged staged → IsBlindScene staged → HasShortOffset run.goal
        → IsAlone staged.scenario run.number run.own (behind_begin staged run)
        → IsToldServed run.number (behind_own staged run).lines
        → ((position : ℕ) × (chosen_for staged run ≡ Some position)
        × IsServedBlindly staged run position) ⊎ HasChanceIn staged run }
    ensures ends { (staged : StagedScene) (run : RunOf staged.script)
        → IsStaged staged → IsBlindScene staged
        → IsAlone staged.scenario run.number run.own (behind_begin staged run)
        → most_blind (blind_plan_for staged run) ≤ turns_for run.number run.own
        → run_at (behind_own staged run).runs run.number ≡ None }
    ensures to_end { (staged : StagedScene) (run : RunOf staged.script)
        (before after : List ScriptEvent) (position : ℕ)
        → IsStaged staged → IsBlindScene staged
        → run.own ≡ before ++ events.Turn run.number None ∷ after
        → (most_to (blind_plan_for staged run) position ≤ turns_for run.number run.own)
        × (most_blind (blind_plan_for staged run) ≤ turns_for run.number run.own) }
    ensures in_report { (staged : StagedScene) (run : RunOf staged.script)
        → IsStaged staged → run_at (behind_own staged run).runs run.number ≡ None
        → IsToldServed run.number (performed staged).lines
        ↔ IsToldServed run.number (behind_own staged run).lines }
{
    mirrored();
    blind_driving_ends();
}

/// The journal of a scene that is carried out, whatever the scene is, and that of the run of a policy that `gen` makes
/// up, is one that a machine makes; each command of it that asks for a policy session is decided as the machine's
/// definitions say, by the events before it alone; and each event has its line among those of the whole.
pub fn journals_are_told()
    ensures scene { (staged : StagedScene)
        → IsJournal staged.setup (performed staged).past (performed staged).lines }
    ensures generated { (order : ℕ) (closed : Closed)
        → IsJournal (generated_setup order (policy_digest closed))
        (generated_performance order closed).past (generated_performance order closed).lines }
{}

/// No step of the command `gen` refuses the policy that it makes up, which has as many paths as 2 to the number of its
/// ORs; so the command prints that many (`generated_answer`). The number of ORs is what `gen` takes, at most 12.
pub fn gen_has_all_ways()
    ensures answered { (ors order : ℕ) → ors ≤ 12
        → generate_step ors order
        ≡ Ok (generated_answer ors order (filled (generated_policy ors order) None)) }
    ensures ways { (ors order : ℕ) → ors ≤ 12
        → length (paths_of (filled (generated_policy ors order) None) []) ≡ 2 ^ ors }
{}

/// A run of a script that sees the machine and begins on a path is a run as the other laws speak of it (`IsBegun`,
/// `IsRun`), and is where its course is behind all events that follow its begin, whatever they are (`HasCourse`): the
/// course's acts are the run's own turns and the calls of all others, in the order of the script. So where these leave
/// its session alone (`AreOthersApart`), and each index on which one of its PolicySecret commands is executed is
/// written at that moment (`AreSecretsOnWritten`), its session has before its goal the digest of the policy that the
/// script names.
pub fn runs_of_scripts_have_courses()
    ensures begun { (staged : StagedScene) (run : RunOf staged.script) (position : ℕ)
        → IsStaged staged → (on : BeginsOn staged run position)
        → IsBegun (run_along staged run on.path) }
    ensures complete { (staged : StagedScene) (run : RunOf staged.script) (position : ℕ)
        → IsStaged staged → (on : BeginsOn staged run position)
        → IsRun (run_along staged run on.path) }
    ensures course { (staged : StagedScene) (run : RunOf staged.script) (position : ℕ)
        → IsStaged staged → (on : BeginsOn staged run position) → HasCourse staged run on.path }
    ensures digest { (staged : StagedScene) (run : RunOf staged.script) (position session : ℕ)
        (document : FilledDocument)
        → IsStaged staged → (on : BeginsOn staged run position)
        → find (is_document run.policy) staged.scenario.begun ≡ Some document
        → AreOthersApart (run_along staged run on.path) (acts_for staged run)
        (course_at_begin staged run)
        → AreSecretsOnWritten (run_along staged run on.path) (acts_for staged run)
        (course_at_begin staged run)
        → place_of (course_of staged run on.path).standing ≡ Some (session, length on.path.moves)
        → digest_of_moves (moves_of_facts
        (facts_of staged.setup (behind_own staged run).past session))
        ≡ policy_digest document.closed }
{}

/// The reply to a command, whatever its bytes are, has the response code 0 exactly where the command was accepted or
/// served: each code by which a command is refused or denied is another one.
pub fn success_replies_have_code_zero()
    ensures { (setup : SetupOf) (past : List EventOf) (locality : ℕ) (buffer : List ℕ)
        → IsSuccessReply (answer_to setup past locality buffer).reply
        ↔ (is_success (answer_to setup past locality buffer).outcome ≡ true) }
{}

/// Each buffer that a run of a scene's plan sends, whatever others do between, spells the command that it sends, and
/// is read as this command: its grants, its goal and the moves of its path are within the bounds of the wire
/// (`IsBegun`, and the offset of the goal), and the commands of the plan can all be made.
pub fn runs_send_commands()
    ensures { (run : Run) (past : List EventOf) (acts : List Act) (command : CommandOf)
        → IsBegun run → HasShortOffset run.plan.goal → is_complete run.plan ≡ true
        → sends run.plan (after_acts run acts (begun past)).standing ≡ Sends command
        → reading (spelling command) ≡ Ok command }
{}

/// Where a run hears a reply to its start, to a command of a move or to its goal, it ends denied with a code exactly
/// where the reply is read as the refusal with this code, and by a bad reply where it is read as no reply at all. Where
/// else an end is a bad reply says `bad_replies_have_their_causes` of tpol_driver.
pub fn refusals_end_runs()
    ensures start { (plan : Plan) (bytes : List ℕ) (rc : RcOf)
        → (hears plan Starting bytes ≡ Over (Denied stages.Start rc))
        ↔ IsRefusal plan Starting bytes rc }
    ensures no_start { (plan : Plan) (bytes : List ℕ)
        → IsNoReply plan Starting bytes → hears plan Starting bytes ≡ Over (BadReply stages.Start) }
    ensures moves { (plan : Plan) (session : Session) (sent done : ℕ) (ticket : Option Ticket)
        (act : Move) (bytes : List ℕ) (rc : RcOf)
        → slice_get plan.path.moves done ≡ Some act
        → (hears plan (Moving session sent ticket done) bytes
        ≡ Closing session.handle (Denied (stage_of_move ticket act (done + 1)) rc))
        ↔ IsRefusal plan (Moving session sent ticket done) bytes rc }
    ensures no_move { (plan : Plan) (session : Session) (sent done : ℕ) (ticket : Option Ticket)
        (act : Move) (bytes : List ℕ)
        → slice_get plan.path.moves done ≡ Some act
        → IsNoReply plan (Moving session sent ticket done) bytes
        → hears plan (Moving session sent ticket done) bytes
        ≡ Closing session.handle (BadReply (stage_of_move ticket act (done + 1))) }
    ensures goal { (plan : Plan) (session : Session) (sent done : ℕ) (ticket : Option Ticket)
        (bytes : List ℕ) (rc : RcOf)
        → slice_get plan.path.moves done ≡ None
        → (hears plan (Moving session sent ticket done) bytes
        ≡ Closing session.handle (Denied stages.Goal rc))
        ↔ IsRefusal plan (Moving session sent ticket done) bytes rc }
    ensures no_goal { (plan : Plan) (session : Session) (sent done : ℕ) (ticket : Option Ticket)
        (bytes : List ℕ)
        → slice_get plan.path.moves done ≡ None
        → IsNoReply plan (Moving session sent ticket done) bytes
        → hears plan (Moving session sent ticket done) bytes
        ≡ Closing session.handle (BadReply stages.Goal) }
{}
