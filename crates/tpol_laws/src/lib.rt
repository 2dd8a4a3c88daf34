//! What holds of whole runs: laws over the definitions of the machine, of the driver and of digests, which no
//! single call can say.
//!
//! Each law is a function whose clauses are the law. It has no body, or calls the laws of the driver that it stands
//! on. The definitions that a law names are those of the contracts of calls that the program makes: what the machine
//! answers and what a journal tells (`answer_to`, `facts_of` of tpm_engine, which `Machine::execute` ensures), what a
//! run sends and hears (`sends`, `hears` of tpol_driver, which the states ensure), the paths of a policy and digests
//! (tpol_digest). A law's premises are met by clauses of those who begin a run:
//!
//! `a_path_that_can_is_complete`
//! - `IsSetup`: the clause `setup` of `read_scene`. The directory is that of `directory`, its clause `lines`. The
//!   sight is that of `Machine::sight`, its clause `view`.
//!
//! `a_path_that_can_is_served`
//! - `IsBegun.setup`, `IsBegun.grants`: the clauses `setup` and `clients` of `read_scene`.
//! - `IsBegun.fits`, `IsBegun.among`: its clause `script`, for the goal of a run that is begun.
//! - `IsBegun.directory`, `IsBegun.tickets`, `IsBegun.moves`: as for the laws below.
//! - `IsBegun.short`: the clause `within` of `check_paths`.
//! - `IsUsable`: `kept_tickets_are_genuine`, for the tickets that a run of a script is given; of a plan without tickets
//!   nothing is asked.
//! - That nothing blocks the path: for a path that `choose` answers, its clause `chosen`, over the machine's sight
//!   at the run's begin.
//!
//! `a_blocked_path_fails`
//! - `IsBegun`: as for the law before.
//! - That the plan has no tickets: a ticket may serve what a password does not, so with them the law is false.
//! - `HasShortOffset`: the offset of a goal is a `u16`.
//! - That the plan is complete: what `Plan::complete` answers, its clause `complete`.
//! - That something blocks the path: what `can` answers, its clause `block`, over the machine's sight at the run's
//!   begin.
//!
//! Its exception is no premise but part of the answer: the turn before which the HMAC that the run makes is, by
//! chance, the one that the machine asks for.
//!
//! `a_run_ends`: none.
//!
//! `a_run_goes_on`, `session_digest_is_compiled`
//! - `IsRun.setup`, `IsRun.grants`: the clauses `setup` and `clients` of `read_scene`.
//! - `IsRun.directory`: a plan's directory is that of the scene's setup, by the clause `lines` of `directory`.
//! - `IsRun.tickets`: the deadline of a ticket is a `u64`.
//! - `IsRun.moves`: `paths_have_bounds` of tpol_digest, over the clauses `bounded` of `read_policy` and of `fill`.
//! - `IsRun.complete`: `a_path_that_can_is_complete`, for a path that `choose` answers (its clause `chosen`); for
//!   any other plan it is what `Plan::complete` answers.
//! - `AreOthersApart`: nobody else names the run's session between, and no TPM Reset comes.
//! - `AreSecretsOnWritten`: each index on which a PolicySecret of the run is executed is written at that moment.
//!   Without it the law is false: PolicySecret hashes the Name that the index has now, and a policy names the
//!   index once it is written.
//!
//! `blind_runs_are_served`, over `blind_sends` and `blind_hears` of tpol_driver, which the states of a blind run ensure
//! - `IsBlindBegun.setup`, `IsBlindBegun.grants`: the clauses `setup` and `clients` of `read_scene`.
//! - `IsBlindBegun.fits`, `IsBlindBegun.among`: its clause `script`, for the goal of a run that is begun.
//! - `IsBlindBegun.directory`: a plan's directory is that of the scene's setup, by the clause `lines` of `directory`.
//! - `IsBlindBegun.moves`: as `IsRun.moves`, for each path of the policy.
//! - `IsBlindBegun.short`: the clause `within` of `check_paths`, for each path of the policy.
//! - `HasShortOffset`: the offset of a goal is a `u16`.
//! - That a path is the first that nothing blocks (`exactly_on`) or that the run is served (`only`): what the law is of.
//! - That the turns are enough: as many as it can need until it is served (`most_to`), or until it is over
//!   (`most_blind`).
//! - That some path is complete (`ends`): what `BlindPlan::first` answers, its clause `first`.
//!
//! Its exception is no premise but part of the answer, as in `a_blocked_path_fails`.
//!
//! `scenes_are_staged`: none. The definition is that of the report of `policy_main`, its clause `report`.
//!
//! `kept_tickets_are_genuine`
//! - `IsStaged`: `scenes_are_staged`, for the scene that the commands `run` and `explain` carry out.
//!
//! `runs_are_served_as_told`, whose lines are those of `performed` of tpol_perform, which `perform_scene` ensures
//! - `IsStaged`: `scenes_are_staged`, for the scene that the commands `run` and `explain` carry out. The clause
//!   `scene_told` of `policy_main` has the law of their report, without this premise.
//! - `IsAlone`: only the run's own turns make events behind its begin, up to where it is looked at.
//! - `HasTurns`: these turns are one for each command of the path that the run begins on.
//!
//! `blind_runs_are_told`, of the same lines
//! - `IsStaged`: as for the law before. `IsBlindScene`: the command has `--blind`, as its words say (`way_of`).
//! - `HasShortOffset`: the offset of a goal is a `u16`.
//! - `IsAlone`: as for the law before. A blind run tries paths as the machine is in each of its turns; where others
//!   change the machine between, the path that was open at the begin need not serve it.
//! - That a path is the first that nothing blocks (`served_on`): what the law is of.
//! - That it is told that the run is served (`only`), behind the events that follow its begin: what the law is of.
//! - That the turns are enough: as many as it can need until it is served (`most_to`, for `served_on`) or until it is
//!   over (`most_blind`, for `ends`), which turns to its end are (`to_end`).
//! - That the run is over (`in_report`): the clauses `served_on`, `ends` and `begins`.
//!
//! Its exception is part of the answer, as in `blind_runs_are_served`.
//!
//! `runs_of_scripts_have_courses`
//! - `IsStaged`: as for the law before. `BeginsOn`: the clause `begins_on` of that law.
//! - `AreOthersApart`, `AreSecretsOnWritten`: as for `session_digest_is_compiled`, of the acts of the script.
//!
//! `runs_send_commands`
//! - `IsBegun`, `HasShortOffset`, that the plan is complete: as for `a_blocked_path_fails`; of a run that a script begins
//!   on a path by `runs_of_scripts_have_courses`.
//!
//! `gen_has_all_ways`, `gen_is_served`
//! - `ors ≤ 12`: the words of `gen` name no more (`generation` of tpol_top/Words).
//!
//! `journals_tell_tickets`, `own_tickets_are_accepted`
//! - `IsLegal`: the clause `legal` of `Machine::journal`; of a scene's journal it is in `scene_told` of `policy_main`
//!   (`IsJournal`, `journals_are_told`).
//! - `IsOfBytes`: what is sent is a slice of bytes.
//! - That the time is at most 2^63 milliseconds: the condition `early` of `Machine::advance`.
//! - `TakesAuthorization`, that no Reset came and the deadline has not passed: what the law is of.
//!
//! `journals_are_told`, `refusals_end_runs`, `success_replies_have_code_zero`: none.
//!
//! That the commands of the run succeed is no premise of `session_digest_is_compiled`: a run stands on its path as
//! long as they do, which is `a_run_goes_on`.
#![tactic(auto)]

mod generated_run;
mod journal_tickets;
mod laws;

pub use generated_run::gen_is_served;
pub use journal_tickets::{journals_tell_tickets, own_tickets_are_accepted};
pub use laws::{
    a_blocked_path_fails, a_path_that_can_is_complete, a_path_that_can_is_served, a_run_ends,
    a_run_goes_on, blind_runs_are_served, blind_runs_are_told, gen_has_all_ways, journals_are_told,
    kept_tickets_are_genuine, refusals_end_runs, runs_are_served_as_told,
    runs_of_scripts_have_courses, runs_send_commands, scenes_are_staged,
    session_digest_is_compiled, success_replies_have_code_zero,
};
