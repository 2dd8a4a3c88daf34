//! What the definitions promise together: functions without a body, whose clauses are the laws.

ghost use Rattle.std.specs.Prelude.{◌≡◌, ◌≤◌, ◌+◌, ◌*◌, ℕ, List, None, Some, is_some, length, true};
ghost use Rattle.tpol_driver.specs.declared.blind_plan.BlindPlan.{BlindPlan};
ghost use Rattle.tpol_driver.specs.declared.plan.Plan.{Plan};
ghost use Rattle.tpol_driver.specs.Blind.{blind_drive, blind_stands_after, first_complete, most_blind};
ghost use Rattle.tpol_driver.specs.Driving.{Starting, drive, stands_after};
ghost use Rattle.tpol_runs.specs.Courses.{after_replies, begun, begun_blind, blind_command_in, bytes_of, command_in, next_of, sent_in, underway_at};
ghost use Rattle.tpol_runs.specs.Earned.{earned_from};
ghost use Rattle.tpol_runs.specs.Underway.{Blind, Sighted};

use tpol_driver::{blind_driving_ends, driving_ends};

/// A run is driven as its plan and its replies say: after these replies it sends what `drive` sends, or `blind_drive`
/// where it is blind, and where that is at its end the run is over. It has earned what these replies earn, each ticket
/// with the machine's reset count at which it was answered.
pub fn runs_are_driven()
    ensures stands { (client locality : ℕ) (plan : Plan) (replies : List (ℕ × List ℕ))
        → after_replies (Some (begun client locality plan)) replies
        ≡ underway_at (begun client locality plan) (Sighted (record {
          plan = plan;
          standing = stands_after plan (bytes_of replies);
          earned = earned_from plan Starting replies;
        })) }
    ensures drives { (client locality : ℕ) (plan : Plan) (replies : List (ℕ × List ℕ))
        → next_of (after_replies (Some (begun client locality plan)) replies)
        ≡ sent_in (begun client locality plan) (command_in (drive plan (bytes_of replies))) }
    ensures stands_blind { (client locality : ℕ) (policy : List ℕ) (plan : BlindPlan)
        (replies : List (ℕ × List ℕ))
        → after_replies (Some (begun_blind client locality policy plan)) replies
        ≡ underway_at (begun_blind client locality policy plan)
        (Blind policy (record {
          plan = plan;
          standing = blind_stands_after plan
              (bytes_of replies);
        })) }
    ensures drives_blind { (client locality : ℕ) (policy : List ℕ) (plan : BlindPlan)
        (replies : List (ℕ × List ℕ))
        → next_of (after_replies (Some (begun_blind client locality policy plan)) replies)
        ≡ sent_in (begun_blind client locality policy plan)
        (blind_command_in (blind_drive plan (bytes_of replies))) }
{}

/// A run on one path, or a blind one that has a path to try, is over after as many replies as it has commands at most,
/// whatever they are. On one path those are two for each move, the start, the goal and the end of the session; of a
/// blind run the start, and for each path that is tried two for each move, the goal, and the PolicyRestart or the end
/// of the session behind it.
pub fn runs_end()
    ensures on_path { (client locality : ℕ) (plan : Plan) (replies : List (ℕ × List ℕ))
        → 2 * length plan.path.moves + 3 ≤ length replies
        → after_replies (Some (begun client locality plan)) replies ≡ None }
    ensures blind { (client locality : ℕ) (policy : List ℕ) (plan : BlindPlan)
        (replies : List (ℕ × List ℕ))
        → is_some (first_complete plan) ≡ true → most_blind plan ≤ length replies
        → after_replies (Some (begun_blind client locality policy plan)) replies ≡ None }
{
    driving_ends();
    blind_driving_ends()
}
