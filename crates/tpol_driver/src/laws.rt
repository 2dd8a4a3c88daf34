//! What the definitions promise together: functions without a body, whose clauses are the laws.

ghost use Rattle.std.specs.Prelude.{◌≡◌, ◌≤◌, ◌+◌, ◌*◌, ◌⊎◌, ◌++◌, ◌∷◌, [], List, Option, None, is_some, length, true, ℕ};
ghost use Rattle.tpol_base.specs.CommandCode.{number_of_code};
ghost use Rattle.tpol_base.specs.declared.command_code.CommandCode.TheVariants as codes;
ghost use Rattle.tpol_driver.specs.Answers.{answer_of};
ghost use Rattle.tpol_driver.specs.Blind as blind;
ghost use Rattle.tpol_driver.specs.Blind.{Trying, blind_drive, blind_hears, blind_sends, blind_stands_after, first_complete, most_blind, on_try, plan_at, restart_heard};
ghost use Rattle.tpol_driver.specs.BlindStates.{is_blind_over};
ghost use Rattle.tpol_driver.specs.Causes.{HasWrongArea, IsBytes};
ghost use Rattle.tpol_driver.specs.Driving.{Moving, Over, drive, earned_by, goal_heard, hears, move_heard, sends, stage_of_move, start_heard, stands_after, tickets_after};
ghost use Rattle.tpol_driver.specs.States.{is_over};
ghost use Rattle.tpol_driver.specs.Tickets.{command_on_path};
ghost use Rattle.tpol_driver.specs.declared.blind_end.BlindEnd.TheVariants as blind_ends;
ghost use Rattle.tpol_driver.specs.declared.blind_end.Tried.{Tried};
ghost use Rattle.tpol_driver.specs.declared.blind_plan.BlindPlan.{BlindPlan};
ghost use Rattle.tpol_driver.specs.declared.end.End.TheVariants as ends;
ghost use Rattle.tpol_driver.specs.declared.end.Stage.TheVariants as stages;
ghost use Rattle.tpol_driver.specs.declared.plan.Plan.{Plan};
ghost use Rattle.tpol_driver.specs.declared.session.Session.{Session};
ghost use Rattle.tpol_driver.specs.declared.step.Heard.TheVariants.{Failed};
ghost use Rattle.tpol_goal.specs.Goals.{code_of_goal};
ghost use Rattle.tpol_tree.specs.declared.path.Move.{Move};
ghost use Rattle.tpol_fields.specs.declared.ticket.Ticket.{Ticket};
ghost use Rattle.tpol_wire.specs.Commands.{code_of_command};
ghost use Rattle.tpol_wire.specs.ReplyReading.{reply_reading};

/// A run goes on from where it stands: what it hears of one more reply depends on nothing else, and neither
/// does what it does then, or earns. So the states, which keep where a run stands and what it has earned, are `drive`
/// and `tickets_after` of all replies.
pub fn driving_goes_on()
    ensures stands { (plan : Plan) (replies : List (List ℕ)) (reply : List ℕ)
        → stands_after plan (replies ++ reply ∷ []) ≡ hears plan (stands_after plan replies) reply }
    ensures drives { (plan : Plan) (replies : List (List ℕ)) (reply : List ℕ)
        → drive plan (replies ++ reply ∷ [])
        ≡ sends plan (hears plan (stands_after plan replies) reply) }
    ensures earns { (plan : Plan) (replies : List (List ℕ)) (reply : List ℕ)
        → tickets_after plan (replies ++ reply ∷ [])
        ≡ tickets_after plan replies ++ earned_by plan (stands_after plan replies) reply }
{}

/// A run of n moves ends after 2n + 3 replies at the latest, whatever they are: it has at most two commands for
/// each move, and the start, the goal and the end of its session.
pub fn driving_ends()
    ensures { (plan : Plan) (replies : List (List ℕ))
        → 2 * length plan.path.moves + 3 ≤ length replies
        → is_over (stands_after plan replies) ≡ true }
{}

/// A reply is bad only where it is no reply to the command that was sent, be that the start, a command of a move,
/// by a ticket or not, the goal's, or the PolicyRestart of a blind run, or where the authorization of the goal's reply
/// is wrong: what is read as a reply to a command is one of that command.
pub fn bad_replies_have_their_causes()
    ensures start { (bytes : List ℕ) → IsBytes bytes
        → start_heard (answer_of (reply_reading (number_of_code codes.StartAuthSession) bytes))
        ≡ Over (ends.BadReply stages.Start)
        → reply_reading (number_of_code codes.StartAuthSession) bytes ≡ None }
    ensures moves { (plan : Plan) (session : Session) (ticket : Option Ticket) (act : Move) (at : ℕ)
        (bytes : List ℕ) → IsBytes bytes
        → move_heard ticket act at
        (answer_of (reply_reading
        (number_of_code (code_of_command (command_on_path plan session ticket act))) bytes))
        ≡ Failed (ends.BadReply (stage_of_move ticket act at))
        → reply_reading (number_of_code (code_of_command (command_on_path plan session ticket act)))
        bytes ≡ None }
    ensures goal { (plan : Plan) (number : ℕ) (bytes : List ℕ) → IsBytes bytes
        → goal_heard plan number
        (answer_of (reply_reading (number_of_code (code_of_goal plan.goal)) bytes))
        ≡ ends.BadReply stages.Goal
        → (reply_reading (number_of_code (code_of_goal plan.goal)) bytes ≡ None)
        ⊎ HasWrongArea plan number (reply_reading (number_of_code (code_of_goal plan.goal)) bytes) }
    ensures restart { (session : Session) (sent place : ℕ) (tries : List Tried) (bytes : List ℕ)
        → restart_heard session sent place tries
        (answer_of (reply_reading (number_of_code codes.PolicyRestart) bytes))
        ≡ blind.Closing session.handle (blind_ends.BadReply stages.Restart)
        → reply_reading (number_of_code codes.PolicyRestart) bytes ≡ None }
{}

/// A blind run on one of its paths hears of one more reply what driving that path alone hears of it, with the same
/// session and from the same number of commands on; where that ends, the try ends so (`tried`). So what holds of runs
/// on one path, begun anywhere, holds of each try.
pub fn mirrored()
    ensures { (plan : BlindPlan) (session : Session) (sent place : ℕ) (ticket : Option Ticket)
        (done : ℕ) (tries : List Tried) (reply : List ℕ)
        → blind_hears plan (Trying session sent place ticket done tries) reply
        ≡ on_try plan session sent place tries
        (hears (plan_at plan place) (Moving session sent ticket done) reply) }
{}

/// A blind run goes on from where it stands, as a run on one path does. So the states, which keep where it stands,
/// are `blind_drive` of all replies.
pub fn blind_driving_goes_on()
    ensures stands { (plan : BlindPlan) (replies : List (List ℕ)) (reply : List ℕ)
        → blind_stands_after plan (replies ++ reply ∷ [])
        ≡ blind_hears plan (blind_stands_after plan replies) reply }
    ensures drives { (plan : BlindPlan) (replies : List (List ℕ)) (reply : List ℕ)
        → blind_drive plan (replies ++ reply ∷ [])
        ≡ blind_sends plan (blind_hears plan (blind_stands_after plan replies) reply) }
{}

/// A blind run that has a path to try is over after as many replies as it has commands at most, whatever they are: the
/// start, and for each path that is tried two for each move, the goal, and the PolicyRestart or the end of the session
/// behind it.
pub fn blind_driving_ends()
    ensures { (plan : BlindPlan) (replies : List (List ℕ)) → is_some (first_complete plan) ≡ true
        → most_blind plan ≤ length replies
        → is_blind_over (blind_stands_after plan replies) ≡ true }
{}
