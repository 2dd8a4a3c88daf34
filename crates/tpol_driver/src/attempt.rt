//! A blind run at work on one of its paths.

ghost use Rattle.std.specs.Prelude.{◌≡◌, ◌<◌, ◌+◌, ◌^◌};
ghost use Rattle.tpol_driver.specs.Attempts.{IsAttempt};
ghost use Rattle.tpol_driver.specs.Blind.{plan_at};

use crate::blind_end::Tries;
use crate::blind_plan::BlindPlan;
use crate::session::Session;
use tpol_tree::Path;

/// A blind run at work on one of its paths.
#[derive(Drop)]
pub(crate) struct Attempt {
    pub(crate) plan: BlindPlan,
    pub(crate) session: Session,
    /// The number of the next command.
    pub(crate) sent: u32,
    /// The place of the path, from 0.
    pub(crate) place: usize,
    /// What became of each path.
    pub(crate) tries: Tries,
    pub ghost is: { IsAttempt plan place tries },
}

impl Attempt {
    /// The path.
    pub(crate) fn path(&self) -> &Path
        ensures { result.now ≡ (plan_at self.now.plan self.now.place).path }
    {
        self.plan.along(self.place).path
    }

    /// The same with one command more.
    pub(crate) fn after_command(self) -> Attempt
        requires { self.sent < 2 ^ 31 }
        ensures plan { result.plan ≡ self.plan }
        ensures session { result.session ≡ self.session }
        ensures sent { result.sent ≡ self.sent + 1 }
        ensures place { result.place ≡ self.place }
        ensures tries { result.tries ≡ self.tries }
    {
        let Attempt {
            plan,
            session,
            sent,
            place,
            tries,
        } = self;
        Attempt {
            plan,
            session,
            sent: sent + 1,
            place,
            tries,
        }
    }
}
