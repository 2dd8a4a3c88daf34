ghost use Rattle.std.specs.Prelude.{◌≡◌};
ghost use Rattle.tpol_front.specs.Status.{number_of_status, status_of};

use tpol_steps::Verdict;

/// How a run of the program ended.
#[derive(Clone, Copy, Debug, PartialEq, Eq)]
pub enum Status {
    /// 0: the whole report is written.
    Done,
    /// 1: the words are no command, or ask for a way that is not there.
    Usage,
    /// 2: the source failed; nothing was written.
    ReadFault,
    /// 3: the sink failed; a first part of the report was written.
    WriteFault,
    /// 4: the shelf failed; nothing was written.
    ShelfFault,
    /// 5: a document is too large, or the shelf has too many.
    TooLarge,
    /// 6: a policy document was refused, or a policy that a command names is not there.
    BadPolicy,
    /// 7: a scene was refused.
    BadScene,
    /// 8: memory ran out; nothing was written.
    NoMemory,
    /// 9: a policy has too many paths, or one that is too long.
    PathLimit,
    /// 10: a certificate was refused.
    BadCert,
}

impl Status {
    /// The status that a run answers when all lines of an answer with this verdict are written.
    pub fn of_verdict(verdict: Verdict) -> Status
        ensures { result ≡ status_of verdict }
    {
        match verdict {
            Verdict::Done => Status::Done,
            Verdict::Usage => Status::Usage,
            Verdict::TooLarge => Status::TooLarge,
            Verdict::BadPolicy => Status::BadPolicy,
            Verdict::BadScene => Status::BadScene,
            Verdict::PathLimit => Status::PathLimit,
            Verdict::BadCert => Status::BadCert,
        }
    }

    /// The status that the process ends with.
    pub fn number(self) -> u8
        ensures { result ≡ number_of_status self }
    {
        match self {
            Status::Done => 0,
            Status::Usage => 1,
            Status::ReadFault => 2,
            Status::WriteFault => 3,
            Status::ShelfFault => 4,
            Status::TooLarge => 5,
            Status::BadPolicy => 6,
            Status::BadScene => 7,
            Status::NoMemory => 8,
            Status::PathLimit => 9,
            Status::BadCert => 10,
        }
    }
}
