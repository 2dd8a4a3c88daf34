// How a scene is carried out.

ghost use Rattle.std.specs.Prelude.{◌≡◌};
ghost use Rattle.tpol_prepare.specs.Manner.{certifies, explains, way_of};

/// How the runs of a script are driven.
#[derive(Clone, Copy)]
pub enum Way {
    /// A run begins on the first path of its policy that its client can go on what the machine shows then.
    Sighted,
    /// A run tries the paths of its policy on the machine, one after another, without seeing what it shows.
    Blind,
    /// A run begins as a sighted one, and shows the tickets that its client's earlier runs have earned.
    WithTickets,
}

/// How a scene is carried out, and what is told of it: the commands that carry one out differ in this alone.
#[derive(Clone, Copy)]
pub enum Manner {
    /// `run`: its events are told.
    Run(Way),
    /// `explain`: its events are told, and by which path of its policy an entity was opened.
    Explain(Way),
    /// `explain --cert`: what `explain` tells, and the certificate of that path. Its runs see the machine.
    Certify,
}

impl Manner {
    /// Whether it is told by which path of its policy an entity was opened.
    pub fn explains(self) -> bool
        ensures { result ≡ explains self }
    {
        match self {
            Manner::Run(_) => false,
            Manner::Explain(_) => true,
            Manner::Certify => true,
        }
    }

    /// Whether the certificate of that path is told.
    pub fn certifies(self) -> bool
        ensures { result ≡ certifies self }
    {
        match self {
            Manner::Run(_) => false,
            Manner::Explain(_) => false,
            Manner::Certify => true,
        }
    }

    /// How runs are driven.
    pub fn way(self) -> Way
        ensures { result ≡ way_of self }
    {
        match self {
            Manner::Run(way) => way,
            Manner::Explain(way) => way,
            Manner::Certify => Way::Sighted,
        }
    }
}
