//! Laws of the choices on paths, over their definitions alone.

ghost use Rattle.tpol_cert.specs.Laws.{ChoicesAreApart, ChoicesAreSteps, ChoicesIgnoreBoxes, JudgementsCertify, PathsHaveCertificates};

/// The choices stand in the order of the paths, and are their steps: each of one kind with its step, and a branch of
/// one position; a path has no more choices than moves. The choices of one path begin those of no other. They are the
/// same wherever a policy lies in memory.
pub fn choices_are_steps()
    ensures steps { ChoicesAreSteps }
    ensures apart { ChoicesAreApart }
    ensures boxes { ChoicesIgnoreBoxes }
{}

/// Each path has a certificate, where each OR has 2 to 8 branches and the paths are within the limits.
pub fn paths_have_certificates()
    ensures { PathsHaveCertificates }
{}

/// What is answered of bytes is the position of a path exactly where they certify that path.
pub fn judgements_certify()
    ensures { JudgementsCertify }
{}
