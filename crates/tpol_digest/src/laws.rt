//! Laws of digests and paths, over their definitions alone.

ghost use Rattle.tpol_digest.specs.Laws.{BranchCountsIgnoreBoxes, DigestsIgnoreBoxes, InputsIgnoreBoxes, PathsAreSound, PathsGiveTheDigest, PathsHaveBounds, PathsHavePcrDigests, PathsIgnoreBoxes, WellFormedIgnoresBoxes};

/// Digests, paths, the strings that are hashed, well-formedness and the numbers of branches are the same
/// whichever memory a policy and its approved documents lie in.
pub fn boxes_are_ignored()
    ensures digests { DigestsIgnoreBoxes }
    ensures paths { PathsIgnoreBoxes }
    ensures inputs { InputsIgnoreBoxes }
    ensures well_formed { WellFormedIgnoresBoxes }
    ensures branch_counts { BranchCountsIgnoreBoxes }
{}

/// All branches meet: each path of a policy, whatever its approved documents are, leads a session to the policy's
/// digest, and where all is well formed each PolicyOR and each approval on it meets the digest before it.
pub fn all_paths_meet()
    ensures digest { PathsGiveTheDigest }
    ensures sound { PathsAreSound }
{}

/// Where a policy with its approved documents is well formed, each PCR assertion on its paths has the hash of its
/// values joined.
pub fn paths_have_pcr_digests()
    ensures { PathsHavePcrDigests }
{}

/// Where each OR of a policy and of its approved documents has 2 to 8 branches, and their fields are within the bounds
/// of the wire, each policy command on the policy's paths is within these bounds, and each PolicyOR has 2 to 8 digests.
pub fn paths_have_bounds()
    ensures { PathsHaveBounds }
{}
