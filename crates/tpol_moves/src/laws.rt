//! Laws of the lines, over their definitions alone.

ghost use Rattle.tpol_moves.specs.Laws.{LastStepsHavePolicyDigest, StepsHavePrefixDigests};

/// The line of each policy command has the digest of the commands up to it.
pub fn steps_have_prefix_digests()
    ensures { StepsHavePrefixDigests }
{}

/// The line of the last policy command of a policy's path has the policy's digest.
pub fn last_steps_have_policy_digest()
    ensures { LastStepsHavePolicyDigest }
{}
