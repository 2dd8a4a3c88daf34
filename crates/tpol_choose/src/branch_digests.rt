// The digests of the branches of an OR, of which there are at most eight, without a list in memory.

ghost use Rattle.std.specs.Prelude.{◌≡◌, ◌++◌, ◌∷◌, [], ◌+◌, ◌<◌, ◌≤◌, length};
ghost use Rattle.tpol_digest.specs.Digest as spec;
ghost use Rattle.tpol_tree.specs.Closed.{branch_count};

use std::marker::Model;
use tpol_base::Digest32;
use tpol_digest::digest_after_elements;
use tpol_tree::ClosedBranches;

// The greatest number of branches.
const GREATEST: usize = 8;

// At most eight digests; contracts see the list of them.
#[derive(Drop)]
pub struct BranchDigests {
    digests: [Digest32; GREATEST],
    count: usize,
}

impl Model for BranchDigests {
    ghost use Rattle.std.specs.Prelude.{◌≤◌, List, take};
    ghost use Rattle.tpol_base.specs.declared.digest.Digest32.{Digest32 as OneDigest};

    ghost Value = { List OneDigest };

    ghost view = { λ b. take b.count b.digests };

    ghost invariant = { λ b. b.count ≤ 8 };
}

impl BranchDigests {
    // Those of the branches of an OR, each from the digest before the OR.
    pub fn of(branches: &ClosedBranches, before: Digest32) -> BranchDigests
        requires few { branch_count branches.now ≤ 8 }
        ensures { result ≡ spec.branch_digests branches.now before }
    {
        let mut digests = BranchDigests::new();
        push_digests(&mut digests, branches, before);
        digests
    }

    fn new() -> BranchDigests
        ensures { result ≡ [] }
    {
        BranchDigests {
            digests: [Digest32::ZERO; GREATEST],
            count: 0,
        }
    }

    fn push(&mut self, digest: Digest32)
        requires room { length self.old < 8 }
        ensures { self.new ≡ self.old ++ digest ∷ [] }
    {
        self.digests[self.count] = digest;
        self.count += 1;
    }

    // The digests in order.
    pub fn as_slice(&self) -> &[Digest32]
        ensures { result.now ≡ self.now }
    {
        &self.digests[..self.count]
    }
}

fn push_digests(digests: &mut BranchDigests, branches: &ClosedBranches, before: Digest32)
    requires room { length digests.old + branch_count branches.now ≤ 8 }
    ensures { digests.new ≡ digests.old ++ spec.branch_digests branches.now before }
{
    match branches {
        ClosedBranches::End => {}
        ClosedBranches::More(branch, rest) => {
            digests.push(digest_after_elements(&branch.policy.elements, before));
            push_digests(digests, rest, before);
        }
    }
}
