ghost use Rattle.std.specs.Prelude.{◌≡◌};
ghost use Rattle.tpol_digest.specs.Digest as spec;

use tpol_base::Digest32;
use tpol_digest::extend;
use tpol_tree::Assertion;

// An assertion with the digest of the policy before it and the one that it leads to, which is made once.
#[derive(Clone, Copy)]
pub struct AssertMove<'a> {
    pub assertion: &'a Assertion,
    pub before: Digest32,
    pub after: Digest32,
    pub ghost known: { after ≡ spec.digest_after_assertion assertion.now before },
}

impl<'a> AssertMove<'a> {
    pub fn new(assertion: &'a Assertion, before: Digest32) -> AssertMove<'a>
        ensures assertion { result.assertion.now ≡ assertion.now }
        ensures after { result.after ≡ spec.digest_after_assertion assertion.now before }
    {
        AssertMove {
            assertion,
            before,
            after: extend(before, assertion),
        }
    }

    // The same where the digest that it leads to is known.
    pub fn with_after(assertion: &'a Assertion, before: Digest32, after: Digest32) -> AssertMove<'a>
        requires known { after ≡ spec.digest_after_assertion assertion.now before }
        ensures { result.assertion.now ≡ assertion.now }
    {
        AssertMove {
            assertion,
            before,
            after,
        }
    }

    // The digest that it leads to from this one, which a session may have in place of the policy's.
    pub fn digest_from(&self, before: Digest32) -> Digest32
        ensures { result ≡ spec.digest_after_assertion self.now.assertion.now before }
    {
        if before == self.before {
            self.after
        } else {
            extend(before, self.assertion)
        }
    }
}
