ghost use Rattle.std.specs.Prelude.{◌≡◌, ◌++◌, List, ℕ};
ghost use Rattle.tpol_digest.specs.Digest.{digest_after_assertion, inner_digest};
ghost use Rattle.tpol_digest.specs.Term.{Term, bytes_of_term, term_after_assertion};
ghost use Rattle.tpol_digest.specs.Update.{update_of_assertion};
ghost use Rattle.tpol_hash.specs.Messages.{Holds};

use crate::command_code::code_of_assertion;
use crate::pieces::{comparison_of, policy_ref_of, put_rest};
use crate::update::{digest_of_two, hash_again, start};
use tpol_base::Digest32;
use tpol_hash::Hasher;
use tpol_tree::Assertion;

/// The policy digest after an assertion, where `old` is the digest before (TPM 2.0 Part 3, the policy
/// command of the assertion's name).
pub fn extend(old: Digest32, assertion: &Assertion) -> Digest32
    ensures digest { result ≡ digest_after_assertion assertion.now old }
    ensures term { (t : Term) → old ≡ bytes_of_term t
        → result ≡ bytes_of_term (term_after_assertion assertion.now t) }
{
    let mut hasher = start(&old, code_of_assertion(assertion));
    put_comparison(&mut hasher, assertion);
    put_rest(&mut hasher, assertion);
    hash_again(hasher.done(), policy_ref_of(assertion))
}

// Adds the digest of what an assertion compares with to a message, and nothing where it does not compare.
fn put_comparison(hasher: &mut Hasher, assertion: &Assertion)
    ensures longer { (m : List ℕ) → Holds hasher.old m
        → Holds hasher.new (m ++ inner_digest (update_of_assertion assertion.now).inner) }
{
    match comparison_of(assertion) {
        None => {}
        Some(compared) => {
            let digest = digest_of_two(compared.0.as_slice(), &compared.1);
            hasher.put(&digest.bytes)
        }
    }
}
