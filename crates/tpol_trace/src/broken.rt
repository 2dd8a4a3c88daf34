// Two different strings of one digest, or one of digest zero, among those that are hashed.

ghost use Rattle.std.specs.Prelude.{◌≡◌, IfOk, IsSome, option_copied, option_map};
ghost use Rattle.std.specs.Str.{bytes_eq};
ghost use Rattle.tpol_hash.specs.Sha256.{sha256_digest};
ghost use Rattle.tpol_digest.specs.Digest.{zero_digest};
ghost use Rattle.tpol_trace.specs.Openings as spec;

use crate::Opening;
use std::alloc::Global;
use tpol_base::{Blob, Digest32, NoMemory};
use tpol_digest::{inputs_of, inputs_of_facts};
use tpol_hash::hash;
use tpol_tree::{Approvals, Closed, Facts};

// The opening where no path matches: the first clash, or else the first string of digest zero.
pub fn broken_opening(
    alloc: Global,
    policy: &Closed,
    approvals: &Approvals,
    facts: &Facts,
) -> Result<Opening, NoMemory>
    requires { IsSome (spec.broken_opening
        (spec.first_clash (spec.inputs policy.now approvals.now facts.now))
        (spec.first_zero (spec.inputs policy.now approvals.now facts.now))) }
    ensures { IfOk result (λ opening.
        spec.broken_opening (spec.first_clash (spec.inputs policy.now approvals.now facts.now))
        (spec.first_zero (spec.inputs policy.now approvals.now facts.now)) ≡ Some opening) }
{
    let strings = all_inputs(alloc, policy, approvals, facts)?;
    match first_clash(&strings) {
        Some((first, second)) => Ok(Opening::Clash {
            first: Blob::from_slice(alloc, first.as_slice())?,
            second: Blob::from_slice(alloc, second.as_slice())?,
        }),
        None => match first_zero(&strings) {
            Some(input) => Ok(Opening::ZeroInput {
                input: Blob::from_slice(alloc, input.as_slice())?,
            }),
            None => unreachable!(),
        },
    }
}

// The strings of the policy and its approved documents, and then those of the facts.
fn all_inputs(
    alloc: Global,
    policy: &Closed,
    approvals: &Approvals,
    facts: &Facts,
) -> Result<Vec<Blob>, NoMemory>
    ensures { IfOk result (λ strings. strings.items
        ≡ spec.inputs policy.now approvals.now facts.now) }
{
    let mut strings = inputs_of(alloc, policy, approvals)?.into_vec();
    let mut of_facts = inputs_of_facts(alloc, facts)?.into_vec();
    strings.append(&mut of_facts)?;
    Ok(strings)
}

// The first string that clashes with a later one, and the first of those.
fn first_clash(strings: &[Blob]) -> Option<(&Blob, &Blob)>
    ensures { option_map (λ pair. (pair.0.now, pair.1.now)) result ≡ spec.first_clash strings.now }
{
    for i in 0..strings.len() {
        if let Some(other) = clash_with(&strings[i], &strings[i + 1..]) {
            return Some((&strings[i], other));
        }
    }
    None
}

// The first of these that is another string of the same digest.
fn clash_with<'a>(string: &Blob, others: &'a [Blob]) -> Option<&'a Blob>
    ensures { option_copied result ≡ spec.clash_with string.now others.now }
{
    let digest = hash(string.as_slice());
    for other in others {
        if is_clash(string, &digest, other) {
            return Some(other);
        }
    }
    None
}

// Whether another string has this string's digest.
fn is_clash(string: &Blob, digest: &Digest32, other: &Blob) -> bool
    requires { digest.now ≡ sha256_digest string.now }
    ensures { result ≡ spec.is_clash string.now other.now }
{
    string.as_slice() != other.as_slice() && digest.bytes == hash(other.as_slice()).bytes
}

// The first string of digest zero.
fn first_zero(strings: &[Blob]) -> Option<&Blob>
    ensures { option_copied result ≡ spec.first_zero strings.now }
{
    for string in strings {
        if has_zero_digest(string) {
            return Some(string);
        }
    }
    None
}

fn has_zero_digest(string: &Blob) -> bool
    ensures { result ≡ bytes_eq (sha256_digest string.now).bytes zero_digest.bytes }
{
    hash(string.as_slice()).bytes == Digest32::ZERO.bytes
}
