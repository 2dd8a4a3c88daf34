//! What is wrong with a value, with a member or with an item of a list, and where.

ghost use Rattle.std.specs.Prelude.{◌≡◌};
ghost use Rattle.tpol_json.specs.Faults.{kind_of};
ghost use Rattle.tpol_json.specs.Reading.{Gives, bad, fault_of};
ghost use Rattle.tpol_json.specs.declared.fault.Fault.TheVariants.{NoMemory as no_memory};

use crate::{Place, PlaceRef};
use std::alloc::{AllocError, AllocFailed, Global};
use tpol_base::NoMemory;

/// Why a part of a document is not read, where `K` is what may be wrong with it.
#[derive(Drop)]
pub enum Fault<K> {
    /// What stands at the place is at fault.
    Bad { kind: K, place: Place },
    /// Memory ran out.
    NoMemory,
}

/// What is wrong with a value.
#[derive(Clone, Copy)]
pub enum JsonKind {
    /// The value is of another JSON kind than what is wanted.
    WrongKind,
    /// A text that is not an even number of hexadecimal digits.
    BadHex,
    /// A number, or a text in place of one, that is none of those wanted; in a list of bytes any item that is no number
    /// from 0 to 255.
    BadNumber,
}

/// Why a value is not read.
pub type JsonFault = Fault<JsonKind>;

/// What is wrong with a member of an object, or with an item of a list.
#[derive(Clone, Copy)]
pub enum MemberKind {
    /// A member that is needed is not there.
    Missing,
    /// A value of another JSON kind than its member has.
    WrongKind,
    /// Bytes that are not written in hexadecimal, or of a wrong length, or no Name.
    BadHex,
    /// A number outside its limits, or another text in its place.
    BadNumber,
    /// A second one of members of which one is wanted.
    Twice,
    /// An item past a list's limit.
    TooMany,
}

/// Why a member is not read.
pub type MemberFault = Fault<MemberKind>;

/// Kinds of faults that have those of `K` among them: so `?` tells a fault of a value as one of the member that it
/// is of, and a fault of a member as one of a policy document or of a scene.
pub trait Includes<K> {
    /// Which of these kinds a kind of `K` is.
    ghost kind_of: { K → Self };

    /// The same kind, among these.
    fn of_kind(kind: K) -> Self
        ensures { result ≡ kind_of kind };
}

impl Includes<JsonKind> for MemberKind {
    ghost kind_of = { kind_of };

    fn of_kind(kind: JsonKind) -> MemberKind {
        match kind {
            JsonKind::WrongKind => MemberKind::WrongKind,
            JsonKind::BadHex => MemberKind::BadHex,
            JsonKind::BadNumber => MemberKind::BadNumber,
        }
    }
}

/// The answer that what stands at the place is at fault; `NoMemory` where it has no memory for the place.
pub fn refuse<T, K: Drop>(alloc: Global, kind: K, place: &PlaceRef<'_>) -> Result<T, Fault<K>>
    ensures { Gives result (bad kind place.now) }
{
    match place.to_place(alloc) {
        Ok(place) => Err(Fault::Bad { kind, place }),
        Err(_) => Err(Fault::NoMemory),
    }
}

impl<K> From<NoMemory> for Fault<K> {
    ghost from_gives = { λ _ fault. fault ≡ no_memory };

    fn from(_: NoMemory) -> Fault<K> {
        Fault::NoMemory
    }
}

impl<K> From<AllocError> for Fault<K> {
    ghost from_gives = { λ _ fault. fault ≡ no_memory };

    fn from(_: AllocError) -> Fault<K> {
        Fault::NoMemory
    }
}

impl<T: Drop, K> From<AllocFailed<T>> for Fault<K> {
    ghost from_gives = { λ _ fault. fault ≡ no_memory };

    fn from(_: AllocFailed<T>) -> Fault<K> {
        Fault::NoMemory
    }
}

/// A value's fault, as one of a kind that includes it.
impl<K: Includes<JsonKind>> From<Fault<JsonKind>> for Fault<K> {
    ghost from_gives = { λ fault made. made ≡ fault_of K.kind_of fault };

    fn from(fault: Fault<JsonKind>) -> Fault<K> {
        fault.among()
    }
}

/// A member's fault, as one of a kind that includes it.
impl<K: Includes<MemberKind>> From<Fault<MemberKind>> for Fault<K> {
    ghost from_gives = { λ fault made. made ≡ fault_of K.kind_of fault };

    fn from(fault: Fault<MemberKind>) -> Fault<K> {
        fault.among()
    }
}

impl<K> Fault<K> {
    // The same fault, of a kind that includes this one.
    fn among<L: Includes<K>>(self) -> Fault<L>
        ensures { result ≡ fault_of L.kind_of self }
    {
        match self {
            Fault::Bad { kind, place } => Fault::Bad {
                kind: L::of_kind(kind),
                place,
            },
            Fault::NoMemory => Fault::NoMemory,
        }
    }
}
