//! Places that are borrowed, step for step.

ghost use Rattle.std.specs.Prelude.{◌≡◌, IfOk};
ghost use Rattle.tpol_json.specs.Chains.{place_of};

use crate::Place;
use std::alloc::Global;
use std::marker::Model;
use tpol_base::NoMemory;

// A place and the steps from there, each borrowed by the next.
#[derive(Clone, Copy)]
enum Chain<'a> {
    At(&'a Place),
    Member(&'a Chain<'a>, &'a str),
    Item(&'a Chain<'a>, usize),
}

/// A place that is borrowed, step for step: it takes no memory. Readers hand it down, and only a fault or a
/// note makes the `Place` of it, which is what contracts see.
#[derive(Drop)]
pub struct PlaceRef<'a> {
    chain: Chain<'a>,
}

impl<'a> Model for PlaceRef<'a> {
    ghost use Rattle.tpol_json.specs.declared.place.Place.{Place};
    ghost use Rattle.tpol_json.specs.Chains.{place_of};

    ghost Value = { Place };

    ghost view = { λ p. place_of p.chain };
}

impl<'a> PlaceRef<'a> {
    ghost use Rattle.tpol_json.specs.Places.{at_member, at_item};

    /// This place.
    pub fn at(place: &'a Place) -> PlaceRef<'a>
        ensures { result ≡ place.now }
    {
        PlaceRef {
            chain: Chain::At(place),
        }
    }

    /// The place of a member of what stands here.
    pub fn member(&'a self, name: &'a str) -> PlaceRef<'a>
        ensures { result ≡ at_member self.now name.now }
    {
        PlaceRef {
            chain: Chain::Member(&self.chain, name),
        }
    }

    /// The place of an item of the list that stands here; items count from 0.
    pub fn item(&'a self, index: usize) -> PlaceRef<'a>
        ensures { result ≡ at_item self.now index }
    {
        PlaceRef {
            chain: Chain::Item(&self.chain, index),
        }
    }

    /// The place itself, which takes memory. A position of 2^32 or more is taken for want of it.
    pub fn to_place(&self, alloc: Global) -> Result<Place, NoMemory>
        ensures { IfOk result (λ place. place ≡ self.now) }
    {
        place_of(alloc, &self.chain)
    }
}

fn place_of(alloc: Global, chain: &Chain<'_>) -> Result<Place, NoMemory>
    ensures { IfOk result (λ place. place ≡ place_of chain.now) }
{
    match chain {
        Chain::At(place) => place.try_clone(alloc),
        Chain::Member(above, name) => {
            let mut place = place_of(alloc, above)?;
            place.push_member(alloc, name)?;
            Ok(place)
        }
        Chain::Item(above, index) => {
            let mut place = place_of(alloc, above)?;
            place.push_item(u32::try_from(*index).map_err(|_| NoMemory)?)?;
            Ok(place)
        }
    }
}
