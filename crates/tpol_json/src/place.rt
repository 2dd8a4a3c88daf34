//! Places in a document, as steps from its root.

ghost use Rattle.std.specs.Prelude.{◌≡◌, IfOk, OnOk};

use std::alloc::Global;
use tpol_base::{NoMemory, Sequence, Text};

/// One step into a JSON value.
#[derive(Drop)]
pub enum PlaceStep {
    /// To the member of an object that has this name.
    Member(Text),
    /// To the item of a list at this position, counted from 0.
    Item(u32),
}

impl PlaceStep {
    /// A copy of this step.
    pub fn try_clone(&self, alloc: Global) -> Result<PlaceStep, NoMemory>
        ensures { IfOk result (λ step. step ≡ self.now) }
    {
        match self {
            PlaceStep::Member(name) => Ok(PlaceStep::Member(name.try_clone(alloc)?)),
            PlaceStep::Item(index) => Ok(PlaceStep::Item(*index)),
        }
    }
}

/// The steps from the root of a document, outermost first.
pub type PlaceSteps = Sequence<PlaceStep>;

/// The places of unknown members, in reading order.
pub type Notes = Sequence<Place>;

/// Where in a document something stands. Without a step it is the document itself.
#[derive(Drop)]
pub struct Place {
    /// The steps that lead there.
    pub steps: PlaceSteps,
}

impl Place {
    ghost use Rattle.tpol_json.specs.Places.{root, at_member, at_item};

    /// The document itself; it takes no memory.
    pub fn root(alloc: Global) -> Place
        ensures { result ≡ root }
    {
        Place {
            steps: Sequence::new(alloc),
        }
    }

    /// A copy of this place.
    pub fn try_clone(&self, alloc: Global) -> Result<Place, NoMemory>
        ensures { IfOk result (λ place. place ≡ self.now) }
    {
        let mut steps = Sequence::new(alloc);
        for step in self.steps.as_slice() {
            steps.push(step.try_clone(alloc)?)?;
        }
        Ok(Place { steps })
    }

    /// Goes on to the member of that name.
    pub fn push_member(&mut self, alloc: Global, name: &str) -> Result<(), NoMemory>
        ensures { OnOk result (self.new ≡ at_member self.old name.now) }
    {
        self.steps
            .push(PlaceStep::Member(Text::from_str(alloc, name)?))
    }

    /// Goes on to the item of this position, counted from 0.
    pub fn push_item(&mut self, index: u32) -> Result<(), NoMemory>
        ensures { OnOk result (self.new ≡ at_item self.old index) }
    {
        self.steps.push(PlaceStep::Item(index))
    }
}
