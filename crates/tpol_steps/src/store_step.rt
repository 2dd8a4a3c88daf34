ghost use Rattle.std.specs.Prelude.{◌≡◌, true, All, IfSome, IfOk, ⊤};
ghost use Rattle.tpol_store.specs.Stores.{IsReadable, policies_of, stored};
ghost use Rattle.tpol_steps.specs.Steps.{Answers, AsksShelf};
ghost use Rattle.tpol_steps.specs.StoreStep.{store_step};

use crate::answer::{Answer, Verdict};
use crate::halt::Halt;
use crate::refusals::{bad_policy, policy_kind_name, policy_not_json, too_large_in};
use std::alloc::Global;
use tpol_base::Shelf;
use tpol_read::PolicyFault;
use tpol_store::{Store, StoreFault};

/// Loads all policy documents of the shelf.
///
/// `Refused` tells that the shelf has too many documents, or the first document that is too large or no policy's;
/// `ShelfFailed` comes only where the shelf failed, and `NoMemory` where memory ran out.
#[tactic(auto, unfolding(crate::specs::StoreStep::store_step))]
pub fn load_store<H: Shelf>(alloc: Global, shelf: &mut H) -> Result<Store, Halt>
    ensures answer { IfSome (H.documents shelf.old)
        (λ all. Answers policies_of (store_step all) result) }
    ensures readable { IfOk result (λ store. All IsReadable (stored store)) }
    ensures keeps { H.documents shelf.new ≡ H.documents shelf.old }
    ensures asks { AsksShelf true ⊤ shelf.old shelf.new (H.faults shelf.old)
        (H.faults shelf.new) result }
{
    match Store::load(alloc, shelf) {
        Ok(store) => Ok(store),
        Err(StoreFault::Failed) => Err(Halt::ShelfFailed),
        Err(StoreFault::TooMany) => {
            let line = "error TooLarge documents";
            Err(Halt::Refused(Answer::of_line(alloc, line, Verdict::TooLarge)?))
        }
        Err(StoreFault::TooLarge(name)) => Err(Halt::Refused(too_large_in(alloc, &name)?)),
        Err(StoreFault::Bad(name, fault)) => match fault {
            PolicyFault::NotJson => Err(Halt::Refused(policy_not_json(alloc, Some(&name))?)),
            PolicyFault::Bad { kind, place } => {
                let kind = policy_kind_name(kind);
                Err(Halt::Refused(bad_policy(alloc, kind, Some(&name), &place)?))
            }
            PolicyFault::NoMemory => Err(Halt::NoMemory),
        },
        Err(StoreFault::NoMemory) => Err(Halt::NoMemory),
    }
}
