//! Putting policies on the shelf.

ghost use Rattle.std.specs.Prelude.{◌≡◌, OnErr, OnOk};
ghost use Rattle.std.specs.Option.{option_map};
ghost use Rattle.tpol_base.specs.Causes.{HasLapse, IsQuiet};
ghost use Rattle.tpol_base.specs.Documents.{put_document};
ghost use Rattle.tpol_store.specs.FileNames.{file_name};
ghost use Rattle.tpol_write.specs.Canonical.{canonical_text};

use crate::file_name::file_name;
use std::alloc::Global;
use tpol_base::{Lapse, Shelf};
use tpol_tree::Policy;
use tpol_write::write_policy;

/// Puts the canonical text of a policy on the shelf, as the document of this name followed by `.json`, which it
/// replaces or adds. After a lapse the documents are as before; `Failed` comes only where the shelf's count of
/// faults rose, or stands at its last value.
pub fn put_policy<H: Shelf>(
    alloc: Global,
    shelf: &mut H,
    name: &str,
    policy: &Policy,
) -> Result<(), Lapse>
    ensures put { OnOk result (H.documents shelf.new
        ≡ option_map (put_document (file_name name.now) (canonical_text policy.now))
        (H.documents shelf.old)) }
    ensures keeps { OnErr result (H.documents shelf.new ≡ H.documents shelf.old) }
    ensures cause { HasLapse (H.faults shelf.old) (H.faults shelf.new) result }
    ensures quiet { IsQuiet (H.faults shelf.old) (H.faults shelf.new) result }
{
    let text = write_policy(alloc, policy)?;
    let file = file_name(alloc, name)?;
    shelf.put(file.as_str(), text.as_slice())
}
