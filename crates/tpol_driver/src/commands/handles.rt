//! The handles that commands take for the Names of moves. A complete plan has a handle for each; a Name that
//! has none gives the null hierarchy, which none of these commands takes.

ghost use Rattle.std.specs.Prelude.{◌≡◌};
ghost use Rattle.tpol_driver.specs.Commands.{entity_handle, index_authority, index_handle, key_handle};

use tpol_base::Name;
use tpol_base::handle::TPM_RH_NULL;
use tpol_goal::{Grants, entity_of_name, index_of_name, object_of_name};
use tpol_name::DirEntry;

/// The hierarchy, object or index with this Name.
pub(crate) fn entity(directory: &[DirEntry], name: &Name) -> u32
    ensures { result ≡ entity_handle directory.now name.now }
{
    match entity_of_name(directory, name) {
        Some(handle) => handle,
        None => TPM_RH_NULL,
    }
}

/// The object with this Name.
pub(crate) fn key(directory: &[DirEntry], name: &Name) -> u32
    ensures { result ≡ key_handle directory.now name.now }
{
    match object_of_name(directory, name) {
        Some(entry) => entry.handle,
        None => TPM_RH_NULL,
    }
}

/// The index with this Name, and the entity by whose password it is read.
#[derive(Clone, Copy)]
pub(crate) struct IndexHandles {
    pub(crate) authority: u32,
    pub(crate) index: u32,
}

/// The index with this Name, and the entity by whose password it is read: the index itself where it has
/// AUTHREAD and a value is granted for it, else the owner.
pub(crate) fn index(directory: &[DirEntry], grants: &Grants, name: &Name) -> IndexHandles
    ensures index { result.index ≡ index_handle directory.now name.now }
    ensures authority { result.authority ≡ index_authority directory.now grants.now name.now }
{
    match index_of_name(directory, name) {
        Some(entry) => IndexHandles {
            authority: grants.authority(entry.handle, entry.attributes),
            index: entry.handle,
        },
        None => IndexHandles {
            authority: TPM_RH_NULL,
            index: TPM_RH_NULL,
        },
    }
}
