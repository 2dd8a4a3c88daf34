//! Documents that are put on a shelf, read from it, found by name, and refused. Which of them a key approves, with
//! digests that a TPM gives, `docs/check` shows by the paths and runs of approved documents.
//!
//! The proof of a function proves the drop of each value that it holds, wherever it may end early. So a shelf and a
//! store are held by functions that end in one place, and what is asked of them stands in others that are lent them.

use std::alloc::Global;
use tpol_base::{MemoryShelf, Shelf};
use tpol_store::{Store, StoreFault, put_policy};

// A document with elements and an approval.
const APPROVED: &str =
    r#"{"description":"","policy":[{"type":"POLICYAUTHVALUE"}],"policyAuthorizations":[{"type":"tpm","keyPath":"/approver","policyRef":"01","signature":"abababababababababababababababababababababababababababababababab"}]}"#;

static DOCUMENTS: [(&str, &str); 3] = [
    ("v2.json", APPROVED),
    ("notes.txt", "{"),
    (
        "base.json",
        r#"{"policy":[{"type":"POLICYAUTHORIZE","keyPath":"/approver"}]}"#,
    ),
];

static BROKEN: [(&str, &str); 2] = [("b.json", "{"), ("a-b.json", "[]")];

// Whether these documents are put on the shelf.
fn puts(shelf: &mut MemoryShelf, documents: &[(&str, &str)]) -> bool {
    for (name, text) in documents {
        if shelf.put(name, text.as_bytes()).is_err() {
            return false;
        }
    }
    true
}

// Whether the policy of the document `v2` is found, and is put on the shelf as `copy`.
fn copies(alloc: Global, shelf: &mut MemoryShelf, store: &Store) -> bool {
    match store.find("v2") {
        Some(policy) => put_policy(alloc, shelf, "copy", policy).is_ok(),
        None => false,
    }
}

fn loads_and_copies(alloc: Global, shelf: &mut MemoryShelf) -> bool {
    match Store::load(alloc, shelf) {
        Ok(store) => copies(alloc, shelf, &store),
        Err(_) => false,
    }
}

// Whether the shelf has three documents, of which one is the copy, and none by the name of its file.
fn has_copy(alloc: Global, shelf: &mut MemoryShelf) -> bool {
    match Store::load(alloc, shelf) {
        Ok(store) => {
            store.documents().len() == 3
                && store.find("copy").is_some()
                && store.find("v2.json").is_none()
        }
        Err(_) => false,
    }
}

// Whether the shelf is refused for the document of this name.
fn is_refused(alloc: Global, shelf: &mut MemoryShelf, name: &str) -> bool {
    match Store::load(alloc, shelf) {
        Err(StoreFault::Bad(document, _)) => document.as_str() == name,
        _ => false,
    }
}

// (of two broken documents the earlier counts)
fn is_read(alloc: Global, shelf: &mut MemoryShelf) -> bool {
    puts(shelf, &DOCUMENTS)
        && loads_and_copies(alloc, shelf)
        && has_copy(alloc, shelf)
        && puts(shelf, &BROKEN)
        && is_refused(alloc, shelf, "a-b")
}

#[test]
fn documents_of_a_shelf(rt: HostRuntime) {
    let mut shelf = MemoryShelf::new(rt.alloc());
    assert!(rt; is_read(rt.alloc(), &mut shelf));
}
