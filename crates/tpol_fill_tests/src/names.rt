//! Outside values: Names that a TPM gives, and paths as the Feature API's key store writes them.

use crate::entities::{policy_index, signing_key};
use crate::vectors::{APPROVED_UNSEAL, INDEX};
use std::alloc::Global;
use tpol_base::{Digest32, Name};
use tpol_hash::{Hasher, hash};
use tpol_name::{nv_name, object_name, same_path, written};

pub fn digest_in(name: &Name) -> [u8; 32] {
    match name {
        Name::Hash(digest) => digest.bytes,
        _ => [0; 32],
    }
}

fn has_the_index_name(alloc: Global) -> bool {
    match policy_index(alloc, 0x220f_1008) {
        Ok(index) => written(&index) && digest_in(&nv_name(&index)) == *INDEX,
        Err(_) => false,
    }
}

// PolicyAuthorize by a key whose Name has this digest, then PolicyCommandCode of Unseal.
fn approved_unseal(key: &[u8; 32]) -> Digest32 {
    let mut update = Hasher::new();
    update.put(&[0; 32]);
    update.put(&[0x00, 0x00, 0x01, 0x6a, 0x00, 0x0b]);
    update.put(key);
    let approved = hash(&update.done().bytes);
    let mut unseal = Hasher::new();
    unseal.put(&approved.bytes);
    unseal.put(&[0x00, 0x00, 0x01, 0x6c, 0x00, 0x00, 0x01, 0x5e]);
    unseal.done()
}

fn has_the_key_name(alloc: Global) -> bool {
    match signing_key(alloc) {
        Ok(key) => approved_unseal(&digest_in(&object_name(&key))).bytes == *APPROVED_UNSEAL,
        Err(_) => false,
    }
}

#[test]
fn the_names_of_an_index_and_of_a_key(rt: HostRuntime) {
    assert!(rt; has_the_index_name(rt.alloc()));
    assert!(rt; has_the_key_name(rt.alloc()));
}

/// Paths, and whether they are the same.
static PATHS: [(&str, &str, bool); 7] = [
    ("/P_ECCP256SHA256/HS/SRK/key", "HS/SRK/key", true),
    ("/HS/SRK/key", "P_RSA2048SHA256/HS/SRK/key", true),
    ("//HS", "/HS", false),
    ("/P_A/P_B/x", "/P_B/x", false),
    ("/p_a/x", "x", false),
    ("/HS", "/hs", false),
    ("P_A", "", true),
];

#[test]
fn paths_of_the_key_store(rt: HostRuntime) {
    for (a, b, same) in &PATHS {
        assert!(rt; same_path(a, b) == *same, "{a} and {b}");
    }
}
