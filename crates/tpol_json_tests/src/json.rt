//! Outside values: bytes, numbers, words and places as policy documents write them. What members give, and which of
//! them are noted, `docs/check` shows by the built program's digests and notes.
//!
//! The proof of a function proves the drop of each value that it holds, wherever it may end early. So a document is
//! held by a function that ends in one place, and what is read of it by another.

use serde_json::Value;
use std::alloc::Global;
use tpol_json::{
    ParseFault, Place, PlaceRef, bytes_of, member, number_of, parse, place_text, same_word, text,
    truth,
};

/// What a document is read as.
#[derive(Clone, Copy)]
enum Reading {
    /// As these bytes.
    Bytes(&'static [u8]),
    /// As this number between the least and the greatest of 32 bits, or as none.
    Number(Option<i64>),
    /// As this truth value, or as none.
    Truth(Option<bool>),
    /// As an object whose member `type` is this text, and that has no member `Type`.
    Type(&'static str),
    /// As no JSON.
    Nothing,
}

static DOCUMENTS: [(&[u8], Reading); 28] = [
    (b"\"\"", Reading::Bytes(b"")),
    (b"\"0x\"", Reading::Bytes(b"")),
    (b"\"4000000b\"", Reading::Bytes(b"\x40\x00\x00\x0b")),
    (b"\"0xaBcD\"", Reading::Bytes(b"\xab\xcd")),
    (b"[0, 255, 16]", Reading::Bytes(b"\x00\xff\x10")),
    (b"0", Reading::Number(Some(0))),
    (b"-2147483648", Reading::Number(Some(-2147483648))),
    (b"2147483648", Reading::Number(None)),
    (b"\"0x1Ff\"", Reading::Number(Some(511))),
    (b"\"0x\"", Reading::Number(None)),
    (b"\"0x0000000000000001\"", Reading::Number(None)),
    (b"\"0X1\"", Reading::Number(None)),
    (b"1.0", Reading::Number(None)),
    (b"1e2", Reading::Number(None)),
    (b"-0", Reading::Number(None)),
    (b"true", Reading::Truth(Some(true))),
    (b"\"Yes\"", Reading::Truth(Some(true))),
    (b"\"FALSE\"", Reading::Truth(Some(false))),
    (b"0", Reading::Truth(Some(false))),
    (b"2", Reading::Truth(None)),
    (b"\"maybe\"", Reading::Truth(None)),
    (b"null", Reading::Truth(None)),
    (
        b"{\"type\":\"OR\",\"type\":\"POLICYAUTHVALUE\"}",
        Reading::Type("POLICYAUTHVALUE"),
    ),
    (b"", Reading::Nothing),
    (b"{", Reading::Nothing),
    (b"\xef\xbb\xbf{}", Reading::Nothing),
    (b"\"\\ud800\"", Reading::Nothing),
    (b"1e999", Reading::Nothing),
];

fn gives_bytes(alloc: Global, value: &Value, bytes: &[u8]) -> bool {
    match bytes_of(alloc, value, &Place::root(alloc)) {
        Ok(read) => read.as_slice() == bytes,
        Err(_) => false,
    }
}

fn number(alloc: Global, value: &Value) -> Option<i64> {
    number_of(alloc, value, -2147483648, 2147483647, &Place::root(alloc)).ok()
}

fn truth_value(alloc: Global, value: &Value) -> Option<bool> {
    truth(alloc, value, &PlaceRef::at(&Place::root(alloc))).ok()
}

fn is_text(alloc: Global, value: &Value, wanted: &str) -> bool {
    match text(alloc, value, &PlaceRef::at(&Place::root(alloc))) {
        Ok(read) => read.as_str() == wanted,
        Err(_) => false,
    }
}

fn has_type(alloc: Global, document: &Value, text: &str) -> bool {
    match (member(document, "type"), member(document, "Type")) {
        (Some(value), None) => is_text(alloc, value, text),
        _ => false,
    }
}

fn gives(alloc: Global, value: &Value, reading: &Reading) -> bool {
    match reading {
        Reading::Bytes(bytes) => gives_bytes(alloc, value, bytes),
        Reading::Number(wanted) => number(alloc, value) == *wanted,
        Reading::Truth(wanted) => truth_value(alloc, value) == *wanted,
        Reading::Type(text) => has_type(alloc, value, text),
        Reading::Nothing => false,
    }
}

fn is_read(alloc: Global, document: &[u8], reading: &Reading) -> bool {
    match parse(alloc, document) {
        Ok(value) => gives(alloc, &value, reading),
        Err(fault) => fault == ParseFault::NotJson && matches!(reading, Reading::Nothing),
    }
}

#[test]
fn documents(rt: HostRuntime) {
    for (document, reading) in &DOCUMENTS {
        assert!(rt; is_read(rt.alloc(), document, reading));
    }
}

// A text, a prefix that it may have, a word, and whether the text is that word.
static WORDS: [(&str, &str, &str, bool); 6] = [
    ("unseal", "TPM2_CC_", "Unseal", true),
    ("tpm2_cc_UNSEAL", "TPM2_CC_", "Unseal", true),
    ("CC_Unseal", "TPM2_CC_", "Unseal", false),
    ("TPM2_CC_", "TPM2_CC_", "Unseal", false),
    ("policyAuthValue", "POLICY", "AUTHVALUE", true),
    ("POLICYPOLICYOR", "POLICY", "OR", false),
];

#[test]
fn words(rt: HostRuntime) {
    for (text, prefix, word, same) in &WORDS {
        assert!(rt; same_word(text, prefix, word) == *same);
    }
}

fn is_written(alloc: Global, place: &Place, text: &str) -> bool {
    match place_text(alloc, place) {
        Ok(written) => written.as_str() == text,
        Err(_) => false,
    }
}

// Whether an item of this member of a document is written so.
fn is_inner_written(alloc: Global, name: &str, index: usize, text: &str) -> bool {
    match PlaceRef::at(&Place::root(alloc))
        .member(name)
        .item(index)
        .to_place(alloc)
    {
        Ok(place) => is_written(alloc, &place, text),
        Err(_) => false,
    }
}

// (a longer place, and the document itself, are written in `Worked`)
#[test]
fn places(rt: HostRuntime) {
    assert!(rt; is_inner_written(rt.alloc(), "policy", 12, "policy[12]"));
    assert!(rt; is_inner_written(rt.alloc(), "a b", 0, "\"a b\"[0]"));
}
