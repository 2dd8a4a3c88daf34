//! One document with every element type, every authorization and every spelling, and its canonical text: by hand after
//! docs/policy-documents.md, Canonical text.

use std::alloc::{AllocError, Global};
use tpol_read::read_policy;
use tpol_tree::Policy;
use tpol_write::write_policy;

// Elements as documents write them, and as canonical text does.
static ELEMENTS: [(&str, &str); 32] = [
    (
        r#"{"type":"pcr","pcrs":[{"pcr":16,"hashAlg":"tpm2_alg_sha256","digest":"0xABABABABABABABABABABABABABABABABABABABABABABABABABABABABABABABAB"},{"pcr":"0x0","hashAlg":11,"digest":[0,0,0,0,0,0,0,0,0,0,0,0,0,0,0,0,0,0,0,0,0,0,0,0,0,0,0,0,0,0,0,255]}]}"#,
        r#"{"pcrs":[{"digest":"00000000000000000000000000000000000000000000000000000000000000ff","hashAlg":"SHA256","pcr":0},{"digest":"abababababababababababababababababababababababababababababababab","hashAlg":"SHA256","pcr":16}],"type":"POLICYPCR"}"#,
    ),
    (
        r#"{"type":"POLICYPCR","currentPCRs":[7,"0x1f",0,7]}"#,
        r#"{"currentPCRs":[0,7,31],"type":"POLICYPCR"}"#,
    ),
    (
        r#"{"type":"PolicyPcr","currentPCRandBanks":{"hash":"SHA256","pcrSelect":[8]}}"#,
        r#"{"currentPCRs":[8],"type":"POLICYPCR"}"#,
    ),
    (
        r#"{"type":"Pcr","currentPCRandBanks":[{"hash":"0xb","pcrSelect":[]}]}"#,
        r#"{"currentPCRs":[],"type":"POLICYPCR"}"#,
    ),
    (
        r#"{"type":"nv","nvPath":"/nv/Owner/c","operandB":"0x00FF"}"#,
        r#"{"nvPath":"/nv/Owner/c","offset":0,"operandB":"00ff","operation":"EQ","type":"POLICYNV"}"#,
    ),
    (
        r#"{"type":"NV","nvPublic":{"nvPublic":{"nvIndex":"0x1000001","nameAlg":"SHA256","attributes":"0x20002","dataSize":"0x8"}},"operandB":[1,2],"offset":"0x1","operation":"TPM2_EO_unsigned_ge"}"#,
        r#"{"nvPublic":{"attributes":131074,"authPolicy":"","dataSize":8,"nameAlg":"SHA256","nvIndex":16777217},"offset":1,"operandB":"0102","operation":"UNSIGNED_GE","type":"POLICYNV"}"#,
    ),
    (
        r#"{"type":"secret","objectPath":"/HS"}"#,
        r#"{"expiration":0,"objectPath":"/HS","policyRef":"","type":"POLICYSECRET"}"#,
    ),
    (
        r#"{"type":"PolicySecret","objectName":"4000000B","policyRef":"0xAB","cpHashA":"0xABABABABABABABABABABABABABABABABABABABABABABABABABABABABABABABAB","expiration":-1}"#,
        r#"{"cpHashA":"abababababababababababababababababababababababababababababababab","expiration":-1,"objectName":"4000000b","policyRef":"ab","type":"POLICYSECRET"}"#,
    ),
    (
        r#"{"type":"signed","keyPath":"/k","expiration":"0x10"}"#,
        r#"{"expiration":16,"keyPath":"/k","policyRef":"","type":"POLICYSIGNED"}"#,
    ),
    (
        r#"{"type":"SIGNED","keyPublic":{"publicArea":{"type":8,"nameAlg":"sha256","objectAttributes":0,"scheme":"hmac","unique":""}},"cpHashA":[0,0,0,0,0,0,0,0,0,0,0,0,0,0,0,0,0,0,0,0,0,0,0,0,0,0,0,0,0,0,0,255]}"#,
        r#"{"cpHashA":"00000000000000000000000000000000000000000000000000000000000000ff","expiration":0,"keyPublic":{"authPolicy":"","nameAlg":"SHA256","objectAttributes":0,"scheme":"HMAC","type":"KEYEDHASH","unique":""},"policyRef":"","type":"POLICYSIGNED"}"#,
    ),
    (
        r#"{"type":"signed","publicKey":{"type":"tpm2_alg_keyedhash","nameAlg":11,"objectAttributes":"0x40","authPolicy":"00000000000000000000000000000000000000000000000000000000000000ff","scheme":"null","unique":"0xABABABABABABABABABABABABABABABABABABABABABABABABABABABABABABABAB"}}"#,
        r#"{"expiration":0,"keyPublic":{"authPolicy":"00000000000000000000000000000000000000000000000000000000000000ff","nameAlg":"SHA256","objectAttributes":64,"scheme":"NULL","type":"KEYEDHASH","unique":"abababababababababababababababababababababababababababababababab"},"policyRef":"","type":"POLICYSIGNED"}"#,
    ),
    (
        r#"{"type":"authorize","keyPath":"/k","policyRef":"01","approvedPolicy":null}"#,
        r#"{"keyPath":"/k","policyRef":"01","type":"POLICYAUTHORIZE"}"#,
    ),
    (
        r#"{"type":"AuthorizeNV","nvPath":"/nv/a"}"#,
        r#"{"nvPath":"/nv/a","type":"POLICYAUTHORIZENV"}"#,
    ),
    (
        r#"{"type":"locality","locality":["zero","TPM2_LOC_FOUR"]}"#,
        r#"{"locality":17,"type":"POLICYLOCALITY"}"#,
    ),
    (
        r#"{"type":"Locality","locality":"0x1f"}"#,
        r#"{"locality":31,"type":"POLICYLOCALITY"}"#,
    ),
    (
        r#"{"type":"commandcode","code":"TPM2_CC_unseal"}"#,
        r#"{"code":"Unseal","type":"POLICYCOMMANDCODE"}"#,
    ),
    (
        r#"{"type":"CommandCode","code":349}"#,
        r#"{"code":"Sign","type":"POLICYCOMMANDCODE"}"#,
    ),
    (
        r#"{"type":"COMMANDCODE","code":"0x20000001"}"#,
        r#"{"code":"0x20000001","type":"POLICYCOMMANDCODE"}"#,
    ),
    (
        r#"{"type":"cphash","cpHash":"0xABABABABABABABABABABABABABABABABABABABABABABABABABABABABABABABAB"}"#,
        r#"{"cpHash":"abababababababababababababababababababababababababababababababab","type":"POLICYCPHASH"}"#,
    ),
    (
        r#"{"type":"namehash","nameHash":[0,0,0,0,0,0,0,0,0,0,0,0,0,0,0,0,0,0,0,0,0,0,0,0,0,0,0,0,0,0,0,255]}"#,
        r#"{"nameHash":"00000000000000000000000000000000000000000000000000000000000000ff","type":"POLICYNAMEHASH"}"#,
    ),
    (
        r#"{"type":"NameHash","objectNames":["","40000001",[0,11,7,7,7,7,7,7,7,7,7,7,7,7,7,7,7,7,7,7,7,7,7,7,7,7,7,7,7,7,7,7,7,7]]}"#,
        r#"{"objectNames":["","40000001","000b0707070707070707070707070707070707070707070707070707070707070707"],"type":"POLICYNAMEHASH"}"#,
    ),
    (
        r#"{"type":"NAMEHASH","namePaths":["/a","/b"]}"#,
        r#"{"namePaths":["/a","/b"],"type":"POLICYNAMEHASH"}"#,
    ),
    (
        r#"{"type":"countertimer","operandB":"","operation":11}"#,
        r#"{"offset":0,"operandB":"","operation":"BITCLEAR","type":"POLICYCOUNTERTIMER"}"#,
    ),
    (
        r#"{"type":"DuplicationSelect","newParentPath":"/p"}"#,
        r#"{"includeObject":false,"newParentPath":"/p","objectName":"","type":"POLICYDUPLICATIONSELECT"}"#,
    ),
    (
        r#"{"type":"duplicationselect","newParentPublic":{"publicArea":{"type":8,"nameAlg":"sha256","objectAttributes":0,"scheme":"hmac","unique":""}},"includeObject":"yes","objectName":[0,11,7,7,7,7,7,7,7,7,7,7,7,7,7,7,7,7,7,7,7,7,7,7,7,7,7,7,7,7,7,7,7,7]}"#,
        r#"{"includeObject":true,"newParentPublic":{"authPolicy":"","nameAlg":"SHA256","objectAttributes":0,"scheme":"HMAC","type":"KEYEDHASH","unique":""},"objectName":"000b0707070707070707070707070707070707070707070707070707070707070707","type":"POLICYDUPLICATIONSELECT"}"#,
    ),
    (
        r#"{"type":"DUPLICATIONSELECT","newParentName":[],"includeObject":0}"#,
        r#"{"includeObject":false,"newParentName":"","objectName":"","type":"POLICYDUPLICATIONSELECT"}"#,
    ),
    (
        r#"{"type":"nvwritten"}"#,
        r#"{"type":"POLICYNVWRITTEN","writtenSet":true}"#,
    ),
    (
        r#"{"type":"NvWritten","writtenSet":"No"}"#,
        r#"{"type":"POLICYNVWRITTEN","writtenSet":false}"#,
    ),
    (r#"{"type":"authvalue"}"#, r#"{"type":"POLICYAUTHVALUE"}"#),
    (r#"{"type":"Password"}"#, r#"{"type":"POLICYPASSWORD"}"#),
    (
        r#"{"type":"policyphysicalpresence"}"#,
        r#"{"type":"POLICYPHYSICALPRESENCE"}"#,
    ),
    (
        r#"{"type":"or","branches":[{"policy":[{"type":"authvalue"}]},{"name":"b","description":"two","policy":[{"type":"password"},{"type":"physicalpresence"}]}]}"#,
        r#"{"branches":[{"description":"","name":"","policy":[{"type":"POLICYAUTHVALUE"}]},{"description":"two","name":"b","policy":[{"type":"POLICYPASSWORD"},{"type":"POLICYPHYSICALPRESENCE"}]}],"type":"POLICYOR"}"#,
    ),
];

// Authorizations, in the same way.
static APPROVALS: [(&str, &str); 4] = [
    (
        r#"{"type":"TPM","keyPath":"/k","signature":"0xABABABABABABABABABABABABABABABABABABABABABABABABABABABABABABABAB"}"#,
        r#"{"keyPath":"/k","policyRef":"","signature":"abababababababababababababababababababababababababababababababab","type":"tpm"}"#,
    ),
    (
        r#"{"type":"tpm","key":{"publicArea":{"type":8,"nameAlg":"sha256","objectAttributes":0,"scheme":"hmac","unique":""}},"policyRef":"0xFF","signature":[0,0,0,0,0,0,0,0,0,0,0,0,0,0,0,0,0,0,0,0,0,0,0,0,0,0,0,0,0,0,0,255]}"#,
        r#"{"keyPublic":{"authPolicy":"","nameAlg":"SHA256","objectAttributes":0,"scheme":"HMAC","type":"KEYEDHASH","unique":""},"policyRef":"ff","signature":"00000000000000000000000000000000000000000000000000000000000000ff","type":"tpm"}"#,
    ),
    (
        r#"{"type":"Nv","nvPath":"/nv/a"}"#,
        r#"{"nvPath":"/nv/a","type":"nv"}"#,
    ),
    (
        r#"{"type":"nv","nvPublic":{"nvPublic":{"nvIndex":"0x1000001","nameAlg":"SHA256","attributes":"0x20002","dataSize":"0x8"}}}"#,
        r#"{"nvPublic":{"attributes":131074,"authPolicy":"","dataSize":8,"nameAlg":"SHA256","nvIndex":16777217},"type":"nv"}"#,
    ),
];

// These texts, with commas between.
fn push_texts(text: &mut String, rows: &[(&str, &str)], canonical: bool) -> Result<(), AllocError> {
    let mut later = false;
    for (written, wanted) in rows {
        if later {
            text.push_str(",")?;
        }
        text.push_str(if canonical { wanted } else { written })?;
        later = true;
    }
    Ok(())
}

fn push_document(text: &mut String, canonical: bool) -> Result<(), AllocError> {
    text.push_str("{\"description\":\"all\",\"policy\":[")?;
    push_texts(text, &ELEMENTS, canonical)?;
    text.push_str("],\"policyAuthorizations\":[")?;
    push_texts(text, &APPROVALS, canonical)?;
    text.push_str(if canonical {
        "]}"
    } else {
        "],\"policyDigests\":7,\"x\":[]}"
    })
}

// The whole document as it is written, with its members in another order, or its canonical text.
fn document(alloc: Global, canonical: bool) -> Result<String, AllocError> {
    let mut text = String::new(alloc);
    push_document(&mut text, canonical)?;
    Ok(text)
}

// Whether the policy is written as the canonical text of the document.
fn is_canonical(alloc: Global, policy: &Policy, text: &str) -> bool {
    match write_policy(alloc, policy) {
        Ok(written) => written.as_slice() == text.as_bytes(),
        Err(_) => false,
    }
}

/// Whether a document is read, where it may have notes or without one, and its policy is written as this text.
pub fn is_written(alloc: Global, written: &str, text: &str, may_have_notes: bool) -> bool {
    match read_policy(alloc, written.as_bytes()) {
        Ok((policy, notes)) => {
            (may_have_notes || notes.is_empty()) && is_canonical(alloc, &policy, text)
        }
        Err(_) => false,
    }
}

fn is_written_canonically(alloc: Global, written: &str) -> bool {
    match document(alloc, true) {
        Ok(text) => is_written(alloc, written, text.as_str(), true),
        Err(_) => false,
    }
}

// Whether the document, as it is written or as canonical text is, has the canonical text.
fn is_kept(alloc: Global, canonical: bool) -> bool {
    match document(alloc, canonical) {
        Ok(text) => is_written_canonically(alloc, text.as_str()),
        Err(_) => false,
    }
}

#[test]
fn every_spelling_has_one_canonical_text(rt: HostRuntime) {
    assert!(rt; is_kept(rt.alloc(), false));
    assert!(rt; is_kept(rt.alloc(), true));
}
