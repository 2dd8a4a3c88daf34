//! Documents in other spellings, each with the canonical text that is written out by hand.

use crate::canonical::is_written;
use std::alloc::{AllocError, Global};

// The members of an element in another spelling, and as canonical text has them.
static ELEMENTS: [(&str, &str); 21] = [
    ("\"type\":\"authvalue\"", "\"type\":\"POLICYAUTHVALUE\""),
    (
        "\"type\":\"CommandCode\",\"code\":\"tpm2_cc_UNSEAL\"",
        "\"code\":\"Unseal\",\"type\":\"POLICYCOMMANDCODE\"",
    ),
    (
        "\"type\":\"CommandCode\",\"code\":398",
        "\"code\":\"0x0000018e\",\"type\":\"POLICYCOMMANDCODE\"",
    ),
    (
        "\"type\":\"PCR\",\"currentPCRs\":[31,8,0]",
        "\"currentPCRs\":[0,8,31],\"type\":\"POLICYPCR\"",
    ),
    (
        "\"type\":\"PCR\",\"pcrs\":[{\"pcr\":7,\"hashAlg\":11,\"digest\":\"1111111111111111111111111111111111111111111111111111111111111111\"}]",
        "\"pcrs\":[{\"digest\":\"1111111111111111111111111111111111111111111111111111111111111111\",\"hashAlg\":\"SHA256\",\"pcr\":7}],\"type\":\"POLICYPCR\"",
    ),
    (
        "\"type\":\"NV\",\"nvPath\":\"/nv/a\",\"operandB\":[171,1],\"offset\":3,\"operation\":7",
        "\"nvPath\":\"/nv/a\",\"offset\":3,\"operandB\":\"ab01\",\"operation\":\"UNSIGNED_GE\",\"type\":\"POLICYNV\"",
    ),
    (
        "\"type\":\"SECRET\",\"objectName\":\"0x4000000B\",\"policyRef\":\"FF\",\"expiration\":-1",
        "\"expiration\":-1,\"objectName\":\"4000000b\",\"policyRef\":\"ff\",\"type\":\"POLICYSECRET\"",
    ),
    (
        "\"type\":\"SIGNED\",\"publicKey\":{\"publicArea\":{\"type\":8,\"nameAlg\":\"sha256\",\"objectAttributes\":262208,\"scheme\":\"tpm2_alg_hmac\",\"unique\":\"1111111111111111111111111111111111111111111111111111111111111111\"}},\"cpHashA\":\"1111111111111111111111111111111111111111111111111111111111111111\"",
        "\"cpHashA\":\"1111111111111111111111111111111111111111111111111111111111111111\",\"expiration\":0,\"keyPublic\":{\"authPolicy\":\"\",\"nameAlg\":\"SHA256\",\"objectAttributes\":262208,\"scheme\":\"HMAC\",\"type\":\"KEYEDHASH\",\"unique\":\"1111111111111111111111111111111111111111111111111111111111111111\"},\"policyRef\":\"\",\"type\":\"POLICYSIGNED\"",
    ),
    (
        "\"type\":\"AUTHORIZE\",\"keyPath\":\"a\\\"b\"",
        "\"keyPath\":\"a\\\"b\",\"policyRef\":\"\",\"type\":\"POLICYAUTHORIZE\"",
    ),
    (
        "\"type\":\"AUTHORIZENV\",\"nvPublic\":{\"nvIndex\":\"0x1000001\",\"nameAlg\":11,\"attributes\":6,\"dataSize\":34}",
        "\"nvPublic\":{\"attributes\":6,\"authPolicy\":\"\",\"dataSize\":34,\"nameAlg\":\"SHA256\",\"nvIndex\":16777217},\"type\":\"POLICYAUTHORIZENV\"",
    ),
    (
        "\"type\":\"LOCALITY\",\"locality\":[\"four\",\"THREE\",\"TPM2_LOC_TWO\",\"ONE\",\"ZERO\"]",
        "\"locality\":31,\"type\":\"POLICYLOCALITY\"",
    ),
    (
        "\"type\":\"CPHASH\",\"cpHash\":\"1111111111111111111111111111111111111111111111111111111111111111\"",
        "\"cpHash\":\"1111111111111111111111111111111111111111111111111111111111111111\",\"type\":\"POLICYCPHASH\"",
    ),
    (
        "\"type\":\"NAMEHASH\",\"nameHash\":\"1111111111111111111111111111111111111111111111111111111111111111\"",
        "\"nameHash\":\"1111111111111111111111111111111111111111111111111111111111111111\",\"type\":\"POLICYNAMEHASH\"",
    ),
    (
        "\"type\":\"NAMEHASH\",\"objectNames\":[\"40000001\",\"\"]",
        "\"objectNames\":[\"40000001\",\"\"],\"type\":\"POLICYNAMEHASH\"",
    ),
    (
        "\"type\":\"NAMEHASH\",\"namePaths\":[\"HS/key\"]",
        "\"namePaths\":[\"HS/key\"],\"type\":\"POLICYNAMEHASH\"",
    ),
    (
        "\"type\":\"COUNTERTIMER\",\"operandB\":\"\"",
        "\"offset\":0,\"operandB\":\"\",\"operation\":\"EQ\",\"type\":\"POLICYCOUNTERTIMER\"",
    ),
    (
        "\"type\":\"DUPLICATIONSELECT\",\"newParentName\":\"000b1111111111111111111111111111111111111111111111111111111111111111\"",
        "\"includeObject\":false,\"newParentName\":\"000b1111111111111111111111111111111111111111111111111111111111111111\",\"objectName\":\"\",\"type\":\"POLICYDUPLICATIONSELECT\"",
    ),
    (
        "\"type\":\"NVWRITTEN\"",
        "\"type\":\"POLICYNVWRITTEN\",\"writtenSet\":true",
    ),
    ("\"type\":\"PASSWORD\"", "\"type\":\"POLICYPASSWORD\""),
    (
        "\"type\":\"PHYSICALPRESENCE\"",
        "\"type\":\"POLICYPHYSICALPRESENCE\"",
    ),
    (
        "\"type\":\"OR\",\"branches\":[{\"name\":\"a\",\"policy\":[{\"type\":\"AUTHVALUE\"}]},{\"policy\":[{\"type\":\"PASSWORD\"}]}]",
        "\"branches\":[{\"description\":\"\",\"name\":\"a\",\"policy\":[{\"type\":\"POLICYAUTHVALUE\"}]},{\"description\":\"\",\"name\":\"\",\"policy\":[{\"type\":\"POLICYPASSWORD\"}]}],\"type\":\"POLICYOR\"",
    ),
];

fn push_element(text: &mut String, before: &str, members: &str) -> Result<(), AllocError> {
    text.push_str(before)?;
    text.push_str(members)?;
    text.push_str("}]}")
}

// The document with this before the one element's members.
fn document(alloc: Global, before: &str, members: &str) -> Result<String, AllocError> {
    let mut text = String::new(alloc);
    push_element(&mut text, before, members)?;
    Ok(text)
}

fn is_written_with(alloc: Global, written: &str, wanted: &str) -> bool {
    match document(alloc, "{\"description\":\"\",\"policy\":[{", wanted) {
        Ok(text) => is_written(alloc, written, text.as_str(), true),
        Err(_) => false,
    }
}

// Whether the document of one element with these members is written with those that are wanted.
fn is_element_written(alloc: Global, members: &str, wanted: &str) -> bool {
    match document(alloc, "{\"policy\":[{", members) {
        Ok(text) => is_written_with(alloc, text.as_str(), wanted),
        Err(_) => false,
    }
}

#[test]
fn each_type_of_element(rt: HostRuntime) {
    for (members, wanted) in &ELEMENTS {
        assert!(rt;
            is_element_written(rt.alloc(), members, wanted),
            "{members}"
        );
    }
}

// Authorizations in another spelling, and as canonical text has them.
static AUTHORIZED: (&str, &str) = (
    "{\"policyAuthorizations\":[{\"type\":\"TPM\",\"keyPath\":\"k\",\"signature\":\"1111111111111111111111111111111111111111111111111111111111111111\"},{\"type\":\"nv\",\"nvPath\":\"n\"}],\"policy\":[{\"type\":\"AUTHVALUE\"}],\"description\":\"d\"}",
    "{\"description\":\"d\",\"policy\":[{\"type\":\"POLICYAUTHVALUE\"}],\"policyAuthorizations\":[{\"keyPath\":\"k\",\"policyRef\":\"\",\"signature\":\"1111111111111111111111111111111111111111111111111111111111111111\",\"type\":\"tpm\"},{\"nvPath\":\"n\",\"type\":\"nv\"}]}",
);

#[test]
fn authorizations(rt: HostRuntime) {
    let (written, wanted) = AUTHORIZED;
    assert!(rt; is_written(rt.alloc(), written, wanted, true));
}
