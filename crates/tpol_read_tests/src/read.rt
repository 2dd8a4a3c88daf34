//! Policy documents and what reading them answers: notes, or the kind and place of the first fault, by hand after
//! docs/policy-documents.md. The numbers of the kinds are this project's own.

use std::alloc::Global;
use std::process::Abort;
use tpol_base::{NoMemory, Text};
use tpol_json::{Place, place_text};
use tpol_read::{Notes, PolicyFault, PolicyKind, read_policy};

// What reading a document answers: its notes, or the fault with its place.
fn answer(alloc: Global, document: &str) -> Result<Text, NoMemory> {
    match read_policy(alloc, document.as_bytes()) {
        Ok((_policy, notes)) => text_of_notes(alloc, &notes),
        Err(fault) => text_of_fault(alloc, &fault),
    }
}

fn text_of_notes(alloc: Global, notes: &Notes) -> Result<Text, NoMemory> {
    let mut text = Text::from_str(alloc, "ok")?;
    push_notes(alloc, &mut text, notes)?;
    Ok(text)
}

fn push_notes(alloc: Global, text: &mut Text, notes: &Notes) -> Result<(), NoMemory> {
    for note in notes.as_slice() {
        push_note(alloc, text, note)?;
    }
    Ok(())
}

fn push_note(alloc: Global, text: &mut Text, note: &Place) -> Result<(), NoMemory> {
    text.push_str(" ")?;
    let place = place_text(alloc, note)?;
    text.push_str(place.as_str())
}

fn text_of_fault(alloc: Global, fault: &PolicyFault) -> Result<Text, NoMemory> {
    match fault {
        PolicyFault::NotJson => Text::from_str(alloc, "NotJson"),
        PolicyFault::NoMemory => Err(NoMemory),
        PolicyFault::Bad { kind, place } => text_of_bad(alloc, *kind, place),
    }
}

fn text_of_bad(alloc: Global, kind: PolicyKind, place: &Place) -> Result<Text, NoMemory> {
    let place = place_text(alloc, place)?;
    let text = format!(in alloc; "{kind:?} at {}", place.as_str())?;
    Ok(Text::from_string(text))
}

fn is_answer(alloc: Global, document: &str, expected: &str) -> bool {
    match answer(alloc, document) {
        Ok(found) => found.as_str() == expected,
        Err(_) => false,
    }
}

// The same of a document that was made, if it was.
fn answers_made(alloc: Global, document: Result<String, NoMemory>, expected: &str) -> bool {
    match document {
        Ok(document) => is_answer(alloc, document.as_str(), expected),
        Err(_) => false,
    }
}

// Reading the document answers so.
fn answers(rt: &impl Abort, alloc: Global, document: &str, expected: &str) {
    assert!(rt; is_answer(alloc, document, expected), "{document}");
}

// Each type of elements in two spellings, and other members of such an element. One that has no others has its
// `type` twice: of a repeated member the last counts.
static TYPES: [(&str, &str, &str); 17] = [
    (
        "OR",
        "POLICYor",
        "\"branches\":[{\"policy\":[{\"type\":\"AUTHVALUE\"}]},{\"name\":\"b\",\"description\":\"\",\"policy\":[{\"type\":\"password\"}]}]",
    ),
    ("PCR", "PolicyPCR", "\"currentPCRs\":[0,2,\"0x1f\",2]"),
    (
        "NV",
        "PolicyNV",
        "\"nvPath\":\"/nv/a\",\"operandB\":\"00ff\",\"operation\":\"TPM2_EO_unsigned_le\"",
    ),
    (
        "SECRET",
        "PolicySecret",
        "\"objectName\":\"4000000b\",\"policyRef\":[1,2,255],\"expiration\":-2147483648",
    ),
    (
        "SIGNED",
        "PolicySigned",
        "\"keyPath\":\"/HS/SRK/k\",\"expiration\":-1",
    ),
    (
        "AUTHORIZE",
        "PolicyAuthorize",
        "\"keyPath\":\"k\",\"approvedPolicy\":null",
    ),
    (
        "AUTHORIZENV",
        "PolicyAuthorizeNV",
        "\"nvPublic\":{\"nvPublic\":{\"nvIndex\":\"0x01c07f01\",\"nameAlg\":\"SHA256\",\"attributes\":\"0x220f1008\",\"dataSize\":34}}",
    ),
    (
        "LOCALITY",
        "PolicyLocality",
        "\"locality\":[\"ZERO\",\"TPM2_LOC_three\"]",
    ),
    (
        "COMMANDCODE",
        "PolicyCommandCode",
        "\"code\":\"tpm2_cc_nv_write\"",
    ),
    (
        "CPHASH",
        "PolicyCpHash",
        "\"cpHash\":\"0xABABABABABABABABABABABABABABABABABABABABABABABABABABABABABABABAB\"",
    ),
    (
        "NAMEHASH",
        "PolicyNameHash",
        "\"namePaths\":[\"a\",\"b\",\"c\"]",
    ),
    (
        "COUNTERTIMER",
        "PolicyCounterTimer",
        "\"operandB\":\"\",\"offset\":65535,\"operation\":11",
    ),
    (
        "DUPLICATIONSELECT",
        "PolicyDuplicationSelect",
        "\"newParentName\":\"\",\"includeObject\":\"no\"",
    ),
    ("NVWRITTEN", "PolicyNvWritten", "\"writtenSet\":\"YES\""),
    ("AUTHVALUE", "PolicyAuthValue", "\"type\":\"AUTHVALUE\""),
    ("PASSWORD", "policypassword", "\"type\":\"PASSWORD\""),
    (
        "PHYSICALPRESENCE",
        "PolicyPhysicalPresence",
        "\"type\":\"PHYSICALPRESENCE\"",
    ),
];

// A document of one element of this type is read.
fn reads_type(rt: &impl Abort, alloc: Global, name: &str, members: &str) -> Result<(), NoMemory> {
    let document = format!(in alloc; "{{\"policy\":[{{{members},\"type\":\"{name}\"}}]}}")?;
    answers(rt, alloc, document.as_str(), "ok");
    Ok(())
}

#[test]
fn each_type_in_two_spellings(rt: HostRuntime) -> Result<(), NoMemory> {
    for (short, long, members) in &TYPES {
        reads_type(&rt, rt.alloc(), short, members)?;
        reads_type(&rt, rt.alloc(), long, members)?;
    }
    Ok(())
}

// The kinds of faults, each with its number.
static KINDS: [(PolicyKind, u8); 14] = [
    (PolicyKind::NotJson, 1),
    (PolicyKind::Missing, 2),
    (PolicyKind::WrongKind, 3),
    (PolicyKind::BadHex, 4),
    (PolicyKind::BadNumber, 5),
    (PolicyKind::UnknownType, 6),
    (PolicyKind::Unsupported, 7),
    (PolicyKind::AsymmetricKey, 8),
    (PolicyKind::OtherHash, 9),
    (PolicyKind::BranchCount, 10),
    (PolicyKind::EmptyPolicy, 11),
    (PolicyKind::TooDeep, 12),
    (PolicyKind::TooMany, 13),
    (PolicyKind::Twice, 14),
];

#[test]
fn kinds_are_numbered_from_one(rt: HostRuntime) {
    for (kind, number) in &KINDS {
        assert_eq!(rt; *kind as u8, *number, "{kind:?}");
    }
}

// Three PCRs that do not rise, a key's public area, a digest of Names, two Names, and an authorization.
const WHOLE: &str =
    "{\"description\":\"d\",\"policy\":[{\"type\":\"PCR\",\"pcrs\":[{\"pcr\":7,\"hashAlg\":\"SHA256\",\"digest\":\"1111111111111111111111111111111111111111111111111111111111111111\"},{\"pcr\":0,\"hashAlg\":11,\"digest\":\"2222222222222222222222222222222222222222222222222222222222222222\"},{\"pcr\":3,\"hashAlg\":\"0xb\",\"digest\":\"3333333333333333333333333333333333333333333333333333333333333333\"}]},{\"type\":\"AUTHORIZE\",\"keyPublic\":{\"type\":\"KEYEDHASH\",\"nameAlg\":\"SHA256\",\"objectAttributes\":262208,\"scheme\":\"HMAC\",\"unique\":\"4444444444444444444444444444444444444444444444444444444444444444\"},\"policyRef\":\"0102\"},{\"type\":\"NAMEHASH\",\"nameHash\":\"5555555555555555555555555555555555555555555555555555555555555555\"},{\"type\":\"NAMEHASH\",\"objectNames\":[\"40000001\",\"\"]}],\"policyAuthorizations\":[{\"type\":\"tpm\",\"keyPath\":\"k\",\"policyRef\":[3],\"signature\":\"6666666666666666666666666666666666666666666666666666666666666666\"}]}";

#[test]
fn a_whole_policy(rt: HostRuntime) {
    answers(&rt, rt.alloc(), WHOLE, "ok");
}

// Documents, each with its first fault.
static FAULTS: [(&str, &str); 21] = [
    (
        "{\"policy\":[{\"type\":\"OR\",\"branches\":[{\"policy\":[{\"type\":\"NV\",\"nvPath\":\"a\"}]},{}]}]}",
        "Missing at policy[0].branches[0].policy[0].operandB",
    ),
    (
        "{\"policy\":[{\"type\":\"OR\",\"branches\":[{\"policy\":[7]},{}]}]}",
        "WrongKind at policy[0].branches[0].policy[0]",
    ),
    (
        "{\"policy\":[{\"type\":\"SECRET\",\"objectName\":\"\"}]}",
        "BadHex at policy[0].objectName",
    ),
    (
        "{\"policy\":[{\"type\":\"CPHASH\",\"cpHash\":[0,256]}]}",
        "BadNumber at policy[0].cpHash[1]",
    ),
    (
        "{\"policy\":[{\"type\":\"PCR\",\"pcrs\":[{\"pcr\":32}]}]}",
        "BadNumber at policy[0].pcrs[0].pcr",
    ),
    (
        "{\"policy\":[{\"type\":\"AUTHVALUE\"},{\"type\":\"XOR\"}]}",
        "UnknownType at policy[1].type",
    ),
    (
        "{\"policy\":[{\"type\":\"POLICYTEMPLATE\"}]}",
        "Unsupported at policy[0].type",
    ),
    (
        "{\"policy\":[{\"type\":\"SIGNED\",\"keyPath\":1,\"keyPEM\":\"x\"}]}",
        "AsymmetricKey at policy[0].keyPEM",
    ),
    (
        "{\"policy\":[{\"type\":\"SIGNED\",\"keyPublic\":{\"publicArea\":{\"type\":\"tpm2_alg_rsa\"}}}]}",
        "AsymmetricKey at policy[0].keyPublic.publicArea.type",
    ),
    (
        "{\"policy\":[{\"type\":\"AUTHVALUE\"}],\"policyAuthorizations\":[{\"type\":\"pem\"}]}",
        "AsymmetricKey at policyAuthorizations[0].type",
    ),
    (
        "{\"policy\":[{\"type\":\"PCR\",\"currentPCRandBanks\":[{\"hash\":\"SHA1\"}]}]}",
        "OtherHash at policy[0].currentPCRandBanks[0].hash",
    ),
    (
        "{\"policy\":[{\"type\":\"OR\",\"branches\":[{}]}]}",
        "BranchCount at policy[0].branches",
    ),
    (
        "{\"policy\":[{\"type\":\"OR\",\"branches\":[{\"policy\":[]},{}]}]}",
        "EmptyPolicy at policy[0].branches[0].policy",
    ),
    (
        "{\"description\":\"\",\"policy\":[]}",
        "EmptyPolicy at policy",
    ),
    (
        "{\"policy\":[{\"type\":\"OR\"}]}",
        "Missing at policy[0].branches",
    ),
    (
        "{\"policy\":[{\"type\":\"NV\",\"nvPath\":\"a\",\"nvPublic\":1}]}",
        "Twice at policy[0].nvPublic",
    ),
    (
        "{\"policy\":[{\"type\":\"PCR\",\"pcrs\":[{\"pcr\":3,\"hashAlg\":11,\"digest\":\"0000000000000000000000000000000000000000000000000000000000000000\"},{\"pcr\":3}]}]}",
        "Twice at policy[0].pcrs[1].pcr",
    ),
    (
        "{\"policy\":[{\"type\":\"DUPLICATIONSELECT\",\"newParentPath\":\"p\",\"includeObject\":true}]}",
        "Missing at policy[0].objectName",
    ),
    (
        "{\"policy\":[{\"type\":\"SECRET\",\"objectPath\":\"/HS\",\"expiration\":2147483648}]}",
        "BadNumber at policy[0].expiration",
    ),
    ("[]", "WrongKind at $"),
    ("{", "NotJson"),
];

#[test]
fn each_kind_at_a_nested_place(rt: HostRuntime) {
    for (document, expected) in &FAULTS {
        answers(&rt, rt.alloc(), document, expected);
    }
}

// Documents, each with the places of its unknown members.
static NOTES: [(&str, &str); 4] = [
    (
        "{\"policy\":[{\"type\":\"authvalue\",\"x\":1}]}",
        "ok policy[0].x",
    ),
    (
        "{\"policy\":[{\"type\":\"CommandCode\",\"code\":\"unseal\"}],\"z\":0,\"a\":0}",
        "ok a z",
    ),
    (
        "{\"policy\":[{\"type\":\"AUTHVALUE\",\"keyPEM\":1,\"a b\":2,\"policyDigests\":3}],\"policyDigests\":[]}",
        "ok policy[0].\"a b\" policy[0].keyPEM policy[0].policyDigests",
    ),
    (
        "{\"policy\":[{\"type\":\"NV\",\"nvIndex\":1,\"operandB\":\"80\",\"nvPublic\":{\"size\":0,\"nvPublic\":{\"nvIndex\":29392641,\"nameAlg\":\"SHA256\",\"attributes\":571412488,\"authPolicy\":\"\",\"dataSize\":34}}}]}",
        "ok policy[0].nvPublic.size policy[0].nvIndex",
    ),
];

#[test]
fn unknown_members_are_noted_in_order(rt: HostRuntime) {
    for (document, expected) in &NOTES {
        answers(&rt, rt.alloc(), document, expected);
    }
}

fn push_times(text: &mut String, more: &str, times: u32) -> Result<(), NoMemory> {
    for _ in 0..times {
        text.push_str(more)?;
    }
    Ok(())
}

// ORs inside one another, each with two branches, of which the second holds no OR.
fn nested(alloc: Global, levels: u32) -> Result<String, NoMemory> {
    let mut text = String::from_str(alloc, "{\"policy\":[")?;
    push_times(
        &mut text,
        "{\"type\":\"OR\",\"branches\":[{\"policy\":[",
        levels,
    )?;
    text.push_str("{\"type\":\"AUTHVALUE\"}")?;
    push_times(
        &mut text,
        "]},{\"policy\":[{\"type\":\"AUTHVALUE\"}]}]}",
        levels,
    )?;
    text.push_str("]}")?;
    Ok(text)
}

#[test]
fn sixteen_ors_inside_one_another(rt: HostRuntime) {
    assert!(rt; answers_made(rt.alloc(), nested(rt.alloc(), 16), "ok"));
}

// The answer where the first element inside sixteen ORs is too deep.
fn too_deep(alloc: Global) -> Result<String, NoMemory> {
    let mut answer = String::from_str(alloc, "TooDeep at policy[0]")?;
    push_times(&mut answer, ".branches[0].policy[0]", 16)?;
    Ok(answer)
}

#[test]
fn seventeen_ors_inside_one_another(rt: HostRuntime) -> Result<(), NoMemory> {
    let expected = too_deep(rt.alloc())?;
    let answer = answers_made(rt.alloc(), nested(rt.alloc(), 17), expected.as_str());
    drop(expected);
    assert!(rt; answer);
    Ok(())
}

// An OR of so many branches.
fn with_branches(alloc: Global, branches: u32) -> Result<String, NoMemory> {
    let mut text = String::from_str(alloc, "{\"policy\":[{\"type\":\"OR\",\"branches\":[")?;
    for _ in 1..branches {
        text.push_str("{\"policy\":[{\"type\":\"PASSWORD\"}]},")?;
    }
    text.push_str("{\"policy\":[{\"type\":\"AUTHVALUE\"}]}]}]}")?;
    Ok(text)
}

#[test]
fn two_to_sixty_four_branches(rt: HostRuntime) {
    let cases = [
        (1, "BranchCount at policy[0].branches"),
        (2, "ok"),
        (9, "ok"),
        (64, "ok"),
        (65, "BranchCount at policy[0].branches"),
    ];
    for (branches, expected) in &cases {
        let document = with_branches(rt.alloc(), *branches);
        assert!(rt; answers_made(rt.alloc(), document, expected));
    }
}

// A document with so many elements, the last of them in a branch.
fn many(alloc: Global, elements: u32) -> Result<String, NoMemory> {
    let mut text = String::from_str(alloc, "{\"policy\":[")?;
    for _ in 3..elements {
        text.push_str("{\"type\":\"AUTHVALUE\"},")?;
    }
    text.push_str("{\"type\":\"OR\",\"branches\":[{\"policy\":[{\"type\":\"AUTHVALUE\"}]},")?;
    text.push_str("{\"policy\":[{\"type\":\"PASSWORD\"}]}]}]}")?;
    Ok(text)
}

#[test]
fn as_many_elements_as_may_be(rt: HostRuntime) {
    assert!(rt; answers_made(rt.alloc(), many(rt.alloc(), 1024), "ok"));
}

#[test]
fn one_element_too_many(rt: HostRuntime) {
    let expected = "TooMany at policy[1022].branches[1].policy[0]";
    assert!(rt; answers_made(rt.alloc(), many(rt.alloc(), 1025), expected));
}

// A policy with eight authorizations and a ninth.
fn nine_authorizations(alloc: Global) -> Result<String, NoMemory> {
    let mut text = String::from_str(
        alloc,
        "{\"policy\":[{\"type\":\"AUTHVALUE\"}],\"policyAuthorizations\":[",
    )?;
    push_times(&mut text, "{\"type\":\"nv\",\"nvPath\":\"a\"},", 8)?;
    text.push_str("0]}")?;
    Ok(text)
}

#[test]
fn one_authorization_too_many(rt: HostRuntime) {
    let expected = "TooMany at policyAuthorizations[8]";
    assert!(rt; answers_made(rt.alloc(), nine_authorizations(rt.alloc()), expected));
}
