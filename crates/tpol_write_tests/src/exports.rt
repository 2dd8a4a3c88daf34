//! Exports of the real FAPI, with their canonical texts by a writer of other hands.

use crate::canonical::is_written;
use serde_json::Value;
use std::alloc::Global;
use tpol_adopt::{dropped, normal};
use tpol_json::parse;

// What an export is to say.
#[derive(Clone, Copy)]
enum Wanted<'a> {
    // In the profile's spelling the policy with this canonical text, without a note.
    Policy(&'a str),
    // So many authorizations are left out.
    Dropped(usize),
}

fn is_policy(alloc: Global, value: &Value, text: &str) -> bool {
    match value.to_string(alloc) {
        Ok(written) => is_written(alloc, written.as_str(), text, false),
        Err(_) => false,
    }
}

fn is_adopted(alloc: Global, value: &Value, text: &str) -> bool {
    match normal(alloc, value) {
        Ok(adopted) => {
            let answer = is_policy(alloc, &adopted, text);
            drop(adopted);
            answer
        }
        Err(_) => false,
    }
}

fn has_dropped(alloc: Global, value: &Value, count: usize) -> bool {
    match dropped(alloc, value) {
        Ok(places) => places.len() == count,
        Err(_) => false,
    }
}

fn is_said(alloc: Global, value: &Value, wanted: Wanted) -> bool {
    match wanted {
        Wanted::Policy(text) => is_adopted(alloc, value, text),
        Wanted::Dropped(count) => has_dropped(alloc, value, count),
    }
}

fn says(alloc: Global, export: &str, wanted: Wanted) -> bool {
    match parse(alloc, export.as_bytes()) {
        Ok(value) => {
            let answer = is_said(alloc, &value, wanted);
            drop(value);
            answer
        }
        Err(_) => false,
    }
}

static EXPORTS: [(&str, &str); 4] = [
    (
        r#"{"description":"disk key","policyDigests":[{"hashAlg":"SHA256","digest":"d8f8812df589292079c86a3d7cef8765e22e5c9edd1f56f2a07661f60b3d9ce3"}],"policy":[{"type":"POLICYOR","policyDigests":[{"hashAlg":"SHA256","digest":"d8f8812df589292079c86a3d7cef8765e22e5c9edd1f56f2a07661f60b3d9ce3"}],"branches":[{"name":"boot","description":"branch boot","policy":[{"type":"POLICYPCR","policyDigests":[{"hashAlg":"SHA256","digest":"4f04c837291ac05d8c8fceb5d03ac530d3189c1dd24dc744f2145cf71eaa9cf6"}],"pcrs":[{"pcr":0,"hashAlg":"SHA256","digest":"0000000000000000000000000000000000000000000000000000000000000000"},{"pcr":2,"hashAlg":"SHA256","digest":"0000000000000000000000000000000000000000000000000000000000000000"},{"pcr":4,"hashAlg":"SHA256","digest":"0000000000000000000000000000000000000000000000000000000000000000"},{"pcr":7,"hashAlg":"SHA256","digest":"0000000000000000000000000000000000000000000000000000000000000000"}]},{"type":"POLICYAUTHVALUE","policyDigests":[{"hashAlg":"SHA256","digest":"90938e03c6356505a182cf9c166daa30c0a69c6f13f6bbca777df6a883ddf7b6"}]}],"policyDigests":[{"hashAlg":"SHA256","digest":"90938e03c6356505a182cf9c166daa30c0a69c6f13f6bbca777df6a883ddf7b6"}]},{"name":"owner","description":"branch owner","policy":[{"type":"POLICYSECRET","policyDigests":[{"hashAlg":"SHA256","digest":"0d84f55daf6e43ac97966e62c9bb989d3397777d25c5f749868055d65394f952"}],"nonceTPM":"","cpHashA":"","expiration":0,"objectName":"40000001"},{"type":"POLICYLOCALITY","policyDigests":[{"hashAlg":"SHA256","digest":"0647a0fdea2edd39adbe27c838b2cf9805ee871a373bc5a25ba008ded9926071"}],"locality":{"ZERO":1,"ONE":0,"TWO":0,"THREE":0,"FOUR":0,"Extended":0}},{"type":"POLICYCOMMANDCODE","policyDigests":[{"hashAlg":"SHA256","digest":"059b4cdb75a4468e543b2bab95e9520df15a3427baeea5391e3223fc74705d82"}],"code":"Unseal"}],"policyDigests":[{"hashAlg":"SHA256","digest":"059b4cdb75a4468e543b2bab95e9520df15a3427baeea5391e3223fc74705d82"}]}]}]}"#,
        r#"{"description":"disk key","policy":[{"branches":[{"description":"branch boot","name":"boot","policy":[{"pcrs":[{"digest":"0000000000000000000000000000000000000000000000000000000000000000","hashAlg":"SHA256","pcr":0},{"digest":"0000000000000000000000000000000000000000000000000000000000000000","hashAlg":"SHA256","pcr":2},{"digest":"0000000000000000000000000000000000000000000000000000000000000000","hashAlg":"SHA256","pcr":4},{"digest":"0000000000000000000000000000000000000000000000000000000000000000","hashAlg":"SHA256","pcr":7}],"type":"POLICYPCR"},{"type":"POLICYAUTHVALUE"}]},{"description":"branch owner","name":"owner","policy":[{"expiration":0,"objectName":"40000001","policyRef":"","type":"POLICYSECRET"},{"locality":1,"type":"POLICYLOCALITY"},{"code":"Unseal","type":"POLICYCOMMANDCODE"}]}],"type":"POLICYOR"}]}"#,
    ),
    (
        r#"{"description":"set","policyDigests":[{"hashAlg":"SHA256","digest":"6ebf9cb1972ce3f9e641f7f3fe6454cf1c467cff2eb154a06d61abf7dce7a29c"}],"policyAuthorizations":[{"type":"tpm","policyRef":"","key":{"type":"KEYEDHASH","nameAlg":"SHA256","objectAttributes":{"fixedTPM":0,"stClear":0,"fixedParent":0,"sensitiveDataOrigin":0,"userWithAuth":1,"adminWithPolicy":0,"noDA":0,"encryptedDuplication":0,"restricted":0,"decrypt":0,"sign":1},"authPolicy":"","parameters":{"scheme":{"scheme":"HMAC","details":{"hashAlg":"SHA256"}}},"unique":"1111111111111111111111111111111111111111111111111111111111111111"},"signature":{"sigAlg":"HMAC","signature":{"hashAlg":"SHA256","digest":"abababababababababababababababababababababababababababababababab"}}},{"type":"tpm","policyRef":"7265660a","key":{"type":"ECC","nameAlg":"SHA256","objectAttributes":{"fixedTPM":1,"stClear":0,"fixedParent":1,"sensitiveDataOrigin":1,"userWithAuth":1,"adminWithPolicy":0,"noDA":0,"encryptedDuplication":0,"restricted":0,"decrypt":0,"sign":1},"authPolicy":"","parameters":{"symmetric":{"algorithm":"NULL"},"scheme":{"scheme":"NULL"},"curveID":"NIST_P256","kdf":{"scheme":"NULL"}},"unique":{"x":"8e54597f9866da90fcf5a5a8a59594f10309a10f6a342286590cd743a9905296","y":"30f8f9d165e9bbc9b8078c971afb10a7d3657d285b1d394fffd56e7b7301d2cb"}},"signature":{"sigAlg":"ECDSA","signature":{"hash":"SHA256","signatureR":"1a3891fc73367116d503bc030aa2a898ca2c961762a3400a82a6e7f3599d74a1","signatureS":"61d820f41d26ae407b7c844d94f00499a80512d95007732cb2e844fc8316e044"}}},{"type":"tpm","policyRef":"01","key":{"type":"KEYEDHASH","nameAlg":"SHA256","objectAttributes":{"fixedTPM":0,"stClear":0,"fixedParent":0,"sensitiveDataOrigin":0,"userWithAuth":1,"adminWithPolicy":0,"noDA":0,"encryptedDuplication":0,"restricted":0,"decrypt":0,"sign":1},"authPolicy":"","parameters":{"scheme":{"scheme":"HMAC","details":{"hashAlg":"SHA256"}}},"unique":"abababababababababababababababababababababababababababababababab"},"signature":{"sigAlg":"HMAC","signature":{"hashAlg":"SHA256","digest":"1111111111111111111111111111111111111111111111111111111111111111"}}}],"policy":[{"type":"POLICYCOMMANDCODE","policyDigests":[{"hashAlg":"SHA256","digest":"e613137076524bde487533865884e9732ebee3aacb095d94a6de492ec06c46fa"}],"code":"Unseal"},{"type":"POLICYAUTHVALUE","policyDigests":[{"hashAlg":"SHA256","digest":"6ebf9cb1972ce3f9e641f7f3fe6454cf1c467cff2eb154a06d61abf7dce7a29c"}]}]}"#,
        r#"{"description":"set","policy":[{"code":"Unseal","type":"POLICYCOMMANDCODE"},{"type":"POLICYAUTHVALUE"}],"policyAuthorizations":[{"keyPublic":{"authPolicy":"","nameAlg":"SHA256","objectAttributes":262208,"scheme":"HMAC","type":"KEYEDHASH","unique":"1111111111111111111111111111111111111111111111111111111111111111"},"policyRef":"","signature":"abababababababababababababababababababababababababababababababab","type":"tpm"},{"keyPublic":{"authPolicy":"","nameAlg":"SHA256","objectAttributes":262208,"scheme":"HMAC","type":"KEYEDHASH","unique":"abababababababababababababababababababababababababababababababab"},"policyRef":"01","signature":"1111111111111111111111111111111111111111111111111111111111111111","type":"tpm"}]}"#,
    ),
    (
        r#"{"description":"set","policyDigests":[{"hashAlg":"SHA256","digest":"fe2edf06486541869476b4b9ae02ffba19f3cd38a5aa150d2c854ba9295bb724"}],"policy":[{"type":"POLICYDUPLICATIONSELECT","policyDigests":[{"hashAlg":"SHA256","digest":"fe2edf06486541869476b4b9ae02ffba19f3cd38a5aa150d2c854ba9295bb724"}],"objectName":"","newParentName":"000b612c78ca18ec0bf7d1845bb335783ce9bb9b3081924eeac6fccceeb48dbf520b","includeObject":"NO","newParentPublic":{"size":0,"publicArea":{"type":"ECC","nameAlg":"SHA256","objectAttributes":{"fixedTPM":1,"stClear":0,"fixedParent":1,"sensitiveDataOrigin":1,"userWithAuth":1,"adminWithPolicy":0,"noDA":0,"encryptedDuplication":0,"restricted":1,"decrypt":1,"sign":0},"authPolicy":"","parameters":{"symmetric":{"algorithm":"AES","keyBits":128,"mode":"CFB"},"scheme":{"scheme":"NULL"},"curveID":"NIST_P256","kdf":{"scheme":"NULL"}},"unique":{"x":"848cba921e8741315564a3ef726ff09579f53c4a3383d8e4715d946c7a9fdb7a","y":"432d3b5565c9534987b4efd4405a85952b36359c5168f45f70e516b006965686"}}}}]}"#,
        r#"{"description":"set","policy":[{"includeObject":false,"newParentName":"000b612c78ca18ec0bf7d1845bb335783ce9bb9b3081924eeac6fccceeb48dbf520b","objectName":"","type":"POLICYDUPLICATIONSELECT"}]}"#,
    ),
    (
        r#"{"description":"set","policyDigests":[{"hashAlg":"SHA256","digest":"9cd82801f46c523814b9662e1b4a3ea6a1b63fd47fc7f150f39019fcafabd930"}],"policy":[{"type":"POLICYAUTHORIZENV","policyDigests":[{"hashAlg":"SHA256","digest":"9cd82801f46c523814b9662e1b4a3ea6a1b63fd47fc7f150f39019fcafabd930"}],"nvPublic":{"size":0,"nvPublic":{"nvIndex":25165824,"nameAlg":"SHA256","attributes":{"PPWRITE":0,"OWNERWRITE":0,"AUTHWRITE":1,"POLICYWRITE":0,"POLICY_DELETE":0,"WRITELOCKED":0,"WRITEALL":0,"WRITEDEFINE":0,"WRITE_STCLEAR":1,"GLOBALLOCK":0,"PPREAD":0,"OWNERREAD":0,"AUTHREAD":1,"POLICYREAD":0,"NO_DA":1,"ORDERLY":0,"CLEAR_STCLEAR":0,"READLOCKED":0,"WRITTEN":1,"PLATFORMCREATE":0,"READ_STCLEAR":1,"TPM2_NT":"ORDINARY"},"authPolicy":"","dataSize":34}}}]}"#,
        r#"{"description":"set","policy":[{"nvPublic":{"attributes":2718187524,"authPolicy":"","dataSize":34,"nameAlg":"SHA256","nvIndex":25165824},"type":"POLICYAUTHORIZENV"}]}"#,
    ),
];

#[test]
fn exports(rt: HostRuntime) {
    for (export, text) in &EXPORTS {
        assert!(rt; says(rt.alloc(), export, Wanted::Policy(text)));
    }
}

// One of three is by an ECC key.
#[test]
fn authorizations(rt: HostRuntime) {
    assert!(rt; says(rt.alloc(), EXPORTS[1].0, Wanted::Dropped(1)));
}
