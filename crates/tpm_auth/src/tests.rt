//! Outside values: HMACs and hashes by another program (Python's `hmac` and `hashlib`). The keys of the
//! signatures are those of RFC 4231 and lengths around the block. The session is that of a run that unseals
//! at its fifth event, on a machine whose seed is 32 zero bytes.

use crate::{
    auth_ticket, check_hmac, check_password, check_ticket, command_mac, reply_mac, sign,
    signed_hash, verified_ticket,
};
use tpol_base::{Digest32, Name};
use tpol_hash::hash;

/// The machine's proof.
const PROOF: Digest32 = Digest32 {
    bytes: *b"\x16\xc5\x66\x01\x11\xc5\x14\x55\xc6\x4e\x18\x06\xa8\x9f\xcb\x9e\
              \xa4\x30\x4b\x7f\x5a\xfb\xd3\xf3\xd0\xb2\xbd\x9a\x56\xec\x83\x23",
};

/// The session's nonceTPM from its start.
const FIRST_NONCE: Digest32 = Digest32 {
    bytes: *b"\x6c\x61\x82\x7e\x1e\x31\xe4\x67\xf7\xf1\xb9\xa2\xac\x88\x71\x17\
              \x89\x03\xd6\xd7\xc8\x07\x6f\x46\x39\x6f\x8f\xb7\x0a\x05\x3c\x9f",
};

/// The session's nonceTPM from its use.
const NEXT_NONCE: Digest32 = Digest32 {
    bytes: *b"\x65\x1d\x25\x73\x7d\x57\xd8\xb1\xa2\xd1\x03\xaf\x4a\xae\xe5\x99\
              \x18\x0f\x87\x44\x4b\x4f\x20\xb6\x9d\x2c\xa1\xec\x95\xed\xf6\x3c",
};

/// The caller's nonce at the use.
const CALLER_NONCE: &[u8; 32] = b"\xc7\x9a\x23\xad\xd6\xda\xf2\x8e\x8a\x8e\xbc\xa5\xb8\xc6\x95\x1d\
      \x0b\x92\x78\xa8\x6f\x24\xd4\x60\x7a\xa7\xe9\x65\x36\x13\x5e\x86";

/// The cpHash of an Unseal.
const CP_HASH: Digest32 = Digest32 {
    bytes: *b"\x64\xa8\x0f\xda\xbb\x95\xf9\xe3\x7c\x55\x41\x00\xbd\xfe\x79\x94\
              \xe2\x80\xac\x5b\x80\xdf\xfb\x73\x3b\xa9\xc7\x00\x71\x4c\x42\x02",
};

/// The rpHash of its reply.
const RP_HASH: Digest32 = Digest32 {
    bytes: *b"\x39\x29\x8b\xc2\x96\x9f\x9b\x4d\x22\x26\x50\x1d\xa8\x23\xfe\x37\
              \xad\xb9\xbd\x7c\x99\xf6\xfc\x72\x33\x70\x5f\x8e\x66\x09\x86\x85",
};

/// The HMAC of the command under the value `pin`.
const COMMAND_MAC: &[u8; 32] = b"\x27\xd2\x94\x3f\x27\x08\x27\x13\xc8\xde\x40\x2f\x49\xad\xc6\x66\
      \xfb\x3f\xed\xb5\xa5\xb5\xda\x13\x23\x22\x4b\x68\x37\x5c\x75\x72";

/// The HMAC of such a command under the empty value, with an empty nonce of the caller and attributes 1.
const KEYLESS_MAC: &[u8; 32] = b"\xea\x0f\xb4\xd2\xce\x82\x0d\x09\x6e\x54\x60\xd8\xe3\x05\x32\x3b\
      \xdd\xbe\x9a\x92\x5b\x36\x6a\xec\x5d\x4b\xe5\x82\x27\xd0\xe8\x54";

#[test]
fn passwords(rt: HostRuntime) {
    let cases: [(&[u8], &[u8], bool); 9] = [
        (b"", b"", true),
        (b"", b"\x00\x00", true),
        (b"\x00", b"", true),
        (b"pin", b"pin\x00\x00\x00", true),
        (b"pin\x00", b"pin", true),
        (b"pin", b"pin", true),
        (b"pin", b"pi", false),
        (b"\x00pin", b"pin", false),
        (b"p\x00n", b"pn", false),
    ];
    for (auth, given, right) in &cases {
        assert_eq!(rt; check_password(auth, given), *right);
    }
}

#[test]
fn signatures(rt: HostRuntime) {
    let cases: [(&[u8], &[u8], &[u8; 32]); 6] = [
        (
            b"",
            b"",
            b"\xaf\x72\x20\xc9\x3e\x5c\x02\x73\x6b\xfc\x91\x49\x9f\x00\xb1\xe2\
              \xc9\x39\xdd\xa1\xe1\x2f\x88\xe4\x3e\x89\x84\x89\xc9\x4d\xb4\xa5",
        ),
        (
            &[0x0b; 20],
            b"Hi There",
            b"\xbb\x15\x5f\x9b\x45\xc5\x6f\x75\xf9\x20\x0e\x8c\xbe\xbf\x4e\x40\
              \x75\x10\xa4\xe5\x26\x1c\xfb\x49\xb6\x9b\x89\xeb\x97\xeb\x3f\x7f",
        ),
        (
            b"Jefe",
            b"what do ya want for nothing?",
            b"\x5e\x95\xb0\xcc\x69\x1c\x2c\x2f\x74\x15\x53\xfa\xe6\xbb\x3b\xcf\
              \x9d\x11\xb6\xc4\x1d\xae\x93\xc2\xa7\x75\x00\x2f\xf1\xdb\xfc\xca",
        ),
        (
            &[0x0b; 64],
            b"Hi There",
            b"\x09\xc9\x76\xe9\x5b\xf0\x78\xe4\xcf\x68\x5d\xba\x4b\xb5\x42\x3e\
              \x30\x4f\xa2\x67\x3d\x79\x20\xe6\x0d\xc5\x24\x40\x2f\x17\x11\x2e",
        ),
        (
            &[0x0b; 65],
            b"Hi There",
            b"\x6a\x8c\xd5\xc7\xee\x1a\x41\x41\x57\xca\x2a\x99\xf7\x6a\x69\x1f\
              \x42\xf6\xa4\x1c\x77\x59\xec\x2f\x50\x76\x1d\x5d\xa2\x72\x52\xc9",
        ),
        (
            &[0xaa; 131],
            b"Test Using Larger Than Block-Size Key - Hash Key First",
            b"\x2f\x77\xc8\xdf\x0e\x4f\xba\xb0\x5a\xe9\x83\x1e\x76\x6d\xf2\xdd\
              \x77\x52\xca\xde\x72\x81\x49\xd1\x0f\x07\x3c\x8f\xf5\xd4\x9f\x47",
        ),
    ];
    for (key, message, signature) in &cases {
        assert_eq!(rt; &sign(key, &hash(message)).bytes, *signature);
    }
}

#[test]
fn macs_of_a_session(rt: HostRuntime) {
    let command = command_mac(b"pin", &CP_HASH, CALLER_NONCE, &FIRST_NONCE, 0);
    assert_eq!(rt; &command.bytes, COMMAND_MAC);
    let keyless = command_mac(b"", &CP_HASH, b"", &FIRST_NONCE, 1);
    assert_eq!(rt; &keyless.bytes, KEYLESS_MAC);
    let reply = reply_mac(b"pin", &RP_HASH, &NEXT_NONCE, CALLER_NONCE, 0);
    assert_eq!(rt;
        &reply.bytes,
        b"\xe0\x28\xe8\x53\x1b\x8f\x3d\xd8\x63\xc9\xdb\x22\xc8\x78\xf5\x50\
          \x9a\xb6\x06\x6e\xe8\x6d\x7c\x6c\xd9\xe0\x7a\xf5\x26\x05\xff\x85"
    );
}

#[test]
fn fields_of_commands(rt: HostRuntime) {
    let cases: [(&[u8], &[u8], bool); 5] = [
        (b"pin", COMMAND_MAC, true),
        (b"pin", &COMMAND_MAC[..31], false),
        (b"pin", b"", false),
        (b"", b"", true),
        (b"", COMMAND_MAC, false),
    ];
    for (auth, given, right) in &cases {
        let found = check_hmac(auth, &CP_HASH, CALLER_NONCE, &FIRST_NONCE, 0, given);
        assert_eq!(rt; found, *right);
    }
    assert!(rt; check_hmac(b"", &CP_HASH, b"", &FIRST_NONCE, 1, KEYLESS_MAC));
}

#[test]
fn hashes_that_are_signed(rt: HostRuntime) {
    let cases: [(&[u8], i32, &[u8], &[u8], &[u8; 32]); 3] = [
        (
            b"",
            0,
            b"",
            b"",
            b"\xdf\x3f\x61\x98\x04\xa9\x2f\xdb\x40\x57\x19\x2d\xc4\x3d\xd7\x48\
              \xea\x77\x8a\xdc\x52\xbc\x49\x8c\xe8\x05\x24\xc0\x14\xb8\x11\x19",
        ),
        (
            &FIRST_NONCE.bytes,
            -1,
            &CP_HASH.bytes,
            b"ref",
            b"\xeb\x2f\xd4\xc0\xcd\x9d\x95\x98\x41\xaa\xed\xcc\x28\x86\x6d\x23\
              \x94\x79\x5a\x2e\x72\x03\x04\x0e\x13\x10\xf7\x6d\xbe\x0b\x64\xbb",
        ),
        (
            b"",
            1000,
            b"",
            b"ref",
            b"\x6f\xaa\x9a\x31\x16\xef\xbe\xad\xf4\x06\xb1\xc2\x45\xd5\x75\xbc\
              \xab\x10\x1a\x22\x51\xec\x66\x46\xcd\x8d\xdd\x89\x06\x56\xdc\xd3",
        ),
    ];
    for (nonce_tpm, expiration, cp_hash, policy_ref, digest) in &cases {
        let signed = signed_hash(nonce_tpm, *expiration, cp_hash, policy_ref);
        assert_eq!(rt; &signed.bytes, *digest);
    }
}

#[test]
fn tickets_of_verify_signature(rt: HostRuntime) {
    let cases: [(Name, &[u8; 32]); 3] = [
        (
            Name::Empty,
            b"\x97\xce\xc4\xc4\x75\xe7\x9a\x18\x01\x22\xb4\xdd\xae\x51\x8d\xed\
              \xde\x20\x39\x30\x11\xfc\x8f\x24\x1d\x9a\x13\xa7\xd3\x14\xe8\xcc",
        ),
        (
            Name::Handle(0x4000_000b),
            b"\x96\x88\x48\x6b\xa1\xa1\xfb\xb8\x1e\xef\x0c\x5a\xb4\x6e\xda\x0f\
              \x58\x92\x1f\xbe\xc6\xd2\xd0\x70\xa4\x00\x14\x63\x0d\xfd\x5f\x8b",
        ),
        (
            Name::Hash(FIRST_NONCE),
            b"\xdd\x3a\x7d\x5a\xd0\xec\xa1\x44\x00\x84\x88\x7f\xd2\x03\x84\x73\
              \xcf\x7f\x3d\x28\x62\xea\x5f\x7e\xe6\x1a\x90\x76\x58\x2f\xd6\x03",
        ),
    ];
    for (key, ticket) in &cases {
        assert_eq!(rt; &verified_ticket(&PROOF, &CP_HASH, key).bytes, *ticket);
        assert!(rt; check_ticket(&PROOF, &CP_HASH, key, *ticket));
        assert!(rt; !check_ticket(&PROOF, &CP_HASH, key, b""));
    }
}

#[test]
fn tickets_of_policy_commands(rt: HostRuntime) {
    let secret = auth_ticket(
        &PROOF,
        0x8023,
        1000,
        0,
        b"",
        b"",
        &Name::Handle(0x4000_000b),
    );
    assert_eq!(rt;
        &secret.bytes,
        b"\x7c\xee\x05\x1b\xe5\x69\x77\xce\x84\x5a\x60\xf6\xaa\x30\x1b\x16\
          \xe6\x3b\xf4\x13\xd6\x98\xe9\x8f\x79\x08\x93\x8e\xc0\x6f\x53\x9b"
    );
    let signed = auth_ticket(
        &PROOF,
        0x8025,
        0x0102_0304_0506_0708,
        u32::MAX,
        &CP_HASH.bytes,
        b"ref",
        &Name::Hash(FIRST_NONCE),
    );
    assert_eq!(rt;
        &signed.bytes,
        b"\x4e\x58\x96\x07\x07\x9c\x9b\x92\xbd\xaf\x4e\x63\xd3\x1a\x26\xc8\
          \xa4\xdd\x6d\x42\x11\xbc\xca\x5b\xdd\xbb\x67\x5b\x55\x40\x32\x18"
    );
}
