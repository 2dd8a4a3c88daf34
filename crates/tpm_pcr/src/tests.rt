//! Outside values: digests by another program (Python's `hashlib`), the layout of TPMS_TIME_INFO, and
//! comparisons done by hand.

use crate::{Clock, PcrFull, Pcrs, compare};
use std::alloc::Global;
use std::process::Abort;
use std::test::Fail;
use tpol_base::{Compare, Digest32, Digests, NoMemory};

/// The hash of 64 zero bytes: a zero PCR after an extend by zero bytes.
const EXTENDED_ONCE: &[u8; 32] = b"\xf5\xa5\xfd\x42\xd1\x6a\x20\x30\x27\x98\xef\x6e\xd3\x09\x97\x9b\
      \x43\x00\x3d\x23\x20\xd9\xf0\xe8\xea\x98\x31\xa9\x27\x59\xfb\x4b";

fn zero_pcrs(alloc: Global, counter: u32) -> Result<Pcrs, NoMemory> {
    let values = Digests::from_slice(alloc, &[Digest32::ZERO; 24])?;
    Ok(Pcrs::new(values, counter))
}

#[test]
fn selections_of_an_extended_pcr(rt: HostRuntime) -> Result<(), Fail> {
    let mut pcrs = zero_pcrs(rt.alloc(), 0)?;
    assert_eq!(rt; pcrs.extend(23, &Digest32::ZERO), Ok(()));
    assert_eq!(rt; pcrs.counter(), 1);
    assert_eq!(rt; &pcrs.value(23).bytes, EXTENDED_ONCE);
    let cases: [(u32, &[u8; 32]); 4] = [
        (
            0,
            b"\xe3\xb0\xc4\x42\x98\xfc\x1c\x14\x9a\xfb\xf4\xc8\x99\x6f\xb9\x24\
              \x27\xae\x41\xe4\x64\x9b\x93\x4c\xa4\x95\x99\x1b\x78\x52\xb8\x55",
        ),
        (
            1 << 22,
            b"\x66\x68\x7a\xad\xf8\x62\xbd\x77\x6c\x8f\xc1\x8b\x8e\x9f\x8e\x20\
              \x08\x97\x14\x85\x6e\xe2\x33\xb3\x90\x2a\x59\x1d\x0d\x5f\x29\x25",
        ),
        (
            (1 << 23) | 1,
            b"\xb6\x2c\x0b\xf3\x6d\x7f\xee\x9a\x6e\xd4\x9f\x75\x29\xe9\xfb\xf6\
              \xeb\xc9\x32\x68\xf4\x38\x32\xb4\x03\x3e\xef\x0b\xa3\x35\xba\x65",
        ),
        (
            1 << 23,
            b"\xe2\xf6\x1c\x3f\x71\xd1\xde\xfd\x3f\xa9\x99\xdf\xa3\x69\x53\x75\
              \x5c\x69\x06\x89\x79\x99\x62\xb4\x8b\xeb\xd8\x36\x97\x4e\x8c\xf9",
        ),
    ];
    for (mask, digest) in &cases {
        assert_eq!(rt; &pcrs.digest_of_selection(*mask).bytes, *digest);
    }
    pcrs.clear();
    assert_eq!(rt; pcrs.counter(), 0);
    assert_eq!(rt; pcrs.values()[23].bytes, [0; 32]);
    Ok(())
}

#[test]
fn extends_up_to_the_last_count(rt: HostRuntime) -> Result<(), Fail> {
    let mut pcrs = zero_pcrs(rt.alloc(), u32::MAX - 1)?;
    assert_eq!(rt; pcrs.extend(0, &Digest32::ZERO), Ok(()));
    assert_eq!(rt; pcrs.extend(0, &Digest32::ZERO), Err(PcrFull));
    assert_eq!(rt; &pcrs.value(0).bytes, EXTENDED_ONCE);
    Ok(())
}

#[test]
fn bytes_of_the_clock(rt: HostRuntime) {
    let clock = Clock {
        time: 0x0102_0304_0506_0708,
        reset_count: 0x1112_1314,
        restart_count: 0x2122_2324,
        safe: true,
    };
    assert_eq!(rt;
        &clock.info(),
        b"\x01\x02\x03\x04\x05\x06\x07\x08\x01\x02\x03\x04\x05\x06\x07\x08\
          \x11\x12\x13\x14\x21\x22\x23\x24\x01"
    );
}

/// Whether each comparison holds, by its number from 0 on.
fn row(rt: &impl Abort, a: &[u8], b: &[u8], holds: [bool; 12]) {
    assert_eq!(rt; a.len(), b.len());
    for (number, expected) in (0..12).zip(holds) {
        if let Some(operation) = Compare::from_number(number) {
            assert_eq!(rt; compare(operation, a, b), expected, "{number}");
        }
    }
}

#[test]
fn comparisons_around_the_sign(rt: HostRuntime) {
    let mut least = [0; 64];
    least[0] = 0x80;
    let mut greatest = [0xff; 64];
    greatest[0] = 0x7f;
    let cases: [(&[u8], &[u8], [u8; 12]); 9] = [
        // EQ, NEQ, then GT, LT, GE, LE, each signed and unsigned, then BITSET, BITCLEAR
        (b"", b"", [1, 0, 0, 0, 0, 0, 1, 1, 1, 1, 1, 1]),
        (b"\x7f", b"\x80", [0, 1, 1, 0, 0, 1, 1, 0, 0, 1, 0, 1]),
        (b"\xff", b"\x80", [0, 1, 1, 1, 0, 0, 1, 1, 0, 0, 1, 0]),
        (
            b"\x80\x00",
            b"\x80\x00",
            [1, 0, 0, 0, 0, 0, 1, 1, 1, 1, 1, 0],
        ),
        (
            b"\xff\xff",
            b"\x00\x00",
            [0, 1, 0, 1, 1, 0, 0, 1, 1, 0, 1, 1],
        ),
        (
            b"\x00\xff",
            b"\x01\x00",
            [0, 1, 0, 0, 1, 1, 0, 0, 1, 1, 0, 1],
        ),
        (
            b"\x80\x00\x00\x00\x00\x00\x00\x00",
            b"\x7f\xff\xff\xff\xff\xff\xff\xff",
            [0, 1, 0, 1, 1, 0, 0, 1, 1, 0, 0, 1],
        ),
        (&least, &greatest, [0, 1, 0, 1, 1, 0, 0, 1, 1, 0, 0, 1]),
        (&greatest, &greatest, [1, 0, 0, 0, 0, 0, 1, 1, 1, 1, 1, 0]),
    ];
    for (a, b, holds) in &cases {
        row(&rt, a, b, holds.map(|holds| holds == 1));
    }
}
