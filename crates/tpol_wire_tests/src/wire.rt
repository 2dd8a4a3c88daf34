//! Commands and replies, by hand after the layouts of TPM 2.0 Part 3 (those of commands: docs/commands-by-hand.md). Where
//! the codes of refusals come from stands over them.

use std::alloc::Global;
use std::test::Fail;
use tpol_base::Blob;
use tpol_wire::{
    Command, Reply, ReplyFault, WireFault, code_of, fields_of, parameters_of, read_command,
    read_reply, write_command, write_reply,
};

/// PolicyAuthValue of the session 0x0300_0000.
const AUTH_VALUE: [u8; 14] = [0x80, 0x01, 0, 0, 0, 14, 0, 0, 0x01, 0x6b, 0x03, 0, 0, 0];

/// NV_Read of 1,024 bytes at offset 16.
const NV_READ: &[u8] =
    b"8002000000250000014e4000000101c100020000000b400000090000010002aa5504000010";

/// A well-formed command of each code.
static COMMANDS: [(u32, &[u8]); 33] = [
    (
        0x134,
        b"800200000021000001344000000101c100020000000b400000090000010002aa55",
    ),
    (
        0x137,
        b"80020000002a0000013701c1000201c100020000000b400000090000010002aa55000501020304050003",
    ),
    (
        0x149,
        b"80020000002d000001494000000101c10002030000000000000b400000090000010002aa55000200ff00010002",
    ),
    (
        0x14b,
        b"8002000000250000014b80000001400000070000000b400000090000010002aa5500000010",
    ),
    (
        0x14e,
        b"8002000000250000014e4000000101c100020000000b400000090000010002aa5504000010",
    ),
    (
        0x151,
        b"80020000005d000001514000000b030000000000000b400000090000010002aa55001044444444444444444444\
444444444444002011111111111111111111111111111111111111111111111111111111111111110002706fff\
ffffff",
    ),
    (
        0x155,
        b"80020000002400000155800000010000000b400000090000010002aa5500036d7367000b",
    ),
    (
        0x15e,
        b"80020000002b0000015e800000010000001903000001001033333333333333333333333333333333000000",
    ),
    (
        0x160,
        b"8001000000410000016080000001030000000000000000015500000e100005000b111111111111111111111111\
1111111111111111111111111111111111111111",
    ),
    (
        0x161,
        b"80010000003c000001610000000000000003030000004000000700202222222222222222222222222222222222\
222222222222222222222222222222",
    ),
    (0x162, b"80010000000e0000016203000000"),
    (0x165, b"80010000000e0000016503000000"),
    (
        0x16a,
        b"80010000007e0000016a0300000000201111111111111111111111111111111111111111111111111111111111\
11111100000022000b111111111111111111111111111111111111111111111111111111111111111180224000\
000100202222222222222222222222222222222222222222222222222222222222222222",
    ),
    (0x16b, b"80010000000e0000016b03000000"),
    (0x16c, b"8001000000120000016c030000000000015e"),
    (
        0x16d,
        b"80010000001c0000016d030000000008000000000000000700080009",
    ),
    (
        0x16e,
        b"8001000000300000016e0300000000201111111111111111111111111111111111111111111111111111111111\
111111",
    ),
    (0x16f, b"80010000000f0000016f030000001f"),
    (
        0x170,
        b"800100000030000001700300000000202222222222222222222222222222222222222222222222222222222222\
222222",
    ),
    (
        0x171,
        b"800100000078000001710300000000000003002011111111111111111111111111111111111111111111111111\
111111111111110020222222222222222222222222222222222222222222222222222222222222222200201111\
111111111111111111111111111111111111111111111111111111111111",
    ),
    (
        0x172,
        b"80010000004c00000172030000000008000000000000138800000002706f00044000000b802340000001002022\
22222222222222222222222222222222222222222222222222222222222222",
    ),
    (
        0x176,
        b"80010000003b000001764000000740000007002011111111111111111111111111111111111111111111111111\
111111111111110000010010000b",
    ),
    (
        0x177,
        b"800100000054000001778000000100202222222222222222222222222222222222222222222222222222222222\
2222220005000b1111111111111111111111111111111111111111111111111111111111111111",
    ),
    (0x17e, b"8001000000140000017e00000001000b03010080"),
    (
        0x17f,
        b"80010000003a0000017f0300000000201111111111111111111111111111111111111111111111111111111111\
11111100000001000b03010080",
    ),
    (0x180, b"80010000000e0000018003000000"),
    (
        0x182,
        b"80020000004300000182000000170000000b400000090000010002aa5500000001000b22222222222222222222\
22222222222222222222222222222222222222222222",
    ),
    (0x187, b"80010000000e0000018703000000"),
    (
        0x188,
        b"80010000003500000188030000000022000b111111111111111111111111111111111111111111111111111111\
1111111111000001",
    ),
    (0x189, b"80010000000e0000018903000000"),
    (0x18c, b"80010000000e0000018c03000000"),
    (0x18f, b"80010000000f0000018f0300000000"),
    (
        0x192,
        b"8002000000330000019201c1000201c10002030000000000001903000001001033333333333333333333333333\
333333000000",
    ),
];

/// A well-formed reply of each shape, with the code of a command that it answers. The last two are refusals,
/// of which the second is that of a tag.
static REPLIES: [(u32, &[u8]); 17] = [
    (
        0x176,
        b"800100000030000000000300000000201111111111111111111111111111111111111111111111111111111111\
111111",
    ),
    (
        0x189,
        b"80010000002c0000000000201111111111111111111111111111111111111111111111111111111111111111",
    ),
    (
        0x17e,
        b"800100000082000000000000001500000001000b03010080000000030020111111111111111111111111111111\
111111111111111111111111111111111100202222222222222222222222222222222222222222222222222222\
22222222222200201111111111111111111111111111111111111111111111111111111111111111",
    ),
    (
        0x177,
        b"800100000032000000008022400000010020222222222222222222222222222222222222222222222222222222\
2222222222",
    ),
    (
        0x15e,
        b"80020000001b000000000000000800067365637265740000010000",
    ),
    (
        0x155,
        b"800200000035000000000000002200201111111111111111111111111111111111111111111111111111111111\
1111110000010000",
    ),
    (0x14e, b"8002000000170000000000000004000201020000010000"),
    (
        0x14b,
        b"800200000021000000000000000e00000008999999999999999900000000010000",
    ),
    (0x160, b"8001000000140000000000008025400000070000"),
    (
        0x151,
        b"80020000001d000000000000000a000080234000000700000000010000",
    ),
    (
        0x151,
        b"800200000045000000000000003200080000000000001388802340000001002022222222222222222222222222\
222222222222222222222222222222222222220000010000",
    ),
    (
        0x162,
        b"80010000003c000000000000000000000003030000004000000700202222222222222222222222222222222222\
222222222222222222222222222222",
    ),
    (0x161, b"80010000000e0000000003000000"),
    (0x16b, b"80010000000a00000000"),
    (0x182, b"80020000001300000000000000000000010000"),
    (0x16b, b"80010000000a00000128"),
    (0x16b, b"00c40000000a0000001e"),
];

/// Buffers and the codes that refuse them. The codes come from two readings of the wire's rules that were
/// made independently of each other and of this crate; most of the buffers were also sent to a real TPM,
/// which gave the same code.
static REFUSALS: [(&[u8], u32); 17] = [
    (b"80010000000e0000016303000000", 0x143),
    (
        b"800100000058000001710300000000000003001000000000000000000000000000000000\
00200000000000000000000000000000000000000000000000000000000000000000\
001000000000000000000000000000000000",
        0x1d5,
    ),
    (b"80020000000b0000013401", 0x19a),
    (b"8002000000130000013401c1000301c1000300", 0x144),
    (
        b"80020000001f000001340000001801c1000300000009400000090000010000",
        0x184,
    ),
    (
        b"80020000001f0000013401c100030300000300000009400000090000010000",
        0x284,
    ),
    (
        b"8002000000200000013401c1000301c100030000000a4000000900016e010000",
        0x98f,
    ),
    (
        b"8001000000250000013701c1000201c10002000000094000000900000100000002000b0000",
        0x125,
    ),
    (
        b"80020000001f0000013701c1000201c1000200000009400000090000010000",
        0x1da,
    ),
    (
        b"00000000002b0000014901c1000201c1000203000000000000094000000900000100000002000b00000000",
        0x01e,
    ),
    (
        b"8002000000280000014901c1000201c1000203000000000000094000000900000100000002000b00",
        0x2da,
    ),
    (
        b"8002000000230000014b80000000400000070000000940000007000001000000000010",
        0x984,
    ),
    (
        b"8002000000230000014b80000000400000070000000940000009000001000000000006",
        0x2c4,
    ),
    (
        b"80020000001d0000014e01c1000201c100020000000940000009000001",
        0x144,
    ),
    (
        b"8002000000230000014e01c1000201c1000200000009400000090000010000000400",
        0x142,
    ),
    (
        b"8002000000230000014e01c1000201c100020000000940000009000001000004010000",
        0x1c4,
    ),
    (
        b"8002000000230000014e01c1000201c100020000000940000009000020000000040000",
        0x982,
    ),
];

// The proof of a function proves the drop of each value that it holds, wherever it may end early. So commands and
// replies are held by functions that end in one place, and the tests, which name the tables, hold nothing.

/// The code that refuses the bytes, 0 for none.
fn refusal(alloc: Global, bytes: &[u8]) -> u32 {
    match read_command(alloc, bytes) {
        Err(WireFault::Refused(rc)) => rc.code,
        _ => 0,
    }
}

fn is_refused(alloc: Global, text: &[u8], code: u32) -> bool {
    match hex::decode(alloc, text) {
        Ok(bytes) => refusal(alloc, bytes.as_slice()) == code,
        Err(_) => false,
    }
}

#[test]
fn refusals(rt: HostRuntime) {
    for (text, code) in &REFUSALS {
        assert!(rt; is_refused(rt.alloc(), *text, *code));
    }
}

/// Whether the command is written as these bytes.
fn is_written_as(alloc: Global, command: &Command, bytes: &[u8]) -> bool {
    match write_command(alloc, command) {
        Ok(written) => written.as_slice() == bytes,
        Err(_) => false,
    }
}

/// Whether the bytes spell a command of this code, which is written as they are.
fn is_command(alloc: Global, code: u32, bytes: &[u8]) -> bool {
    match read_command(alloc, bytes) {
        Ok(command) => code_of(&command) == code && is_written_as(alloc, &command, bytes),
        Err(_) => false,
    }
}

fn spells_command(alloc: Global, code: u32, text: &[u8]) -> bool {
    match hex::decode(alloc, text) {
        Ok(bytes) => is_command(alloc, code, bytes.as_slice()),
        Err(_) => false,
    }
}

#[test]
fn commands_are_read_and_written(rt: HostRuntime) {
    for (code, text) in &COMMANDS {
        assert!(rt; spells_command(rt.alloc(), *code, *text));
    }
}

fn has_parameters(alloc: Global, command: &Command, wanted: &[u8]) -> bool {
    match parameters_of(alloc, command) {
        Ok(parameters) => parameters.as_slice() == wanted,
        Err(_) => false,
    }
}

fn reads_parameters(alloc: Global, bytes: &[u8], wanted: &[u8]) -> bool {
    match read_command(alloc, bytes) {
        Ok(command) => has_parameters(alloc, &command, wanted),
        Err(_) => false,
    }
}

#[test]
fn parameters_stand_behind_the_front(rt: HostRuntime) -> Result<(), Fail> {
    let bytes = hex::decode(rt.alloc(), NV_READ)?;
    assert!(rt; reads_parameters(rt.alloc(), bytes.as_slice(), b"\x04\x00\x00\x10"));
    Ok(())
}

fn has_fields(alloc: Global, reply: &Reply, wanted: &[u8]) -> bool {
    match fields_of(alloc, reply) {
        Ok(fields) => fields.as_slice() == wanted,
        Err(_) => false,
    }
}

#[test]
fn fields_stand_alone(rt: HostRuntime) -> Result<(), Fail> {
    let reply = Reply::NvRead {
        bytes: Blob::from_slice(rt.alloc(), b"\x01\x02")?,
    };
    assert!(rt; has_fields(rt.alloc(), &reply, b"\x00\x02\x01\x02"));
    Ok(())
}

#[test]
fn cut_commands_are_refused(rt: HostRuntime) {
    for length in 0..14 {
        assert_eq!(rt; refusal(rt.alloc(), &AUTH_VALUE[..length]), 0x142);
        let mut announced = AUTH_VALUE;
        announced[5] = length as u8;
        let wanted = if length < 10 { 0x142 } else { 0x19a };
        assert_eq!(rt; refusal(rt.alloc(), &announced[..length]), wanted);
    }
}

/// Whether the bytes are a reply to a command of this code, which is written as they are.
fn is_reply(alloc: Global, code: u32, bytes: &[u8]) -> bool {
    match read_reply(alloc, code, bytes) {
        Ok((reply, auth)) => match write_reply(alloc, &reply, auth.as_ref()) {
            Ok(written) => written.as_slice() == bytes,
            Err(_) => false,
        },
        Err(_) => false,
    }
}

/// Whether the bytes are no reply to a command of this code.
fn is_malformed(alloc: Global, code: u32, bytes: &[u8]) -> bool {
    matches!(read_reply(alloc, code, bytes), Err(ReplyFault::Malformed))
}

/// Whether the bytes are such a reply, and are none with a byte more.
fn is_whole_reply(alloc: Global, code: u32, bytes: &mut Vec<u8>) -> bool {
    is_reply(alloc, code, bytes.as_slice())
        && bytes.push(0).is_ok()
        && is_malformed(alloc, code, bytes.as_slice())
}

fn spells_reply(alloc: Global, code: u32, text: &[u8]) -> bool {
    match hex::decode(alloc, text) {
        Ok(mut bytes) => is_whole_reply(alloc, code, &mut bytes),
        Err(_) => false,
    }
}

#[test]
fn replies_are_read_and_written(rt: HostRuntime) {
    for (code, text) in &REPLIES {
        assert!(rt; spells_reply(rt.alloc(), *code, *text));
    }
}
