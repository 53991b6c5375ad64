ghost use Rattle.std.specs.Prelude.{◌≡◌, Ok, IfOk};
ghost use Rattle.hex.specs.Hex.{decode_of};

use hex::decode;
use std::alloc::Global;
use std::test::Fail;

// Each row in hexadecimal: a spelling, its SHA-1, and two tables of places, a byte each: where the fault is once the bytes end
// before the byte of this number, and once that byte is raised by one. They were made by another reader of the format.

/// A growing counter: share 5 of identity 0.
pub const SHARE: [&str; 4] = [
    "0101000100000000000000000101000000000000000005",
    "13cdac96af6795aa88fd7a1fea441a608a5300aa",
    "000102030405050505050505050d0e0f0f0f0f0f0f0f0f",
    "00170a0effffffffffffffffff17ffffffffffffffffff",
];

/// A set with removes: `x` at the dot (1, 1), after two records of identity 0.
pub const SET: [&str; 4] = [
    "01040002000000000000000002010000000000000001000000000000000101780000000000000001010000000000000001",
    "30d8f2a9cadee9b00eca4b9036432b9bdfc34a53",
    "000102030405050505050505050d0e0e0e0e0e0e0e0e16161616161616161e1f2020202020202020282929292929292929",
    "00170a160dffffffffffffffffffffffffffffffffff31313131313131312aff3131313131313131ffffffffffffffffff",
];

/// A growing counter that took over the share of identity 2, which was pruned.
pub const PRUNED: [&str; 4] = [
    "01010102010000000000000000010000000000000001010000000000000000010100000000000000000a",
    "a554cc38b413d4aba946cae2bd4a12a97a8de9d1",
    "00010203040506060606060606060e0e0e0e0e0e0e0e1617181818181818181820212222222222222222",
    "002a16ff04ffffffffffffffffffffffffffffffffff21ffffffffffffffffff2affffffffffffffffff",
];

/// A growing counter with a mark of identity 2 that 0 and 1 have seen.
pub const MARKED: [&str; 4] = [
    "01010102000000000100020001010200000000000000010102000000000000000a",
    "c1b05a544b89bc89b2acd9bbfed2998baf7fa34a",
    "000102030405050505090a0b0c0d0e0f0f0f0f0f0f0f0f17181919191919191919",
    "00210dff21ffffffffff0d0cff17ffffffffffffffffff21ffffffffffffffffff",
];

/// A counter that moves both ways.
pub const SIGNED: [&str; 4] = [
    "010200020000000000000000020300000000000000010100000000000000000702000000000000000002030000000000000001",
    "15cd0419d919c08fb544484654c8c0fe413b99bd",
    "000102030405050505050505050d0e0e0e0e0e0e0e0e16171818181818181818202122222222222222222a2b2b2b2b2b2b2b2b",
    "00280a16ffffffffffffffffffffffffffffffffffff21ffffffffffffffffff33ffffffffffffffffffffffffffffffffffff",
];

/// A growing set of three texts, the empty one and one of two bytes among them.
pub const TEXTS: [&str; 4] = [
    "01030001050000000000000002000000000000000300016102c3a9",
    "0bde089a76224425b728564a069f21e5f006e20b",
    "000102030405050505050505050d0d0d0d0d0d0d0d151617181919",
    "0016040dffffffffffffffffff1b1b1b1b1b1b1b1b1719ff19ffff",
];

/// A set with removes of two elements, one of them at two dots.
pub const DOTS: [&str; 4] = [
    "0104000200000000000000000301000000000000000200000000000000020161000000000000000200000000000000000100000000000000000301620000000000000001010000000000000002",
    "6b9a92313efed8fba51b185cd4c103ee99e1ed94",
    "000102030405050505050505050d0e0e0e0e0e0e0e0e16161616161616161e1f20202020202020202829292929292929293132323232323232323a3b3c3c3c3c3c3c3c3c444545454545454545",
    "00170a160dffffffffffffffffffffffffffffffffff4d4d4d4d4d4d4d4d443b3b3b3b3b3b3b3b3b3132323232323232ffffffffffffffffffff46ff4d4d4d4d4d4d4d4dffffffffffffffffff",
];

/// A flag that is on.
pub const SWITCH: [&str; 4] = [
    "0105000102000000000000000101",
    "dab48cb4c0c6b882a7644072793e8b3c8cd28979",
    "000102030405050505050505050d",
    "000d040dffffffffffffffffff0d",
];

/// A register that was written at 101.
pub const WRITTEN: [&str; 4] = [
    "01060001010000000000000001000000000000006501026869",
    "39425e394cdcb58020e2bc36da88cd62423749cf",
    "000102030405050505050505050d0d0d0d0d0d0d0d15161717",
    "0001180dffffffffffffffffffffffffffffffffffff17ffff",
];

/// A register without a write.
pub const UNWRITTEN: [&str; 4] = [
    "010600000000000000000000",
    "2e187bb293f0f4588b94b71e5848a50e1ac8c73f",
    "000102030404040404040404",
    "00010a050c0c0c0c0c0c0c0c",
];

/// A deleted growing counter with one record.
pub const DELETED: [&str; 4] = [
    "01810001000000000000000001",
    "37f062a153079bfc25913c5473dcf7dc67b7e6d0",
    "00010203040505050505050505",
    "00ff0a0dffffffffffffffffff",
];

/// The bytes of a row in hexadecimal.
///
/// # Errors
///
/// The text is no hexadecimal, or memory was refused.
pub fn bytes_of(alloc: Global, text: &str) -> Result<Vec<u8>, Fail>
    ensures { IfOk result (λ bytes. decode_of text.now ≡ Ok bytes.items) }
{
    match decode(alloc, text) {
        Ok(bytes) => Ok(bytes),
        Err(_) => Err("no hexadecimal".into()),
    }
}
