use super::*;
use crate::entry::put_entry;
use crate::journal::spell;
use std::alloc::{AllocError, Global};
use std::test::Fail;

/// Where each entry of `sample` ends: each has 80 bytes beside what it says, which are 16, 2, 5, 1, 0 and 3.
const ENDS: [usize; 6] = [96, 178, 263, 344, 424, 507];

/// A journal behind five changes, with two live queries and three commands.
fn sample(alloc: Global) -> Result<Vec<u8>, AllocError> {
    let mut live = Vec::new(alloc);
    live.push(Vec::from_slice(alloc, b"q1")?)?;
    live.push(Vec::from_slice(alloc, b"query")?)?;
    let (mut bytes, link) = spell(alloc, 5, &live)?;
    let link = put_entry(&mut bytes, &link, 3, b"a")?;
    let link = put_entry(&mut bytes, &link, 4, b"")?;
    put_entry(&mut bytes, &link, 5, b"bcd")?;
    Ok(bytes)
}

/// How many commands stand whole in so many bytes of `sample`, and where the last whole entry ends.
fn expected(length: usize) -> Option<(usize, usize)> {
    match length {
        0..=262 => None,
        263..=343 => Some((0, ENDS[2])),
        344..=423 => Some((1, ENDS[3])),
        424..=506 => Some((2, ENDS[4])),
        _ => Some((3, ENDS[5])),
    }
}

/// Where the entry begins that has this byte of `sample`.
fn beginning(byte: usize) -> usize {
    match byte {
        0..=95 => 0,
        96..=177 => ENDS[0],
        178..=262 => ENDS[1],
        263..=343 => ENDS[2],
        344..=423 => ENDS[3],
        _ => ENDS[4],
    }
}

#[test]
fn each_front_is_a_front_of_the_commands_and_what_is_torn(rt: HostRuntime) -> Result<(), Fail> {
    let alloc = rt.alloc();
    let bytes = sample(alloc)?;
    assert_eq!(rt; bytes.len(), ENDS[5]);
    for length in 0..=bytes.len() {
        let found = read_back(alloc, &bytes[..length]);
        match expected(length) {
            Some((commands, end)) => {
                let found = found?;
                assert_eq!(rt; found.changes(), 5);
                assert_eq!(rt; found.live().len(), 2);
                assert_eq!(rt; found.since().len(), commands);
                assert_eq!(rt; found.torn(), &bytes[end.min(length)..length]);
            }
            None => assert!(rt; matches!(found, Err(ReadFault::Broken(_)))),
        }
    }
    Ok(())
}

#[test]
fn what_was_said_is_read_back(rt: HostRuntime) -> Result<(), Fail> {
    let alloc = rt.alloc();
    let found = read_back(alloc, &sample(alloc)?)?;
    match found.live() {
        [first, second] => {
            assert_eq!(rt; first.as_slice(), b"q1".as_slice());
            assert_eq!(rt; second.as_slice(), b"query".as_slice());
        }
        _ => return Err("two queries were live".into()),
    }
    match found.since() {
        [first, second, third] => {
            assert_eq!(rt; first.as_slice(), b"a".as_slice());
            assert_eq!(rt; second.as_slice(), b"".as_slice());
            assert_eq!(rt; third.as_slice(), b"bcd".as_slice());
        }
        _ => return Err("three commands were accepted since".into()),
    }
    Ok(())
}

#[test]
fn each_flipped_byte_is_told_at_its_entry(rt: HostRuntime) -> Result<(), Fail> {
    let alloc = rt.alloc();
    let bytes = sample(alloc)?;
    for place in 0..bytes.len() {
        for bit in [1, 128] {
            let mut wrong = bytes.clone()?;
            wrong[place] ^= bit;
            match read_back(alloc, &wrong) {
                Err(fault) => assert_eq!(rt; fault, ReadFault::Broken(beginning(place))),
                Ok(_) => return Err("a flipped byte was taken".into()),
            }
        }
    }
    Ok(())
}
