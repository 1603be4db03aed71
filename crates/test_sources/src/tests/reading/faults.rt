//! What no server says (RFC 6143, 7.5.2 to 7.7.4), of a picture of 6 columns and 3 rows, and the fault.

use crate::tests::reading::drawing::Drawing;
use server_reader::{ReadFault, Reader};
use std::alloc::{AllocError, Global};
use std::test::Fail;

/// Returns the name of a fault, and its number.
fn named(fault: ReadFault) -> (&'static str, i32) {
    match fault {
        ReadFault::UnknownMessage(kind) => ("message", i32::from(kind)),
        ReadFault::UnknownEncoding(encoding) => ("encoding", encoding),
        ReadFault::OffPicture => ("off", 0),
        ReadFault::CopyOffPicture => ("copy off", 0),
        ReadFault::NoBackground => ("background", 0),
        ReadFault::NoForeground => ("foreground", 0),
    }
}

static FAULTS: [(&[u8], &str, i32); 8] = [
    (b"\x04", "message", 4),
    (b"\x02\xff", "message", 255),
    // ZRLE, which isn't listed
    (b"\0\0\0\x01\0\0\0\0\0\x01\0\x01\0\0\0\x10", "encoding", 16),
    (b"\0\0\0\x01\0\x05\0\0\0\x02\0\x01\0\0\0\0", "off", 0),
    (b"\0\0\0\x01\0\0\0\x03\0\x01\0\x01\0\0\0\x10", "off", 0),
    (
        b"\0\0\0\x01\0\0\0\0\0\x02\0\x01\0\0\0\x01\0\x05\0\0",
        "copy off",
        0,
    ),
    (
        b"\0\0\0\x01\0\0\0\0\0\x01\0\x01\0\0\0\x05\0",
        "background",
        0,
    ),
    (
        b"\0\0\0\x01\0\0\0\0\0\x01\0\x01\0\0\0\x05\x0aA\0\0\0\x01",
        "foreground",
        0,
    ),
];

/// Returns the fault behind two pieces, and whether the same comes again.
fn faulted(
    alloc: Global,
    first: &[u8],
    second: &[u8],
) -> Result<Option<(&'static str, i32)>, AllocError> {
    let mut reader = Reader::new(6, 3);
    let mut drawing = Drawing::new(alloc, 6, 3)?;
    let early = drawing.told(&mut reader, first)?;
    let late = drawing.told(&mut reader, second)?;
    if early.is_some() {
        return Ok(None);
    }
    let again = drawing.told(&mut reader, b"\x02")?;
    match (late, again) {
        (Some(fault), Some(same)) => {
            if named(fault) == named(same) {
                Ok(Some(named(fault)))
            } else {
                Ok(None)
            }
        }
        _ => Ok(None),
    }
}

#[test]
fn what_no_server_says_is_refused_at_its_last_byte(rt: HostRuntime) -> Result<(), Fail> {
    for (bytes, name, number) in FAULTS.iter() {
        for cut in 0..bytes.len() {
            let (first, second) = bytes.split_at(cut);
            let fault = faulted(rt.alloc(), first, second)?;
            assert!(rt; fault == Some((*name, *number)), "{bytes:?} cut at {cut}");
        }
    }
    Ok(())
}
