use encode_hextile::encode_hextile;
use encode_raw::{Area, PixelFormat, encode_raw};
use encode_rre::encode_rre;
use messages::{Ear, Item};
use std::alloc::{AllocError, Global};
use std::test::Fail;

fn in_raw(alloc: Global) -> Result<Vec<u8>, AllocError> {
    let mut out = Vec::new(alloc);
    let area = Area {
        x: 2,
        y: 1,
        w: 2,
        h: 1,
    };
    encode_raw(
        &mut out,
        area,
        &[0xff_0000, 0x00_00ff],
        &PixelFormat::server(),
    )?;
    Ok(out)
}

#[test]
fn two_places_in_raw(rt: HostRuntime) -> Result<(), Fail> {
    let want = [
        0, 2, 0, 1, 0, 2, 0, 1, 0, 0, 0, 0, 0, 0, 0xff, 0, 0xff, 0, 0, 0,
    ];
    assert!(rt; in_raw(rt.alloc())?.as_slice() == want.as_slice());
    Ok(())
}

fn in_rre(alloc: Global) -> Result<Vec<u8>, AllocError> {
    let mut out = Vec::new(alloc);
    let area = Area {
        x: 0,
        y: 0,
        w: 4,
        h: 2,
    };
    encode_rre(
        &mut out,
        area,
        &[0, 0, 0xff_ffff, 0xff_ffff, 0, 0, 0, 0],
        &PixelFormat::server(),
    )?;
    Ok(out)
}

#[test]
fn a_line_in_rre(rt: HostRuntime) -> Result<(), Fail> {
    let want = [
        0, 0, 0, 0, 0, 4, 0, 2, 0, 0, 0, 2, 0, 0, 0, 1, 0, 0, 0, 0, 0xff, 0xff, 0xff, 0, 0, 2, 0,
        0, 0, 2, 0, 1,
    ];
    assert!(rt; in_rre(rt.alloc())?.as_slice() == want.as_slice());
    Ok(())
}

fn in_hextile(alloc: Global) -> Result<Vec<u8>, AllocError> {
    let mut out = Vec::new(alloc);
    let area = Area {
        x: 0,
        y: 0,
        w: 2,
        h: 2,
    };
    encode_hextile(&mut out, area, &[0xff_ffff; 4], &PixelFormat::server())?;
    Ok(out)
}

#[test]
fn a_white_tile_in_hextile(rt: HostRuntime) -> Result<(), Fail> {
    let want = [0, 0, 0, 0, 0, 2, 0, 2, 0, 0, 0, 5, 2, 0xff, 0xff, 0xff, 0];
    assert!(rt; in_hextile(rt.alloc())?.as_slice() == want.as_slice());
    Ok(())
}

fn hears(alloc: Global) -> Result<bool, AllocError> {
    let mut ear = Ear::new(alloc);
    let first = ear.feed(b"RFB 003.00")?;
    let then = ear.feed(b"8\n\x01\x01")?;
    Ok(
        first.items.is_empty()
            && matches!(
                then.items.as_slice(),
                [Item::Version(_), Item::Choice, Item::Init { shared: true },],
            )
            && then.fault.is_none()
            && ear.is_open(),
    )
}

#[test]
fn an_opening_in_two_pieces(rt: HostRuntime) -> Result<(), Fail> {
    assert!(rt; hears(rt.alloc())?);
    Ok(())
}
