//! Of `forward`.

use dc_base::{Octets, Seq, SnLen};
use forward::{ForwardIn, ForwardOut, ListErr, Load, load_in};
use std::alloc::Global;
use std::test::Fail;

/// Gives octets to the end as a packet.
fn give(end: &mut ForwardIn, octets: &Octets) -> Result<(), Fail> {
    let packet = gtpu::decode(octets.as_slice()).ok().ok_or("a packet")?;
    Ok(end.came(&packet).ok().ok_or("memory")?)
}

/// The packet of the next SDU, with SN 0 or with none.
fn next(out: &mut ForwardOut, first: bool, sdu: &[u8]) -> Result<Octets, Fail> {
    if out.is_closed() || out.given() >= 1 << 24 || sdu.len() > 9000 {
        return Err(Fail::from("no next"));
    }
    let sn = if first { Some(0) } else { None };
    Ok(out.next(SnLen::S12, sn, sdu).ok().ok_or("memory")?)
}

/// The total and the End Marker.
fn close(out: &mut ForwardOut) -> Result<(Octets, Octets), Fail> {
    if out.is_closed() || out.given() >= 1 << 24 {
        return Err(Fail::from("no close"));
    }
    Ok(out.close().ok().ok_or("memory")?)
}

/// What octets carry, if they are a packet.
fn load_of(alloc: Global, octets: &Octets) -> Result<Load<'_>, Fail> {
    let packet = gtpu::decode(octets.as_slice()).ok().ok_or("a packet")?;
    Ok(load_in(alloc, &packet).ok().ok_or("memory")?)
}

/// The list of an end that is done.
fn list_of(end: ForwardIn) -> Result<Seq<(Option<u32>, Octets)>, Fail> {
    Ok(end.into_list().ok().ok_or("a list")?)
}

#[test]
fn packets_of_a_tunnel(rt: HostRuntime) -> Result<(), Fail> {
    let mut out = ForwardOut::new(rt.alloc(), 385);
    let first = next(&mut out, true, &[0xaa])?;
    assert_eq!(rt;
        first.as_slice(),
        [
            0x34, 0xff, 0, 0x11, 0, 0, 1, 0x81, 0, 0, 0, 0x84, 2, 1, 0, 0, 0, 0, 0, 0xc0, 1, 0, 0,
            0, 0xaa
        ]
        .as_slice()
    );
    let second = next(&mut out, false, &[0xbb])?;
    assert_eq!(rt;
        load_of(rt.alloc(), &second)?,
        Load::Piece {
            number: 1,
            sn: None,
            sdu: [0xbb].as_slice()
        }
    );
    let (total, end_marker) = close(&mut out)?;
    assert_eq!(rt;
        total.as_slice(),
        [
            0x34, 0xff, 0, 0x0c, 0, 0, 1, 0x81, 0, 0, 0, 0x84, 2, 0, 0, 0, 2, 0, 0, 0
        ]
        .as_slice()
    );
    assert_eq!(rt; load_of(rt.alloc(), &total)?, Load::Total { number: 2 });
    assert_eq!(rt;
        end_marker.as_slice(),
        [0x30, 0xfe, 0, 0, 0, 0, 1, 0x81].as_slice()
    );
    Ok(())
}

#[test]
fn a_tunnel_that_reorders(rt: HostRuntime) -> Result<(), Fail> {
    let mut out = ForwardOut::new(rt.alloc(), 385);
    let first = next(&mut out, true, &[0xaa])?;
    let second = next(&mut out, false, &[0xbb])?;
    let (total, _end_marker) = close(&mut out)?;
    let mut end = ForwardIn::new(rt.alloc());
    give(&mut end, &second)?;
    give(&mut end, &total)?;
    give(&mut end, &second)?;
    assert!(rt; !end.is_done());
    let mut end = match end.into_list() {
        Err(ListErr::NotDone(end)) => end,
        _ => return Err(Fail::from("not done")),
    };
    give(&mut end, &first)?;
    assert!(rt; end.is_done());
    let list = list_of(end)?;
    assert_eq!(rt; list.len(), 2);
    for (i, (sn, sdu)) in list.as_slice().iter().enumerate() {
        assert_eq!(rt; *sn, if i == 0 { Some(0) } else { None });
        assert_eq!(rt; sdu.len(), 1);
    }
    Ok(())
}
