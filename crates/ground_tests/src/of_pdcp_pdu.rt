//! Of `pdcp_pdu`.

ghost use Rattle.std.specs.Prelude.{◌≡◌, ◌<◌, All, IfOk};
ghost use Rattle.std.specs.List.Sorted.{IsStrictlyIncreasing};

use dc_base::{Octets, Seq, SnLen};
use pdcp_pdu::{Pdu, PduErr, decode, encode_bitmap, encode_data, encode_report, is_data, is_named};
use std::alloc::Global;
use std::process::Abort;
use std::test::Fail;

/// Octets, and what they are read as with sequence numbers of this length.
type Row<'a> = (SnLen, &'a [u8], Result<Pdu<'a>, PduErr>);

fn reads(rt: &impl Abort, rows: &[Row<'_>]) {
    for (n, octets, want) in rows {
        assert_eq!(rt; decode(*n, octets), *want, "{octets:?}");
    }
}

fn data(sn: u32, body: &[u8]) -> Result<Pdu<'_>, PduErr> {
    Ok(Pdu::Sdu { sn, body })
}

fn said(fmc: u32, bits: &[u8]) -> Result<Pdu<'_>, PduErr> {
    Ok(Pdu::Report { fmc, bits })
}

fn ends<'a>(place: usize) -> Result<Pdu<'a>, PduErr> {
    Err(PduErr::Short { place })
}

fn is_too_long<'a>(place: usize) -> Result<Pdu<'a>, PduErr> {
    Err(PduErr::TooLong { place })
}

fn is_bad<'a>(place: usize) -> Result<Pdu<'a>, PduErr> {
    Err(PduErr::BadReport { place })
}

#[test]
fn reads_data_pdus(rt: HostRuntime) {
    let (n12, n18) = (SnLen::S12, SnLen::S18);
    reads(
        &rt,
        &[
            (n12, &[], ends(0)),
            (n12, &[0x80], ends(1)),
            (n12, &[0x80, 0x00], ends(2)),
            (n12, &[0x80, 0x00, 0x68], data(0, &[0x68])),
            (n12, &[0x80, 0x00, 0x68, 0x69], data(0, &[0x68, 0x69])),
            (n18, &[0x80, 0x00], ends(2)),
            (n18, &[0x80, 0x00, 0x05], ends(3)),
            (n18, &[0x80, 0x00, 0x05, 0x68], data(5, &[0x68])),
            // R bits are not looked at.
            (n12, &[0xff, 0xfe, 0x00], data(4094, &[0x00])),
            (n18, &[0xff, 0xff, 0xfe, 0x00], data(262_142, &[0x00])),
        ],
    );
}

#[test]
fn reads_status_reports(rt: HostRuntime) {
    let (n12, n18) = (SnLen::S12, SnLen::S18);
    let other = Err(PduErr::ControlKind { place: 0 });
    reads(
        &rt,
        &[
            (n12, &[0x00, 0, 0, 0], ends(4)),
            (n12, &[0x00, 0, 0, 0, 5], said(5, &[])),
            (n12, &[0x00, 0, 0, 0, 5, 0x60], said(5, &[0x60])),
            (n18, &[0x0f, 0, 0, 1, 5, 0x60], said(261, &[0x60])),
            (n12, &[0x10], other),
            (n12, &[0x70, 0, 0, 0, 5], other),
            (n12, &[0x00, 0xff, 0xff, 0xff, 0xff, 0x80], is_bad(5)),
            (n12, &[0x00, 0xff, 0xff, 0xff, 0xff, 0x00, 0x80], is_bad(6)),
            (
                n12,
                &[0x00, 0xff, 0xff, 0xff, 0xfe, 0x80],
                said(4_294_967_294, &[0x80]),
            ),
        ],
    );
}

#[test]
fn reads_the_longest_pdus_and_none_longer(rt: HostRuntime) -> Result<(), Fail> {
    let (n12, n18) = (SnLen::S12, SnLen::S18);
    let data_octets = vec![in rt.alloc(); 0x81u8; 9004]?;
    let report_octets = vec![in rt.alloc(); 0u8; 9001]?;
    reads(
        &rt,
        &[
            (n12, &data_octets[..9002], data(385, &data_octets[..9000])),
            (n12, &data_octets[..9003], is_too_long(9002)),
            (
                n18,
                &data_octets[..9003],
                data(98_689, &data_octets[..9000]),
            ),
            (n18, &data_octets, is_too_long(9003)),
            (n12, &report_octets[..9000], said(0, &report_octets[..8995])),
            (n12, &report_octets, is_too_long(9000)),
        ],
    );
    Ok(())
}

#[test]
fn tells_data_pdus_from_control_pdus(rt: HostRuntime) {
    assert!(rt; is_data(&[0x80]));
    assert!(rt; !is_data(&[0x7f, 0x80]));
    assert!(rt; !is_data(&[]));
}

#[test]
fn names_what_a_report_shows(rt: HostRuntime) {
    for (count, named) in [
        (4, true),
        (5, false),
        (6, false),
        (7, true),
        (8, true),
        (9, false),
    ] {
        assert_eq!(rt; is_named(5, &[0x60], count), named, "at {count}");
    }
}

/// The whole bitmap of two COUNTs.
fn whole_bitmap(alloc: Global, fmc: u32, first: u32, second: u32) -> Result<Octets, Fail>
    requires above { fmc < first }
    requires ascending { first < second }
{
    let received = Seq::from_vec(vec![in alloc; first, second]?);
    Ok(encode_bitmap(alloc, fmc, &received).ok().ok_or("memory")?)
}

/// A report of two COUNTs.
fn report(alloc: Global, fmc: u32, first: u32, second: u32) -> Result<Octets, Fail>
    requires above { fmc < first }
    requires ascending { first < second }
{
    let received = Seq::from_vec(vec![in alloc; first, second]?);
    Ok(encode_report(alloc, fmc, &received).ok().ok_or("memory")?)
}

#[test]
fn writes_each_vector(rt: HostRuntime) -> Result<(), Fail> {
    let alloc = rt.alloc();
    let data = encode_data(alloc, SnLen::S12, 0, b"hi")
        .ok()
        .ok_or("memory")?;
    assert_eq!(rt; data.as_slice(), [0x80, 0x00, 0x68, 0x69].as_slice());
    let data = encode_data(alloc, SnLen::S18, 5, b"hi")
        .ok()
        .ok_or("memory")?;
    assert_eq!(rt; data.as_slice(), [0x80, 0x00, 0x05, 0x68, 0x69].as_slice());
    let shown = report(alloc, 5, 7, 8)?;
    assert_eq!(rt; shown.as_slice(), [0, 0, 0, 0, 5, 0x60].as_slice());
    let shown = encode_report(alloc, 5, &Seq::new(alloc))
        .ok()
        .ok_or("memory")?;
    assert_eq!(rt; shown.as_slice(), [0, 0, 0, 0, 5].as_slice());
    Ok(())
}

#[test]
fn cuts_a_report_at_9000_octets(rt: HostRuntime) -> Result<(), Fail> {
    let whole = report(rt.alloc(), 0, 71_959, 71_960)?;
    assert_eq!(rt; whole.len(), 9000);
    assert_eq!(rt; whole.as_slice().last().copied(), Some(3));
    let cut = report(rt.alloc(), 0, 71_960, 71_961)?;
    assert_eq!(rt; cut.len(), 9000);
    assert_eq!(rt; cut.as_slice().last().copied(), Some(1));
    let bits = whole_bitmap(rt.alloc(), 0, 71_960, 71_961)?;
    assert_eq!(rt; bits.len(), 8996);
    assert_eq!(rt; bits.as_slice().last().copied(), Some(128));
    Ok(())
}
