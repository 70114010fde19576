//! Of `gtpu`.

ghost use Rattle.std.specs.Prelude.{◌+◌, ◌^◌, ◌<◌, length, IfSome};
ghost use Rattle.std.specs.Option.{option_copied};
ghost use Rattle.gtpu.specs.Content.{view};
ghost use Rattle.gtpu.specs.Spelling.{extensions, IsContainer, FitsLong};

use gtpu::{GtpErr, GtpKind, Packet, PduNumber, decode, encode};
use std::alloc::Global;

/// A downlink PDU to a host: an NR RAN container, and a PDCP PDU.
const TO_HOST: [u8; 24] = [
    0x34, 0xff, 0x00, 0x10, 0x00, 0x00, 0x00, 0x80, 0x00, 0x00, 0x00, 0x84, 0x02, 0x01, 0x00, 0x00,
    0x00, 0x00, 0x00, 0x00, 0x80, 0x00, 0x68, 0x69,
];

/// A forwarded SDU with its SN: a container and a number.
const FORWARDED: [u8; 25] = [
    0x34, 0xff, 0x00, 0x11, 0x00, 0x00, 0x01, 0x81, 0x00, 0x00, 0x00, 0x84, 0x02, 0x01, 0x00, 0x00,
    0x00, 0x00, 0x00, 0xc0, 0x01, 0x00, 0x00, 0x00, 0xaa,
];

const END_MARKER: [u8; 8] = [0x30, 0xfe, 0x00, 0x00, 0x00, 0x00, 0x01, 0x81];

/// A packet of these parts.
fn says<'a>(
    kind: GtpKind,
    teid: u32,
    container: Option<&'a [u8]>,
    number: Option<PduNumber>,
    body: &'a [u8],
) -> Packet<'a> {
    Packet {
        kind,
        teid,
        container,
        number,
        body,
    }
}

/// Octets, and what they are read as. The rows were made by a reader of the format in Python.
#[test]
fn reads(rt: HostRuntime) {
    let table = [
        // The five message types, without a flag or with S, and one that is none of them.
        (
            b"\x30\xff\x00\x02\x00\x00\x01\x81\x68\x69".as_slice(),
            Ok(says(GtpKind::GPdu, 385, None, None, b"\x68\x69")),
        ),
        (
            b"\x30\xfe\x00\x00\x00\x00\x01\x81".as_slice(),
            Ok(says(GtpKind::EndMarker, 385, None, None, b"")),
        ),
        (
            b"\x32\x01\x00\x04\x00\x00\x00\x00\x12\x34\x00\x00".as_slice(),
            Ok(says(GtpKind::EchoRequest, 0, None, None, b"")),
        ),
        (
            b"\x32\x02\x00\x06\x00\x00\x00\x00\x12\x34\x00\x00\x0e\x07".as_slice(),
            Ok(says(GtpKind::EchoResponse, 0, None, None, b"\x0e\x07")),
        ),
        (
            b"\x30\x1a\x00\x05\xff\xff\xff\xff\x10\x00\x00\x01\x81".as_slice(),
            Ok(says(
                GtpKind::ErrorIndication,
                4294967295,
                None,
                None,
                b"\x10\x00\x00\x01\x81",
            )),
        ),
        // The checks of the first two octets, in their order: version and PT first.
        (
            b"\x30\x03\x00\x00\x00\x00\x01\x81".as_slice(),
            Err(GtpErr::Kind { place: 1 }),
        ),
        (
            b"\x14\x03\x00\x00\x00\x00\x01\x81".as_slice(),
            Err(GtpErr::Version { place: 0 }),
        ),
        (
            b"\x20\xff\x00\x00\x00\x00\x01\x81".as_slice(),
            Err(GtpErr::Version { place: 0 }),
        ),
        // Bit 3 of octet 0 is spare, also with E.
        (
            b"\x38\xff\x00\x02\x00\x00\x01\x81\x68\x69".as_slice(),
            Ok(says(GtpKind::GPdu, 385, None, None, b"\x68\x69")),
        ),
        (
            b"\x3c\xff\x00\x06\x00\x00\x01\x81\x00\x00\x00\x00\x68\x69".as_slice(),
            Ok(says(GtpKind::GPdu, 385, None, None, b"\x68\x69")),
        ),
        // S or PN alone: sequence number, N-PDU number and next type are ignored, and the body comes behind them.
        (
            b"\x32\xff\x00\x06\x00\x00\x01\x81\x12\x34\x56\xff\x68\x69".as_slice(),
            Ok(says(GtpKind::GPdu, 385, None, None, b"\x68\x69")),
        ),
        (
            b"\x31\xff\x00\x06\x00\x00\x01\x81\x12\x34\x56\xc0\x68\x69".as_slice(),
            Ok(says(GtpKind::GPdu, 385, None, None, b"\x68\x69")),
        ),
        (
            b"\x33\xff\x00\x03\x00\x00\x01\x81\x12\x34\x56".as_slice(),
            Err(GtpErr::Short { place: 11 }),
        ),
        (
            b"\x37\xff\x00\x06\x00\x00\x01\x81\x12\x34\x56\x00\x68\x69".as_slice(),
            Ok(says(GtpKind::GPdu, 385, None, None, b"\x68\x69")),
        ),
        // A container, a number of 16 bits behind it, and one of 18 bits, whose other bits are ignored.
        (
            b"\x34\xff\x00\x0e\x00\x00\x00\x80\x00\x00\x00\x84\x02\x01\x00\x00\x00\x00\x00\x00\x68\x69".as_slice(),
            Ok(says(
                GtpKind::GPdu,
                128,
                Some(b"\x01\x00\x00\x00\x00\x00".as_slice()),
                None,
                b"\x68\x69",
            )),
        ),
        (
            b"\x34\xff\x00\x12\x00\x00\x01\x81\x00\x00\x00\x84\x02\x01\x00\x00\x00\x00\x00\xc0\x01\x0a\xbc\x00\x68\x69".as_slice(),
            Ok(says(
                GtpKind::GPdu,
                385,
                Some(b"\x01\x00\x00\x00\x00\x00".as_slice()),
                Some(PduNumber::Short(0xabc)),
                b"\x68\x69",
            )),
        ),
        (
            b"\x34\xff\x00\x0e\x00\x00\x00\x01\x00\x00\x00\x82\x02\xfe\xab\xcd\xee\xee\xee\x00\x68\x69".as_slice(),
            Ok(says(
                GtpKind::GPdu,
                1,
                None,
                Some(PduNumber::Long(0x2abcd)),
                b"\x68\x69",
            )),
        ),
        // A second number, in either of its two types, and a second container.
        (
            b"\x34\xff\x00\x0e\x00\x00\x00\x01\x00\x00\x00\xc0\x01\x00\x01\xc0\x01\x00\x01\x00\x68\x69".as_slice(),
            Err(GtpErr::Extension { place: 16 }),
        ),
        (
            b"\x34\xff\x00\x12\x00\x00\x00\x01\x00\x00\x00\xc0\x01\x00\x01\x82\x02\x00\x00\x01\x00\x00\x00\x00\x68\x69".as_slice(),
            Err(GtpErr::Extension { place: 16 }),
        ),
        (
            b"\x34\xff\x00\x12\x00\x00\x00\x01\x00\x00\x00\x82\x02\x00\x00\x01\x00\x00\x00\xc0\x01\x00\x01\x00\x68\x69".as_slice(),
            Err(GtpErr::Extension { place: 20 }),
        ),
        (
            b"\x34\xff\x00\x0e\x00\x00\x00\x01\x00\x00\x00\x84\x01\x01\x00\x84\x01\x01\x00\x00\x68\x69".as_slice(),
            Err(GtpErr::Extension { place: 16 }),
        ),
        // A header past the end, of length 0, without a length octet, and of a wrong length.
        (
            b"\x34\xff\x00\x0b\x00\x00\x00\x01\x00\x00\x00\x84\x02\x01\x00\x00\x00\x00\x00".as_slice(),
            Err(GtpErr::Extension { place: 12 }),
        ),
        (
            b"\x34\xff\x00\x08\x00\x00\x00\x01\x00\x00\x00\x84\x00\x00\x00\x00".as_slice(),
            Err(GtpErr::Extension { place: 12 }),
        ),
        (
            b"\x34\xff\x00\x04\x00\x00\x00\x01\x00\x00\x00\x84".as_slice(),
            Err(GtpErr::Extension { place: 12 }),
        ),
        (
            b"\x34\xff\x00\x0c\x00\x00\x00\x01\x00\x00\x00\xc0\x02\x00\x01\x00\x00\x00\x00\x00".as_slice(),
            Err(GtpErr::Extension { place: 12 }),
        ),
        (
            b"\x34\xff\x00\x08\x00\x00\x00\x01\x00\x00\x00\x82\x01\x00\x01\x00".as_slice(),
            Err(GtpErr::Extension { place: 12 }),
        ),
        // Unknown types: skipped where bit 7 is clear, refused where it is set.
        (
            b"\x34\xff\x00\x0a\x00\x00\x00\x80\x00\x00\x00\x7f\x01\xaa\xbb\x00\x68\x69".as_slice(),
            Ok(says(GtpKind::GPdu, 128, None, None, b"\x68\x69")),
        ),
        (
            b"\x34\xff\x00\x12\x00\x00\x00\x80\x00\x00\x00\x7f\x02\xaa\xaa\xaa\xaa\xaa\xaa\x84\x01\x01\x00\x00\x68\x69".as_slice(),
            Ok(says(
                GtpKind::GPdu,
                128,
                Some(b"\x01\x00".as_slice()),
                None,
                b"\x68\x69",
            )),
        ),
        (
            b"\x34\xff\x00\x0a\x00\x00\x00\x80\x00\x00\x00\x85\x01\xaa\xbb\x00\x68\x69".as_slice(),
            Err(GtpErr::UnknownRequired { place: 11 }),
        ),
        (
            b"\x34\xff\x00\x09\x00\x00\x00\x80\x00\x00\x00\x7f\x01\xaa\xbb\xff\x00".as_slice(),
            Err(GtpErr::UnknownRequired { place: 15 }),
        ),
        // The length field, and numbers that are announced and not there.
        (
            b"\x30\xff\x00\x01\x00\x00\x01\x81\x68\x69".as_slice(),
            Err(GtpErr::Length { place: 2 }),
        ),
        (
            b"\x30\xff\x00\x03\x00\x00\x01\x81\x68\x69".as_slice(),
            Err(GtpErr::Length { place: 2 }),
        ),
        (
            b"\x31\xff\x00\x01\x00\x00\x00\x00\x07".as_slice(),
            Err(GtpErr::Short { place: 9 }),
        ),
    ];
    for (octets, expected) in table {
        assert_eq!(rt; decode(octets), expected);
    }
}

/// A packet that is cut off is too short for its header or for its length field.
#[test]
fn cut_at_every_length(rt: HostRuntime) {
    let table = [
        TO_HOST.as_slice(),
        FORWARDED.as_slice(),
        END_MARKER.as_slice(),
    ];
    for octets in table {
        for (place, _) in octets.iter().enumerate() {
            let fault = if place < 8 {
                GtpErr::Short { place }
            } else {
                GtpErr::Length { place: 2 }
            };
            assert_eq!(rt; decode(&octets[..place]).err(), Some(fault));
        }
    }
}

#[test]
fn one_octet_and_two(rt: HostRuntime) {
    for first in 0..=u8::MAX {
        assert_eq!(rt; decode(&[first]).err(), Some(GtpErr::Short { place: 1 }));
        for second in 0..=u8::MAX {
            assert_eq!(rt;
                decode(&[first, second]).err(),
                Some(GtpErr::Short { place: 2 })
            );
        }
    }
}

/// Whether a packet is written as these octets, with memory for it.
fn is_written(alloc: Global, p: &Packet<'_>, octets: &[u8]) -> bool
    requires length { length (extensions (view p.now)) + length p.now.body.now < 2 ^ 16 }
    requires container { IfSome (option_copied p.now.container) IsContainer }
    requires number { IfSome p.now.number FitsLong }
{
    match encode(alloc, p) {
        Ok(made) => made.as_slice() == octets,
        Err(_) => false,
    }
}

/// Packets of each message type, and the octets in which they are written, made as in the table of what is read.
#[test]
fn writes(rt: HostRuntime) {
    let packet = Packet {
        kind: GtpKind::GPdu,
        teid: 128,
        container: Some(&[1, 0, 0, 0, 0, 0]),
        number: None,
        body: &[128, 0, 104, 105],
    };
    let octets =
        b"\x34\xff\x00\x10\x00\x00\x00\x80\x00\x00\x00\x84\x02\x01\x00\x00\x00\x00\x00\x00\x80\x00\x68\x69";
    assert!(rt; is_written(rt.alloc(), &packet, octets));
    let packet = Packet {
        kind: GtpKind::GPdu,
        teid: 385,
        container: Some(&[1, 0, 0, 0, 0, 0]),
        number: Some(PduNumber::Short(0x0)),
        body: &[170],
    };
    let octets =
        b"\x34\xff\x00\x11\x00\x00\x01\x81\x00\x00\x00\x84\x02\x01\x00\x00\x00\x00\x00\xc0\x01\x00\x00\x00\xaa";
    assert!(rt; is_written(rt.alloc(), &packet, octets));
    let packet = Packet {
        kind: GtpKind::GPdu,
        teid: 1,
        container: None,
        number: Some(PduNumber::Long(0x2abcd)),
        body: &[170],
    };
    let octets =
        b"\x34\xff\x00\x0d\x00\x00\x00\x01\x00\x00\x00\x82\x02\x02\xab\xcd\x00\x00\x00\x00\xaa";
    assert!(rt; is_written(rt.alloc(), &packet, octets));
    let packet = Packet {
        kind: GtpKind::EndMarker,
        teid: 385,
        container: None,
        number: None,
        body: &[],
    };
    let octets = b"\x30\xfe\x00\x00\x00\x00\x01\x81";
    assert!(rt; is_written(rt.alloc(), &packet, octets));
    let packet = Packet {
        kind: GtpKind::EchoRequest,
        teid: 0,
        container: None,
        number: None,
        body: &[],
    };
    let octets = b"\x30\x01\x00\x00\x00\x00\x00\x00";
    assert!(rt; is_written(rt.alloc(), &packet, octets));
    let packet = Packet {
        kind: GtpKind::EchoResponse,
        teid: 0,
        container: None,
        number: None,
        body: &[14, 7],
    };
    let octets = b"\x30\x02\x00\x02\x00\x00\x00\x00\x0e\x07";
    assert!(rt; is_written(rt.alloc(), &packet, octets));
    let packet = Packet {
        kind: GtpKind::ErrorIndication,
        teid: 4294967295,
        container: None,
        number: Some(PduNumber::Short(0xabc)),
        body: &[],
    };
    let octets = b"\x34\x1a\x00\x08\xff\xff\xff\xff\x00\x00\x00\xc0\x01\x0a\xbc\x00";
    assert!(rt; is_written(rt.alloc(), &packet, octets));
}
