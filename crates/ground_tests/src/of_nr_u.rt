//! Of `nr_u`.

use dc_base::{Seq, SnLen, Tag};
use nr_u::{Frame, Inbound, NruErr, Outbound, Range, decode, encode};
use std::alloc::Global;
use std::test::Fail;

/// Numbers 0 to 0 lost, highest 1.
const LOST_0: [u8; 14] = [0x11, 1, 0, 0, 1, 0, 0, 0, 0, 0, 0, 0, 0, 0];

/// Numbers 1 to 1 lost, highest 0.
const LOST_1_NAMES_0: [u8; 14] = [0x11, 1, 0, 0, 0, 0, 0, 1, 0, 0, 1, 0, 0, 0];

/// Numbers 1 to 1 lost, highest 2.
const LOST_1: [u8; 14] = [0x11, 1, 0, 0, 2, 0, 0, 1, 0, 0, 1, 0, 0, 0];

/// Number 0, with user data, not sent again.
const USER_0: [u8; 6] = [1, 0, 0, 0, 0, 0];

#[test]
fn statuses_cut_at_every_length(rt: HostRuntime) -> Result<(), Fail> {
    let rows = [
        (LOST_0, Some(1), Range { from: 0, to: 0 }),
        (LOST_1, Some(2), Range { from: 1, to: 1 }),
    ];
    for (octets, highest, range) in rows {
        for len in 0..15 {
            match decode(rt.alloc(), &octets[..len]) {
                Ok(Frame::Status { highest: h, lost }) => {
                    assert!(rt; len >= 11);
                    assert_eq!(rt; h, highest);
                    assert_eq!(rt; lost.as_slice(), [range].as_slice());
                }
                Err(NruErr::Short { place }) => {
                    assert!(rt; len < 11);
                    assert_eq!(rt; place, len);
                }
                _ => assert!(rt; len > 14, "a status cut to {len}"),
            }
        }
        let f = Frame::Status {
            highest,
            lost: Seq::from_vec(Vec::from_slice(rt.alloc(), &[range])?),
        };
        let written = encode(rt.alloc(), &f).ok().ok_or("memory")?;
        assert_eq!(rt; written.as_slice(), octets.as_slice());
    }
    Ok(())
}

#[test]
fn user_data_cut_at_every_length(rt: HostRuntime) -> Result<(), Fail> {
    for len in 0..7 {
        match decode(rt.alloc(), &USER_0[..len]) {
            Ok(
                Frame::User {
                    number,
                    user,
                    repeat,
                },
            ) => {
                assert!(rt; len >= 4);
                assert_eq!(rt; (number, user, repeat), (0, true, false));
            }
            Err(NruErr::Short { place }) => {
                assert!(rt; len < 4);
                assert_eq!(rt; place, len);
            }
            _ => assert!(rt; len > 6, "user data cut to {len}"),
        }
    }
    let f = Frame::User {
        number: 0,
        user: true,
        repeat: false,
    };
    let written = encode(rt.alloc(), &f).ok().ok_or("memory")?;
    assert_eq!(rt; written.as_slice(), USER_0.as_slice());
    Ok(())
}

#[test]
fn faults(rt: HostRuntime) {
    let rows: [(&[u8], NruErr); 6] = [
        (&[0x20], NruErr::Kind { place: 0 }),
        // eight octets of a user data frame
        (&[1, 0, 0, 0, 0, 0, 0, 0], NruErr::Trailing { place: 7 }),
        // a highest sequence number of 2^18
        (&[0x11, 0, 4, 0, 0], NruErr::Ranges { place: 2 }),
        // 5 to 4
        (&[0x10, 1, 0, 0, 5, 0, 0, 4], NruErr::Ranges { place: 2 }),
        // 5 to 6, and then 6 to 7
        (
            &[0x10, 2, 0, 0, 5, 0, 0, 6, 0, 0, 6, 0, 0, 7],
            NruErr::Ranges { place: 8 },
        ),
        (&[0x10, 0, 0, 0, 0, 0], NruErr::Trailing { place: 5 }),
    ];
    for (octets, fault) in rows {
        assert_eq!(rt; decode(rt.alloc(), octets).err(), Some(fault));
    }
}

/// A PDU that comes: its number, its sequence number, whether it was sent again, and its tag.
type Coming = (u32, Option<u32>, bool, Tag);

/// A PDU of number and COUNT `k` that comes, sent for the first time.
fn first(k: u32) -> Coming {
    (k, Some(k), false, Tag::count(k))
}

/// A PDU comes at a host, whose number and sequence number have 12 bits.
fn comes(host: &mut Inbound, pdu: Coming) -> Option<bool> {
    let (number, sn, repeat, tag) = pdu;
    if number >= 4096 {
        return None;
    }
    match sn {
        None => host.came(number, None, repeat, tag).ok(),
        Some(sn) if sn < 4096 => host.came(number, Some(sn), repeat, tag).ok(),
        Some(_) => None,
    }
}

/// The octets of the status of a host, and its tag.
fn status_of(alloc: Global, host: &Inbound) -> Option<(Vec<u8>, Tag)> {
    let (f, tag) = host.status().ok()?;
    let octets = encode(alloc, &f).ok()?;
    Some((octets.into_vec(), tag))
}

/// A tunnel in which three PDUs with these COUNTs and repeat flags were sent.
fn sent(alloc: Global, n: SnLen, pdus: [(Option<u32>, bool); 3]) -> Option<Outbound> {
    let mut tunnel = Outbound::new(alloc, n);
    let [first, second, third] = pdus;
    let a = tunnel.sent(first.0, first.1).ok()?;
    let b = tunnel.sent(second.0, second.1).ok()?;
    let c = tunnel.sent(third.0, third.1).ok()?;
    if (a, b, c) != (0, 1, 2) {
        return None;
    }
    Some(tunnel)
}

/// What the octets of a status confirm and ask for again.
fn says(
    alloc: Global,
    tunnel: &mut Outbound,
    low: u32,
    octets: &[u8],
) -> Option<(Vec<u32>, Vec<u32>)> {
    let f = decode(alloc, octets).ok()?;
    let verdict = tunnel.on_status(low, &f).ok()?;
    Some((verdict.confirmed.into_vec(), verdict.again.into_vec()))
}

#[test]
fn the_second_of_three_is_lost(rt: HostRuntime) {
    let early: &[u32] = &[0];
    let late: &[u32] = &[0, 2];
    // whether the third was acked; the tag; the octets; what is confirmed
    let rows = [(false, 0, LOST_1_NAMES_0, early), (true, 2, LOST_1, late)];
    for (acked, tag, octets, confirmed) in rows {
        let mut host = Inbound::new(rt.alloc(), SnLen::S12);
        assert_eq!(rt; comes(&mut host, first(0)), Some(true));
        assert_eq!(rt; comes(&mut host, first(2)), Some(true));
        assert_eq!(rt; comes(&mut host, first(2)), Some(false));
        host.acked(0);
        host.acked(1);
        if acked {
            host.acked(2);
        }
        let (written, t) = status_of(rt.alloc(), &host).expect(&rt, "memory");
        assert_eq!(rt; t, Tag::count(tag));
        assert_eq!(rt; written.as_slice(), octets.as_slice());

        let pdus = [(Some(0), false), (Some(1), false), (Some(2), false)];
        let mut tunnel = sent(rt.alloc(), SnLen::S12, pdus).expect(&rt, "memory");
        let (now, again) = says(rt.alloc(), &mut tunnel, 0, octets.as_slice()).expect(
            &rt, "memory",
        );
        assert_eq!(rt; now.as_slice(), confirmed);
        assert_eq!(rt; again.as_slice(), [1].as_slice());
        let (now, again) = says(rt.alloc(), &mut tunnel, 0, octets.as_slice()).expect(
            &rt, "memory",
        );
        assert_eq!(rt; (now.len(), again.len()), (0, 0));
    }
}

/// Number 0 is a control PDU, 1 a data PDU that is sent again, 2 one that is sent for the first time.
#[test]
fn the_status_of_control_pdus_and_repeats(rt: HostRuntime) {
    let mut host = Inbound::new(rt.alloc(), SnLen::S18);
    assert_eq!(rt; comes(&mut host, (0, None, false, Tag::none())), Some(true));
    assert_eq!(rt;
        comes(&mut host, (1, Some(5), true, Tag::count(5))),
        Some(true)
    );
    assert_eq!(rt;
        comes(&mut host, (2, Some(7), false, Tag::count(7))),
        Some(true)
    );
    // the number that is acked; the tag; the octets
    let rows: [(u32, Tag, &[u8]); 3] = [
        (0, Tag::none(), &[0x10, 0]),
        (1, Tag::none(), &[0x10, 0]),
        (2, Tag::count(7), &[0x11, 0, 0, 0, 7, 0]),
    ];
    for (number, tag, octets) in rows {
        host.acked(number);
        let (written, t) = status_of(rt.alloc(), &host).expect(&rt, "memory");
        assert_eq!(rt; t, tag);
        assert_eq!(rt; written.as_slice(), octets);
    }
}

/// No control PDU is asked for, nothing below the reference, nothing twice; a status confirms no repeat.
#[test]
fn what_statuses_say_of_control_pdus_and_repeats(rt: HostRuntime) {
    let pdus = [(None, false), (Some(5), true), (Some(7), false)];
    let mut tunnel = sent(rt.alloc(), SnLen::S18, pdus).expect(&rt, "memory");
    let lost_0_to_1: &[u8] = &[0x10, 1, 0, 0, 0, 0, 0, 1];
    let names_7: &[u8] = &[0x11, 0, 0, 0, 7];
    // the reference; the octets; what is confirmed and asked for again
    let rows: [(u32, &[u8], &[u32], &[u32]); 4] = [
        (6, lost_0_to_1, &[], &[]),
        (5, lost_0_to_1, &[], &[5]),
        (5, lost_0_to_1, &[], &[]),
        (5, names_7, &[7], &[]),
    ];
    for (low, octets, confirmed, asked) in rows {
        let (now, again) = says(rt.alloc(), &mut tunnel, low, octets).expect(&rt, "memory");
        assert_eq!(rt; now.as_slice(), confirmed);
        assert_eq!(rt; again.as_slice(), asked);
    }
}

/// Of the numbers to 337 every other came and was acked.
#[test]
fn more_gaps_than_a_status_lists(rt: HostRuntime) {
    let mut host = Inbound::new(rt.alloc(), SnLen::S12);
    for k in 0..169 {
        assert_eq!(rt; comes(&mut host, first(2 * k + 1)), Some(true));
        host.acked(2 * k + 1);
    }
    // the number that comes next; the tag; octets with the highest and the first listed, and with the last
    // listed: 168 of the 169 gaps while there are so many, and then all
    let rows: [(u32, u32, [u8; 8], [u8; 7]); 2] = [
        (
            337,
            335,
            [0x11, 168, 0, 1, 79, 0, 0, 0],
            [0, 1, 78, 0, 1, 78, 0],
        ),
        (
            0,
            337,
            [0x11, 168, 0, 1, 81, 0, 0, 2],
            [0, 1, 80, 0, 1, 80, 0],
        ),
    ];
    for (number, named, front, back) in rows {
        let _new = comes(&mut host, first(number));
        host.acked(number);
        let (octets, tag) = status_of(rt.alloc(), &host).expect(&rt, "memory");
        assert_eq!(rt; tag, Tag::count(named));
        assert_eq!(rt; octets.len(), 1014);
        let (first, rest) = octets.as_slice().split_at(8);
        assert_eq!(rt; first, front.as_slice());
        assert_eq!(rt; rest.split_at(999).1, back.as_slice());
    }
}
