//! The two legs of a bearer with many PDUs outstanding.

ghost use Rattle.std.specs.Prelude.{◌≡◌, ◌+◌};
ghost use Rattle.split_leg.specs.Legs.{volume};

use dc_base::{Cell, LegSet, Memory, Shape};
use split_leg::Legs;
use std::alloc::Global;

/// How many data PDUs are outstanding on each leg: a whole window of 18 bits (TS 38.323, 7.2).
const DATA: u32 = 131_072;

/// How many control PDUs stand before them on the MCG leg; their acks do not come.
const CONTROL: u32 = 1_000;

/// How many octets each PDU has.
const OCTETS: usize = 1_400;

/// Puts a PDU on a leg.
fn put(legs: &mut Legs, cell: Cell, count: Option<u32>) -> Result<(), Memory> {
    if legs.next_num(cell) < u32::MAX {
        legs.sent(cell, count, OCTETS)?;
    }
    Ok(())
}

/// Puts the control PDUs on the MCG leg, and then each data PDU on both.
fn put_all(legs: &mut Legs) -> Result<(), Memory> {
    for _number in 0..CONTROL {
        legs.begin_send();
        put(legs, Cell::Mcg, None)?;
    }
    for count in 0..DATA {
        legs.begin_send();
        put(legs, Cell::Mcg, Some(count))?;
        put(legs, Cell::Scg, Some(count))?;
    }
    Ok(())
}

/// The octets that are outstanding on both legs.
fn volume(legs: &Legs) -> u64
    ensures { result ≡ volume legs.now.mcg.pdus + volume legs.now.scg.pdus }
{
    legs.volume(Cell::Mcg) + legs.volume(Cell::Scg)
}

/// In no order the COUNTs are acked on one leg and settled on both. The octets outstanding after each, added up.
fn settle_all(legs: &mut Legs) -> u64 {
    let mut sum: u64 = 0;
    for turn in 0..DATA {
        let count = (u64::from(turn) * 48_271 % u64::from(DATA)) as u32;
        let _count = legs.acked(Cell::Mcg, CONTROL + count);
        legs.settled_one(count);
        sum = sum.saturating_add(volume(legs));
    }
    sum
}

/// The acks of the other leg come, and the least COUNT that is not confirmed rises by one with each. The octets outstanding after
/// each, added up.
fn ack_all(legs: &mut Legs) -> u64 {
    let mut sum: u64 = 0;
    for count in 0..DATA {
        let _count = legs.acked(Cell::Scg, count);
        legs.settled(count + 1);
        sum = sum.saturating_add(volume(legs));
    }
    sum
}

/// A window of data PDUs is outstanding on both legs, with control PDUs whose acks do not come; one by one they are acked and
/// settled. The octets outstanding after each step, added up.
pub(crate) fn settled(alloc: Global) -> Result<u64, Memory> {
    let shape = Shape {
        at_second: false,
        legs: LegSet::Split(Cell::Mcg),
        dup: true,
    };
    let mut legs = Legs::new(alloc, shape, 0, 0);
    put_all(&mut legs)?;
    let settling = settle_all(&mut legs);
    Ok(settling.saturating_add(ack_all(&mut legs)))
}
