//! Both ends of a tunnel, where many packets are lost.

ghost use Rattle.std.specs.Prelude.{◌≡◌, ◌+◌, ◌<◌, ◌^◌, OnOk};

use dc_base::{Memory, SnLen, Tag};
use nr_u::{Frame, Inbound, Outbound};
use std::alloc::Global;

/// How many numbers are lost in one run.
const LOST: u32 = 100_000;

/// How many numbers are lost of which the ones beside them come.
const GAPS: u32 = 130_000;

/// Sends the PDUs of a run that is lost, and one more.
fn send_run(outbound: &mut Outbound) -> Result<(), Memory>
    requires { outbound.old.next ≡ 0 }
    ensures { OnOk result (outbound.new.next ≡ LOST + 1) }
{
    for count in 0..LOST + 1 {
        outbound.sent(Some(count), false)?;
    }
    Ok(())
}

/// A number comes and is acked, and the delivery status of it is taken: how many COUNTs it confirms and asks for again.
#[tactic(auto, unfolding(dc_base::specs::Count::modulus))]
fn come(
    outbound: &mut Outbound,
    inbound: &mut Inbound,
    number: u32,
    count: u32,
    repeat: bool,
) -> Result<usize, Memory>
    requires number { number < 2 ^ 24 }
    requires count { count < 2 ^ 18 }
    requires length { inbound.old.n ≡ SnLen.S18 }
    ensures length { OnOk result (inbound.new.n ≡ SnLen.S18) }
    ensures next { OnOk result (outbound.new.next ≡ outbound.old.next) }
{
    inbound.came(number, Some(count), repeat, Tag::count(count))?;
    inbound.acked(number);
    let (frame, _) = inbound.status()?;
    let verdict = outbound.on_status(0, &frame)?;
    Ok(verdict.confirmed.len().saturating_add(verdict.again.len()))
}

/// The PDUs of the run are sent again one by one.
fn send_again(outbound: &mut Outbound, inbound: &mut Inbound) -> Result<u64, Memory>
    requires next { outbound.old.next ≡ LOST + 1 }
    requires length { inbound.old.n ≡ SnLen.S18 }
{
    let mut told: u64 = 0;
    for count in 0..LOST {
        let number = outbound.sent(Some(count), true)?;
        let more = come(outbound, inbound, number, count, true)?;
        told = told.saturating_add(more as u64);
    }
    Ok(told)
}

/// 100,000 numbers are lost in one run; their PDUs are sent again under later numbers, which come and are acked one by one, with a
/// delivery status after each. How many COUNTs the statuses confirmed or asked for again.
pub(crate) fn lost_run(alloc: Global) -> Result<u64, Memory> {
    let mut outbound = Outbound::new(alloc, SnLen::S18);
    let mut inbound = Inbound::new(alloc, SnLen::S18);
    send_run(&mut outbound)?;
    let first = come(&mut outbound, &mut inbound, LOST, LOST, false)?;
    let later = send_again(&mut outbound, &mut inbound)?;
    Ok(later.saturating_add(first as u64))
}

/// A number comes and is acked. How many gaps the delivery status of it lists.
#[tactic(auto, unfolding(dc_base::specs::Count::modulus))]
fn listed_after(inbound: &mut Inbound, number: u32, sn: u32) -> Result<u64, Memory>
    requires number { number < 2 ^ 24 }
    requires sn { sn < 2 ^ 18 }
    requires length { inbound.old.n ≡ SnLen.S18 }
    ensures length { OnOk result (inbound.new.n ≡ SnLen.S18) }
{
    inbound.came(number, Some(sn), false, Tag::count(sn))?;
    inbound.acked(number);
    match inbound.status()? {
        (Frame::Status { lost, .. }, _) => Ok(lost.len() as u64),
        (Frame::User { .. }, _) => Ok(0),
    }
}

/// Each second number comes and is acked.
fn open_gaps(inbound: &mut Inbound) -> Result<(), Memory>
    requires { inbound.old.n ≡ SnLen.S18 }
    ensures { OnOk result (inbound.new.n ≡ SnLen.S18) }
{
    for gap in 0..GAPS {
        inbound.came(2 * gap + 1, None, false, Tag::none())?;
        inbound.acked(2 * gap + 1);
    }
    Ok(())
}

/// The other numbers come, in no order. How many gaps the delivery statuses list together.
fn close_gaps(inbound: &mut Inbound) -> Result<u64, Memory>
    requires { inbound.old.n ≡ SnLen.S18 }
{
    let mut listed: u64 = 0;
    for turn in 0..GAPS {
        let gap = (u64::from(turn) * 48_271 % u64::from(GAPS)) as u32;
        listed = listed.saturating_add(listed_after(inbound, 2 * gap, gap)?);
    }
    Ok(listed)
}

/// 130,000 numbers are lost, each between two that come; then they come too, in no order, with a delivery status after each.
/// How many gaps the statuses list together.
pub(crate) fn closing_gaps(alloc: Global) -> Result<u64, Memory> {
    let mut inbound = Inbound::new(alloc, SnLen::S18);
    open_gaps(&mut inbound)?;
    close_gaps(&mut inbound)
}
