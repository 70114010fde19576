//! The legs of a bearer in one generation.

ghost use Rattle.std.specs.Prelude.{◌≡◌, ◌<◌, ◌≤◌, ◌+◌, ◌-◌, ◌^◌, [], false, true, length, IfOk, OnOk, OnErr};
ghost use Rattle.split_leg.specs.Legs.{LegsState, acked_count, is_repeat, leg_at, settled_on_both, volume, with_ack, with_leg, with_pdu, with_send};
ghost use Rattle.split_leg.specs.Routes.{cell_of, data_route, has_leg, is_live, primary_of, route_of};
ghost use Rattle.split_leg.specs.Stored.{margins};

use crate::leg::Leg;
use crate::policies::{Choice, Policies};
use dc_base::{Cell, LegSet, Memory, Shape};
use std::alloc::Global;
use std::marker::Model;

/// The legs to which a PDU goes.
#[derive(Clone, Copy, Debug, PartialEq, Eq)]
pub enum Route {
    /// No leg is live.
    None,
    One(Cell),
    /// Both, under duplication (TS 38.323, 5.11.1).
    Both,
}

/// How a PDU was put on a leg.
#[derive(Clone, Copy, Debug, PartialEq, Eq)]
pub struct SentAs {
    /// Its number on the leg, from 0 in each generation.
    pub num: u32,
    /// An earlier send put a PDU of its COUNT on a leg of this generation.
    pub repeat: bool,
}

/// The legs of a bearer in one generation and one direction: the PDUs that were put on each, and which
/// failed.
#[derive(Debug, Drop)]
pub struct Legs {
    shape: Shape,
    threshold: u32,
    policy: u8,
    mcg: Leg,
    scg: Leg,
}

impl Model for Legs {
    ghost use Rattle.split_leg.specs.Legs.{LegsState};

    ghost Value = { LegsState };

    ghost view = { λ a. record { shape = a.shape; threshold = a.threshold; policy = a.policy; mcg = a.mcg; scg = a.scg } };
}

impl Legs {
    /// Live legs on which nothing was put. The threshold is in octets, and `policy` is the number of the
    /// stored policy. It takes no memory.
    pub fn new(alloc: Global, shape: Shape, threshold: u32, policy: u8) -> Legs
        ensures { result ≡ record { shape = shape; threshold = threshold; policy = policy; mcg = record { pdus = []; before = 0; failed = false }; scg = record { pdus = []; before = 0; failed = false } } }
    {
        Legs {
            shape,
            threshold,
            policy,
            mcg: Leg::new(alloc),
            scg: Leg::new(alloc),
        }
    }

    /// The shape of the bearer.
    pub fn shape(&self) -> Shape
        ensures { result ≡ self.now.shape }
    {
        self.shape
    }

    /// Whether the bearer has the leg.
    pub fn has_leg(&self, cell: Cell) -> bool
        ensures { result ≡ has_leg self.now.shape.legs cell }
    {
        has_leg(self.shape.legs, cell)
    }

    /// Whether the leg was marked as failed.
    pub fn has_failed(&self, cell: Cell) -> bool
        ensures { result ≡ (leg_at self.now cell).failed }
    {
        match cell {
            Cell::Mcg => self.mcg.is_failed(),
            Cell::Scg => self.scg.is_failed(),
        }
    }

    /// Whether the bearer has the leg, and it did not fail.
    pub fn is_live(&self, cell: Cell) -> bool
        ensures { result ≡ is_live self.now cell }
    {
        self.has_leg(cell) && !self.has_failed(cell)
    }

    /// To which legs the next PDU goes (TS 38.323, 5.2.1 and 5.11.1).
    pub fn route(&self, policies: &Policies, is_data: bool) -> Route
        ensures { result ≡ route_of self.now (margins policies.now) is_data }
    {
        match (self.is_live(Cell::Mcg), self.is_live(Cell::Scg)) {
            (false, false) => Route::None,
            (true, false) => Route::One(Cell::Mcg),
            (false, true) => Route::One(Cell::Scg),
            (true, true) => {
                if is_data {
                    self.data_route(policies)
                } else {
                    Route::One(self.primary())
                }
            }
        }
    }

    /// The route of a data PDU where both legs are live.
    fn data_route(&self, policies: &Policies) -> Route
        ensures { result ≡ data_route self.now (margins policies.now) }
    {
        let mcg = self.mcg.volume();
        let scg = self.scg.volume();
        if self.shape.dup {
            Route::Both
        } else if mcg + scg < self.threshold as u64 {
            Route::One(self.primary())
        } else {
            match policies.choose(self.policy as usize, mcg, scg) {
                Choice::Mcg => Route::One(Cell::Mcg),
                Choice::Scg => Route::One(Cell::Scg),
            }
        }
    }

    /// The primary leg, or the only one.
    fn primary(&self) -> Cell
        ensures { result ≡ primary_of self.now.shape.legs }
    {
        match self.shape.legs {
            LegSet::Mcg => Cell::Mcg,
            LegSet::Scg => Cell::Scg,
            LegSet::Split(primary) => primary,
        }
    }

    /// Begins the next send: a PDU of a COUNT that was put on a leg before is a repeat from now on.
    pub fn begin_send(&mut self)
        ensures { self.new ≡ with_send self.old }
    {
        self.mcg.begin_send();
        self.scg.begin_send();
    }

    /// How many PDUs were put on a leg: the number that the next one gets. `sent` may be called while it is below
    /// 2^32 - 1.
    pub fn next_num(&self, cell: Cell) -> u32
        ensures { result ≡ length (leg_at self.now cell).pdus }
    {
        match cell {
            Cell::Mcg => self.mcg.next_num(),
            Cell::Scg => self.scg.next_num(),
        }
    }

    /// Puts a PDU of `len` octets, at most 65,535, on a leg: a data PDU of this COUNT, or a control PDU.
    /// After `Memory` all is as before.
    pub fn sent(&mut self, cell: Cell, count: Option<u32>, len: usize) -> Result<SentAs, Memory>
        requires fewer { length (leg_at self.old cell).pdus < 2 ^ 32 - 1 }
        requires octets { len ≤ 65535 }
        ensures answer { IfOk result (λ sent. sent ≡ record { num = length (leg_at self.old cell).pdus; repeat = is_repeat self.old count }) }
        ensures ok { OnOk result (self.new ≡ with_leg self.old cell (with_pdu (leg_at self.old cell) count len (is_repeat self.old count))) }
        ensures err { OnErr result (self.new ≡ self.old) }
    {
        let repeat = self.is_repeat(count);
        match cell {
            Cell::Mcg => {
                let num = self.mcg.put(count, len, repeat)?;
                Ok(SentAs { num, repeat })
            }
            Cell::Scg => {
                let num = self.scg.put(count, len, repeat)?;
                Ok(SentAs { num, repeat })
            }
        }
    }

    /// Whether an earlier send put a PDU of this COUNT on a leg.
    fn is_repeat(&self, count: Option<u32>) -> bool
        ensures { result ≡ is_repeat self.now count }
    {
        match count {
            Some(count) => self.mcg.put_before(count) || self.scg.put_before(count),
            None => false,
        }
    }

    /// Takes the ack of a PDU, and answers its COUNT: `None` exactly for a control PDU, a number that was not
    /// given, or one whose ack came before.
    pub fn acked(&mut self, cell: Cell, num: u32) -> Option<u32>
        ensures count { result ≡ acked_count (leg_at self.old cell).pdus num }
        ensures after { self.new ≡ with_leg self.old cell (with_ack (leg_at self.old cell) num) }
    {
        match cell {
            Cell::Mcg => self.mcg.acked(num),
            Cell::Scg => self.scg.acked(num),
        }
    }

    /// All COUNTs below `low` are confirmed.
    pub fn settled(&mut self, low: u32)
        ensures { self.new ≡ settled_on_both 0 low self.old }
    {
        self.mcg.settle(0, low as u64);
        self.scg.settle(0, low as u64);
    }

    /// This COUNT is confirmed.
    pub fn settled_one(&mut self, count: u32)
        ensures { self.new ≡ settled_on_both count (count + 1) self.old }
    {
        self.mcg.settle(count, count as u64 + 1);
        self.scg.settle(count, count as u64 + 1);
    }

    /// Marks a leg as failed.
    pub fn fail(&mut self, cell: Cell)
        ensures { self.new ≡ with_leg self.old cell (record (leg_at self.old cell) { failed = true }) }
    {
        match cell {
            Cell::Mcg => self.mcg.fail(),
            Cell::Scg => self.scg.fail(),
        }
    }

    /// The volume of a leg: the octets of its PDUs that are no repeats, whose ack has not come and whose COUNT
    /// is not confirmed. It is below 2^48.
    pub fn volume(&self, cell: Cell) -> u64
        ensures volume { result ≡ volume (leg_at self.now cell).pdus }
        ensures bound { result < 2 ^ 48 }
    {
        match cell {
            Cell::Mcg => self.mcg.volume(),
            Cell::Scg => self.scg.volume(),
        }
    }
}

/// Whether a bearer of these legs has this one.
fn has_leg(legs: LegSet, cell: Cell) -> bool
    ensures { result ≡ has_leg legs cell }
{
    match legs {
        LegSet::Mcg => cell == Cell::Mcg,
        LegSet::Scg => cell == Cell::Scg,
        LegSet::Split(_) => true,
    }
}
