//! Identities of bearers, generations, tags and tunnel endpoints.

ghost use Rattle.std.specs.Prelude.{◌≡◌, ℕ, ◌+◌, ◌-◌, ◌*◌, ◌/◌, ◌%◌, ◌^◌, ◌<◌, ◌≤◌, ◌↔◌, IsSome, IfSome};
ghost use Rattle.dc_base.specs.Tunnel.{teid, teid_gen, teid_id, teid_kind};

use std::marker::Model;

/// A generation: a number, from 1, that the master draws for each change of a bearer.
pub type Gen = u32;

/// A data radio bearer identity, 1 to 32 (TS 38.331, DRB-Identity). Contracts see the number.
#[derive(Clone, Copy, Debug, PartialEq, Eq, PartialOrd, Ord, Hash)]
pub struct DrbId {
    number: u8,
}

impl Model for DrbId {
    ghost use Rattle.std.specs.Prelude.{ℕ, ◌≤◌};

    ghost Value = { ℕ };

    ghost view = { λ a. a.number };

    ghost invariant = { λ a. (1 ≤ a.number) × (a.number ≤ 32) };

    ghost inverse = { λ number. record { number = number } };
}

impl DrbId {
    /// The identity of this number: `None` exactly where it is not 1 to 32.
    pub fn new(number: u8) -> Option<DrbId>
        ensures some { IsSome result ↔ ((1 ≤ number) × (number ≤ 32)) }
        ensures value { IfSome result (λ id. id ≡ number) }
    {
        if number >= 1 && number <= 32 {
            Some(DrbId { number })
        } else {
            None
        }
    }

    /// The number, 1 to 32.
    pub fn get(&self) -> u8
        ensures value { result ≡ self.now }
        ensures least { 1 ≤ self.now }
        ensures most { self.now ≤ 32 }
    {
        self.number
    }
}

/// The COUNT that a flight carries beside its octets, or none. Nodes pass it on unread; the world reads it, to judge
/// whether a flight is aged.
#[derive(Clone, Copy, Debug, PartialEq, Eq)]
pub struct Tag {
    count: Option<u32>,
}

impl Model for Tag {
    ghost use Rattle.std.specs.Prelude.{ℕ, Option};

    ghost Value = { Option ℕ };

    ghost view = { λ a. a.count };

    ghost inverse = { λ count. record { count = count } };
}

impl Tag {
    /// No COUNT.
    pub fn none() -> Tag
        ensures { result ≡ None }
    {
        Tag { count: None }
    }

    /// This COUNT.
    pub fn count(c: u32) -> Tag
        ensures { result ≡ Some c }
    {
        Tag { count: Some(c) }
    }

    /// The COUNT, if there is one.
    pub fn get(&self) -> Option<u32>
        ensures { result ≡ self.now }
    {
        self.count
    }
}

/// The TEID of a generation (below 2^24), a bearer and a kind of traffic (below 4): 0 for the bearer's own,
/// 1 for downlink forwarding, 2 for uplink forwarding (TS 29.281, 5.1; the rule is this product's own).
pub fn teid_of(g: Gen, id: DrbId, kind: u8) -> u32
    requires generation { g < 2 ^ 24 }
    requires kind { kind < 4 }
    ensures { result ≡ teid g id kind }
{
    let number = id.get();
    g * 128 + (number as u32 - 1) * 4 + kind as u32
}

/// The generation, the bearer and the kind of any TEID.
pub fn teid_parts(teid: u32) -> (Gen, DrbId, u8)
    ensures generation { result.0 ≡ teid_gen teid }
    ensures identity { result.1 ≡ teid_id teid }
    ensures kind { result.2 ≡ teid_kind teid }
{
    let id = DrbId {
        number: 1 + ((teid % 128) / 4) as u8,
    };
    (teid / 128, id, (teid % 4) as u8)
}
