//! The receiving entity (TS 38.323, 5.2.2).

ghost use Rattle.std.specs.Prelude.{◌≡◌, ℕ, ◌+◌, ◌-◌, ◌<◌, ◌^◌, [], IfOk, OnErr};
ghost use Rattle.dc_base.specs.Count.{window};
ghost use Rattle.pdcp_pdu.specs.StatusReport.{NamesReceived, report_pdu, sent_set};
ghost use Rattle.pdcp_rx.specs.Entries.{counts_of, past_greatest};
ghost use Rattle.pdcp_rx.specs.Receiver.{IsInOrder, put};

use super::ring::{Ring, counts, first_gap, insert, is_held, take_all, take_first};
use dc_base::{Memory, Octets, Seq, SnLen};
use pdcp_pdu::encode_report;
use std::alloc::Global;
use std::cmp::Ordering;
use std::marker::Model;

/// All that a receiving entity holds: what one that freezes hands on, and what contracts see of one.
#[derive(Debug, Drop)]
pub struct RxParts {
    /// The length of the sequence numbers, which gives the window.
    pub n: SnLen,
    /// RX_DELIV, the first COUNT that was not handed up.
    pub deliv: u32,
    /// The SDUs that came out of order, each with its COUNT, in ascending COUNT.
    pub stored: Seq<(u32, Octets)>,
}

/// What became of a received SDU.
#[derive(Debug, Drop)]
pub enum Put {
    /// It was new. The SDUs that it let go up, in ascending COUNT, have left the entity.
    Stored {
        /// The SDUs that are handed up, each with its COUNT.
        handed: Seq<(u32, Octets)>,
    },
    /// It was handed up before: its COUNT is below RX_DELIV.
    Old {
        /// RX_DELIV.
        deliv: u32,
    },
    /// It is stored already.
    Again,
}

/// The receiving entity of one bearer. Contracts see it as its parts.
#[derive(Drop)]
pub struct Rx {
    n: SnLen,
    deliv: u32,
    next: u32,
    ring: Ring,
    alloc: Global,
}

impl Model for Rx {
    ghost use Rattle.pdcp_rx.specs.declared.entity.RxParts.{RxParts};
    ghost use Rattle.pdcp_rx.specs.Ring.{ring_from, IsKept};

    ghost Value = { RxParts };

    ghost view = { λ a. record { n = a.n; deliv = a.deliv; stored = ring_from a.ring a.deliv } };

    ghost invariant = { λ a. IsKept (record { n = a.n; deliv = a.deliv; stored = ring_from a.ring a.deliv }) a.next };
}

impl Rx {
    /// An entity that waits for the SDU with the COUNT `first`.
    pub fn new(alloc: Global, n: SnLen, first: u32) -> Rx
        ensures { result ≡ record { n = n; deliv = first; stored = [] } }
    {
        Rx {
            n,
            deliv: first,
            next: first,
            ring: Ring::new(alloc),
            alloc,
        }
    }

    /// RX_DELIV, the first COUNT that was not handed up.
    pub fn deliv(&self) -> u32
        ensures deliv { result ≡ self.now.deliv }
        ensures in_order { IsInOrder self.now }
    {
        self.deliv
    }

    /// RX_NEXT: 1 + the greatest COUNT stored, or RX_DELIV with nothing stored.
    pub fn next(&self) -> u32
        ensures { result ≡ past_greatest self.now.deliv self.now.stored }
    {
        self.next
    }

    /// The COUNTs of the stored SDUs, ascending.
    pub fn stored(&self) -> Result<Seq<u32>, Memory>
        ensures { IfOk result (λ counts. counts ≡ counts_of self.now.stored) }
    {
        let counts = counts(self.alloc, &self.ring, self.deliv)?;
        Ok(Seq::from_vec(counts))
    }

    /// The status report of RX_DELIV and the COUNTs stored (TS 38.323, 5.4.1 and 6.2.3.1), cut at 9000 octets.
    pub fn report(&self) -> Result<Octets, Memory>
        ensures octets { IfOk result (λ octets. octets ≡ report_pdu self.now.deliv (counts_of self.now.stored)) }
        ensures names { IfOk result (NamesReceived self.now.deliv (sent_set self.now.deliv (counts_of self.now.stored))) }
    {
        encode_report(self.alloc, self.deliv, &self.stored()?)
    }

    /// Takes a deciphered SDU with its COUNT, which is below 2^32 - 1 and below RX_DELIV + Window_Size
    /// (TS 38.323, 5.2.2.1). After `Memory` the entity is as before.
    pub fn put(&mut self, count: u32, sdu: Octets) -> Result<Put, Memory>
        requires not_last { count < 2 ^ 32 - 1 }
        requires in_window { count < self.old.deliv + window self.old.n }
        ensures ok { IfOk result (λ answer. (self.new, answer) ≡ put self.old count sdu) }
        ensures err { OnErr result (self.new ≡ self.old) }
    {
        match count.cmp(&self.deliv) {
            Ordering::Less => Ok(Put::Old { deliv: self.deliv }),
            Ordering::Equal => self.hand_up(sdu),
            Ordering::Greater => self.store(count, sdu),
        }
    }

    /// The SDU at RX_DELIV goes up, with the stored ones that follow it without a gap. After `Memory` the entity is as
    /// before.
    fn hand_up(&mut self, sdu: Octets) -> Result<Put, Memory>
        requires { self.old.deliv < 2 ^ 32 - 1 }
        ensures ok { IfOk result (λ answer. (self.new, answer) ≡ put self.old self.old.deliv sdu) }
        ensures err { OnErr result (self.new ≡ self.old) }
    {
        let first = self.deliv + 1;
        let gap = first_gap(&self.ring, first);
        let number = (gap - self.deliv) as usize;
        let mut handed = Vec::with_capacity(self.alloc, number)?;
        handed.push((self.deliv, sdu)).unwrap();
        take_first(&mut self.ring, first, number - 1, &mut handed);
        self.deliv = gap;
        self.next = self.next.max(gap);
        Ok(Put::Stored {
            handed: Seq::from_vec(handed),
        })
    }

    /// An SDU above RX_DELIV waits for those before it. After `Memory` the entity is as before.
    fn store(&mut self, count: u32, sdu: Octets) -> Result<Put, Memory>
        requires above { self.old.deliv < count }
        requires not_last { count < 2 ^ 32 - 1 }
        requires in_window { count < self.old.deliv + window self.old.n }
        ensures ok { IfOk result (λ answer. (self.new, answer) ≡ put self.old count sdu) }
        ensures err { OnErr result (self.new ≡ self.old) }
    {
        if is_held(&self.ring, self.deliv as usize, count as usize) {
            return Ok(Put::Again);
        }
        insert(self.alloc, &mut self.ring, self.deliv, count, sdu)?;
        self.next = self.next.max(count + 1);
        Ok(Put::Stored {
            handed: Seq::new(self.alloc),
        })
    }

    /// Ends the entity and gives its parts, for the entity that goes on from them.
    pub fn freeze(self) -> Result<RxParts, Memory>
        ensures parts { IfOk result (λ parts. parts ≡ self) }
        ensures in_order { IfOk result IsInOrder }
    {
        let mut ring = self.ring;
        Ok(RxParts {
            n: self.n,
            deliv: self.deliv,
            stored: Seq::from_vec(take_all(self.alloc, &mut ring, self.deliv)?),
        })
    }

    /// An entity with these parts. The stored COUNTs ascend above RX_DELIV, and are below 2^32 - 1 and below
    /// RX_DELIV + Window_Size, as `freeze` gives them.
    pub fn adopt(alloc: Global, parts: RxParts) -> Result<Rx, Memory>
        requires { IsInOrder parts }
        ensures { IfOk result (λ rx. rx ≡ parts) }
    {
        let mut next = parts.deliv;
        let mut ring = Ring::new(alloc);
        for (count, sdu) in parts.stored.into_vec() {
            insert(alloc, &mut ring, parts.deliv, count, sdu)?;
            next = next.max(count + 1);
        }
        Ok(Rx {
            n: parts.n,
            deliv: parts.deliv,
            next,
            ring,
            alloc,
        })
    }
}
