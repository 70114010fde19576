//! The SDUs that an entity keeps, lent out one after another.

ghost use Rattle.std.specs.Iterator.{YieldsFirstBy, item_count};

use crate::kept::{Kept, is_live};
use std::marker::Model;

/// The SDUs that are not confirmed, each with its COUNT, in ascending COUNT. Contracts see the list of those that
/// are left.
#[derive(Drop)]
pub struct KeptSdus<'a> {
    slots: &'a Kept,
    next: u32,
    place: usize,
}

impl<'a> Model for KeptSdus<'a> {
    ghost use Rattle.std.specs.Prelude.{List, drop};
    ghost use Rattle.pdcp_tx.specs.Sender.{Entry};
    ghost use Rattle.pdcp_tx.specs.Slots.{live};

    ghost Value = { List Entry };

    ghost view = { λ a. live a.next (drop a.place a.slots.now.items) };
}

impl<'a> KeptSdus<'a> {
    ghost use Rattle.std.specs.Prelude.{◌≡◌};
    ghost use Rattle.pdcp_tx.specs.Slots.{live};

    /// Those in these slots, of an entity whose TX_NEXT is `next`.
    pub(crate) fn of(slots: &'a Kept, next: u32) -> KeptSdus<'a>
        ensures { result ≡ live next slots.now.items }
    {
        KeptSdus {
            slots,
            next,
            place: 0,
        }
    }
}

impl<'a> Iterator for KeptSdus<'a> {
    type Item = (u32, &'a [u8]);

    ghost next_gives = { YieldsFirstBy (λ entry. (entry.0, entry.1.now)) (λ rest. rest) };

    ghost remaining = { item_count (λ rest. rest) };

    fn next(&mut self) -> Option<(u32, &'a [u8])> {
        while let Some((mark, sdu)) = self.slots.get(self.place) {
            self.place += 1;
            if is_live(self.next, *mark) {
                return Some((*mark, sdu.as_slice()));
            }
        }
        None
    }
}
