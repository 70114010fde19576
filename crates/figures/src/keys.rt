//! A book of keys with many roots and claims.

use dc_base::{DrbId, KeyName, Memory, Side};
use key_chain::KeyBook;
use std::alloc::Global;

/// How many roots are noted.
const ROOTS: u32 = 200_000;

/// How many roots have their key claimed by each identity: five million claims.
const CLAIMED_ROOTS: u32 = 156_250;

/// The octets of a root.
fn root_of(number: u32) -> [u8; 32] {
    let mut root = [0; 32];
    root[..4].copy_from_slice(&number.to_be_bytes());
    root
}

/// Notes the roots after the first.
fn note_roots(book: &mut KeyBook) -> Result<(), Memory> {
    for number in 1..ROOTS {
        if book.roots_noted() < ROOTS as usize {
            book.refresh(&root_of(number)).map_err(|_| Memory)?;
        }
    }
    Ok(())
}

/// Each identity claims the master's key of a root. How many claims there are.
fn claim(book: &mut KeyBook, root: u32) -> Result<u64, Memory> {
    let key = KeyName {
        root,
        side: Side::Master,
    };
    let mut claims: u64 = 0;
    for number in 1..=32u8 {
        if let Some(id) = DrbId::new(number) {
            book.claim(id, root, &key).map_err(|_| Memory)?;
            claims = claims.saturating_add(1);
        }
    }
    Ok(claims)
}

/// The keys of many roots are claimed by all identities. How many claims there are.
fn claim_all(book: &mut KeyBook) -> Result<u64, Memory> {
    let mut claims: u64 = 0;
    for root in 0..CLAIMED_ROOTS {
        claims = claims.saturating_add(claim(book, root)?);
    }
    Ok(claims)
}

/// 200,000 roots are noted, and 32 identities claim five million keys. How many roots and claims there are.
pub(crate) fn claimed(alloc: Global) -> Result<u64, Memory> {
    let mut book = KeyBook::new(alloc, &root_of(0), 0).map_err(|_| Memory)?;
    note_roots(&mut book)?;
    let claims = claim_all(&mut book)?;
    Ok(claims.saturating_add(book.roots_noted() as u64))
}
