//! The book of root keys, SN Counters and claims (TS 33.501, 6.10.2.1 and 6.10.3.1).

ghost use Rattle.std.specs.Prelude.{◌≡◌, ◌<◌, ◌≤◌, ◌↔◌, ◌⊎◌, ◌^◌, ◌-◌, [], ◌∷◌, length, not, IsTrue, IfOk, IfErr, OnOk, OnErr, IsErrOf};
ghost use Rattle.key_chain.specs.Book.{Book, counters_drawn, HasOneClaimant, IsDrawn, is_noted, is_spent, next_name, noting, with_claim, with_next_drawn};
ghost use Rattle.key_chain.specs.KeyNames.{octets};
ghost use Rattle.key_chain.specs.declared.key_book.KeyErr.TheVariants as errors;

use crate::derive::k_sn;
use dc_base::{DrbId, Gen, KeyName, Side};
use indexmap::IndexMap;
use std::alloc::{AllocFailed, Global};
use std::marker::Model;
use thiserror::Error;

/// Why the book gives no key, or notes none.
#[derive(Clone, Copy, Debug, PartialEq, Eq, Error)]
pub enum KeyErr {
    /// SN Counter 65,535 of the current root was drawn (TS 33.501, 6.10.3.1).
    #[error("the SN counters of the root are spent")]
    CounterSpent,
    /// The root was noted before, and its SN Counters would start again.
    #[error("the root was used before")]
    RootUsed,
    /// Another establishment of the bearer identity claimed the key: COUNTs would come again under one key and
    /// identity (TS 38.331, 5.3.1.2; TS 33.501, 6.10.2.1).
    #[error("the key was used for this identity before")]
    IdSpent,
    /// There was no memory.
    #[error("out of memory")]
    Memory,
}

impl<T: Drop> From<AllocFailed<T>> for KeyErr {
    ghost from_gives = { λ _ e. e ≡ errors.Memory };

    fn from(_e: AllocFailed<T>) -> KeyErr {
        KeyErr::Memory
    }
}

/// What is claimed: a key for a bearer identity.
#[derive(Clone, Copy, Debug, PartialEq, Eq, Hash)]
struct KeyOfId {
    id: DrbId,
    key: KeyName,
}

/// The root keys in the order noted, numbered from 0; how many SN Counters of each were drawn; which
/// root is current; and which establishment of which bearer identity claimed which key.
#[derive(Debug, Drop)]
pub struct KeyBook {
    /// The octets of each root, with how many of its SN Counters were drawn, 0 to 65,536.
    roots: IndexMap<[u8; 32], u32>,
    /// The number of the current root.
    current: u32,
    /// The establishment that claimed a key for a bearer identity, in the order of the claims.
    claims: IndexMap<KeyOfId, Gen>,
}

impl Model for KeyBook {
    ghost use Rattle.std.specs.Prelude.{◌<◌, length};
    ghost use Rattle.key_chain.specs.Book.{Book, HasOneClaimant};
    ghost use Rattle.key_chain.specs.BookOfMaps.{book_of, claims_of};

    ghost Value = { Book };

    ghost view = { λ a. book_of a.roots.entries a.current a.claims.entries };

    ghost invariant = { λ a. (a.current < length a.roots.entries) × HasOneClaimant (claims_of a.claims.entries) };
}

impl KeyBook {
    /// A book with the root number 0, which is current, and no claim. `used` of its SN Counters, at most
    /// 65,536, were drawn before. It answers `Memory` alone.
    pub fn new(alloc: Global, root: &[u8; 32], used: u32) -> Result<KeyBook, KeyErr>
        requires { used ≤ 65536 }
        ensures ok { IfOk result (λ book. book ≡ record { roots = root.now ∷ []; drawn = used ∷ []; current = 0; claims = [] }) }
        ensures err { IfErr result (λ e. e ≡ KeyErr.Memory) }
    {
        let mut roots = IndexMap::new(alloc);
        roots.insert(*root, used)?;
        Ok(KeyBook {
            roots,
            current: 0,
            claims: IndexMap::new(alloc),
        })
    }

    /// The number of the current root.
    pub fn current(&self) -> u32
        ensures number { result ≡ self.now.current }
        ensures noted { self.now.current < length self.now.roots }
    {
        self.current
    }

    /// How many roots were noted: the number that the next one gets.
    pub fn roots_noted(&self) -> usize
        ensures { result ≡ length self.now.roots }
    {
        self.roots.len()
    }

    /// Whether a root of these octets was noted.
    pub fn is_noted(&self, root: &[u8; 32]) -> bool
        ensures { result ≡ is_noted self.now.roots root.now }
    {
        self.roots.contains_key(root)
    }

    /// How many SN Counters of the current root were drawn.
    pub fn counters_drawn(&self) -> u32
        ensures { result ≡ counters_drawn self.now self.now.current }
    {
        self.roots[self.current as usize]
    }

    /// Draws the next SN Counter of the current root: 0 for its first K_SN, and one more for each further
    /// one. `CounterSpent` exactly where counter 65,535 was drawn (TS 33.501, 6.10.3.1).
    pub fn next_sn(&mut self) -> Result<KeyName, KeyErr>
        ensures name { IfOk result (λ name. name ≡ next_name self.old) }
        ensures drawn { OnOk result (self.new ≡ with_next_drawn self.old) }

        // A name is drawn once.
        ensures not_before { IfOk result (λ name. IsDrawn self.old name → ⊥) }
        ensures from_now_on { IfOk result (λ name. IsDrawn self.new name) }

        ensures spent { IsErrOf result KeyErr.CounterSpent ↔ (65536 ≤ counters_drawn self.old self.old.current) }
        ensures only { IfErr result (λ e. e ≡ KeyErr.CounterSpent) }
        ensures err { OnErr result (self.new ≡ self.old) }
    {
        let number = self.current;
        let drawn = self.roots[number as usize];
        let Ok(counter) = u16::try_from(drawn) else {
            return Err(KeyErr::CounterSpent);
        };
        self.roots[number as usize] = drawn + 1;
        Ok(KeyName {
            root: number,
            side: Side::Second(counter),
        })
    }

    /// Notes a root and answers its number, which is one more than the last one's. The current root stays.
    /// `RootUsed` exactly where these octets were noted before.
    pub fn refresh(&mut self, root: &[u8; 32]) -> Result<u32, KeyErr>
        requires { length self.old.roots < 2 ^ 32 - 1 }
        ensures number { IfOk result (λ number. number ≡ length self.old.roots) }
        ensures noted { OnOk result (self.new ≡ noting self.old root.now) }
        ensures used { IsErrOf result KeyErr.RootUsed ↔ IsTrue (is_noted self.old.roots root.now) }
        ensures only { IfErr result (λ e. (e ≡ KeyErr.RootUsed) ⊎ (e ≡ KeyErr.Memory)) }
        ensures err { OnErr result (self.new ≡ self.old) }
    {
        if self.roots.contains_key(root) {
            return Err(KeyErr::RootUsed);
        }
        let number = self.roots.len() as u32;
        self.roots.insert(*root, 0)?;
        Ok(number)
    }

    /// Makes a noted root the current one. Its counters go on where they were.
    pub fn set_current(&mut self, root: u32)
        requires { root < length self.old.roots }
        ensures { self.new ≡ record self.old { current = root } }
    {
        self.current = root;
    }

    /// Whether this establishment may use the key: no other establishment of the identity claimed it.
    pub fn may_claim(&self, id: DrbId, est: Gen, key: &KeyName) -> bool
        ensures free { result ≡ not (is_spent self.now.claims id est key.now) }
        ensures one { HasOneClaimant self.now.claims }
    {
        match self.claims.get(&KeyOfId { id, key: *key }) {
            Some(claimant) => *claimant == est,
            None => true,
        }
    }

    /// Claims the key for this establishment of the identity. A claim that stands already is `Ok` again and
    /// changes nothing. `IdSpent` exactly where another establishment of the identity claimed the key
    /// (TS 38.331, 5.3.1.2; TS 33.501, 6.10.2.1).
    pub fn claim(&mut self, id: DrbId, est: Gen, key: &KeyName) -> Result<(), KeyErr>
        ensures ok { OnOk result (self.new ≡ record self.old { claims = with_claim self.old.claims (record { id = id; key = key.now; est = est }) }) }
        ensures one { HasOneClaimant self.new.claims }
        ensures spent { IsErrOf result KeyErr.IdSpent ↔ IsTrue (is_spent self.old.claims id est key.now) }
        ensures only { IfErr result (λ e. (e ≡ KeyErr.IdSpent) ⊎ (e ≡ KeyErr.Memory)) }
        ensures err { OnErr result (self.new ≡ self.old) }
    {
        let what = KeyOfId { id, key: *key };
        match self.claims.get(&what) {
            Some(claimant) if *claimant != est => Err(KeyErr::IdSpent),
            Some(_) => Ok(()),
            None => {
                self.claims.insert(what, est)?;
                Ok(())
            }
        }
    }

    /// The octets of a key: the root, or K_SN of the root and the counter (TS 33.501, A.16). The root has
    /// to be noted; that the counter was drawn is not asked.
    pub fn octets(&self, key: &KeyName) -> [u8; 32]
        requires { key.now.root < length self.now.roots }
        ensures { result ≡ octets self.now.roots key.now }
    {
        let (root, _) = self.roots.get_index(key.root as usize).unwrap();
        match key.side {
            Side::Master => *root,
            Side::Second(counter) => k_sn(root, counter),
        }
    }
}
