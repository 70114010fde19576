//! The keys of NR-NR dual connectivity (TS 33.501, 6.10): HMAC-SHA-256 and the keys that it derives,
//! and the book of roots, SN Counters and claims from which each bearer gets a key of its own.
#![tactic(auto)]

mod derive;
mod key_book;
mod mac;

pub use derive::{k_sn, k_upenc};
pub use key_book::{KeyBook, KeyErr};
pub use mac::hmac;
