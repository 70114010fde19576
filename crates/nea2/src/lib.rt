//! The cipher of the user plane: AES-128 (FIPS 197), and 128-NEA2, which is AES-128 in counter mode
//! (TS 33.501, D.2.1.3; TS 33.401, B.1.3), with NEA0, which leaves the text (TS 33.501, D.1). Eight blocks
//! are enciphered at a time, and no table is indexed by a secret.
#![tactic(auto)]

mod cipher;
mod circuit;
mod key_schedule;
mod planes;
mod round_keys;
mod stream;
mod transposition;

pub use cipher::Aes128;
pub use stream::nea;
