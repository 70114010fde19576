//! Forwarding tunnels between an old anchor and a new one: SDUs are numbered from 0, so that a tunnel
//! that loses, repeats or reorders packets cannot change the list (numbered forwarding is this product's own).
//! A tunnel may be given more for as long as it is open: what its contracts say of the list so far lasts.
#![tactic(auto)]

mod incoming;
mod load;
mod outgoing;

pub use incoming::{ForwardIn, ListErr};
pub use load::{Load, carried, frame_in, load_in};
pub use outgoing::ForwardOut;
