//! A turn of a made script: what it does, by what it draws and by what stands on the links.
#![tactic(auto)]

mod losing;
mod stepping;
mod turns;

pub use turns::turn_event;
