//! Flights in order, of which the one at any place can be taken out in a time that hardly grows with their number.
#![tactic(auto)]

mod queue;
mod run;

pub use queue::FlightQueue;
