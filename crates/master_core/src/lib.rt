//! The master of NR-NR dual connectivity: what it holds of its bearers, and what it does with one input (TS 37.340, 4.2.2 and
//! 10.2 to 10.7; TS 38.423, 8.2 and 8.3).
#![tactic(auto)]

mod master;
mod steps;

pub use master::Master;
