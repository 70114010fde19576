//! A secondary node of NR-NR dual connectivity: what it holds of its bearers, and what it does with one input (TS 37.340, 4.2.2
//! and 10.2 to 10.5; TS 38.423, 8.2 and 8.3).
#![tactic(auto)]

mod effects;
mod feed;
mod second;
mod steps;

pub use second::Second;
