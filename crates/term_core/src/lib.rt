//! The terminal of NR-NR dual connectivity: what it holds of its bearers, and what it does with one input (TS 37.340, 4.2.2;
//! TS 38.331, 5.3.5 and 5.7.3; TS 38.323, 5).
#![tactic(auto)]

mod half;
mod terminal;

pub use half::TerminalHalf;
pub use terminal::Terminal;
