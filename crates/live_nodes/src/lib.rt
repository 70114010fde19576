//! The cores of the four nodes as workers see them.
#![tactic(auto)]

mod master;
mod second;
mod terminal;

pub use master::LiveMaster;
pub use second::LiveSecond;
pub use terminal::LiveTerminal;
