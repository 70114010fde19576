//! The procedures of the master and of a secondary node over Xn-C and RRC (TS 38.423, 8.2 and 8.3; TS 37.340, 10): what each
//! does with a command and with a record.
#![tactic(auto)]

mod acting;
mod faults;
mod master;
mod moves;
mod places;
mod refusing;
mod second;
mod ways;

pub use faults::ProcErr;
pub use master::MasterProc;
pub use second::SecondProc;
