//! The outside as the program sees it: a source of octets and a sink for them, each with a count of its faults.
//!
//! What stands above is generic over [`Source`] and [`Sink`], and proved once for every source and sink. A fault is
//! answered only where the count of the object that was handed in rose, so a caller can tell a fault of the outside
//! from a program that gives up by itself.
//!
//! There are six forms, none of which takes memory: [`MemSource`] and [`MemSink`] over octets in memory, with faults at
//! will; [`SureSource`] and [`SureSink`], which never fail; [`StdSource`] and [`StdSink`] over a reader and a writer of
//! std.
#![tactic(auto)]

mod calls;
mod failed;
mod mem_sink;
mod mem_source;
mod sink;
mod source;
mod std_forms;
mod sure;

pub use failed::Failed;
pub use mem_sink::MemSink;
pub use mem_source::MemSource;
pub use sink::Sink;
pub use source::Source;
pub use std_forms::{StdSink, StdSource};
pub use sure::{SureSink, SureSource};
