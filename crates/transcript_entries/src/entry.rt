//! An entry of a transcript.

use dc_base::{Answer, Event, Line, Seq};

/// An event, its answer, and all lines up to the next event.
#[derive(Debug, Drop)]
pub struct ReadEntry {
    pub event: Event,
    pub answer: Answer,
    /// The lines after the answer. None of them is an event.
    pub lines: Seq<Line>,
    /// The number of the event's line in the transcript, whose first line, the header, has number 1.
    pub number: u32,
}
