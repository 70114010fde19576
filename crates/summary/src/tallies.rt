//! The payloads of each bearer, counted.

ghost use Rattle.std.specs.Prelude.{◌≡◌, ◌+◌, IfOk};
ghost use Rattle.summary.specs.Totals.{concern_of, new_tally, with_handed, with_submitted};

use dc_base::{Dir, DrbId, Event, Memory};

/// Payloads in one direction.
#[derive(Clone, Copy, Debug, PartialEq, Eq)]
pub struct Passed {
    /// How many were handed up.
    pub handed: u64,
    /// How many submissions were answered ok.
    pub submitted: u64,
}

/// An establishment of a bearer, with the payloads of both directions.
#[derive(Clone, Copy, Debug, PartialEq, Eq)]
pub struct Tally {
    pub id: DrbId,
    pub dl: Passed,
    pub ul: Passed,
}

/// What an event may add to the tallies, once it is answered ok.
#[derive(Clone, Copy, Debug, PartialEq, Eq)]
pub enum Concern {
    /// A bearer is set up.
    SetUp(DrbId),
    /// A payload is submitted.
    Submission(DrbId, Dir),
    Nothing,
}

impl Concern {
    /// What an event may add.
    pub fn of(event: &Event) -> Concern
        ensures { result ≡ concern_of event.now }
    {
        match event {
            Event::Bearer { id, .. } => Concern::SetUp(*id),
            Event::Submit { id, dir, .. } => Concern::Submission(*id, *dir),
            _ => Concern::Nothing,
        }
    }
}

/// One more. More than 2^64 - 1 of anything has no room in memory.
pub(crate) fn one_more(count: u64) -> Result<u64, Memory>
    ensures { IfOk result (λ more. more ≡ count + 1) }
{
    count.checked_add(1).ok_or(Memory)
}

impl Tally {
    /// No payload yet.
    pub(crate) fn new(id: DrbId) -> Tally
        ensures { result ≡ new_tally id }
    {
        let none = Passed {
            handed: 0,
            submitted: 0,
        };
        Tally {
            id,
            dl: none,
            ul: none,
        }
    }

    /// With one more payload that was handed up.
    pub(crate) fn with_handed(self, dir: Dir) -> Result<Tally, Memory>
        ensures { IfOk result (λ tally. tally ≡ with_handed dir self) }
    {
        let mut tally = self;
        match dir {
            Dir::Dl => tally.dl.handed = one_more(self.dl.handed)?,
            Dir::Ul => tally.ul.handed = one_more(self.ul.handed)?,
        }
        Ok(tally)
    }

    /// With one more submission that was answered ok.
    pub(crate) fn with_submitted(self, dir: Dir) -> Result<Tally, Memory>
        ensures { IfOk result (λ tally. tally ≡ with_submitted dir self) }
    {
        let mut tally = self;
        match dir {
            Dir::Dl => tally.dl.submitted = one_more(self.dl.submitted)?,
            Dir::Ul => tally.ul.submitted = one_more(self.ul.submitted)?,
        }
        Ok(tally)
    }
}
