//! The past of a run, in parts, and the claims that read these parts.

ghost use Rattle.std.specs.Prelude.{◌≡◌, ◌<◌, ℕ, List, length, None, Some, IfNone, IfOk, IfSome, OnOk};
ghost use Rattle.std.specs.Option.{option_copied};
ghost use Rattle.dc_base.specs.declared.events.Event.{Event};
ghost use Rattle.dc_base.specs.declared.events.Event.TheVariants as events;
ghost use Rattle.dc_base.specs.declared.events.Line.{Line};
ghost use Rattle.claims.specs.Causes.{tunnel_due};
ghost use Rattle.claims.specs.Judged.{judged};
ghost use Rattle.claims.specs.Noted.{after, noted};
ghost use Rattle.claims.specs.Past.{Past, new_past};
ghost use Rattle.checker_state.specs.Due.{decided_due, decided_of, has_decided_cause, is_of_link, without_age, without_room};
ghost use Rattle.checker_state.specs.Steps.{flight_at};
ghost use Rattle.checker.specs.Decided.{broken_by_line, first_broken};
ghost use Rattle.checker.specs.Parts.{ArePartsOf};

use crate::claim::{Broken, Claim};
use crate::links::LinkQueues;
use crate::on_link::{is_consequence, is_on_link};
use checker_state::{State, is_same_answer};
use dc_base::{Answer, Event, Flight, Header, Line, LinkId, Memory, Refusal};
use std::alloc::Global;
use std::marker::Model;

/// What the entries so far leave: each part of it is a part of the past of the claims.
#[derive(Drop)]
pub struct Checker {
    links: LinkQueues,
    state: State,
}

/// Contracts see the parts.
impl Model for Checker {
    ghost use Rattle.checker.specs.Parts.{Parts};

    ghost Value = { Parts };

    ghost view = { λ c. record { queues = c.links; state = c.state } };
}

impl Checker {
    /// Nothing happened yet.
    pub fn new(alloc: Global, header: &Header) -> Result<Checker, Memory>
        ensures { IfOk result (λ made. (policies : ℕ) → ArePartsOf made (new_past header.now policies)) }
    {
        Ok(Checker {
            links: LinkQueues::new(alloc)?,
            state: State::new(alloc, header)?,
        })
    }

    /// The first claim that an entry breaks: first its answer is tried with the past before it, and then each line with the past up
    /// to it, each by the claims in their order; `None` exactly where all claims that are decided hold of the entry. After that the
    /// entry is part of the past; after another answer the checker is not used again.
    pub fn entry(
        &mut self,
        event: &Event,
        answer: Answer,
        lines: &[Line],
    ) -> Result<Option<Broken>, Memory>
        ensures broken { (p : Past) → ArePartsOf self.old p
            → IfOk result (λ found. found ≡ first_broken p (record { event = event.now; answer = answer; lines = lines.now })) }
        ensures within { IfOk result (λ found. IfSome found (λ b. IfSome b.line (λ k. k < length lines.now))) }
        ensures after { (p : Past) → ArePartsOf self.old p
            → IfOk result (λ found. IfNone found (ArePartsOf self.new (after p (record { event = event.now; answer = answer; lines = lines.now })))) }
    {
        let has_cause = self.has_cause(event, answer)?;
        if !has_cause {
            return Ok(Some(Broken {
                claim: Claim::Cause,
                line: None,
            }));
        }
        self.judge(event, answer)?;
        for (place, line) in lines.iter().enumerate() {
            match self.broken_by(line) {
                Some(claim) => {
                    return Ok(Some(Broken {
                        claim,
                        line: Some(place),
                    }));
                }
                None => self.note(line)?,
            }
        }
        Ok(None)
    }

    /// The event with its answer, before its lines.
    fn judge(&mut self, event: &Event, answer: Answer) -> Result<(), Memory>
        ensures { (p : Past) → ArePartsOf self.old p → OnOk result (ArePartsOf self.new (judged event.now answer p)) }
    {
        let given = self.flight_at(event)?;
        self.state.judge(event, answer, &given)?;
        self.links.take(event, answer);
        Ok(())
    }

    /// A line of the event.
    fn note(&mut self, line: &Line) -> Result<(), Memory>
        ensures { (p : Past) → ArePartsOf self.old p → OnOk result (ArePartsOf self.new (noted p line.now)) }
    {
        self.links.put(line)?;
        self.state.note(line)
    }

    /// The first claim that a line breaks.
    fn broken_by(&self, line: &Line) -> Option<Claim>
        ensures { (p : Past) → ArePartsOf self.now p → result ≡ broken_by_line p line.now }
    {
        if !is_consequence(line) {
            Some(Claim::Consequence)
        } else if !is_on_link(line) {
            Some(Claim::OnLink)
        } else if !self.state.is_planned(line) {
            Some(Claim::Planned)
        } else {
            None
        }
    }

    /// The flight that stands at the place that an event names, where it is stepped.
    fn flight_at(&self, event: &Event) -> Result<Option<(LinkId, Flight)>, Memory>
        ensures { (p : Past) → ArePartsOf self.now p → IfOk result (λ found. found ≡ flight_at event.now p) }
    {
        match event {
            Event::Step { link, index } => self.flight_on(*link, *index),
            _ => Ok(None),
        }
    }

    /// A copy of the flight at a place of a link.
    fn flight_on(&self, link: LinkId, index: u32) -> Result<Option<(LinkId, Flight)>, Memory>
        ensures { (p : Past) → ArePartsOf self.now p → IfOk result (λ found. found ≡ flight_at (events.Step link index) p) }
    {
        match self.links.get(link, index as usize) {
            None => Ok(None),
            Some(flight) => Ok(Some((link, flight.copy()?))),
        }
    }

    /// Whether an event has the answer that it is due, as far as it is decided.
    fn has_cause(&self, event: &Event, answer: Answer) -> Result<bool, Memory>
        ensures { (p : Past) (lines : List Line) → ArePartsOf self.now p
            → IfOk result (λ is. is ≡ has_decided_cause p (record { event = event.now; answer = answer; lines = lines })) }
    {
        let due = self.due(event, answer)?;
        Ok(is_same_answer(decided_of(event, answer), due))
    }

    /// The answer that is due, as far as it is decided.
    fn due(&self, event: &Event, answer: Answer) -> Result<Answer, Memory>
        ensures { (p : Past) → ArePartsOf self.now p → IfOk result (λ made. made ≡ decided_due answer p event.now) }
    {
        match event {
            Event::Step { link, index } => Ok(self.step_due(*link, *index)),
            Event::Lose { link, index } => Ok(self.tunnel_due(*link, *index)),
            Event::Again { link, index } => Ok(self.tunnel_due(*link, *index)),
            _ => self.state.due(event, answer),
        }
    }

    /// The answer that is due to a step, but for whether the flight is aged.
    fn step_due(&self, link: LinkId, index: u32) -> Answer
        ensures { (p : Past) (a : Answer) → ArePartsOf self.now p → result ≡ decided_due a p (events.Step link index) }
    {
        if index as usize >= self.links.len(link) {
            Answer::No(Refusal::NoFlight)
        } else if !link.class.is_ordered() {
            Answer::Ok
        } else if index > 0 {
            Answer::No(Refusal::NotFirst)
        } else {
            Answer::Ok
        }
    }

    /// The answer that is due to a loss or a copy.
    fn tunnel_due(&self, link: LinkId, index: u32) -> Answer
        ensures { (p : Past) → ArePartsOf self.now p → result ≡ tunnel_due p link index }
    {
        if !link.class.is_tunnel() {
            Answer::No(Refusal::NotTunnel)
        } else if index as usize >= self.links.len(link) {
            Answer::No(Refusal::NoFlight)
        } else {
            Answer::Ok
        }
    }
}

/// What is decided of an answer.
fn decided_of(event: &Event, answer: Answer) -> Answer
    ensures { result ≡ decided_of event.now answer }
{
    match event {
        Event::Submit { .. } => without_room(answer),
        Event::Step { .. } => without_age(answer),
        _ => answer,
    }
}

/// An answer to a submission, but for whether there is room for it.
fn without_room(answer: Answer) -> Answer
    ensures { result ≡ without_room answer }
{
    match answer {
        Answer::No(Refusal::Full) => Answer::Ok,
        Answer::No(Refusal::Exhausted) => Answer::Ok,
        _ => answer,
    }
}

/// An answer to a step, but for whether the flight is aged.
fn without_age(answer: Answer) -> Answer
    ensures { result ≡ without_age answer }
{
    match answer {
        Answer::No(Refusal::Aged) => Answer::Ok,
        _ => answer,
    }
}
