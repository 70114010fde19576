//! The lines of an event.

ghost use Rattle.std.specs.Prelude.{◌≡◌, IfOk, None, OnOk, Some, fold};
ghost use Rattle.dc_base.specs.declared.events.Note.TheVariants as note;
ghost use Rattle.claims.specs.Carrying.{carry, carry_plan, on_item};
ghost use Rattle.claims.specs.Drafts.{command_of};
ghost use Rattle.claims.specs.Noted.{ended, noted_note, noted_record};
ghost use Rattle.claims.specs.Reading.{change_bearer, on_latest, plan, second, with_second};
ghost use Rattle.claims.specs.Table.{Command};
ghost use Rattle.checker_state.specs.Changes.{changed_by};
ghost use Rattle.checker_state.specs.Steps.{kept_begun, kept_flight, kept_line, kept_note};

use crate::bearers::{Bearer, Change};
use crate::lists::{change_earlier, change_latest, change_made, change_named};
use crate::state::State;
use dc_base::{DrbId, Event, Flight, Gen, Item, Line, LinkId, Memory, Node, Note, Plan, Rec, Want};

impl State {
    /// A line of the event.
    pub fn note(&mut self, line: &Line) -> Result<(), Memory>
        ensures { OnOk result (self.new ≡ kept_line line.now self.old) }
    {
        match line {
            Line::Note(note) => self.take_note(note),
            Line::Send(link, flight) => self.take_send(*link, flight),
            Line::Event(_) => Ok(()),
            Line::Answer(_) => Ok(()),
        }
    }

    /// A note.
    fn take_note(&mut self, note: &Note) -> Result<(), Memory>
        ensures { OnOk result (self.new ≡ kept_note note.now self.old) }
    {
        match note {
            Note::Begin { what } => self.begin(*what)?,
            Note::Join { node, .. } => self.joins(*node, true),
            Note::Leave { node, .. } => self.joins(*node, false),
            Note::Give { node, id, g } => self.change_latest(*id, Change::Give(*node, *g)),
            Note::Own { node, id, g } => self.change(*id, *g, Change::Own(*node, *g))?,
            Note::Set { id, g } => self.change(*id, *g, Change::Set(*g))?,
            Note::Unset { id } => self.change_latest(*id, Change::Unset),
            Note::Up { .. } => {}
            Note::Freed { .. } => {}
            Note::Confirmed { node } => self.wants(*node, None),
            Note::Refused { node, .. } => self.wants(*node, None),
            Note::Done => self.done()?,
            Note::Rejected => self.end(),
        }
        Ok(())
    }

    /// A request is begun.
    fn begin(&mut self, what: Want) -> Result<(), Memory>
        ensures { OnOk result (self.new ≡ kept_begun self.old.table.sec what self.old) }
    {
        let asker = self.table.sec();
        if let Some(node) = asker {
            self.requests(node, None);
        }
        self.draw(&command_of(what), asker)
    }

    /// A secondary node joined or left.
    fn joins(&mut self, node: Node, joined: bool)
        ensures { self.new ≡ with_second node (record (second node self.old) { joined = joined }) self.old }
    {
        let mut second = self.second(node);
        second.joined = joined;
        self.set_second(node, second);
    }

    /// What it wants.
    pub(crate) fn wants(&mut self, node: Node, wants: Option<Want>)
        ensures { self.new ≡ with_second node (record (second node self.old) { wants = wants }) self.old }
    {
        let mut second = self.second(node);
        second.wants = wants;
        self.set_second(node, second);
    }

    /// Its request that the master did not answer yet.
    pub(crate) fn requests(&mut self, node: Node, request: Option<Want>)
        ensures { self.new ≡ with_second node (record (second node self.old) { request = request }) self.old }
    {
        let mut second = self.second(node);
        second.request = request;
        self.set_second(node, second);
    }

    /// The latest establishment of an identity, changed.
    pub(crate) fn change_latest(&mut self, id: DrbId, change: Change)
        ensures { self.new ≡ record self.old { bearers = on_latest id (changed_by change) self.old.bearers } }
    {
        change_latest(&mut self.bearers, id, change);
    }

    /// The establishment of an identity and generation, changed.
    fn change(&mut self, id: DrbId, g: Gen, change: Change) -> Result<(), Memory>
        ensures { OnOk result (self.new ≡ record self.old { bearers = change_bearer self.old id g (changed_by change) }) }
    {
        match self.bearer_of(id, g) {
            None => Ok(()),
            Some(bearer) => change_named(&mut self.bearers, bearer.g(), change),
        }
    }

    /// The command is done.
    fn done(&mut self) -> Result<(), Memory>
        ensures { OnOk result (self.new ≡ noted_note note.Done self.old) }
    {
        if let Some(kind) = self.table.kind() {
            change_made(&mut self.bearers, kind, Change::Done)?;
        }
        self.table.close();
        Ok(())
    }

    /// No command is open.
    fn end(&mut self)
        ensures { self.new ≡ ended self.old }
    {
        self.table.close();
    }

    /// A flight that is sent.
    fn take_send(&mut self, link: LinkId, flight: &Flight) -> Result<(), Memory>
        ensures { OnOk result (self.new ≡ kept_flight link flight.now self.old) }
    {
        match flight {
            Flight::Ctl(rec) => self.take_record(link.to, rec),
            _ => Ok(()),
        }
    }

    /// A record that is sent carries its plan out, or answers a request.
    fn take_record(&mut self, node: Node, rec: &Rec) -> Result<(), Memory>
        ensures { OnOk result (self.new ≡ noted_record node rec.now self.old) }
    {
        match rec {
            Rec::Reconf { plan, .. } => self.carry(plan.g)?,
            Rec::Modref { .. } => self.requests(node, None),
            Rec::Chgref { .. } => self.requests(node, None),
            Rec::Relcnf { .. } => self.requests(node, None),
            _ => {}
        }
        Ok(())
    }

    /// The plan of a generation is carried out at the master.
    fn carry(&mut self, g: Gen) -> Result<(), Memory>
        ensures { OnOk result (self.new ≡ carry g self.old) }
    {
        if !self.table.is_to_carry(g) {
            return Ok(());
        }
        match self.plan_copy(g)? {
            None => Ok(()),
            Some(plan) => self.carry_plan(g, &plan),
        }
    }

    /// A copy of the plan that was drawn with a generation.
    fn plan_copy(&self, g: Gen) -> Result<Option<Plan>, Memory>
        ensures { IfOk result (λ made. made ≡ plan self.now g) }
    {
        match self.plan(g) {
            None => Ok(None),
            Some(plan) => Ok(Some(plan.copy()?)),
        }
    }

    /// This plan of the open command is carried out.
    fn carry_plan(&mut self, g: Gen, plan: &Plan) -> Result<(), Memory>
        ensures { (c : Command) → self.old.table.command ≡ Some c → OnOk result (self.new ≡ carry_plan self.old g c (Some plan.now)) }
    {
        self.bearers = self.carried_bearers(g, plan.items.as_slice())?;
        self.table.carry(g, plan)
    }

    /// The bearers with items carried out at the master.
    fn carried_bearers(&self, g: Gen, items: &[Item]) -> Result<Vec<Bearer>, Memory>
        ensures { IfOk result (λ made. made.items ≡ fold (on_item self.now g) self.now.bearers items.now) }
    {
        let mut bearers = Vec::from_slice(*self.bearers.allocator(), &self.bearers)?;
        for item in items {
            self.carry_item(&mut bearers, g, item)?;
        }
        Ok(bearers)
    }

    /// Those with one item carried out.
    fn carry_item(&self, bearers: &mut Vec<Bearer>, g: Gen, item: &Item) -> Result<(), Memory>
        ensures { OnOk result (bearers.new.items ≡ on_item self.now g bearers.old.items item.now) }
    {
        match item {
            Item::Set { id, .. } => match self.bearer_of(*id, g) {
                None => Ok(()),
                Some(bearer) => change_named(bearers, bearer.g(), Change::Carried(g)),
            },
            Item::Unset { id } => change_earlier(bearers, *id, g, Change::Gone),
        }
    }
}

/// The command that a request of a secondary begins.
fn command_of(what: Want) -> Event
    ensures { result ≡ command_of what }
{
    match what {
        Want::Rekey => Event::RekeySecond,
        Want::Change => Event::Change,
        Want::Release => Event::Release,
    }
}
