//! An event with its answer, before its lines.

ghost use Rattle.std.specs.Prelude.{◌≡◌, None, OnOk, Some};
ghost use Rattle.claims.specs.Reading.{second, with_second};
ghost use Rattle.checker_state.specs.Steps.{kept_accepted, kept_given, kept_judged, kept_record, kept_recovering, kept_taken};

use crate::bearers::Change;
use crate::lists::drop_all;
use crate::state::State;
use dc_base::{Answer, DrbId, Event, Flight, LinkId, Memory, Node, Rec, Want};

impl State {
    /// The event with its answer, and the flight that stands at its place.
    pub fn judge(
        &mut self,
        event: &Event,
        answer: Answer,
        taken: &Option<(LinkId, Flight)>,
    ) -> Result<(), Memory>
        ensures { OnOk result (self.new ≡ kept_judged event.now answer taken.now self.old) }
    {
        self.give_none();
        match answer {
            Answer::Ok => self.accept(event, taken),
            Answer::No(_) => Ok(()),
        }
    }

    /// No flight is given yet.
    fn give_none(&mut self)
        ensures { self.new ≡ record self.old { given = None } }
    {
        self.given = None;
    }

    /// An event that was answered ok.
    fn accept(&mut self, event: &Event, taken: &Option<(LinkId, Flight)>) -> Result<(), Memory>
        ensures { OnOk result (self.new ≡ kept_accepted event.now taken.now self.old) }
    {
        match event {
            Event::Bearer { .. } => self.draw(event, None),
            Event::Reshape { .. } => self.draw(event, None),
            Event::Remove { id } => {
                self.change_latest(*id, Change::Drop);
                self.draw(event, None)
            }
            Event::Add { .. } => self.draw(event, None),
            Event::Change => self.draw(event, None),
            Event::Release => self.draw(event, None),
            Event::RekeySecond => self.draw(event, None),
            Event::RekeyMaster { .. } => self.draw(event, None),
            Event::Recover { id } => {
                self.recover(*id);
                Ok(())
            }
            Event::Deny { node, on } => {
                self.denies(*node, *on);
                Ok(())
            }
            Event::Ask { node, what } => {
                self.wants(*node, Some(*what));
                Ok(())
            }
            Event::Step { .. } => self.give(taken),
            Event::Submit { .. } => Ok(()),
            Event::Report { .. } => Ok(()),
            Event::ScgFail => Ok(()),
            Event::Lose { .. } => Ok(()),
            Event::Again { .. } => Ok(()),
        }
    }

    /// The recovery of an identity is open.
    fn recover(&mut self, id: DrbId)
        ensures { self.new ≡ kept_recovering id self.old }
    {
        self.table.recover(id);
    }

    /// A secondary node is set to reject requests, or to accept them again.
    fn denies(&mut self, node: Node, on: bool)
        ensures { self.new ≡ with_second node (record (second node self.old) { denies = on }) self.old }
    {
        let mut second = self.second(node);
        second.denies = on;
        self.set_second(node, second);
    }

    /// A flight is given to the receiver of its link.
    fn give(&mut self, given: &Option<(LinkId, Flight)>) -> Result<(), Memory>
        ensures { OnOk result (self.new ≡ kept_given given.now self.old) }
    {
        let Some((link, flight)) = given else {
            return Ok(());
        };
        self.give_one(*link, flight.copy()?);
        self.take_flight(*link, flight)
    }

    /// This flight is given.
    fn give_one(&mut self, link: LinkId, flight: Flight)
        ensures { self.new ≡ record self.old { given = Some (link, flight) } }
    {
        self.given = Some((link, flight));
    }

    /// What it does that a node takes.
    fn take_flight(&mut self, link: LinkId, flight: &Flight) -> Result<(), Memory>
        ensures { OnOk result (self.new ≡ kept_taken link flight.now self.old) }
    {
        match flight {
            Flight::Ctl(rec) => self.take_given(link, rec),
            _ => Ok(()),
        }
    }

    /// A record comes.
    fn take_given(&mut self, link: LinkId, rec: &Rec) -> Result<(), Memory>
        ensures { OnOk result (self.new ≡ kept_record link rec.now self.old) }
    {
        match rec {
            Rec::Reconf { plan, .. } => self.seen = plan.sec,
            Rec::Rcomp { g } => self.completed.insert(0, *g)?,
            Rec::Modreq { plan, .. } => {
                drop_all(&mut self.bearers, link.to, plan.g, plan.items.as_slice())?;
            }
            Rec::Recfg { g } => self.configured.insert(0, (link.to, *g))?,
            Rec::Modcnf { g } => self.configured.insert(0, (link.to, *g))?,
            Rec::Modrqd => self.requests(link.from, Some(Want::Rekey)),
            Rec::Chgrqd => self.requests(link.from, Some(Want::Change)),
            Rec::Relrqd => self.requests(link.from, Some(Want::Release)),
            _ => {}
        }
        Ok(())
    }
}
