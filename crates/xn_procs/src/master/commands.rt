//! The commands that the master takes, and when it refuses them (TS 37.340, 10.2 to 10.7).

ghost use Rattle.std.specs.Prelude.{◌≡◌, ◌&&◌, Ok, IfOk, IfErr, not};
ghost use Rattle.dc_base.specs.Nodes.{is_mm};
ghost use Rattle.node_rules.specs.Acts.{first_refusal};
ghost use Rattle.node_rules.specs.CommandTable.{row};
ghost use Rattle.node_rules.specs.MasterCommands.{command_refusals, commands, is_alone, is_same_shape, master_command, recovered_by, recovers_at, recovers_row, spends_identity};
ghost use Rattle.xn_procs.specs.Faults.{FailsAs};

use super::MasterProc;
use crate::acting::{acts, send};
use crate::faults::ProcErr;
use crate::refusing::{first_refusal, is_same_shape};
use dc_base::{DrbId, Event, Memory, Node, Rec, Refusal, Seq, Shape};
use node_rules::{Act, Command};

// The bearer that an event recovers; any other command has a plan.
fn recovered_by(event: &Event) -> Option<DrbId>
    ensures { result ≡ recovered_by event.now }
{
    match event {
        Event::Recover { id } => Some(*id),
        _ => None,
    }
}

impl MasterProc {
    /// Takes a command, where so many routing policies are stored. It is refused where another one is open, and for each of
    /// the reasons that `Refusal` has; one that is not refused begins. Other events do nothing.
    pub fn command(&mut self, event: &Event, policies: usize) -> Result<Seq<Act>, ProcErr>
        ensures ok { IfOk result (λ made. master_command policies self.old event.now ≡ Ok (self.new, made)) }
        ensures err { IfErr result (FailsAs (master_command policies self.old event.now) self.old self.new) }
    {
        if let Some(why) = self.refusal(event, policies)? {
            return Err(ProcErr::Refused(why));
        }
        Ok(self.carry_on(event)?)
    }

    // Whether the table has no secondary node.
    fn is_alone(&self) -> bool
        ensures { result ≡ is_alone self.now }
    {
        self.table.sec().is_none()
    }

    // Whether the plan of a command sets a key that another establishment used for that identity.
    fn spends_identity(&self, event: &Event) -> Result<bool, Memory>
        ensures { IfOk result (λ spent. spent ≡ spends_identity self.now event.now) }
    {
        match self.table.draft(event)? {
            Some(draft) => Ok(self.table.is_spent_by(&draft.change.plan)),
            None => Ok(false),
        }
    }

    // Whether the bearer has this shape.
    fn has_shape(&self, id: DrbId, shape: Shape) -> bool
        ensures { result ≡ is_same_shape shape (row self.now.table id) }
    {
        match self.table.row(id) {
            Some(row) => is_same_shape(shape, row.shape),
            None => false,
        }
    }

    // Whether a bearer of this shape finds no secondary node.
    fn lacks_second(&self, shape: Shape) -> bool
        ensures { result ≡ (not (is_mm shape) && is_alone self.now) }
    {
        !shape.is_mm() && self.is_alone()
    }

    // Why a command is refused, if it is.
    fn refusal(&self, event: &Event, policies: usize) -> Result<Option<Refusal>, Memory>
        ensures { IfOk result (λ why. why ≡ first_refusal (command_refusals policies self.now event.now)) }
    {
        let busy = (self.is_busy(), Refusal::Busy);
        match event {
            Event::Bearer {
                id,
                shape,
                policy,
                ..
            } => {
                let spent = self.spends_identity(event)?;
                Ok(first_refusal(&[
                    busy,
                    (self.has_bearer(*id), Refusal::BearerThere),
                    (self.lacks_second(*shape), Refusal::NoSecondary),
                    (policies <= *policy as usize, Refusal::NoPolicy),
                    (spent, Refusal::IdSpent),
                ]))
            }
            Event::Reshape { id, shape } => {
                let spent = self.spends_identity(event)?;
                Ok(first_refusal(&[
                    busy,
                    (!self.has_bearer(*id), Refusal::NoBearer),
                    (self.lacks_second(*shape), Refusal::NoSecondary),
                    (self.has_shape(*id, *shape), Refusal::SameShape),
                    (spent, Refusal::IdSpent),
                ]))
            }
            Event::Release => {
                let spent = self.spends_identity(event)?;
                Ok(first_refusal(&[
                    busy,
                    (self.is_alone(), Refusal::NoSecondary),
                    (spent, Refusal::IdSpent),
                ]))
            }
            Event::Remove { id } => Ok(self.refusal_for(*id)),
            Event::Recover { id } => Ok(self.refusal_for(*id)),
            Event::Change => Ok(self.refusal_to_draw()),
            Event::RekeySecond => Ok(self.refusal_to_draw()),
            Event::Add { .. } => Ok(first_refusal(&[
                busy,
                (!self.is_alone(), Refusal::SecondaryThere),
                (self.table.is_counter_spent(), Refusal::CounterSpent),
            ])),
            Event::RekeyMaster { root } => Ok(first_refusal(&[
                busy,
                (self.table.is_noted(root), Refusal::RootUsed),
            ])),
            _ => Ok(None),
        }
    }

    // Why a command that only needs the bearer is refused, if it is.
    fn refusal_for(&self, id: DrbId) -> Option<Refusal>
        ensures { result ≡ first_refusal (command_refusals 0 self.now (Event.Remove id)) }
    {
        first_refusal(&[
            (self.is_busy(), Refusal::Busy),
            (!self.has_bearer(id), Refusal::NoBearer),
        ])
    }

    // Why a command that draws a K_SN for the secondary node is refused, if it is.
    fn refusal_to_draw(&self) -> Option<Refusal>
        ensures { result ≡ first_refusal (command_refusals 0 self.now Event.Change) }
    {
        first_refusal(&[
            (self.is_busy(), Refusal::Busy),
            (self.is_alone(), Refusal::NoSecondary),
            (self.table.is_counter_spent(), Refusal::CounterSpent),
        ])
    }

    // A command that is not refused begins.
    fn carry_on(&mut self, event: &Event) -> Result<Seq<Act>, Memory>
        ensures { IfOk result (λ made. commands self.old event.now ≡ (self.new, made)) }
    {
        if let Some(id) = recovered_by(event) {
            return self.recover(id);
        }
        match self.table.draft(event)? {
            Some(draft) => self.begin(draft, false),
            None => Ok(Seq::new(self.alloc)),
        }
    }

    // A bearer is recovered.
    fn recover(&mut self, id: DrbId) -> Result<Seq<Act>, Memory>
        ensures { IfOk result (λ made. recovers_row self.old id (row self.old.table id) ≡ (self.new, made)) }
    {
        match self.table.row(id) {
            Some(row) => self.recover_at(id, row.anchor),
            None => Ok(Seq::new(self.alloc)),
        }
    }

    // The node of the bearer's anchor has to recover it; the terminal has to in any case.
    fn recover_at(&mut self, id: DrbId, anchor: Node) -> Result<Seq<Act>, Memory>
        ensures { IfOk result (λ made. recovers_at self.old id anchor ≡ (self.new, made)) }
    {
        let (second, here) = match anchor {
            Node::M => (None, Act::RecoverOne { id }),
            Node::A => (Some(Node::A), send(Node::A, Rec::Recov { id })),
            Node::B => (Some(Node::B), send(Node::B, Rec::Recov { id })),
            Node::T => return Ok(Seq::new(self.alloc)),
        };
        let made = acts(self.alloc, [send(Node::T, Rec::Recov { id }), here])?;
        self.command = Some(Command::Recovering {
            id,
            terminal: true,
            second,
        });
        Ok(made)
    }
}
