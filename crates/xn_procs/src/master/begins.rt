//! A command begins, and its plan is carried out (TS 37.340, 10.2 to 10.5 and 10.7).

ghost use Rattle.std.specs.Prelude.{◌≡◌, IfOk, OnOk};
ghost use Rattle.command_table.specs.Drawing.{rule_draft};
ghost use Rattle.node_rules.specs.MasterGo.{begins, drawn, first_record, goes, lets_go};
ghost use Rattle.xn_procs.specs.Asking.{asks};

use super::MasterProc;
use crate::acting::{acts, joined, send};
use crate::moves::{moving_by, preparing};
use crate::ways::{alone, leave_acts, let_go};
use command_table::Draft;
use dc_base::{KeyName, Memory, Node, Note, Rec, Seq, Side, Want};
use node_rules::{Act, Change, Command, First, Going, Way};

impl MasterProc {
    // A change is carried out: the terminal is told first, with the octets of the root that is current then (TS 37.340,
    // 10.2.2).
    pub(super) fn go(&mut self, change: Change, way: Way) -> Result<Seq<Act>, Memory>
        ensures { IfOk result (λ made. goes self.old change way ≡ (self.new, made)) }
    {
        let root = KeyName {
            root: change.root,
            side: Side::Master,
        };
        let reconf = Rec::Reconf {
            plan: change.plan.copy()?,
            key: self.table.octets(&root)?,
        };
        let gone = Act::Go {
            plan: change.plan.copy()?,
        };
        let made = joined(
            acts(self.alloc, [send(Node::T, reconf), gone])?,
            leave_acts(self.alloc, way, &change.plan)?,
        )?;
        self.table.carry(&change)?;
        let going = Going {
            complete: false,
            due: way.due,
            confirms: way.confirms,
            leaving: way.leaving,
            moving: moving_by(self.alloc, &change.plan)?,
        };
        let Change { plan, .. } = change;
        self.command = Some(Command::Gone { plan, going });
        Ok(made)
    }

    // The first record of a change, with the octets of the K_SN after it.
    fn first_record(&self, first: First, change: &Change) -> Result<Rec, Memory>
        ensures { IfOk result (λ made. made ≡ first_record self.now.table.book.roots first change.now) }
    {
        let plan = change.plan.copy()?;
        match first {
            First::Addition => Ok(Rec::Addreq {
                plan,
                key: self.table.octets(&change.second_key)?,
            }),
            First::Modification => Ok(Rec::Modreq {
                plan,
                key: self.table.octets(&change.second_key)?,
            }),
            First::Release => Ok(Rec::Relreq { plan }),
        }
    }

    // The first record of a change is sent to a node; `wanted`: a secondary node asked for the command.
    fn ask(
        &mut self,
        change: Change,
        first: First,
        who: Node,
        wanted: bool,
    ) -> Result<Seq<Act>, Memory>
        ensures { IfOk result (λ made. asks self.old change first who wanted ≡ (self.new, made)) }
    {
        let record_sent = self.first_record(first, &change)?;
        self.command = Some(Command::Asked {
            change,
            first,
            who,
            wanted,
        });
        acts(self.alloc, [send(who, record_sent)])
    }

    // What a draft draws is drawn.
    fn draw(&mut self, draft: &Draft) -> Result<(), Memory>
        ensures { OnOk result (self.new ≡ drawn self.old (rule_draft self.old.table draft.now)) }
    {
        self.table.draw(draft)
    }

    // A draft is drawn and begun, by its first record or at once, with the waiting anchors that it needs at the master.
    pub(super) fn begin(&mut self, draft: Draft, wanted: bool) -> Result<Seq<Act>, Memory>
        ensures { IfOk result (λ made. begins self.old (rule_draft self.old.table draft) wanted ≡ (self.new, made)) }
    {
        let prepared = preparing(self.alloc, &draft.change.plan)?;
        self.draw(&draft)?;
        let Draft { change, first, .. } = draft;
        let begun = match first {
            Some((first, who)) => self.ask(change, first, who, wanted)?,
            None => self.go(change, alone())?,
        };
        joined(prepared, begun)
    }

    // A release that a secondary node asked for is begun at once.
    pub(super) fn let_go(&mut self, node: Node, draft: Draft) -> Result<Seq<Act>, Memory>
        ensures { IfOk result (λ made. lets_go self.old node (rule_draft self.old.table draft) ≡ (self.new, made)) }
    {
        let note = Note::Begin {
            what: Want::Release,
        };
        let said = acts(self.alloc, [Act::Say { note }])?;
        let prepared = joined(said, preparing(self.alloc, &draft.change.plan)?)?;
        self.draw(&draft)?;
        let Draft { change, .. } = draft;
        let begun = self.go(change, let_go(node))?;
        joined(prepared, begun)
    }
}
