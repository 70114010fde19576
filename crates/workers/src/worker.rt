//! A worker, turn by turn.

ghost use Rattle.std.specs.Prelude.{◌≡◌, ◌+◌, ◌++◌, ◌<◌, ◌∷◌, [], false, length, true, IfOk, List, OnOk, ℕ};
ghost use Rattle.atomic_table.specs.Seated.{TableId};
ghost use Rattle.dc_base.specs.Nodes.{node_number};
ghost use Rattle.journals.specs.Journals.{taken};
ghost use Rattle.node_rules.specs.Choices.{by_policies};
ghost use Rattle.outlets.specs.Boxes.{IsReader, ids};
ghost use Rattle.outlets.specs.Ways.{AreWays};
ghost use Rattle.split_leg.specs.Stored.{margins};
ghost use Rattle.workers.specs.Plans.{Waits};
ghost use Rattle.workers.specs.Working.{AreDrivenAt, Around, HasRun, IsTaken, MayRun, Noted, Opening, Sound, around, opening};

use crate::live_node::{LiveNode, is_ready};
use crate::stepping::step;
use crate::traits::{Gate, Shaper};
use dc_base::{Event, Memory, Node, Seq};
use inbox::{Ticket, take};
use journals::{JournalEntry, Message, What};
use outlets::{Inboxes, Outlets};
use split_leg::Policies;
use std::alloc::Global;
use std::collections::VecDeque;

/// How many messages of tunnels a worker asks its shaper about.
const MOST_SHAPED: u64 = 1_000_000;

/// What a worker is given for its node: the core, the gate and the shaper.
#[derive(Drop)]
pub struct Parts<C, G, S> {
    pub core: C,
    pub gate: G,
    pub shaper: S,
}

/// A node at work.
#[derive(Drop)]
pub struct Worker<C, G, S> {
    pub me: Node,
    pub core: C,
    pub gate: G,
    pub shaper: S,
    /// The pass that takes from the node's inbox.
    pub ticket: Ticket,
    pub outlets: Outlets,
    /// The stamp of the last entry.
    pub clock: u64,
    /// How many messages of tunnels were taken.
    pub shaped: u64,
    /// The lines of the plan that were not taken yet.
    pub lines: VecDeque<Event>,
    pub journal: Seq<JournalEntry>,
    pub alloc: Global,
}

impl<C: LiveNode, G: Gate, S: Shaper> Worker<C, G, S> {
    /// A worker before its first turn: with the pass that takes from the inbox of its node, with the node's outlets, and with the
    /// lines of the plan for the node.
    pub fn new(
        alloc: Global,
        me: Node,
        parts: Parts<C, G, S>,
        ticket: Ticket,
        outlets: Outlets,
        lines: Seq<Event>,
    ) -> Worker<C, G, S>
        ensures { (x : Around) → IsReader (x.ids (node_number me)) [] ticket → AreWays x.ids (node_number me) (λ k. []) outlets → AreDrivenAt me lines → Sound C.node S.is_lossless x (opening me (C.node parts.core) lines (S.is_lossless parts.shaper)) 0 (taken result.journal) result }
    {
        let Parts { core, gate, shaper } = parts;
        Worker {
            me,
            core,
            gate,
            shaper,
            ticket,
            outlets,
            clock: 0,
            shaped: 0,
            lines: VecDeque::from(lines.into_vec()),
            journal: Seq::new(alloc),
            alloc,
        }
    }

    // What was taken is given to the core and written down, and what the node sends is sent on.
    fn note(&mut self, turn: u64, clock: u64, what: What, policies: &Policies) -> Result<(), Memory>
        ensures { OnOk result (Noted C.node (by_policies (margins policies.now)) self.old turn clock what self.new) }
    {
        let (answer, lines) = step(self.alloc, &mut self.core, &what, policies)?;
        self.outlets.send_all(self.me, clock, lines.as_slice())?;
        self.journal.push(JournalEntry {
            stamp: clock,
            turn,
            what,
            answer,
            lines,
        })?;
        self.clock = clock;
        Ok(())
    }

    // What becomes of a message: a tunnel may lose it. Want of memory is answered too after a million messages of tunnels.
    fn fate_of(&mut self, message: Message) -> Result<What, Memory>
        ensures { IfOk result (λ what. IsTaken S.is_lossless self.old message what self.new) }
    {
        if !message.link.class.is_tunnel() {
            return Ok(What::Step(message));
        }
        if self.shaped >= MOST_SHAPED {
            return Err(Memory);
        }
        let is_lost = self.shaper.loses(self.shaped);
        self.shaped += 1;
        if is_lost {
            Ok(What::Loss(message))
        } else {
            Ok(What::Step(message))
        }
    }

    // A message came.
    fn hear(&mut self, turn: u64, message: Message, policies: &Policies) -> Result<(), Memory>
        ensures { (ids : ℕ → TableId) (o : Opening) → Sound C.node S.is_lossless (around ids (by_policies (margins policies.now))) o turn (taken self.old.journal ++ message ∷ []) self.old → OnOk result (Sound C.node S.is_lossless (around ids (by_policies (margins policies.now))) o (turn + 1) (taken self.new.journal) self.new) }
    {
        let Some(clock) = self.clock.max(message.stamp).checked_add(1) else {
            return Err(Memory);
        };
        let what = self.fate_of(message)?;
        self.note(turn, clock, what, policies)
    }

    // Whether there is a next line of the plan and it is ready.
    fn is_due(&self) -> bool
        ensures due { result ≡ true → 0 < length self.now.lines.items }
        ensures waits { result ≡ false → Waits (C.node self.now.core) self.now.lines.items }
    {
        match self.lines.front() {
            Some(next) => is_ready(&self.core, next),
            None => false,
        }
    }

    // No message was there: the next line of the plan is taken, if it is ready.
    fn drive(&mut self, turn: u64, policies: &Policies) -> Result<(), Memory>
        ensures { (ids : ℕ → TableId) (o : Opening) → Sound C.node S.is_lossless (around ids (by_policies (margins policies.now))) o turn (taken self.old.journal) self.old → OnOk result (Sound C.node S.is_lossless (around ids (by_policies (margins policies.now))) o (turn + 1) (taken self.new.journal) self.new) }
    {
        if !self.is_due() {
            return Ok(());
        }
        let Some(clock) = self.clock.checked_add(1) else {
            return Err(Memory);
        };
        let event = self.lines.pop_front().unwrap();
        self.note(turn, clock, What::Driver(event), policies)
    }

    /// One turn: the gate is passed, what waits is offered, and a message is taken, or else the next line of the plan if it is
    /// ready. After `Memory` the worker is not used again.
    pub fn take_turn(
        &mut self,
        boxes: &Inboxes,
        turn: u64,
        policies: &Policies,
    ) -> Result<(), Memory>
        requires { (o : Opening) × Sound C.node S.is_lossless (around (ids boxes.now) (by_policies (margins policies.now))) o turn (taken self.old.journal) self.old }
        ensures { (o : Opening) → Sound C.node S.is_lossless (around (ids boxes.now) (by_policies (margins policies.now))) o turn (taken self.old.journal) self.old → OnOk result (Sound C.node S.is_lossless (around (ids boxes.now) (by_policies (margins policies.now))) o (turn + 1) (taken self.new.journal) self.new) }
    {
        self.gate.pass(self.me, turn);
        self.outlets.offer_all(boxes, self.me);
        match take(boxes.at(self.me), &mut self.ticket) {
            Some(message) => self.hear(turn, message, policies),
            None => self.drive(turn, policies),
        }
    }

    /// So many turns.
    pub fn run(
        mut self,
        boxes: &Inboxes,
        turns: u64,
        policies: &Policies,
    ) -> Result<Worker<C, G, S>, Memory>
        requires { MayRun C.node S.is_lossless (around (ids boxes.now) (by_policies (margins policies.now))) self }
        ensures { IfOk result (λ w. HasRun C.node S.is_lossless (around (ids boxes.now) (by_policies (margins policies.now))) turns self w) }
    {
        for turn in 0..turns {
            self.take_turn(boxes, turn, policies)?;
        }
        Ok(self)
    }
}
