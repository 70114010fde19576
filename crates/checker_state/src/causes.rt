//! The answer that an event is due: the first refusal of its row that holds.

ghost use Rattle.std.specs.Prelude.{◌≡◌, ◌==◌, ◌&&◌, ℕ, IfOk, List, false, find, if◌then◌else◌, is_some, not};
ghost use Rattle.dc_base.specs.declared.events.Event.TheVariants as events;
ghost use Rattle.dc_base.specs.declared.nodes.Dir.{Dir};
ghost use Rattle.dc_base.specs.declared.numbers.SnLen.{SnLen};
ghost use Rattle.claims.specs.Causes.{at_master, at_node, at_second, at_terminal, due, has_no_second, has_shape, is_busy, is_counter_spent, lacks_second, submit_due};
ghost use Rattle.claims.specs.Drafts.{spends};
ghost use Rattle.claims.specs.Table.{row};
ghost use Rattle.std.specs.List.{list_any};
ghost use Rattle.claims.specs.Reading.{holds_any};
ghost use Rattle.claims.specs.Sameness.{is_same_answer, is_same_octets};
ghost use Rattle.checker_state.specs.Due.{decided_due, is_of_link, without_room};
ghost use Rattle.dc_base.specs.declared.answers.Answer.TheVariants as answers;
ghost use Rattle.dc_base.specs.declared.answers.Refusal.TheVariants as refusals;
ghost use Rattle.dc_base.specs.declared.nodes.Node.{Node};
ghost use Rattle.dc_base.specs.declared.nodes.Want.{Want};

use crate::answers::is_same_answer;
use crate::bearers::Bearer;
use crate::state::State;
use dc_base::{Answer, Dir, DrbId, Event, Memory, Node, Refusal, Shape};

impl State {
    /// The answer that an event is due, as far as it is decided, where it is no event of a link.
    pub fn due(&self, event: &Event, answer: Answer) -> Result<Answer, Memory>
        ensures { is_of_link event.now ≡ false → IfOk result (λ made. made ≡ decided_due answer self.now event.now) }
    {
        match event {
            Event::Bearer {
                id,
                shape,
                policy,
                ..
            } => self.due_to_bearer(event, answer, *id, *shape, *policy),
            Event::Reshape { id, shape } => self.due_to_shape(*id, *shape),
            Event::Remove { id } => Ok(self.due_to_one(*id)),
            Event::Recover { id } => Ok(self.due_to_one(*id)),
            Event::Add { .. } => Ok(self.due_to_addition()),
            Event::Change => Ok(self.due_to_renewal()),
            Event::RekeySecond => Ok(self.due_to_renewal()),
            Event::Release => self.due_to_release(),
            Event::RekeyMaster { root } => Ok(self.due_to_root(root)),
            Event::Submit { id, dir, .. } => Ok(self.due_to_submission(*id, *dir)),
            Event::Report { node, id } => Ok(self.due_to_report(*node, *id)),
            Event::Deny { .. } => Ok(Answer::Ok),
            Event::Ask { node, .. } => Ok(self.due_to_want(*node)),
            Event::ScgFail => Ok(self.due_to_failure()),
            Event::Step { .. } => Ok(Answer::Ok),
            Event::Lose { .. } => Ok(Answer::Ok),
            Event::Again { .. } => Ok(Answer::Ok),
        }
    }

    /// To a new bearer.
    fn due_to_bearer(
        &self,
        event: &Event,
        answer: Answer,
        id: DrbId,
        shape: Shape,
        policy: u8,
    ) -> Result<Answer, Memory>
        ensures { (n : SnLen) (first threshold : ℕ) → event.now ≡ events.Bearer id n first shape threshold policy → IfOk result (λ made. made ≡ decided_due answer self.now event.now) }
    {
        if self.is_busy() {
            Ok(Answer::No(Refusal::Busy))
        } else if self.at_master(id).is_some() {
            Ok(Answer::No(Refusal::BearerThere))
        } else if self.lacks_second(shape) {
            Ok(Answer::No(Refusal::NoSecondary))
        } else if policies(answer) <= policy as u32 {
            Ok(Answer::No(Refusal::NoPolicy))
        } else if self.spends(event)? {
            Ok(Answer::No(Refusal::IdSpent))
        } else {
            Ok(Answer::Ok)
        }
    }

    /// To another shape.
    fn due_to_shape(&self, id: DrbId, shape: Shape) -> Result<Answer, Memory>
        ensures { IfOk result (λ made. made ≡ due self.now (events.Reshape id shape)) }
    {
        if self.is_busy() {
            Ok(Answer::No(Refusal::Busy))
        } else if self.at_master(id).is_none() {
            Ok(Answer::No(Refusal::NoBearer))
        } else if self.lacks_second(shape) {
            Ok(Answer::No(Refusal::NoSecondary))
        } else if self.has_shape(id, shape) {
            Ok(Answer::No(Refusal::SameShape))
        } else if self.spends(&Event::Reshape { id, shape })? {
            Ok(Answer::No(Refusal::IdSpent))
        } else {
            Ok(Answer::Ok)
        }
    }

    /// To a drop or a recovery.
    fn due_to_one(&self, id: DrbId) -> Answer
        ensures { result ≡ due self.now (events.Remove id) }
    {
        if self.is_busy() {
            Answer::No(Refusal::Busy)
        } else if self.at_master(id).is_none() {
            Answer::No(Refusal::NoBearer)
        } else {
            Answer::Ok
        }
    }

    /// To the addition of a secondary node.
    fn due_to_addition(&self) -> Answer
        ensures { (node : Node) → result ≡ due self.now (events.Add node) }
    {
        if self.is_busy() {
            Answer::No(Refusal::Busy)
        } else if self.has_second() {
            Answer::No(Refusal::SecondaryThere)
        } else if self.is_counter_spent() {
            Answer::No(Refusal::CounterSpent)
        } else {
            Answer::Ok
        }
    }

    /// To a change of the secondary node, or a new key for it.
    fn due_to_renewal(&self) -> Answer
        ensures { result ≡ due self.now events.Change }
    {
        if self.is_busy() {
            Answer::No(Refusal::Busy)
        } else if self.has_no_second() {
            Answer::No(Refusal::NoSecondary)
        } else if self.is_counter_spent() {
            Answer::No(Refusal::CounterSpent)
        } else {
            Answer::Ok
        }
    }

    /// To its release.
    fn due_to_release(&self) -> Result<Answer, Memory>
        ensures { IfOk result (λ made. made ≡ due self.now events.Release) }
    {
        if self.is_busy() {
            Ok(Answer::No(Refusal::Busy))
        } else if self.has_no_second() {
            Ok(Answer::No(Refusal::NoSecondary))
        } else if self.spends(&Event::Release)? {
            Ok(Answer::No(Refusal::IdSpent))
        } else {
            Ok(Answer::Ok)
        }
    }

    /// To a new root.
    fn due_to_root(&self, root: &[u8; 32]) -> Answer
        ensures { result ≡ due self.now (events.RekeyMaster root.now) }
    {
        if self.is_busy() {
            Answer::No(Refusal::Busy)
        } else if self.is_root_used(root) {
            Answer::No(Refusal::RootUsed)
        } else {
            Answer::Ok
        }
    }

    /// To a submission: downlink at the master, uplink at the terminal.
    fn due_to_submission(&self, id: DrbId, dir: Dir) -> Answer
        ensures { (sdu : List ℕ) → result ≡ without_room (due self.now (events.Submit id dir sdu)) }
    {
        match dir {
            Dir::Dl => room_at(self.at_master(id)),
            Dir::Ul => room_at(self.at_terminal(id)),
        }
    }

    /// To a report that is asked for.
    fn due_to_report(&self, node: Node, id: DrbId) -> Answer
        ensures { result ≡ due self.now (events.Report node id) }
    {
        if self.at_node(node, id).is_none() {
            Answer::No(Refusal::NoBearer)
        } else {
            Answer::Ok
        }
    }

    /// To a secondary node that wants something.
    fn due_to_want(&self, node: Node) -> Answer
        ensures { (what : Want) → result ≡ due self.now (events.Ask node what) }
    {
        let second = self.second(node);
        if !second.joined {
            Answer::No(Refusal::NoSecondary)
        } else if second.wants.is_some() {
            Answer::No(Refusal::Busy)
        } else {
            Answer::Ok
        }
    }

    /// To a failure of the secondary cell group.
    fn due_to_failure(&self) -> Answer
        ensures { result ≡ due self.now events.ScgFail }
    {
        if self.seen.is_none() {
            Answer::No(Refusal::NoSecondary)
        } else {
            Answer::Ok
        }
    }

    /// A command is open.
    pub(crate) fn is_busy(&self) -> bool
        ensures { result ≡ is_busy self.now }
    {
        self.table.is_busy()
    }

    /// There is no secondary node.
    pub(crate) fn has_no_second(&self) -> bool
        ensures { result ≡ has_no_second self.now }
    {
        self.table.sec().is_none()
    }

    /// There is one.
    fn has_second(&self) -> bool
        ensures { result ≡ is_some self.now.table.sec }
    {
        self.table.sec().is_some()
    }

    /// The SN Counters of the current root are used up (TS 33.501, 6.10.3.1).
    pub(crate) fn is_counter_spent(&self) -> bool
        ensures { result ≡ is_counter_spent self.now }
    {
        self.table.is_counter_spent()
    }

    /// The bearer of an identity has this shape already.
    fn has_shape(&self, id: DrbId, shape: Shape) -> bool
        ensures { result ≡ has_shape shape (row self.now.table id) }
    {
        self.table.has_shape(id, shape)
    }

    /// A root of these octets was named.
    fn is_root_used(&self, root: &[u8; 32]) -> bool
        ensures { result ≡ list_any (is_same_octets root.now) self.now.table.roots }
    {
        self.table.is_root_used(root)
    }

    /// An event would set a key that is in use by another establishment.
    fn spends(&self, event: &Event) -> Result<bool, Memory>
        ensures { IfOk result (λ is. is ≡ spends self.now.table event.now) }
    {
        self.table.spends(event)
    }

    /// The shape needs a secondary node, and there is none.
    fn lacks_second(&self, shape: Shape) -> bool
        ensures { result ≡ lacks_second self.now shape }
    {
        self.has_no_second() && !shape.is_mm()
    }

    /// The establishment at the master: done, and not dropped.
    fn at_master(&self, id: DrbId) -> Option<Bearer>
        ensures { result ≡ at_master self.now id }
    {
        match self.latest(id) {
            None => None,
            Some(bearer) => {
                if bearer.is_there() {
                    Some(bearer)
                } else {
                    None
                }
            }
        }
    }

    /// At the terminal: it was set, and not unset since.
    fn at_terminal(&self, id: DrbId) -> Option<Bearer>
        ensures { result ≡ at_terminal self.now id }
    {
        set_of(&self.bearers, id)
    }

    /// At a secondary: its anchor is active there.
    fn at_second(&self, node: Node, id: DrbId) -> Option<Bearer>
        ensures { result ≡ at_second self.now node id }
    {
        match self.latest(id) {
            None => None,
            Some(bearer) => {
                if bearer.is_held_by(node) {
                    Some(bearer)
                } else {
                    None
                }
            }
        }
    }

    /// At a node.
    fn at_node(&self, node: Node, id: DrbId) -> Option<Bearer>
        ensures { result ≡ at_node self.now node id }
    {
        match node {
            Node::T => self.at_terminal(id),
            Node::M => self.at_master(id),
            Node::A => self.at_second(Node::A, id),
            Node::B => self.at_second(Node::B, id),
        }
    }
}

impl Bearer {
    /// It is established, and not dropped.
    fn is_there(&self) -> bool
        ensures { result ≡ self.now.is_done && not self.now.is_dropped }
    {
        self.is_done && !self.is_dropped
    }

    /// The terminal has it.
    fn is_set(&self) -> bool
        ensures { result ≡ is_some self.now.terminal }
    {
        self.terminal.is_some()
    }

    /// Its anchor is active at this node.
    pub(crate) fn is_held_by(&self, node: Node) -> bool
        ensures { result ≡ holds_any node self.now.holder }
    {
        match self.holder {
            None => false,
            Some((at, _)) => node.number() == at.number(),
        }
    }
}

/// The latest establishment of an identity that the terminal has.
fn set_of(bearers: &[Bearer], id: DrbId) -> Option<Bearer>
    ensures { result ≡ find (λ b. (b.id == id) && is_some b.terminal) bearers.now }
{
    bearers
        .iter()
        .copied()
        .find(|bearer| bearer.id() == id && bearer.is_set())
}

/// The answer to a submission, by whether there is such a bearer.
#[tactic(auto, using(crate::proofs::Room::room_is))]
fn room_at(bearer: Option<Bearer>) -> Answer
    ensures { (d : Dir) → result ≡ without_room (submit_due d bearer) }
{
    match bearer {
        None => Answer::No(Refusal::NoBearer),
        Some(_) => Answer::Ok,
    }
}

/// How many policies there are, for this answer.
fn policies(answer: Answer) -> u32
    ensures { result ≡ (if is_same_answer answer (answers.No refusals.NoPolicy) then 0 else 256) }
{
    if is_same_answer(answer, Answer::No(Refusal::NoPolicy)) {
        0
    } else {
        256
    }
}
