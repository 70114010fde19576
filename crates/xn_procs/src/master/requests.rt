//! What a secondary node asks the master for (TS 38.423, 8.3.4, 8.3.5 and 8.3.7).

ghost use Rattle.std.specs.Prelude.{◌≡◌, ◌∷◌, [], IfOk, true};
ghost use Rattle.node_rules.specs.declared.acts.Act.TheVariants as act;
ghost use Rattle.node_rules.specs.Drafts.{draft};
ghost use Rattle.node_rules.specs.MasterGo.{before_acts, begins_if};
ghost use Rattle.node_rules.specs.MasterRecords.{asking_refusal, wanted_by};

use super::MasterProc;
use crate::acting::{acts, joined, send};
use crate::places::is_at;
use dc_base::{Event, Memory, Node, Note, Rec, Seq, Want, Word};
use node_rules::Act;

impl MasterProc {
    // Why the master refuses a new K_SN or a change, where it does.
    fn asking_refusal(&self, from: Node) -> Option<Word>
        ensures { result ≡ asking_refusal from self.now }
    {
        if !is_at(from, self.table.sec()) {
            return Some(Word::NoSecondary);
        }
        if self.is_busy() {
            return Some(Word::Busy);
        }
        if self.table.is_counter_spent() {
            return Some(Word::CounterSpent);
        }
        None
    }

    // The command that a secondary node asked for begins.
    fn begin_asked(&mut self, what: Want, event: &Event) -> Result<Seq<Act>, Memory>
        ensures { IfOk result (λ made. before_acts (act.Say (Note.Begin what) ∷ []) (begins_if self.old true (draft self.old.table event.now)) ≡ (self.new, made)) }
    {
        let said = acts(
            self.alloc,
            [Act::Say {
                note: Note::Begin { what },
            }],
        )?;
        let Some(draft) = self.table.draft(event)? else {
            return Ok(said);
        };
        let begun = self.begin(draft, true)?;
        joined(said, begun)
    }

    // A secondary node asks for something. A new K_SN or a change is refused by a record, or the command begins; a release is
    // never refused.
    pub(super) fn take_request(&mut self, from: Node, what: Want) -> Result<Seq<Act>, Memory>
        ensures { IfOk result (λ made. wanted_by from what self.old ≡ (self.new, made)) }
    {
        match what {
            Want::Rekey => match self.asking_refusal(from) {
                Some(word) => acts(self.alloc, [send(from, Rec::Modref { word })]),
                None => self.begin_asked(what, &Event::RekeySecond),
            },
            Want::Change => match self.asking_refusal(from) {
                Some(word) => acts(self.alloc, [send(from, Rec::Chgref { word })]),
                None => self.begin_asked(what, &Event::Change),
            },
            Want::Release => {
                self.set_waits(true, from);
                self.try_release(from)
            }
        }
    }
}
