//! The records that a secondary node takes (TS 38.423, 8.2 and 8.3): each with what it does in each state.

ghost use Rattle.std.specs.Prelude.{◌≡◌, ◌∷◌, [], Ok, IfOk, IfErr};
ghost use Rattle.node_rules.specs.SecondRecords.{added, addition_asked, answered, failure_told, forgotten, is_one_drop, is_wanted, key_confirmed, leave_confirmed, leaves, let_off, modification_asked, modified, reconfigured, recovery_asked, refused_there, release_asked, release_confirmed, release_needless, second_take, status_passed};
ghost use Rattle.node_rules.specs.declared.acts.Act.TheVariants as act;
ghost use Rattle.xn_procs.specs.Faults.{FailsAs};

use super::{SecondProc, to_master};
use crate::acting::{acts, send};
use crate::faults::ProcErr;
use dc_base::{
    DrbId, Gen, Item, Memory, Node, Note, Plan, Rec, RecKind, Seq, StatusTransfer, Want, Word,
};
use node_rules::{Act, Membership};
use std::alloc::Global;

// Whether the items drop one bearer: such a request is not rejected.
fn is_one_drop(items: &[Item]) -> bool
    ensures { result ≡ is_one_drop items.now }
{
    match items {
        [Item::Unset { .. }] => true,
        _ => false,
    }
}

impl SecondProc {
    /// Takes a record from the master. One that has no place in the state is not expected.
    pub fn take(&mut self, alloc: Global, rec: &Rec) -> Result<Seq<Act>, ProcErr>
        ensures ok { IfOk result (λ acts. second_take self.old rec.now ≡ Ok (self.new, acts)) }
        ensures err { IfErr result (FailsAs (second_take self.old rec.now) self.old self.new) }
    {
        match rec {
            Rec::Addreq { plan, .. } => self.take_addition(alloc, plan),
            Rec::Modreq { plan, .. } => self.take_modification(alloc, plan),
            Rec::Relreq { plan } => self.take_release(alloc, plan),
            Rec::Uecr { .. } => self.forget(alloc),
            Rec::Recfg { g } => self.take_complete(alloc, *g),
            Rec::Modcnf { g } => self.take_key_confirm(alloc, *g),
            Rec::Modref { word } => self.take_refusal(alloc, RecKind::Modref, Want::Rekey, *word),
            Rec::Chgcnf { plan } => self.take_leave(alloc, RecKind::Chgcnf, Want::Change, plan),
            Rec::Chgref { word } => self.take_refusal(alloc, RecKind::Chgref, Want::Change, *word),
            Rec::Relcnf { plan } => self.take_release_confirm(alloc, plan),
            Rec::Snst { status } => self.take_status(alloc, status),
            Rec::Recov { id } => self.take_recovery(alloc, *id),
            Rec::Scgn { id, g } => self.take_failure(alloc, *id, *g),
            _ => Err(ProcErr::Unexpected(rec.kind())),
        }
    }

    // Only a node without a context is added, unless it rejects (TS 38.423, 8.3.1).
    fn take_addition(&mut self, alloc: Global, plan: &Plan) -> Result<Seq<Act>, ProcErr>
        ensures ok { IfOk result (λ acts. addition_asked self.old plan.now self.old.membership ≡ Ok (self.new, acts)) }
        ensures err { IfErr result (FailsAs (addition_asked self.old plan.now self.old.membership) self.old self.new) }
    {
        match self.membership {
            Membership::Outside => Ok(self.add(alloc, plan)?),
            Membership::Joined => Err(ProcErr::Unexpected(RecKind::Addreq)),
            Membership::Left => Err(ProcErr::Unexpected(RecKind::Addreq)),
        }
    }

    // The node is added, unless it rejects.
    fn add(&mut self, alloc: Global, plan: &Plan) -> Result<Seq<Act>, Memory>
        ensures { IfOk result (λ acts. added self.old plan.now self.old.denies ≡ (self.new, acts)) }
    {
        if self.denies {
            return to_master(alloc, Rec::Addrej { g: plan.g });
        }
        let made = acts(
            alloc,
            [
                Act::Say {
                    note: Note::Join {
                        node: self.me,
                        g: plan.g,
                    },
                },
                send(Node::M, Rec::Addack { g: plan.g }),
                Act::Go { plan: plan.copy()? },
            ],
        )?;
        self.membership = Membership::Joined;
        Ok(made)
    }

    // Only a node that serves the terminal carries a modification out (TS 38.423, 8.3.3).
    fn take_modification(&mut self, alloc: Global, plan: &Plan) -> Result<Seq<Act>, ProcErr>
        ensures ok { IfOk result (λ acts. modification_asked self.old plan.now self.old.membership ≡ Ok (self.new, acts)) }
        ensures err { IfErr result (FailsAs (modification_asked self.old plan.now self.old.membership) self.old self.new) }
    {
        match self.membership {
            Membership::Outside => Err(ProcErr::Unexpected(RecKind::Modreq)),
            Membership::Joined => {
                let rejects = self.denies && !is_one_drop(plan.items.as_slice());
                Ok(self.modify(alloc, plan, rejects)?)
            }
            Membership::Left => Err(ProcErr::Unexpected(RecKind::Modreq)),
        }
    }

    // The plan is carried out, unless it is rejected.
    fn modify(&self, alloc: Global, plan: &Plan, rejects: bool) -> Result<Seq<Act>, Memory>
        ensures { IfOk result (λ acts. modified self.now plan.now rejects ≡ (self.now, acts)) }
    {
        if rejects {
            return to_master(alloc, Rec::Modrej { g: plan.g });
        }
        let answer = send(Node::M, Rec::Modack { g: plan.g });
        acts(alloc, [answer, Act::Go { plan: plan.copy()? }])
    }

    // The node leaves, after this act, and carries the plan out.
    fn leave(&mut self, alloc: Global, plan: &Plan, answer: Act) -> Result<Seq<Act>, Memory>
        ensures { IfOk result (λ acts. leaves self.old plan.now (answer ∷ []) ≡ (self.new, acts)) }
    {
        let note = Note::Leave {
            node: self.me,
            g: plan.g,
        };
        let made = acts(
            alloc,
            [answer, Act::Say { note }, Act::Go { plan: plan.copy()? }],
        )?;
        self.membership = Membership::Left;
        Ok(made)
    }

    // Only a node that serves the terminal is released (TS 38.423, 8.3.6); one that leaves by a change does not reject.
    fn take_release(&mut self, alloc: Global, plan: &Plan) -> Result<Seq<Act>, ProcErr>
        ensures ok { IfOk result (λ acts. release_asked self.old plan.now self.old.membership ≡ Ok (self.new, acts)) }
        ensures err { IfErr result (FailsAs (release_asked self.old plan.now self.old.membership) self.old self.new) }
    {
        match self.membership {
            Membership::Outside => Err(ProcErr::Unexpected(RecKind::Relreq)),
            Membership::Joined => {
                let rejects = self.denies && plan.sec.is_none();
                Ok(self.let_off(alloc, plan, rejects)?)
            }
            Membership::Left => Err(ProcErr::Unexpected(RecKind::Relreq)),
        }
    }

    // The node is released, unless it rejects.
    fn let_off(&mut self, alloc: Global, plan: &Plan, rejects: bool) -> Result<Seq<Act>, Memory>
        ensures { IfOk result (λ acts. let_off self.old plan.now rejects ≡ (self.new, acts)) }
    {
        if rejects {
            return to_master(alloc, Rec::Relrej { g: plan.g });
        }
        self.leave(alloc, plan, send(Node::M, Rec::Relack { g: plan.g }))
    }

    // The context ends (TS 38.423, 8.2.7).
    fn forget(&mut self, alloc: Global) -> Result<Seq<Act>, ProcErr>
        ensures ok { IfOk result (λ acts. forgotten self.old self.old.membership ≡ Ok (self.new, acts)) }
        ensures err { IfErr result (FailsAs (forgotten self.old self.old.membership) self.old self.new) }
    {
        match self.membership {
            Membership::Outside => Err(ProcErr::Unexpected(RecKind::Uecr)),
            Membership::Joined => Err(ProcErr::Unexpected(RecKind::Uecr)),
            Membership::Left => {
                self.membership = Membership::Outside;
                Ok(Seq::new(alloc))
            }
        }
    }

    // Whether the node asked for this.
    fn is_wanted(&self, what: Want) -> bool
        ensures { result ≡ is_wanted what self.now.want }
    {
        self.want == Some(what)
    }

    // What the node asked for is answered.
    fn forget_want(&mut self)
        ensures { self.new ≡ answered self.old }
    {
        self.want = None;
    }

    // What the node asked for is refused (TS 38.423, 8.3.4 and 8.3.5), whether or not it still has a context.
    fn take_refusal(
        &mut self,
        alloc: Global,
        kind: RecKind,
        what: Want,
        word: Word,
    ) -> Result<Seq<Act>, ProcErr>
        ensures ok { IfOk result (λ acts. refused_there kind self.old word (is_wanted what self.old.want) ≡ Ok (self.new, acts)) }
        ensures err { IfErr result (FailsAs (refused_there kind self.old word (is_wanted what self.old.want)) self.old self.new) }
    {
        if !self.is_wanted(what) {
            return Err(ProcErr::Unexpected(kind));
        }
        let note = Note::Refused {
            node: self.me,
            word,
        };
        let made = acts(alloc, [Act::Say { note }])?;
        self.forget_want();
        Ok(made)
    }

    // The line that what the node asked for was done.
    fn confirmed(&self) -> Act
        ensures { result ≡ act.Say (Note.Confirmed self.now.me) }
    {
        Act::Say {
            note: Note::Confirmed { node: self.me },
        }
    }

    // A new K_SN is confirmed by the completion of its plan (TS 38.423, 8.3.4).
    fn take_key_confirm(&mut self, alloc: Global, g: Gen) -> Result<Seq<Act>, ProcErr>
        ensures ok { IfOk result (λ acts. key_confirmed self.old g (is_wanted Want.Rekey self.old.want) self.old.membership ≡ Ok (self.new, acts)) }
        ensures err { IfErr result (FailsAs (key_confirmed self.old g (is_wanted Want.Rekey self.old.want) self.old.membership) self.old self.new) }
    {
        if !self.is_wanted(Want::Rekey) || !self.is_joined() {
            return Err(ProcErr::Unexpected(RecKind::Modcnf));
        }
        let made = acts(alloc, [Act::UnlockAll { g }, self.confirmed()])?;
        self.forget_want();
        Ok(made)
    }

    // What the node asked for is confirmed, and it leaves (TS 38.423, 8.3.5 and 8.3.7).
    fn take_leave(
        &mut self,
        alloc: Global,
        kind: RecKind,
        what: Want,
        plan: &Plan,
    ) -> Result<Seq<Act>, ProcErr>
        ensures ok { IfOk result (λ acts. leave_confirmed kind self.old plan.now (is_wanted what self.old.want) self.old.membership ≡ Ok (self.new, acts)) }
        ensures err { IfErr result (FailsAs (leave_confirmed kind self.old plan.now (is_wanted what self.old.want) self.old.membership) self.old self.new) }
    {
        if !self.is_wanted(what) || !self.is_joined() {
            return Err(ProcErr::Unexpected(kind));
        }
        let made = self.leave(alloc, plan, self.confirmed())?;
        self.forget_want();
        Ok(made)
    }

    // A release is confirmed. One of generation 0 says that there is nothing to release (TS 38.423, 8.3.7).
    fn take_release_confirm(&mut self, alloc: Global, plan: &Plan) -> Result<Seq<Act>, ProcErr>
        ensures ok { IfOk result (λ acts. release_confirmed self.old plan.now ≡ Ok (self.new, acts)) }
        ensures err { IfErr result (FailsAs (release_confirmed self.old plan.now) self.old self.new) }
    {
        if plan.g == 0 {
            self.take_needless(alloc)
        } else {
            self.take_leave(alloc, RecKind::Relcnf, Want::Release, plan)
        }
    }

    // There is nothing to release, whether or not the node still has a context.
    fn take_needless(&mut self, alloc: Global) -> Result<Seq<Act>, ProcErr>
        ensures ok { IfOk result (λ acts. release_needless self.old (is_wanted Want.Release self.old.want) ≡ Ok (self.new, acts)) }
        ensures err { IfErr result (FailsAs (release_needless self.old (is_wanted Want.Release self.old.want)) self.old self.new) }
    {
        if !self.is_wanted(Want::Release) {
            return Err(ProcErr::Unexpected(RecKind::Relcnf));
        }
        let made = acts(alloc, [self.confirmed()])?;
        self.forget_want();
        Ok(made)
    }

    // The reconfiguration is complete (TS 38.423, 8.3.2).
    fn take_complete(&mut self, alloc: Global, g: Gen) -> Result<Seq<Act>, ProcErr>
        ensures ok { IfOk result (λ acts. reconfigured self.old g self.old.membership ≡ Ok (self.new, acts)) }
        ensures err { IfErr result (FailsAs (reconfigured self.old g self.old.membership) self.old self.new) }
    {
        if !self.is_joined() {
            return Err(ProcErr::Unexpected(RecKind::Recfg));
        }
        Ok(acts(alloc, [Act::UnlockAll { g }])?)
    }

    // A status transfer for the node's waiting anchor (TS 38.423, 8.2.2).
    fn take_status(&mut self, alloc: Global, status: &StatusTransfer) -> Result<Seq<Act>, ProcErr>
        ensures ok { IfOk result (λ acts. status_passed self.old status.now self.old.membership ≡ Ok (self.new, acts)) }
        ensures err { IfErr result (FailsAs (status_passed self.old status.now self.old.membership) self.old self.new) }
    {
        if !self.is_joined() {
            return Err(ProcErr::Unexpected(RecKind::Snst));
        }
        let status = status.copy()?;
        Ok(acts(alloc, [Act::Pass { status }])?)
    }

    // The node's anchor recovers a bearer, and the master hears of it.
    fn take_recovery(&mut self, alloc: Global, id: DrbId) -> Result<Seq<Act>, ProcErr>
        ensures ok { IfOk result (λ acts. recovery_asked self.old id self.old.membership ≡ Ok (self.new, acts)) }
        ensures err { IfErr result (FailsAs (recovery_asked self.old id self.old.membership) self.old self.new) }
    {
        if !self.is_joined() {
            return Err(ProcErr::Unexpected(RecKind::Recov));
        }
        let told = send(Node::M, Rec::Recovd { id });
        Ok(acts(alloc, [told, Act::RecoverOne { id }])?)
    }

    // The SCG leg of a bearer failed (TS 37.340, 7.7). The node may have been released before it hears of it.
    fn take_failure(&mut self, alloc: Global, id: DrbId, g: Gen) -> Result<Seq<Act>, ProcErr>
        ensures ok { IfOk result (λ acts. failure_told self.old id g self.old.membership ≡ Ok (self.new, acts)) }
        ensures err { IfErr result (FailsAs (failure_told self.old id g self.old.membership) self.old self.new) }
    {
        match self.membership {
            Membership::Outside => Err(ProcErr::Unexpected(RecKind::Scgn)),
            Membership::Joined => Ok(acts(alloc, [Act::FailOne { id, g }])?),
            Membership::Left => Ok(acts(alloc, [Act::FailOne { id, g }])?),
        }
    }
}
