//! Which record the master takes from which node (TS 38.423, 8.2.2 and 8.3; TS 38.331, 5.3.5 and 5.7.3).

ghost use Rattle.std.specs.Prelude.{◌≡◌, Ok, IfOk, IfErr};
ghost use Rattle.node_rules.specs.MasterTaking.{from_second, from_terminal, master_take};
ghost use Rattle.xn_procs.specs.Faults.{FailsAs};

use super::MasterProc;
use crate::faults::ProcErr;
use dc_base::{Node, Rec, RecKind, Seq, Want};
use node_rules::{Act, First};

impl MasterProc {
    /// Takes a record from a node. One that has no place in the state is not expected.
    pub fn take(&mut self, from: Node, rec: &Rec) -> Result<Seq<Act>, ProcErr>
        ensures ok { IfOk result (λ made. master_take from self.old rec.now ≡ Ok (self.new, made)) }
        ensures err { IfErr result (FailsAs (master_take from self.old rec.now) self.old self.new) }
    {
        match from {
            Node::T => self.take_from_terminal(rec),
            Node::A => self.take_from_second(Node::A, rec),
            Node::B => self.take_from_second(Node::B, rec),
            Node::M => Err(ProcErr::Unexpected(rec.kind())),
        }
    }

    // A record from the terminal.
    fn take_from_terminal(&mut self, rec: &Rec) -> Result<Seq<Act>, ProcErr>
        ensures ok { IfOk result (λ made. from_terminal self.old rec.now ≡ Ok (self.new, made)) }
        ensures err { IfErr result (FailsAs (from_terminal self.old rec.now) self.old self.new) }
    {
        match rec {
            Rec::Rcomp { g } => self.complete(*g),
            Rec::Scgf { failed } => Ok(self.take_failed_legs(failed.as_slice())?),
            Rec::Recovd { id } => self.take_recovered(Node::T, *id),
            _ => Err(ProcErr::Unexpected(rec.kind())),
        }
    }

    // A record from a secondary node.
    fn take_from_second(&mut self, from: Node, rec: &Rec) -> Result<Seq<Act>, ProcErr>
        ensures ok { IfOk result (λ made. from_second from self.old rec.now ≡ Ok (self.new, made)) }
        ensures err { IfErr result (FailsAs (from_second from self.old rec.now) self.old self.new) }
    {
        match rec {
            Rec::Addack { g } => self.agree(RecKind::Addack, First::Addition, from, *g),
            Rec::Modack { g } => self.agree(RecKind::Modack, First::Modification, from, *g),
            Rec::Relack { g } => Ok(self.take_release_ack(from, *g)?),
            Rec::Addrej { g } => self.reject(RecKind::Addrej, First::Addition, from, *g),
            Rec::Modrej { g } => self.reject(RecKind::Modrej, First::Modification, from, *g),
            Rec::Relrej { g } => self.reject(RecKind::Relrej, First::Release, from, *g),
            Rec::Snst { status } => self.take_transfer(from, status),
            Rec::Moved { g, id } => self.take_moved(from, *g, *id),
            Rec::Recovd { id } => self.take_recovered(from, *id),
            Rec::Modrqd => Ok(self.take_request(from, Want::Rekey)?),
            Rec::Chgrqd => Ok(self.take_request(from, Want::Change)?),
            Rec::Relrqd => Ok(self.take_request(from, Want::Release)?),
            _ => Err(ProcErr::Unexpected(rec.kind())),
        }
    }
}
