//! Plans, and the records between nodes (TS 38.423, 8.3; TS 38.331, 5.3.5).

ghost use Rattle.std.specs.Prelude.{◌≡◌, IfOk};

use crate::answers::Word;
use crate::identities::{DrbId, Gen};
use crate::lists::{Memory, Octets, Seq};
use crate::nodes::{KeyName, Node, Shape};
use crate::numbers::SnLen;

/// What a plan does with one bearer: sets it, with the old anchor unless it is new, or drops it.
#[derive(Clone, Copy, Debug, PartialEq, Eq)]
pub enum Item {
    Set {
        id: DrbId,
        n: SnLen,
        /// The first COUNT of both directions.
        first: u32,
        shape: Shape,
        /// Octets: below it, a split bearer sends on its primary leg alone.
        threshold: u32,
        /// The number of the policy that chooses the leg from there on.
        policy: u8,
        key: KeyName,
        /// The anchor before, none for a new bearer.
        old: Option<Node>,
    },
    Unset {
        id: DrbId,
    },
}

/// What a command changes: the items stand by ascending identity.
#[derive(Clone, Debug, Drop, PartialEq, Eq)]
pub struct Plan {
    pub g: Gen,
    /// The secondary node after the change.
    pub sec: Option<Node>,
    pub items: Seq<Item>,
}

/// SN STATUS TRANSFER (TS 38.423, 8.2.2): what the old anchor tells the new one of a bearer.
#[derive(Clone, Debug, Drop, PartialEq, Eq)]
pub struct StatusTransfer {
    pub g: Gen,
    pub id: DrbId,
    /// The first uplink COUNT not handed up.
    pub ul: u32,
    /// Which uplink COUNTs after it were received, as a status report shows them, never cut.
    pub bits: Octets,
    /// The next downlink COUNT.
    pub dl: u32,
}

/// A record between nodes. `key` is the field that is not printed.
#[derive(Clone, Debug, Drop, PartialEq, Eq)]
pub enum Rec {
    /// RRC reconfiguration, with the octets of the current root key.
    Reconf { plan: Plan, key: [u8; 32] },
    /// RRC reconfiguration complete.
    Rcomp { g: Gen },
    /// SCG failure information.
    Scgf { failed: Seq<(DrbId, Gen)> },
    /// The order to send again what is not confirmed.
    Recov { id: DrbId },
    /// That order was carried out.
    Recovd { id: DrbId },
    /// S-NODE ADDITION REQUEST, with the octets of the new K_SN.
    Addreq { plan: Plan, key: [u8; 32] },
    /// S-NODE ADDITION REQUEST ACKNOWLEDGE.
    Addack { g: Gen },
    /// S-NODE ADDITION REQUEST REJECT.
    Addrej { g: Gen },
    /// S-NODE MODIFICATION REQUEST, with the octets of the K_SN after the change.
    Modreq { plan: Plan, key: [u8; 32] },
    /// S-NODE MODIFICATION REQUEST ACKNOWLEDGE.
    Modack { g: Gen },
    /// S-NODE MODIFICATION REQUEST REJECT.
    Modrej { g: Gen },
    /// S-NODE RECONFIGURATION COMPLETE.
    Recfg { g: Gen },
    /// S-NODE RELEASE REQUEST.
    Relreq { plan: Plan },
    /// S-NODE RELEASE REQUEST ACKNOWLEDGE.
    Relack { g: Gen },
    /// S-NODE RELEASE REJECT.
    Relrej { g: Gen },
    /// UE CONTEXT RELEASE.
    Uecr { g: Gen },
    /// SN STATUS TRANSFER.
    Snst { status: StatusTransfer },
    /// The bearer has moved to this secondary.
    Moved { g: Gen, id: DrbId },
    /// The SCG leg of this bearer and generation failed.
    Scgn { id: DrbId, g: Gen },
    /// S-NODE MODIFICATION REQUIRED.
    Modrqd,
    /// S-NODE MODIFICATION CONFIRM.
    Modcnf { g: Gen },
    /// S-NODE MODIFICATION REFUSE.
    Modref { word: Word },
    /// S-NODE CHANGE REQUIRED.
    Chgrqd,
    /// S-NODE CHANGE CONFIRM.
    Chgcnf { plan: Plan },
    /// S-NODE CHANGE REFUSE.
    Chgref { word: Word },
    /// S-NODE RELEASE REQUIRED.
    Relrqd,
    /// S-NODE RELEASE CONFIRM.
    Relcnf { plan: Plan },
}

/// Which record it is.
#[derive(Clone, Copy, Debug, PartialEq, Eq)]
pub enum RecKind {
    Reconf,
    Rcomp,
    Scgf,
    Recov,
    Recovd,
    Addreq,
    Addack,
    Addrej,
    Modreq,
    Modack,
    Modrej,
    Recfg,
    Relreq,
    Relack,
    Relrej,
    Uecr,
    Snst,
    Moved,
    Scgn,
    Modrqd,
    Modcnf,
    Modref,
    Chgrqd,
    Chgcnf,
    Chgref,
    Relrqd,
    Relcnf,
}

impl Plan {
    /// An equal plan.
    pub fn copy(&self) -> Result<Plan, Memory>
        ensures { IfOk result (λ made. made ≡ self.now) }
    {
        Ok(self.clone()?)
    }
}

impl StatusTransfer {
    /// An equal record.
    pub fn copy(&self) -> Result<StatusTransfer, Memory>
        ensures { IfOk result (λ made. made ≡ self.now) }
    {
        Ok(self.clone()?)
    }
}

impl Rec {
    ghost use Rattle.dc_base.specs.Records.{kind_of};

    /// Which record it is.
    pub fn kind(&self) -> RecKind
        ensures { result ≡ kind_of self.now }
    {
        match self {
            Rec::Reconf { .. } => RecKind::Reconf,
            Rec::Rcomp { .. } => RecKind::Rcomp,
            Rec::Scgf { .. } => RecKind::Scgf,
            Rec::Recov { .. } => RecKind::Recov,
            Rec::Recovd { .. } => RecKind::Recovd,
            Rec::Addreq { .. } => RecKind::Addreq,
            Rec::Addack { .. } => RecKind::Addack,
            Rec::Addrej { .. } => RecKind::Addrej,
            Rec::Modreq { .. } => RecKind::Modreq,
            Rec::Modack { .. } => RecKind::Modack,
            Rec::Modrej { .. } => RecKind::Modrej,
            Rec::Recfg { .. } => RecKind::Recfg,
            Rec::Relreq { .. } => RecKind::Relreq,
            Rec::Relack { .. } => RecKind::Relack,
            Rec::Relrej { .. } => RecKind::Relrej,
            Rec::Uecr { .. } => RecKind::Uecr,
            Rec::Snst { .. } => RecKind::Snst,
            Rec::Moved { .. } => RecKind::Moved,
            Rec::Scgn { .. } => RecKind::Scgn,
            Rec::Modrqd => RecKind::Modrqd,
            Rec::Modcnf { .. } => RecKind::Modcnf,
            Rec::Modref { .. } => RecKind::Modref,
            Rec::Chgrqd => RecKind::Chgrqd,
            Rec::Chgcnf { .. } => RecKind::Chgcnf,
            Rec::Chgref { .. } => RecKind::Chgref,
            Rec::Relrqd => RecKind::Relrqd,
            Rec::Relcnf { .. } => RecKind::Relcnf,
        }
    }

    /// An equal record.
    pub fn copy(&self) -> Result<Rec, Memory>
        ensures { IfOk result (λ made. made ≡ self.now) }
    {
        Ok(self.clone()?)
    }
}
