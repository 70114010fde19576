//! How an anchor gives a bearer up (TS 37.340, 10; TS 38.423, 8.2.2).

ghost use Rattle.std.specs.Prelude.{◌≡◌, IfOk};
ghost use Rattle.node_rules.specs.Anchor.{Active};
ghost use Rattle.node_rules.specs.Freezing.{freeze};
ghost use Rattle.pdcp_pdu.specs.StatusReport.{whole_bits};
ghost use Rattle.pdcp_rx.specs.Entries.{counts_of};
ghost use Rattle.pdcp_rx.specs.Receiver.{IsInOrder};
ghost use Rattle.anchor.specs.Frozen.{given};

use crate::forwarding::{ForwardingTunnel, Path};
use dc_base::{DrbId, Flight, Gen, LinkId, Memory, Node, Octets, Seq, StatusTransfer};
use pdcp_entity::PdcpEntity;
use pdcp_pdu::encode_bitmap;
use pdcp_rx::RxParts;
use std::alloc::Global;

/// What a freeze gives: SN STATUS TRANSFER, the packets to the new anchor, and the downlink tunnel where it stays open.
#[derive(Drop)]
pub struct FreezeOut {
    pub status: StatusTransfer,
    pub sends: Seq<(LinkId, Flight)>,
    pub rest: Option<ForwardingTunnel>,
}

/// The COUNTs of what is stored.
fn stored_counts(alloc: Global, stored: &[(u32, Octets)]) -> Result<Seq<u32>, Memory>
    ensures { IfOk result (λ counts. counts ≡ counts_of stored.now) }
{
    let counts = stored.iter().map(|entry| entry.0).collect(alloc)?;
    Ok(Seq::from_vec(counts))
}

/// SN STATUS TRANSFER of a bearer, for a change: the next COUNT in downlink, and RX_DELIV and what is stored above it in uplink.
pub(crate) fn status_transfer(
    alloc: Global,
    id: DrbId,
    g: Gen,
    dl: u32,
    rx: &RxParts,
) -> Result<StatusTransfer, Memory>
    requires { IsInOrder rx.now }
    ensures { IfOk result (λ status. status ≡ record { g = g; id = id; ul = rx.now.deliv; bits = whole_bits rx.now.deliv (counts_of rx.now.stored); dl = dl }) }
{
    let counts = stored_counts(alloc, rx.stored.as_slice())?;
    let bits = encode_bitmap(alloc, rx.deliv, &counts)?;
    Ok(StatusTransfer {
        g,
        id,
        ul: rx.deliv,
        bits,
        dl,
    })
}

/// An active anchor with this entity is frozen for a change to a node (TS 38.423, 8.2.2); `last` says that no SDU comes from
/// the core any more. A run draws far fewer than 2^24 generations; of a later one it says `Memory`.
pub(crate) fn freeze(
    alloc: Global,
    entity: PdcpEntity,
    target: Node,
    g: Gen,
    last: bool,
) -> Result<FreezeOut, Memory>
    ensures { (a : Active) → a.entity ≡ entity → IfOk result (λ out. given out ≡ freeze a target g last) }
{
    if g >= 1 << 24 {
        return Err(Memory);
    }
    let (setup, tx, rx) = entity.freeze()?;
    let status = status_transfer(alloc, setup.id(), g, tx.next, &rx)?;
    let mut sends = Seq::new(alloc);
    let mut down = Path::new(alloc, &setup, target, g, 1);
    down.numbered(tx.kept, &mut sends)?;
    down.fresh(tx.held, &mut sends)?;
    let rest = down.end_if(alloc, last, &mut sends)?;
    let mut up = Path::new(alloc, &setup, target, g, 2);
    up.numbered(rx.stored, &mut sends)?;
    up.close(&mut sends)?;
    Ok(FreezeOut {
        status,
        sends,
        rest,
    })
}
