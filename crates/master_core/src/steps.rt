//! Steps of an anchor and of a leg host.

ghost use Rattle.std.specs.Prelude.{◌≡◌, IfOk};
ghost use Rattle.node_rules.specs.Choices.{by_policies};
ghost use Rattle.master_core.specs.Steps.{anchor_does, anchor_takes, host_takes};
ghost use Rattle.split_leg.specs.Stored.{margins};

use anchor::Anchor;
use dc_base::{Cell, Flight, LinkId, Memory, Octets, Seq, StatusTransfer};
use leg_host::LegHost;
use node_rules::AnchorOut;
use split_leg::Policies;

/// A flight of user data, by the link on which it comes.
#[derive(Debug, Drop)]
pub(crate) enum UserFlight {
    OverAir(Flight),
    ThroughTunnel(Flight),
}

/// What an anchor is to do.
#[derive(Debug, Drop)]
pub(crate) enum AnchorStep {
    /// The reconfiguration is complete.
    Unlock,
    /// Its bearer recovers.
    Recover,
    /// Its SCG leg failed.
    FailScg,
    /// A status report is asked for.
    Report,
    /// An SDU is submitted.
    Submit(Octets),
    /// A status transfer is given to it.
    Pass(StatusTransfer),
    /// A flight of user data comes.
    Take(UserFlight),
}

/// The anchor does this. An SDU is of 1 to 9000 octets; of another it says `Memory`.
pub(crate) fn anchor_does(
    anchor: &mut Anchor,
    step: AnchorStep,
    policies: &Policies,
) -> Result<AnchorOut, Memory>
    ensures { IfOk result (λ out. (anchor.new, out) ≡ anchor_does (by_policies (margins policies.now)) step anchor.old) }
{
    match step {
        AnchorStep::Unlock => anchor.unlock(policies),
        AnchorStep::Recover => anchor.recover(policies),
        AnchorStep::FailScg => anchor.fail_scg(policies),
        AnchorStep::Report => anchor.report(policies),
        AnchorStep::Submit(sdu) => anchor.submit(sdu, policies),
        AnchorStep::Pass(status) => anchor.status_in(&status, policies),
        AnchorStep::Take(flight) => anchor_takes(anchor, &flight, policies),
    }
}

// The anchor takes a flight of user data; those over the air come on its MCG leg.
fn anchor_takes(
    anchor: &mut Anchor,
    flight: &UserFlight,
    policies: &Policies,
) -> Result<AnchorOut, Memory>
    ensures { IfOk result (λ out. (anchor.new, out) ≡ anchor_takes (by_policies (margins policies.now)) flight.now anchor.old) }
{
    match flight {
        UserFlight::OverAir(flight) => anchor.air_in(Cell::Mcg, flight),
        UserFlight::ThroughTunnel(flight) => anchor.tunnel_in(flight, policies),
    }
}

/// The leg host takes a flight of user data.
pub(crate) fn host_takes(
    host: &mut LegHost,
    flight: &UserFlight,
) -> Result<Seq<(LinkId, Flight)>, Memory>
    ensures { IfOk result (λ sends. (host.new, sends) ≡ host_takes flight.now host.old) }
{
    match flight {
        UserFlight::OverAir(flight) => host.air_in(flight),
        UserFlight::ThroughTunnel(flight) => host.tunnel_in(flight),
    }
}
