//! Which SDUs are payloads.

ghost use Rattle.std.specs.Prelude.{◌≡◌, true};
ghost use Rattle.node_rules.specs.Adopting.{is_payload};
ghost use Rattle.pdcp_pdu.specs.DataPdu.{IsPayload};

/// Whether an SDU is a payload: 1 to 9000 octets.
pub(crate) fn is_payload(sdu: &[u8]) -> bool
    ensures value { result ≡ is_payload sdu.now }
    ensures payload { result ≡ true → IsPayload sdu.now }
{
    !sdu.is_empty() && sdu.len() <= 9000
}
