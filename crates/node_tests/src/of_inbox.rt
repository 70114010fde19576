//! Of `inbox`.

use dc_base::{Class, DrbId, Flight, LinkId, Node};
use inbox::{give_back, offer, open, settle, take, ticket_of};
use journals::Message;
use std::test::*;

#[test]
fn a_message_that_was_offered_is_taken(rt: HostRuntime) -> Result<(), Fail> {
    let (inbox, mut reader) = open(rt.alloc())?;
    let mut master = ticket_of::<1>(&inbox, &mut reader);
    let message = Message {
        link: LinkId::new(Node::M, Node::T, Class::Air),
        stamp: 3,
        flight: Flight::Ack {
            id: DrbId::new(1).ok_or("an identity")?,
            g: 1,
            num: 7,
        },
    };
    let refused = offer(&inbox, &mut master, message);
    assert!(rt; refused.is_ok());
    give_back(&inbox, &mut reader, master);
    settle(&inbox, &mut reader);
    let got = take(&inbox, &mut reader);
    assert!(rt; got.is_some());
    Ok(())
}
