//! Of `pdcp_tx`.

use dc_base::{Octets, SnLen};
use pdcp_tx::{Tx, TxErr};
use std::alloc::Global;
use std::test::Fail;

fn sdu(alloc: Global, octet: u8) -> Result<Octets, Fail> {
    let mut sdu = Octets::new(alloc);
    sdu.push(octet).ok().ok_or("memory")?;
    Ok(sdu)
}

#[test]
fn numbers_what_was_held(rt: HostRuntime) -> Result<(), Fail> {
    let alloc = rt.alloc();
    let mut tx = Tx::new(alloc, SnLen::S12, 0);
    tx.hold(sdu(alloc, 0xaa)?).ok().ok_or("memory")?;
    tx.hold(sdu(alloc, 0xbb)?).ok().ok_or("memory")?;
    assert_eq!(rt; tx.next(), 0);
    let given = tx.give_numbers().ok().ok_or("memory")?;
    assert_eq!(rt; given.as_slice(), [0, 1].as_slice());
    let kept = tx.unconfirmed().ok().ok_or("memory")?;
    assert_eq!(rt; kept.as_slice(), [0, 1].as_slice());
    assert_eq!(rt; tx.sdu(1), Some([0xbb].as_slice()));
    tx.confirm(0);
    assert_eq!(rt; tx.low(), 1);
    Ok(())
}

#[test]
fn keeps_what_no_report_names(rt: HostRuntime) -> Result<(), Fail> {
    let alloc = rt.alloc();
    let mut tx = Tx::new(alloc, SnLen::S12, 5);
    for octet in 0..6 {
        assert!(rt; tx.take(sdu(alloc, octet)?) == Ok(5 + u32::from(octet)));
    }
    tx.on_report(6, &[0x40]);
    let kept = tx.unconfirmed().ok().ok_or("memory")?;
    assert_eq!(rt; kept.as_slice(), [6, 7, 9, 10].as_slice());
    tx.confirm(9);
    let mut kept = tx.kept();
    assert_eq!(rt; kept.next(), Some((6, [1].as_slice())));
    assert_eq!(rt; kept.next(), Some((7, [2].as_slice())));
    assert_eq!(rt; kept.next(), Some((10, [5].as_slice())));
    assert_eq!(rt; kept.next(), None);
    tx.hold(sdu(alloc, 7)?).ok().ok_or("memory")?;
    let tx = Tx::adopt(tx.freeze());
    let kept = tx.unconfirmed().ok().ok_or("memory")?;
    assert_eq!(rt; kept.as_slice(), [6, 7, 10].as_slice());
    assert_eq!(rt; tx.low(), 6);
    assert_eq!(rt; tx.next(), 11);
    Ok(())
}

#[test]
fn gives_no_count_past_the_window_or_the_last(rt: HostRuntime) -> Result<(), Fail> {
    let alloc = rt.alloc();
    let mut tx = Tx::new(alloc, SnLen::S12, 7);
    for _ in 0..2048 {
        assert!(rt; tx.take(sdu(alloc, 1)?).is_ok());
    }
    assert!(rt; tx.take(sdu(alloc, 1)?) == Err(TxErr::Full { low: 7, next: 2055 }));
    let mut tx = Tx::new(alloc, SnLen::S12, 4_294_967_294);
    assert!(rt; tx.take(sdu(alloc, 1)?) == Ok(4_294_967_294));
    assert!(rt; tx.take(sdu(alloc, 1)?) == Err(TxErr::Exhausted));
    Ok(())
}
