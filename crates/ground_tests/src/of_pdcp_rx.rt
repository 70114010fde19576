//! Of `pdcp_rx`.

ghost use Rattle.std.specs.Prelude.{◌≡◌};

use dc_base::{Octets, SnLen, window};
use pdcp_rx::{Put, Rx};
use std::alloc::Global;
use std::process::Abort;

/// Gives an entity one octet under a COUNT within the window.
fn receive(rt: &impl Abort, alloc: Global, rx: &mut Rx, count: u32, octet: u8) -> Put
    requires { rx.old.n ≡ SnLen.S12 }
    ensures { rx.new.n ≡ SnLen.S12 }
{
    let sdu = Octets::from_slice(alloc, &[octet]).expect(rt, "memory");
    assert!(rt; count < window(SnLen::S12));
    rx.put(count, sdu).expect(rt, "memory")
}

#[test]
fn hands_up_in_order_and_once(rt: HostRuntime) {
    let alloc = rt.alloc();
    let mut rx = Rx::new(alloc, SnLen::S12, 0);
    let none = "Stored { handed: Seq { items: [] } }";
    let both =
        "Stored { handed: Seq { items: [(0, Octets { octets: [170] }), (1, Octets { octets: [187] })] } }";
    let rows = [
        (
            1,
            0xbb,
            none,
            2,
            [1].as_slice(),
            [0, 0, 0, 0, 0, 0x80].as_slice(),
        ),
        (1, 0xcc, "Again", 2, &[1], &[0, 0, 0, 0, 0, 0x80]),
        (0, 0xaa, both, 2, &[], &[0, 0, 0, 0, 2]),
        (0, 0xaa, "Old { deliv: 2 }", 2, &[], &[0, 0, 0, 0, 2]),
        (4, 0xdd, none, 5, &[4], &[0, 0, 0, 0, 2, 0x40]),
    ];
    for (count, octet, answer, next, stored, report) in rows {
        let put = receive(&rt, alloc, &mut rx, count, octet);
        assert_eq!(rt;
            format!(in alloc; "{put:?}").expect(&rt, "memory").as_str(),
            answer
        );
        assert_eq!(rt; rx.next(), next);
        assert_eq!(rt; rx.stored().expect(&rt, "memory").as_slice(), stored);
        assert_eq!(rt; rx.report().expect(&rt, "memory").as_slice(), report);
    }
    let parts = rx.freeze().expect(&rt, "memory");
    let rx = Rx::adopt(alloc, parts).expect(&rt, "memory");
    assert_eq!(rt; rx.deliv(), 2);
    assert_eq!(rt;
        rx.stored().expect(&rt, "memory").as_slice(),
        [4].as_slice()
    );
}
