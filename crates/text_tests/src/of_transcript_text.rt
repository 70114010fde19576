//! Rows worked by hand.

use dc_base::{Line, Octets};
use script_text::write_lines;
use std::alloc::Global;
use std::process::Abort;
use std::test::Fail;
use transcript_text::{LineFault, read_line};

/// Whether each text is read as a line, and written back as it was.
fn are_read(rt: &impl Abort, alloc: Global, texts: &[&str]) -> Result<(), Fail> {
    for text in texts {
        let line = read_line(alloc, text.as_bytes())?;
        let mut written = Octets::new(alloc);
        write_lines(&mut written, &[line])?;
        let mut wanted = Octets::from_slice(alloc, text.as_bytes())?;
        wanted.push(b'\n')?;
        assert_eq!(rt; written, wanted, "{text}");
    }
    Ok(())
}

/// Whether each text is no line, with this column.
fn are_refused(rt: &impl Abort, alloc: Global, rows: &[(&str, usize)]) -> Result<(), Fail> {
    for (text, column) in rows {
        let fault = match read_line(alloc, text.as_bytes()) {
            Ok(_) => None,
            Err(fault) => Some(fault),
        };
        assert_eq!(rt; fault, Some(LineFault::Column(*column)), "{text}");
    }
    Ok(())
}

#[test]
fn a_line_of_each_kind(rt: HostRuntime) -> Result<(), Fail> {
    let texts = [
        "> bearer 1 18 5 mxmd 1400 2",
        "> rekey s",
        "> dl 1 6869",
        "= ok",
        "= no noflight",
        "- begin rekey",
        "- join a 3",
        "- leave b 4",
        "- give m 1 2",
        "- own a 1 2",
        "- set 1 2",
        "- unset 32",
        "- up t 1 dl 0 6869",
        "- freed 1 dl 2",
        "- confirmed a",
        "- refused a busy",
        "- done",
        "- rejected",
        "- send mt.air pdu 1 1 0 7 80006869",
        "- send mt.air pdu 1 1 0 - 80006869",
        "- send tm.air ctl 1 1 4294967295 0000000000",
        "- send tm.air ack 1 1 0",
        "- send ma.tun gtp - 30ff",
        "- send ma.tun gtp 4 30ff",
        "- send ma.feed sdu 1 2 6869",
        "- send ma.feed end 1 2",
        "- send am.feed told 1 2 3",
        "- send tm.ctl rcomp 1",
        "- send tm.ctl scgf",
        "- send tm.ctl scgf 1/2 3/4",
        "- send mt.ctl recov 1",
        "- send tm.ctl recovd 1",
        "- send am.ctl addack 3",
        "- send am.ctl addrej 3",
        "- send am.ctl modack 3",
        "- send am.ctl modrej 3",
        "- send ma.ctl recfg 3",
        "- send am.ctl relack 3",
        "- send am.ctl relrej 3",
        "- send ma.ctl uecr 3",
        "- send ma.ctl snst 3 1 7 - 9",
        "- send ma.ctl snst 3 1 7 a0 9",
        "- send am.ctl moved 3 1",
        "- send ma.ctl scgn 1/3",
        "- send am.ctl modrqd",
        "- send ma.ctl modcnf 3",
        "- send ma.ctl modref counterspent",
        "- send am.ctl chgrqd",
        "- send ma.ctl chgref rejected",
        "- send am.ctl relrqd",
    ];
    are_read(&rt, rt.alloc(), &texts)
}

#[test]
fn a_plan_in_each_record(rt: HostRuntime) -> Result<(), Fail> {
    let texts = [
        "- send mt.ctl reconf 1 - 1/12/0/mm/0/0/m0/-",
        "- send ma.ctl addreq 2 a 1/18/4294967294/sxmd/1400/1/s0.65535/m 2/12/0/ss/0/0/s4.0/-",
        "- send ma.ctl modreq 3 a -1 2/12/0/mxs/0/0/m0/b -32",
        "- send ma.ctl relreq 4 -",
        "- send ma.ctl chgcnf 5 b",
        "- send ma.ctl relcnf 6 - 1/12/0/mm/0/0/m0/a",
    ];
    are_read(&rt, rt.alloc(), &texts)
}

#[test]
fn texts_that_are_no_lines(rt: HostRuntime) -> Result<(), Fail> {
    let rows = [
        ("", 1),
        ("+ ok", 1),
        (">", 2),
        ("> ", 3),
        ("> drain", 3),
        ("> bearer 33", 10),
        ("> bearer 1", 11),
        ("= ok 1", 6),
        ("= no", 5),
        ("= no way", 6),
        ("- send", 7),
        ("- send xx.air ack 1 1 0", 8),
        ("- send tm.air", 14),
        ("- send tm.air nack", 15),
        ("- send tm.air pdu 1 1 0 - 0000000000", 27),
        ("- send tm.air ctl 1 1 0 8000", 25),
        ("- send tm.air ack 1 1 0 ", 25),
        ("- own t 0 1", 9),
        ("- up t 1 dl 0 ", 15),
        ("- send mt.ctl reconf 1 - 1/12/0/mm/0/0/m0", 26),
        ("- send mt.ctl reconf 1 - -1 1/12/0/mm/0/0/s0/-", 29),
        ("- send mt.ctl reconf 1", 23),
        ("- send tm.ctl scgf 1/2 3", 24),
    ];
    are_refused(&rt, rt.alloc(), &rows)
}
