//! Of `dc_top`.

use dc_base::Status;
use dc_outside::{MemSink, MemSource};
use dc_top::{is_check, run_command, shipped_policies};
use std::alloc::Global;
use std::test::Fail;

/// The first line of most scripts.
const HEADER: &[u8] =
    b"dcs1 nea0 0 0000000000000000000000000000000000000000000000000000000000000000\n";

/// A bearer is set up.
const OPENING: &[u8] = b"bearer 1 12 0 mm 0 0\nstep mt.ctl 0\nstep tm.ctl 0\n";

/// Two payloads in the wrong order, handed up in the right one.
const SCRIPT: &[u8] = b"dcs1 nea0 0 0000000000000000000000000000000000000000000000000000000000000000
bearer 1 12 0 mm 0 0
step mt.ctl 0
step tm.ctl 0
dl 1 6869
dl 1 796f
step mt.air 1
step mt.air 0
";

const TRANSCRIPT: &[u8] =
    b"dcs1 nea0 0 0000000000000000000000000000000000000000000000000000000000000000
> bearer 1 12 0 mm 0 0
= ok
- own m 1 1
- send mt.ctl reconf 1 - 1/12/0/mm/0/0/m0/-
> step mt.ctl 0
= ok
- set 1 1
- send tm.ctl rcomp 1
> step tm.ctl 0
= ok
- done
> dl 1 6869
= ok
- send mt.air pdu 1 1 0 0 80006869
> dl 1 796f
= ok
- send mt.air pdu 1 1 1 1 8001796f
> step mt.air 1
= ok
- send tm.air ack 1 1 1
> step mt.air 0
= ok
- up t 1 dl 0 6869
- up t 1 dl 1 796f
- send tm.air ack 1 1 0
";

/// The same two payloads under 128-NEA2 (the keystream was computed with Python's `cryptography`).
const CIPHERED: &[u8] =
    b"dcs1 nea2 0 1111111111111111111111111111111111111111111111111111111111111111
bearer 1 12 0 mm 0 0
step mt.ctl 0
step tm.ctl 0
dl 1 6869
dl 1 796f
step mt.air 1
step mt.air 0";

/// What a call left: its status, what it put out on `out` and `err`, and how many octets it left at the source.
#[derive(Drop)]
struct Left {
    status: Status,
    out: Vec<u8>,
    err: Vec<u8>,
    unread: usize,
}

/// The words of a command line.
fn words_of(alloc: Global, words: &[&str]) -> Result<Vec<String>, Fail> {
    let mut line = Vec::new(alloc);
    for word in words {
        line.push(String::from_str(alloc, word)?)?;
    }
    Ok(line)
}

/// A call with these words and this input, in which the read and the write of these numbers fail.
fn call(
    alloc: Global,
    words: &[&str],
    input: &[u8],
    bad_read: u64,
    bad_write: u64,
) -> Result<Left, Fail> {
    let line = words_of(alloc, words)?;
    let mut src = MemSource::new(input.to_vec(alloc)?, vec![in alloc; bad_read]?);
    let mut out = MemSink::new(vec![in alloc; 0; 200_000]?, vec![in alloc; bad_write]?);
    let mut err = MemSink::new(vec![in alloc; 0; 400]?, Vec::new(alloc));
    let policies = shipped_policies!(alloc)?;
    let words = line.as_slice();
    let status = run_command(alloc, words, &mut src, &mut out, &mut err, &policies);
    Ok(Left {
        status,
        out: out.octets().to_vec(alloc)?,
        err: err.octets().to_vec(alloc)?,
        unread: src.left().len(),
    })
}

/// A run of a script that begins with the header, with no fault of the outside.
fn run_lines(alloc: Global, lines: &[u8]) -> Result<Left, Fail> {
    let mut script = HEADER.to_vec(alloc)?;
    script.extend_from_slice(lines)?;
    call(alloc, &["run"], script.as_slice(), 0, 0)
}

#[test]
fn scripts_and_what_they_leave(rt: HostRuntime) -> Result<(), Fail> {
    let line_1 = Status::BadLine { line: 1, column: 1 };
    let bad_header: &[u8] = b"dcs1 nea1 0 00\n";
    let rows: [(&[u8], u64, u64, Status, &[u8], &[u8]); 5] = [
        (SCRIPT, 0, 0, Status::Ok, TRANSCRIPT, b""),
        (
            b"",
            0,
            0,
            line_1,
            b"",
            b"dc: line 1 column 1: not in the grammar\n",
        ),
        (
            bad_header,
            0,
            0,
            Status::BadLine { line: 1, column: 6 },
            b"",
            b"dc: line 1 column 6: not in the grammar\n",
        ),
        (
            SCRIPT,
            2,
            0,
            Status::ReadFault,
            TRANSCRIPT,
            b"dc: read fault\n",
        ),
        (SCRIPT, 0, 1, Status::WriteFault, b"", b"dc: write fault\n"),
    ];
    for (input, bad_read, bad_write, status, out, err) in rows {
        let left = call(rt.alloc(), &["run"], input, bad_read, bad_write)?;
        assert_eq!(rt; left.status, status);
        assert_eq!(rt; left.out.as_slice(), out);
        assert_eq!(rt; left.err.as_slice(), err);
    }
    Ok(())
}

#[test]
fn bad_lines_and_their_columns(rt: HostRuntime) -> Result<(), Fail> {
    let rows: [(&[u8], u32); 6] = [
        (b"dl 1 ", 6),
        (b"dl 33 00", 4),
        (b"step mt.air 01", 13),
        (b"bearer 1 13 0 mm 0 0", 10),
        (b"drain x", 7),
        (b"add", 4),
    ];
    for (line, column) in rows {
        let left = run_lines(rt.alloc(), line)?;
        assert_eq!(rt; left.status, Status::BadLine { line: 2, column });
        assert_eq!(rt; left.out.as_slice(), HEADER);
    }
    Ok(())
}

#[test]
fn events_and_what_they_write(rt: HostRuntime) -> Result<(), Fail> {
    let rows: [(&[u8], &str); 11] = [
        (b"dl 1 00", "> dl 1 00\n= no nobearer\n"),
        (b"change", "> change\n= no nosecondary\n"),
        (b"add a", "> add a\n= ok\n- send ma.ctl addreq 1 a\n"),
        (b"step mt.air 0", "> step mt.air 0\n= no noflight\n"),
        (b"lose mt.air 0", "> lose mt.air 0\n= no nottunnel\n"),
        (
            b"bearer 1 12 0 mm 0 2",
            "> bearer 1 12 0 mm 0 2\n= no nopolicy\n",
        ),
        (
            b"bearer 1 12 4294967294 mm 0 0\ndrain\ndl 1 00\n",
            "> dl 1 00\n= ok\n- send mt.air pdu 1 1 0 4294967294 8ffe00\n",
        ),
        (
            b"bearer 1 12 4294967294 mm 0 0\ndrain\ndl 1 00\ndl 1 01\n",
            "> dl 1 01\n= no exhausted\n",
        ),
        (
            b"bearer 1 12 0 mm 0 0\ndrain\n",
            "> step mt.ctl 0\n= ok\n- set 1 1\n- send tm.ctl rcomp 1\n> step tm.ctl 0\n= ok\n- done\n",
        ),
        (
            b"bearer 2 18 5 mm 0 0\ndrain\ndl 2 6869\n",
            "> dl 2 6869\n= ok\n- send mt.air pdu 2 1 0 5 8000056869\n",
        ),
        (
            b"bearer 2 18 5 mm 0 0\ndrain\nul 2 00\n",
            "> ul 2 00\n= ok\n- send tm.air pdu 2 1 0 5 80000500\n",
        ),
    ];
    for (lines, part) in rows {
        let left = run_lines(rt.alloc(), lines)?;
        assert_eq!(rt; left.status, Status::Ok);
        let text = String::from_utf8(left.out)?;
        assert!(rt; text.ends_with(part));
    }
    Ok(())
}

#[test]
fn a_line_too_long(rt: HostRuntime) -> Result<(), Fail> {
    let long = vec![in rt.alloc(); b'0'; 20_001]?;
    let left = run_lines(rt.alloc(), long.as_slice())?;
    assert_eq!(rt; left.status, Status::TooLong);
    assert_eq!(rt; left.out.as_slice(), HEADER);
    assert_eq!(rt; left.err.as_slice(), b"dc: too long\n".as_slice());
    Ok(())
}

#[test]
fn other_forms_and_none(rt: HostRuntime) -> Result<(), Fail> {
    let rows: [(&[&str], Status, &[u8]); 5] = [
        (&["show", "nru", "20"], Status::Ok, b"bad kind 0\n"),
        (&["show", "nru", "2"], Status::Usage, b""),
        (&["run", "x"], Status::Usage, b""),
        (&["check"], Status::Usage, b""),
        (&[], Status::Usage, b""),
    ];
    for (words, status, out) in rows {
        let left = call(rt.alloc(), words, SCRIPT, 1, 0)?;
        assert_eq!(rt; left.status, status);
        assert_eq!(rt; left.out.as_slice(), out);
    }
    Ok(())
}

#[test]
fn the_word_check(rt: HostRuntime) -> Result<(), Fail> {
    let rows: [(&[&str], bool); 5] = [
        (&["check"], true),
        (&["check", "x"], false),
        (&["checks"], false),
        (&["run"], false),
        (&[], false),
    ];
    for (words, wanted) in rows {
        let line = words_of(rt.alloc(), words)?;
        assert_eq!(rt; is_check(line.as_slice()), wanted);
    }
    Ok(())
}

#[test]
fn ciphered_payloads(rt: HostRuntime) -> Result<(), Fail> {
    let left = call(rt.alloc(), &["run"], CIPHERED, 0, 0)?;
    let text = String::from_utf8(left.out)?;
    assert!(rt; text.contains("- send mt.air pdu 1 1 0 0 80004795\n"));
    assert!(rt; text.contains("- send mt.air pdu 1 1 1 1 80013f55\n"));
    assert!(rt; text.contains("- up t 1 dl 0 6869\n- up t 1 dl 1 796f\n"));
    Ok(())
}

#[test]
fn a_full_window_and_one_that_moves(rt: HostRuntime) -> Result<(), Fail> {
    let alloc = rt.alloc();
    let mut lines = OPENING.to_vec(alloc)?;
    for _ in 0..2049 {
        lines.extend_from_slice(b"dl 1 00\n")?;
    }
    lines.extend_from_slice(b"step mt.air 0\nstep tm.air 0\ndl 1 00\n")?;
    let left = run_lines(alloc, lines.as_slice())?;
    let text = String::from_utf8(left.out)?;
    assert!(rt; text.contains("- send mt.air pdu 1 1 2047 2047 87ff00\n> dl 1 00\n= no full\n"));
    assert!(rt; text.contains("- freed 1 dl 1\n> dl 1 00\n= ok\n"));
    Ok(())
}

#[test]
fn a_write_that_fails_stops_the_reading(rt: HostRuntime) -> Result<(), Fail> {
    let alloc = rt.alloc();
    let mut script = HEADER.to_vec(alloc)?;
    for _ in 0..74_900 {
        script.extend_from_slice(b"step mt.air 0\n")?;
    }
    let left = call(alloc, &["run"], script.as_slice(), 0, 1)?;
    assert_eq!(rt; left.status, Status::WriteFault);
    assert!(rt; left.unread >= 900_000);
    Ok(())
}

#[test]
fn a_recovery_and_a_report(rt: HostRuntime) -> Result<(), Fail> {
    let rows: [(&[u8], &[&str]); 2] = [
        (
            b"bearer 1 12 0 mm 0 0\ndrain\ndl 1 aa\ndl 1 bb\nstep mt.air 0\nrecover 1\ndrain\n",
            &[
                "- up t 1 dl 0 aa",
                "- send mt.ctl recov 1",
                "- send mt.air pdu 1 1 2 0 8000aa",
                "- send mt.air pdu 1 1 3 1 8001bb",
                "- send tm.ctl recovd 1",
                "- done",
                "- up t 1 dl 1 bb",
                "- send tm.air ack 1 1 2",
                "- freed 1 dl 1",
                "- freed 1 dl 2",
            ],
        ),
        (
            b"bearer 1 12 0 mm 0 0\ndrain\nul 1 aa\ndrain\nreport m 1\ndrain\n",
            &[
                "- send tm.air pdu 1 1 0 0 8000aa",
                "- up m 1 ul 0 aa",
                "- send mt.air ack 1 1 0",
                "- send mt.air ctl 1 1 0 0000000001",
                "- freed 1 ul 1",
                "- send tm.air ack 1 1 0",
            ],
        ),
    ];
    for (script, wanted) in rows {
        let text = String::from_utf8(run_lines(rt.alloc(), script)?.out)?;
        let mut lines = text.lines();
        for line in wanted {
            assert!(rt; lines.any(|found| found == *line));
        }
    }
    Ok(())
}
