use crate::comparing::{first_difference, first_missing};
use std::process::Abort;
use std::test::Fail;

const MADE: &str = "> drop 1\n= ok\n- unset 1\n- done\n> drop 1\n= no nobearer\n";

#[test]
fn a_whole_transcript_is_compared_to_its_last_octet(rt: HostRuntime) -> Result<(), Fail> {
    assert_eq!(rt; first_difference(MADE, MADE), None);
    assert_eq!(rt;
        first_difference(MADE, "> drop 1\n= ok\n- set 1 2\n"),
        Some(3)
    );
    assert_eq!(rt; first_difference(MADE, ""), Some(1));
    Ok(())
}

#[test]
fn wanted_lines_stand_whole_and_in_order(rt: HostRuntime) -> Result<(), Fail> {
    let cases = [
        ("= ok\n- done\n= no nobearer\n", None),
        ("- done\n= ok\n", Some(2)),
        ("= o\n", Some(1)),
        ("- done\n- done\n", Some(2)),
        ("not - set\n- done\nnot - set or = ok\n", None),
        ("= ok\nnot - set or - un\n- done\n", Some(3)),
        ("- done\nnot - or = no\n", Some(2)),
    ];
    for (wanted, missing) in cases {
        assert_eq!(rt; first_missing(MADE, wanted), missing);
    }
    Ok(())
}
