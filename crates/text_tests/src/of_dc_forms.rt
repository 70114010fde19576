//! Of `dc_forms`.

use dc_forms::run_form;
use std::alloc::Global;
use std::test::Fail;

/// What these words write: no text where they are no form.
fn text(alloc: Global, words: &[&str]) -> Result<String, Fail> {
    let mut line = Vec::new(alloc);
    for word in words {
        line.push(String::from_str(alloc, word)?)?;
    }
    match run_form(alloc, line.as_slice()) {
        Ok(None) => Ok(String::new(alloc)),
        Ok(Some(text)) => Ok(String::from_utf8(text.into_vec())?),
        Err(_) => Err(Fail::from("memory")),
    }
}

// The keys and the ciphertext were computed with Python's `hmac` and OpenSSL; the second counter is past its range.
#[test]
fn keys_and_ciphertext(rt: HostRuntime) -> Result<(), Fail> {
    let alloc = rt.alloc();
    let rows: [(&[&str], &str); 3] = [
        (
            &[
                "keys",
                "1111111111111111111111111111111111111111111111111111111111111111",
                "0",
            ],
            "master-upenc 69d9bb07d09b3acc24b64db5ba4d6c16\nksn f3099172e2616de12fd20d31ac2827c15f2ba1ba988705b9bce236a1eebd3d57\nsecond-upenc e1e81a315519e734763397b85296529a\n",
        ),
        (
            &[
                "keys",
                "1111111111111111111111111111111111111111111111111111111111111111",
                "65536",
            ],
            "",
        ),
        (
            &[
                "nea2",
                "00000000000000000000000000000000",
                "0",
                "1",
                "ul",
                "000000000000000000000000000000000000000000000000000000000000000000000000000000000000000000000000",
            ],
            "66e94bd4ef8a2c3b884cfa59ca342b2e58e2fccefa7e3061367f1d57a4e7455a0388dace60b6a392f328c2b971b2fe78\n",
        ),
    ];
    for (words, line) in rows {
        let written = text(alloc, words)?;
        assert_eq!(rt; written.as_str(), line);
    }
    Ok(())
}

// An identity past its range, and a COUNT with a zero too many.
#[test]
fn ciphers_of_no_form(rt: HostRuntime) -> Result<(), Fail> {
    let alloc = rt.alloc();
    let rows: [(&[&str], &str); 2] = [
        (
            &[
                "nea2",
                "00000000000000000000000000000000",
                "0",
                "33",
                "ul",
                "00",
            ],
            "",
        ),
        (
            &[
                "nea2",
                "00000000000000000000000000000000",
                "00",
                "1",
                "ul",
                "00",
            ],
            "",
        ),
    ];
    for (words, line) in rows {
        let written = text(alloc, words)?;
        assert_eq!(rt; written.as_str(), line);
    }
    Ok(())
}

// The vectors of the format, and words that are no form.
#[test]
fn pdus_shown(rt: HostRuntime) -> Result<(), Fail> {
    let alloc = rt.alloc();
    let rows: [(&[&str], &str); 6] = [
        (
            &["show", "pdu12", "000000000560"],
            "report fmc 5 received 7 8\n",
        ),
        (&["show", "pdu18", "0000000005"], "report fmc 5\n"),
        (&["show", "pdu12", "80006869"], "data sn 0 body 6869\n"),
        (&["show", "pdu12", "80"], "bad short 1\n"),
        (&["show", "pdu12", ""], ""),
        (&["show", "pdu13", "80"], ""),
    ];
    for (words, line) in rows {
        let written = text(alloc, words)?;
        assert_eq!(rt; written.as_str(), line);
    }
    Ok(())
}

// The vectors of the formats.
#[test]
fn packets_and_frames_shown(rt: HostRuntime) -> Result<(), Fail> {
    let alloc = rt.alloc();
    let rows: [(&[&str], &str); 5] = [
        (
            &[
                "show",
                "gtp",
                "34ff00100000008000000084020100000000000080006869",
            ],
            "gpdu teid 128 container 010000000000 body 80006869\n",
        ),
        (
            &["show", "gtp", "34ff000c00000080000000ff01aabb0080006869"],
            "bad unknownrequired 11\n",
        ),
        (
            &["show", "nru", "1101000001000000000000000000"],
            "status highest 1 lost 0-0\n",
        ),
        (
            &["show", "nru", "010000000000"],
            "user number 0 user 1 repeat 0\n",
        ),
        (&["show", "nru", "20"], "bad kind 0\n"),
    ];
    for (words, line) in rows {
        let written = text(alloc, words)?;
        assert_eq!(rt; written.as_str(), line);
    }
    Ok(())
}
