//! Of `made_scripts`: rows worked by hand; the numbers that are drawn come from Python.

use dc_base::{Dir, Event, Line, Octets};
use made_scripts::{
    Draws, MadeForm, Purpose, closing, command, made_header, opening, read_form, submission,
};
use script_text::{Scripted, write_first, write_line};
use std::alloc::Global;
use std::process::Abort;
use std::test::Fail;

#[test]
fn numbers_are_drawn(rt: HostRuntime) -> Result<(), Fail> {
    let rows = [
        (0, [15, 0, 0, 68980, 13]),
        (1, [6, 9, 0, 109286, 10]),
        (u64::MAX, [8, 23, 0, 28674, 0]),
    ];
    for (seed, wanted) in rows {
        let mut draws = Draws::new(seed);
        let drawn = [
            draws.draw(16),
            draws.draw(24),
            draws.draw(1),
            draws.draw(131_072),
            draws.draw(16),
        ];
        assert_eq!(rt; drawn, wanted, "{seed}");
    }
    Ok(())
}

/// Whether an event is written so; an event that there is not, as no text.
fn is_written(
    rt: &impl Abort,
    alloc: Global,
    event: Option<Event>,
    text: &str,
) -> Result<(), Fail> {
    let written = match event {
        Some(event) => write_line(alloc, &Line::Event(event))?,
        None => Octets::new(alloc),
    };
    assert_eq!(rt; written.as_slice(), text.as_bytes(), "{text}");
    Ok(())
}

#[test]
fn the_command_of_each_draw(rt: HostRuntime) -> Result<(), Fail> {
    let rows = [
        (0, "shape 1 mxm"),
        (1, "shape 1 sxs"),
        (2, "change"),
        (3, "rekey s"),
        (4, "report t 1"),
        (5, "recover 1"),
        (6, ""),
        (23, ""),
    ];
    for (drawn, text) in rows {
        is_written(&rt, rt.alloc(), command(drawn), text)?;
    }
    Ok(())
}

#[test]
fn a_payload_is_the_number_of_its_turn(rt: HostRuntime) -> Result<(), Fail> {
    let rows = [
        (Dir::Dl, 0, "dl 1 00000000"),
        (Dir::Ul, 19_999, "ul 1 00004e1f"),
    ];
    for (dir, number, text) in rows {
        let event = submission(rt.alloc(), dir, number)?;
        is_written(&rt, rt.alloc(), Some(event), text)?;
    }
    Ok(())
}

/// Whether these are the lines.
fn are_lines(
    rt: &impl Abort,
    alloc: Global,
    lines: &[Scripted],
    texts: &[&str],
) -> Result<(), Fail> {
    assert_eq!(rt; lines.len(), texts.len());
    for (line, text) in lines.iter().zip(texts.iter()) {
        match line {
            Scripted::One(event) => is_written(rt, alloc, Some(event.copy()?), text)?,
            Scripted::Drain => assert_eq!(rt; *text, "drain"),
        }
    }
    Ok(())
}

#[test]
fn the_lines_round_the_turns(rt: HostRuntime) -> Result<(), Fail> {
    let before = [
        "bearer 1 18 0 mm 0 0",
        "drain",
        "add a",
        "drain",
        "shape 1 mxm",
        "drain",
    ];
    let after = ["drain", "recover 1", "drain"];
    are_lines(&rt, rt.alloc(), &opening(), &before)?;
    are_lines(&rt, rt.alloc(), &closing(), &after)?;
    let mut first = Octets::new(rt.alloc());
    write_first(&mut first, &made_header())?;
    assert_eq!(rt;
        first.as_slice(),
        b"dcs1 nea2 0 5a5a5a5a5a5a5a5a5a5a5a5a5a5a5a5a5a5a5a5a5a5a5a5a5a5a5a5a5a5a5a5a\n".as_slice()
    );
    Ok(())
}

/// What three words are read as.
fn read(alloc: Global, words: [&str; 3]) -> Result<Option<MadeForm>, Fail> {
    let mut line = Vec::new(alloc);
    for word in words {
        line.push(String::from_str(alloc, word)?)?;
    }
    Ok(read_form(line.as_slice()))
}

/// A form.
fn form(purpose: Purpose, seed: u64, turns: u32) -> Option<MadeForm> {
    Some(MadeForm {
        purpose,
        seed,
        turns,
    })
}

#[test]
fn words_of_forms(rt: HostRuntime) -> Result<(), Fail> {
    let rows = [
        (["make", "0", "1"], form(Purpose::Make, 0, 1)),
        (
            ["soak", "18446744073709551615", "20000"],
            form(Purpose::Soak, u64::MAX, 20_000),
        ),
        (["make", "0", "0"], None),
        (["make", "0", "20001"], None),
        (["make", "18446744073709551616", "1"], None),
        (["make", "01", "1"], None),
        (["run", "0", "1"], None),
    ];
    for (words, wanted) in rows {
        assert_eq!(rt; read(rt.alloc(), words)?, wanted, "{words:?}");
    }
    assert_eq!(rt; read_form(&[]), None);
    Ok(())
}
