//! Transcripts beside what is wanted of them.
ghost use Rattle.std.specs.Prelude.{◌≡◌, ◌↔◌, None};

use std::str::Lines;

/// The number, from 1, of the first line in which the texts differ; `None` exactly where they are equal.
pub(crate) fn first_difference(made: &str, wanted: &str) -> Option<usize>
    ensures { (result ≡ None) ↔ (made.now ≡ wanted.now) }
{
    if made == wanted {
        return None;
    }
    let pairs = made.bytes().zip(wanted.bytes());
    let common = pairs.take_while(|(one, other)| one == other);
    let whole_lines = common.filter(|(octet, _)| *octet == b'\n').count();
    Some(whole_lines.saturating_add(1))
}

/// The number, from 1, of the first wanted line that the transcript does not have in its place; `None` where it has all,
/// in their order.
///
/// `not TEXT or TEXT` wants no line of its own: from the wanted line before it, or the start, to the one after it, or
/// the end, no line begins with one of the texts.
pub(crate) fn first_missing(made: &str, wanted: &str) -> Option<usize> {
    let mut rest = made.lines();
    let mut barred = None;
    let mut number: usize = 0;
    for line in wanted.lines() {
        number = number.saturating_add(1);
        match line.strip_prefix("not ") {
            Some(texts) => barred = Some(texts),
            None => {
                if !goes_behind(&mut rest, line, barred) {
                    return Some(number);
                }
                barred = None;
            }
        }
    }
    if rest.any(|line| begins_barred(line, barred)) {
        Some(number)
    } else {
        None
    }
}

/// Goes on behind the next such line. Whether there is one, with no barred line before it.
fn goes_behind(rest: &mut Lines<'_>, wanted: &str, barred: Option<&str>) -> bool {
    for line in rest {
        if line == wanted {
            return true;
        }
        if begins_barred(line, barred) {
            return false;
        }
    }
    false
}

/// Whether the line begins with one of the texts, which ` or ` separates.
fn begins_barred(line: &str, barred: Option<&str>) -> bool {
    match barred {
        Some(texts) => texts.split(" or ").any(|text| line.starts_with(text)),
        None => false,
    }
}
