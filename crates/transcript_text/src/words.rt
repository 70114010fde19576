//! The words that decide how a line goes on.
#![tactic(auto, unfolding(script_text::specs::Spelling::value_of))]

ghost use Rattle.std.specs.Prelude.{◌≡◌, ◌≢◌, List, ℕ, IfSome, IfNone};
ghost use Rattle.script_text.specs.Spelling.{value_of};
ghost use Rattle.transcript_text.specs.Words.{mark_word, verdict_word, consequence_word, carried_word};

use dc_base::RecKind;

/// A word that decides how a line goes on.
pub trait Keyword: Copy {
    /// The field that writes the word.
    ghost word: { Self → List ℕ };

    /// The word that the field is. `None` exactly where it is none.
    fn of(field: &[u8]) -> Option<Self>
        ensures some { IfSome result (λ w. field.now ≡ word w) }
        ensures none { IfNone result ((w : Self) → field.now ≢ word w) };
}

/// What a line begins with.
#[derive(Clone, Copy, Debug, PartialEq, Eq)]
pub enum Mark {
    Event,
    Answer,
    Consequence,
}

/// The first word of an answer.
#[derive(Clone, Copy, Debug, PartialEq, Eq)]
pub enum Verdict {
    Ok,
    No,
}

/// The first word of a consequence.
#[derive(Clone, Copy, Debug, PartialEq, Eq)]
pub enum Consequence {
    Send,
    Begin,
    Join,
    Leave,
    Give,
    Own,
    Set,
    Unset,
    Up,
    Freed,
    Confirmed,
    Refused,
    Done,
    Rejected,
}

/// The first word of a flight.
#[derive(Clone, Copy, Debug, PartialEq, Eq)]
pub enum Carried {
    Data,
    Control,
    Ack,
    Packet,
    Sdu,
    End,
    Told,
    Record(RecKind),
}

const MARKS: [(&str, Mark); 3] = [
    (">", Mark::Event),
    ("=", Mark::Answer),
    ("-", Mark::Consequence),
];

const VERDICTS: [(&str, Verdict); 2] = [("ok", Verdict::Ok), ("no", Verdict::No)];

const CONSEQUENCES: [(&str, Consequence); 14] = [
    ("send", Consequence::Send),
    ("begin", Consequence::Begin),
    ("join", Consequence::Join),
    ("leave", Consequence::Leave),
    ("give", Consequence::Give),
    ("own", Consequence::Own),
    ("set", Consequence::Set),
    ("unset", Consequence::Unset),
    ("up", Consequence::Up),
    ("freed", Consequence::Freed),
    ("confirmed", Consequence::Confirmed),
    ("refused", Consequence::Refused),
    ("done", Consequence::Done),
    ("rejected", Consequence::Rejected),
];

const CARRIED: [(&str, Carried); 7] = [
    ("pdu", Carried::Data),
    ("ctl", Carried::Control),
    ("ack", Carried::Ack),
    ("gtp", Carried::Packet),
    ("sdu", Carried::Sdu),
    ("end", Carried::End),
    ("told", Carried::Told),
];

const RECORDS: [(&str, RecKind); 27] = [
    ("reconf", RecKind::Reconf),
    ("rcomp", RecKind::Rcomp),
    ("scgf", RecKind::Scgf),
    ("recov", RecKind::Recov),
    ("recovd", RecKind::Recovd),
    ("addreq", RecKind::Addreq),
    ("addack", RecKind::Addack),
    ("addrej", RecKind::Addrej),
    ("modreq", RecKind::Modreq),
    ("modack", RecKind::Modack),
    ("modrej", RecKind::Modrej),
    ("recfg", RecKind::Recfg),
    ("relreq", RecKind::Relreq),
    ("relack", RecKind::Relack),
    ("relrej", RecKind::Relrej),
    ("uecr", RecKind::Uecr),
    ("snst", RecKind::Snst),
    ("moved", RecKind::Moved),
    ("scgn", RecKind::Scgn),
    ("modrqd", RecKind::Modrqd),
    ("modcnf", RecKind::Modcnf),
    ("modref", RecKind::Modref),
    ("chgrqd", RecKind::Chgrqd),
    ("chgcnf", RecKind::Chgcnf),
    ("chgref", RecKind::Chgref),
    ("relrqd", RecKind::Relrqd),
    ("relcnf", RecKind::Relcnf),
];

/// The value of the word that the field is, if it is one of the words.
pub fn lookup<T: Copy>(rows: &[(&str, T)], field: &[u8]) -> Option<T>
    ensures { result ≡ value_of rows.now field.now }
{
    for row in rows {
        if row.0.as_bytes() == field {
            return Some(row.1);
        }
    }
    None
}

impl Keyword for Mark {
    ghost word = { mark_word };

    fn of(field: &[u8]) -> Option<Mark> {
        lookup(&MARKS, field)
    }
}

impl Keyword for Verdict {
    ghost word = { verdict_word };

    fn of(field: &[u8]) -> Option<Verdict> {
        lookup(&VERDICTS, field)
    }
}

impl Keyword for Consequence {
    ghost word = { consequence_word };

    fn of(field: &[u8]) -> Option<Consequence> {
        lookup(&CONSEQUENCES, field)
    }
}

impl Keyword for RecKind {
    ghost use Rattle.transcript_text.specs.Words.{record_word};

    ghost word = { record_word };

    fn of(field: &[u8]) -> Option<RecKind> {
        lookup(&RECORDS, field)
    }
}

impl Keyword for Carried {
    ghost word = { carried_word };

    fn of(field: &[u8]) -> Option<Carried> {
        match lookup(&CARRIED, field) {
            Some(carried) => Some(carried),
            None => match RecKind::of(field) {
                Some(kind) => Some(Carried::Record(kind)),
                None => None,
            },
        }
    }
}
