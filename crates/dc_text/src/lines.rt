//! The lines of a source, however its reads cut them.
ghost use Rattle.std.specs.Prelude.{◌≡◌, ℕ, ◌+◌, ◌-◌, ◌<◌, ◌≤◌, ◌⊎◌, [], ◌++◌, false, length, take, true, vec_len, IfErr, IfNone, IfOk, IfSome, IsErrOf, MatchBool, None, Ok, OnErr, OnOk};
ghost use Rattle.std.specs.List.{position, position_or_len};
ghost use Rattle.std.specs.Io.KnownBytes.{Consumes, IsAtEnd, Keeps};
ghost use Rattle.dc_outside.specs.Faults.{Rose};
ghost use Rattle.dc_text.specs.Lines.{GivesLine, HasNoLineFeed, IsCutOff, input, is_line_feed, line_of, rest_of, span, taken_by};

use dc_base::Octets;
use dc_outside::Source;
use std::alloc::Global;
use std::marker::Model;
use thiserror::Error;

/// The most octets that a line has, without its LF.
pub const MAX_LINE: usize = 20_000;

/// The most octets that an input has: 16 MiB.
pub const MAX_INPUT: usize = 16_777_216;

/// The most octets that are read at a time.
pub const MAX_READ: usize = 65_536;

/// Why there is no next line. A reader that answered one of these is not used again.
#[derive(Clone, Copy, Debug, PartialEq, Eq, Error)]
pub enum LineErr {
    /// A read of the source failed, and the source's count of faults rose.
    #[error("the source failed")]
    ReadFault,
    /// The line has more than 20,000 octets without its LF.
    #[error("the line is too long")]
    LineTooLong,
    /// The line holds the first octet of the input past 16 MiB.
    #[error("the input is too long")]
    TotalTooLong,
    /// There was no memory.
    #[error("no memory")]
    Memory,
}

/// Reads the lines of a source one after another. It reads at most 65,536 octets at a time, only where it holds none that
/// are not handed out, and no more once a read found the end.
#[derive(Drop)]
pub struct LineReader {
    alloc: Global,
    buffer: Vec<u8>,
    start: usize,
    end: usize,
    passed: usize,
    ended: bool,
}

/// Contracts see what the reader holds, how many octets the lines that it handed out took, and whether it found the end.
impl Model for LineReader {
    ghost use Rattle.std.specs.Prelude.{◌≤◌, slice_range, vec_len};
    ghost use Rattle.dc_text.specs.Lines.{Reader};

    ghost Value = { Reader };

    ghost view = { λ r. record { held = slice_range r.buffer.items r.start r.end; passed = r.passed; ended = r.ended } };

    ghost invariant = { λ r. (r.start ≤ r.end) × (r.end ≤ vec_len r.buffer) × (vec_len r.buffer ≤ 65536) × (r.passed ≤ 16777216) };
}

/// A line, and how many octets it takes with its LF.
#[derive(Drop)]
struct Found {
    line: Octets,
    span: usize,
}

impl LineReader {
    /// A reader that took nothing yet. It takes no memory; its buffer is taken from `alloc` at the first line.
    pub fn new(alloc: Global) -> LineReader
        ensures held { result.held ≡ [] }
        ensures passed { result.passed ≡ 0 }
        ensures ended { result.ended ≡ false }
    {
        LineReader {
            alloc,
            buffer: Vec::new(alloc),
            start: 0,
            end: 0,
            passed: 0,
            ended: false,
        }
    }

    /// The next line without its LF, or `None` at the end of the input. The last line may have no LF.
    pub fn next<S: Source>(&mut self, source: &mut S) -> Result<Option<Octets>, LineErr>
        // The line is the first of what is left, and `None` comes exactly where nothing is left.
        ensures line { IfOk result (λ found. IfSome found (λ line.
            GivesLine (input self.old (S.left source.old)) (input self.new (S.left source.new)) line)) }
        ensures end { self.old.ended ≡ false → IfOk result (λ found. IfNone found
            (IsAtEnd (input self.old (S.left source.old)) × IsAtEnd (input self.new (S.left source.new)))) }

        // The end was found exactly where the line has no LF, and nothing is read after it.
        ensures last { IfOk result (λ found. IfSome found (λ line. IfSome (input self.old (S.left source.old))
            (λ octets. span octets ≡ taken_by line self.new.ended))) }
        ensures after_end { self.old.ended ≡ true → (result ≡ Ok None) × (self.new ≡ self.old) × (source.new ≡ source.old) }

        // A line that is handed out is within the limits, and an error of a limit comes only where it is passed.
        ensures line_short { IfOk result (λ found. IfSome found (λ line. length line ≤ MAX_LINE)) }
        ensures total_short { self.new.passed ≤ MAX_INPUT }
        ensures passed { IfOk result (λ found. IfSome found (λ _. IfSome (input self.old (S.left source.old))
            (λ octets. self.new.passed ≡ self.old.passed + span octets))) }
        ensures line_too_long { IsErrOf result LineErr.LineTooLong →
            IfSome (input self.old (S.left source.old)) (λ octets. MAX_LINE < length (line_of octets)) }
        ensures total_too_long { IsErrOf result LineErr.TotalTooLong →
            IfSome (input self.old (S.left source.old)) (λ octets. MAX_INPUT < self.old.passed + span octets) }

        // A fault has its cause, and what was taken before it is the beginning of a line that did not come whole.
        ensures fault { IsErrOf result LineErr.ReadFault → Rose (S.fault_count source.old) (S.fault_count source.new) }
        ensures cut_off { IsErrOf result LineErr.ReadFault → IsCutOff (input self.old (S.left source.old)) (S.left source.new) }
        ensures later { S.fault_count source.old ≤ S.fault_count source.new }
        ensures kept { OnOk result (S.fault_count source.new ≡ S.fault_count source.old) }

        // What was taken from the source past the lines handed out is one read at most.
        ensures ahead { length self.new.held ≤ MAX_READ }
    {
        if self.ended {
            return Ok(None);
        }
        let before = self.passed;
        let Some(found) = self.read_line(source)? else {
            return Ok(None);
        };
        if found.line.len() > MAX_LINE {
            return Err(LineErr::LineTooLong);
        }
        let passed = before + found.span;
        if passed > MAX_INPUT {
            return Err(LineErr::TotalTooLong);
        }
        self.passed = passed;
        Ok(Some(found.line))
    }

    /// The next line, whatever the input's length. One that is too long may be refused before its end.
    fn read_line<S: Source>(&mut self, source: &mut S) -> Result<Option<Found>, LineErr>
        requires { self.old.ended ≡ false }
        ensures line { IfOk result (λ found. IfSome found (λ f.
            GivesLine (input self.old (S.left source.old)) (input self.new (S.left source.new)) f.line)) }
        ensures end { IfOk result (λ found. IfNone found
            (IsAtEnd (input self.old (S.left source.old)) × IsAtEnd (input self.new (S.left source.new)))) }
        ensures span { IfOk result (λ found. IfSome found (λ f. IfSome (input self.old (S.left source.old))
            (λ octets. f.span ≡ span octets))) }
        ensures last { IfOk result (λ found. IfSome found (λ f. f.span ≡ taken_by f.line self.new.ended)) }
        ensures bound { IfOk result (λ found. IfSome found (λ f. f.span ≤ 100000)) }
        ensures passed { self.new.passed ≡ self.old.passed }
        ensures ahead { length self.new.held ≤ MAX_READ }
        ensures line_too_long { IsErrOf result LineErr.LineTooLong →
            IfSome (input self.old (S.left source.old)) (λ octets. MAX_LINE < length (line_of octets)) }
        ensures total { ¬ IsErrOf result LineErr.TotalTooLong }
        ensures fault { IsErrOf result LineErr.ReadFault → Rose (S.fault_count source.old) (S.fault_count source.new) }
        ensures cut_off { IsErrOf result LineErr.ReadFault → IsCutOff (input self.old (S.left source.old)) (S.left source.new) }
        ensures later { S.fault_count source.old ≤ S.fault_count source.new }
        ensures kept { OnOk result (S.fault_count source.new ≡ S.fault_count source.old) }
    {
        let mut line = self.empty_line();
        loop {
            let more = self.has_more(source)?;
            if !more {
                return Ok(last_line(line));
            }
            let ended = self.take_part(&mut line)?;
            if ended {
                let span = line.len() + 1;
                return Ok(Some(Found { line, span }));
            }
            if line.len() > MAX_LINE {
                return Err(LineErr::LineTooLong);
            }
        }
    }

    fn empty_line(&self) -> Octets
        ensures line { result ≡ [] }
        ensures ahead { length self.now.held ≤ MAX_READ }
    {
        let _ = &self.end;
        Octets::new(self.alloc)
    }

    /// Reads once where nothing is held, and answers whether something is held then.
    fn has_more<S: Source>(&mut self, source: &mut S) -> Result<bool, LineErr>
        ensures octets { Keeps (input self.old (S.left source.old)) (input self.new (S.left source.new)) }
        ensures passed { self.new.passed ≡ self.old.passed }
        ensures ahead { length self.new.held ≤ MAX_READ }
        ensures more { IfOk result (λ more. MatchBool more (0 < length self.new.held)
            ((self.new.held ≡ []) × IsAtEnd (S.left source.new))) }
        ensures ended { IfOk result (λ more. MatchBool more (self.new.ended ≡ self.old.ended) (self.new.ended ≡ true)) }
        ensures unread { OnErr result (self.new.held ≡ []) }
        ensures errors { IfErr result (λ e. (e ≡ LineErr.Memory) ⊎ (e ≡ LineErr.ReadFault)) }
        ensures fault { IsErrOf result LineErr.ReadFault → Rose (S.fault_count source.old) (S.fault_count source.new) }
        ensures later { S.fault_count source.old ≤ S.fault_count source.new }
        ensures kept { OnOk result (S.fault_count source.new ≡ S.fault_count source.old) }
    {
        if self.start < self.end {
            return Ok(true);
        }
        self.start = 0;
        self.end = 0;
        if make_buffer(&mut self.buffer).is_err() {
            return Err(LineErr::Memory);
        }
        match read_over(source, &mut self.buffer) {
            Ok(count) => {
                self.end = count;
                if count == 0 {
                    self.ended = true;
                }
                Ok(count > 0)
            }
            Err(error) => Err(error),
        }
    }

    /// Moves what is held up to its first LF to the end of a line, takes the LF too, and answers whether there was one.
    fn take_part(&mut self, line: &mut Octets) -> Result<bool, LineErr>
        ensures passed { self.new.passed ≡ self.old.passed }
        ensures ended { self.new.ended ≡ self.old.ended }
        ensures part { IfOk result (λ ended. MatchBool ended
            ((position_or_len is_line_feed self.old.held < length self.old.held)
            × (line.new ≡ line.old ++ line_of self.old.held) × (self.new.held ≡ rest_of self.old.held))
            (HasNoLineFeed self.old.held × (line.new ≡ line.old ++ self.old.held) × (self.new.held ≡ []))) }
        ensures bound { length line.new ≤ length line.old + length self.old.held }
        ensures ahead { length self.new.held ≤ MAX_READ }
        ensures errors { IfErr result (λ e. e ≡ LineErr.Memory) }
    {
        let held = &self.buffer[self.start..self.end];
        match first_line_feed(held) {
            Some(len) => {
                append(line, &held[..len])?;
                self.start += len + 1;
                Ok(true)
            }
            None => {
                append(line, held)?;
                self.start = self.end;
                Ok(false)
            }
        }
    }
}

fn append(line: &mut Octets, part: &[u8]) -> Result<(), LineErr>
    ensures ok { OnOk result (line.new ≡ line.old ++ part.now) }
    ensures err { OnErr result (line.new ≡ line.old) }
    ensures errors { IfErr result (λ e. e ≡ LineErr.Memory) }
{
    line.extend(part).map_err(|_| LineErr::Memory)
}

/// The last line of an input, which has no LF: none where no octet came.
fn last_line(line: Octets) -> Option<Found>
    ensures none { IfNone result (line ≡ []) }
    ensures some { IfSome result (λ f. (f.line ≡ line) × (f.span ≡ length line) × (0 < length line)) }
{
    let span = line.len();
    if span == 0 {
        return None;
    }
    Some(Found { line, span })
}

/// The place of the first LF.
fn first_line_feed(octets: &[u8]) -> Option<usize>
    ensures { result ≡ position is_line_feed octets.now }
{
    octets.iter().position(|octet| *octet == b'\n')
}

/// Makes a buffer for 65,536 octets, if there is none yet.
fn make_buffer(buffer: &mut Vec<u8>) -> Result<(), LineErr>
    requires { vec_len buffer.old ≤ MAX_READ }
    ensures room { OnOk result (0 < vec_len buffer.new) }
    ensures bound { vec_len buffer.new ≤ MAX_READ }
{
    if !buffer.is_empty() {
        return Ok(());
    }
    match buffer.resize(MAX_READ, 0) {
        Ok(()) => Ok(()),
        Err(_) => Err(LineErr::Memory),
    }
}

/// One read into the buffer, from its first octet on.
fn read_over<S: Source>(source: &mut S, buffer: &mut Vec<u8>) -> Result<usize, LineErr>
    ensures len { vec_len buffer.new ≡ vec_len buffer.old }
    ensures bound { IfOk result (λ n. n ≤ vec_len buffer.new) }
    ensures ok { IfOk result (λ n. Consumes (S.left source.old) (S.left source.new) (take n buffer.new.items)) }
    ensures end { IfOk result (λ n. n ≡ 0 → 0 < vec_len buffer.old → IsAtEnd (S.left source.new)) }
    ensures err { OnErr result (Keeps (S.left source.old) (S.left source.new)) }
    ensures errors { IfErr result (λ e. e ≡ LineErr.ReadFault) }
    ensures fault { OnErr result (Rose (S.fault_count source.old) (S.fault_count source.new)) }
    ensures later { S.fault_count source.old ≤ S.fault_count source.new }
    ensures kept { OnOk result (S.fault_count source.new ≡ S.fault_count source.old) }
{
    match source.read(buffer.as_mut_slice()) {
        Ok(count) => Ok(count),
        Err(_) => Err(LineErr::ReadFault),
    }
}
