//! Writing a frame, into one buffer of the length that the frame has.

ghost use Rattle.std.specs.Prelude.{◌≡◌, ◌∷◌, ◌++◌, ◌+◌, ◌-◌, ◌*◌, ◌%◌, ◌≤◌, ◌<◌, ◌^◌, [], length, replicate, IfOk, OnOk};
ghost use Rattle.std.specs.List.{flat_map, AllByRecursion};
ghost use Rattle.nr_u.specs.Frames.{IsFrame, IsWritable, AreRanges, number, range, flag, optional, fields, first_octet, padded, written};

use crate::frame::{Frame, Range};
use dc_base::{Memory, Octets};
use std::alloc::Global;

/// 1 for true.
fn flag(value: bool) -> u8
    ensures { result ≡ flag value }
{
    if value { 1 } else { 0 }
}

/// Writes a number in three octets.
fn write_number(out: &mut Vec<u8>, n: u32) -> Result<(), Memory>
    ensures { OnOk result (out.new.items ≡ out.old.items ++ number n) }
{
    let [_, a, b, c] = n.to_be_bytes();
    out.push(a)?;
    out.push(b)?;
    out.push(c)?;
    Ok(())
}

/// Writes a number that may be absent.
fn write_optional(out: &mut Vec<u8>, n: Option<u32>) -> Result<(), Memory>
    ensures { OnOk result (out.new.items ≡ out.old.items ++ optional n) }
{
    match n {
        None => Ok(()),
        Some(n) => write_number(out, n),
    }
}

/// Writes ranges, six octets each.
fn write_ranges(out: &mut Vec<u8>, ranges: &[Range]) -> Result<(), Memory>
    ensures { OnOk result (out.new.items ≡ out.old.items ++ flat_map range ranges.now) }
{
    for range in ranges {
        write_number(out, range.from)?;
        write_number(out, range.to)?;
    }
    Ok(())
}

/// Writes zeros until the octets are 4k - 2.
fn pad(out: &mut Vec<u8>) -> Result<(), Memory>
    ensures { OnOk result (out.new.items ≡ padded out.old.items) }
{
    for _ in 0..(6 - out.len() % 4) % 4 {
        out.push(0)?;
    }
    Ok(())
}

/// Writes a frame without its padding.
fn write_frame(out: &mut Vec<u8>, f: &Frame) -> Result<(), Memory>
    requires { IsWritable f.now }
    ensures { OnOk result (out.new.items ≡ out.old.items ++ first_octet f.now ∷ fields f.now) }
{
    match f {
        Frame::User {
            number,
            user,
            repeat,
        } => {
            out.push(flag(*user) + 2 * flag(*repeat))?;
            write_number(out, *number)
        }
        Frame::Status { highest, lost } => {
            out.push(16 + flag(highest.is_some()))?;
            out.push(lost.len() as u8)?;
            write_optional(out, *highest)?;
            write_ranges(out, lost.as_slice())
        }
    }
}

/// How many octets the frame has, without its padding.
fn bare_len(f: &Frame) -> usize
    requires { IsWritable f.now }
    ensures { result ≡ length (first_octet f.now ∷ fields f.now) }
{
    match f {
        Frame::User { .. } => 4,
        Frame::Status { highest, lost } => {
            2 + 3 * flag(highest.is_some()) as usize + 6 * lost.len()
        }
    }
}

/// How many octets the frame has, with its padding.
fn written_len(f: &Frame) -> usize
    requires { IsWritable f.now }
    ensures { result ≡ length (written f.now) }
{
    let bare = bare_len(f);
    bare + (6 - bare % 4) % 4
}

/// The octets of a frame, padded with zeros to 4k - 2 of them, as a container takes them (TS 29.281,
/// 5.2.2.6). Numbers and ranges have 24 bits, a highest sequence number has 18, and there are at
/// most 168 ranges: each ends where it begins or above, and begins above the end of the one before.
pub fn encode(alloc: Global, f: &Frame) -> Result<Octets, Memory>
    requires { IsWritable f.now }
    // What is written is this frame, so `decode` gives it back.
    ensures frame { IfOk result (λ octets. IsFrame octets f.now) }
    ensures form { IfOk result (λ octets. octets ≡ written f.now) }
    ensures whole { IfOk result (λ octets. length octets % 4 ≡ 2) }
    ensures fits { IfOk result (λ octets. length octets ≤ 1018) }
{
    let mut out = Vec::with_capacity(alloc, written_len(f))?;
    write_frame(&mut out, f)?;
    pad(&mut out)?;
    Ok(Octets::from_vec(out))
}
