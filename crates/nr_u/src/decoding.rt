//! Reading a frame.

ghost use Rattle.std.specs.Prelude.{◌≡◌, ◌∷◌, ◌++◌, ◌+◌, ◌*◌, ◌/◌, ◌≤◌, ◌%◌, ◌<◌, ◌^◌, ◌⊎◌, [], length, Some, None, IsSome, IfSome, IfOk, OnOk, IfErr, MatchResult};
ghost use Rattle.nr_u.specs.declared.frame.Frame.{Frame};
ghost use Rattle.std.specs.List.{flat_map};
ghost use Rattle.nr_u.specs.declared.frame.NruErr.TheVariants as errors;
ghost use Rattle.nr_u.specs.Frames.{IsFrame, AreRanges, optional, range, is_set};
ghost use Rattle.nr_u.specs.Faults.{IsFaultOf, number_of, user_fault, status_fault, highest_len, highest_fault, range_fault};

use crate::frame::{Frame, NruErr, Range};
use dc_base::Seq;
use std::alloc::Global;

/// Whether the bit of the octet is 1.
fn is_set(octet: u8, bit: u32) -> bool
    requires { bit < 8 }
    ensures { result ≡ is_set octet bit }
{
    octet >> bit & 1 == 1
}

/// The number of three octets, the most significant first.
fn number(a: u8, b: u8, c: u8) -> u32
    ensures value { result ≡ number_of a b c }
    ensures small { result < 2 ^ 24 }
{
    u32::from_be_bytes([0, a, b, c])
}

/// The highest sequence number, of no octets or of three.
fn highest(octets: &[u8]) -> Result<Option<u32>, NruErr>
    ensures found { IfOk result (λ h. IfSome h (λ n. n < 2 ^ 18) × (length octets.now ≡ 0 → h ≡ None) × (length octets.now ≡ 3 → IsSome h × (octets.now ≡ optional h))) }
    ensures none { OnOk result (highest_fault octets.now ≡ None) }
    ensures fault { IfErr result (λ e. (e ≡ errors.Ranges 2) × (highest_fault octets.now ≡ Some e)) }
{
    let [a, b, c] = octets else {
        return Ok(None);
    };
    let highest = number(*a, *b, *c);
    if highest >= 1 << 18 {
        return Err(NruErr::Ranges { place: 2 });
    }
    Ok(Some(highest))
}

/// The range in the first six octets, and the octets after it.
fn first_range(octets: &[u8]) -> (Range, &[u8])
    requires { 6 ≤ length octets.now }
    ensures parts { octets.now ≡ range result.0 ++ result.1.now }
    ensures from { result.0.from < 2 ^ 24 }
    ensures to { result.0.to < 2 ^ 24 }
{
    let (front, rest) = octets.split_at(6);
    let range = Range {
        from: number(front[0], front[1], front[2]),
        to: number(front[3], front[4], front[5]),
    };
    (range, rest)
}

/// The ranges in these octets, six each, the first of which is at this place of the frame.
fn ranges(alloc: Global, octets: &[u8], place: usize) -> Result<Seq<Range>, NruErr>
    requires whole { length octets.now % 6 ≡ 0 }
    requires near { place + length octets.now < 2 ^ 32 }
    ensures found { IfOk result (λ rs. AreRanges rs × (octets.now ≡ flat_map range rs)) }
    ensures none { OnOk result (range_fault 0 place octets.now ≡ None) }
    ensures fault { IfErr result (λ e. (e ≡ errors.Memory) ⊎ (range_fault 0 place octets.now ≡ Some e)) }
{
    let mut found = Vec::new(alloc);
    let mut rest = octets;
    let mut place = place;
    let mut low = 0;
    while !rest.is_empty() {
        let (range, after) = first_range(rest);
        if range.from < low || range.to < range.from {
            return Err(NruErr::Ranges { place });
        }
        low = range.to + 1;
        found.push(range)?;
        rest = after;
        place += 6;
    }
    Ok(Seq::from_vec(found))
}

/// A user data frame with this octet 0, by its octets from octet 1 on.
fn user(first: u8, rest: &[u8]) -> Result<Frame, NruErr>
    requires { first / 2 ^ 4 ≡ 0 }
    ensures frame { IfOk result (IsFrame (first ∷ rest.now)) }
    ensures fault { IfErr result (λ e. user_fault rest.now ≡ Some e) }
{
    let [a, b, c, padding @ ..] = rest else {
        return Err(NruErr::Short {
            place: 1 + rest.len(),
        });
    };
    if padding.len() > 3 {
        return Err(NruErr::Trailing { place: 7 });
    }
    Ok(Frame::User {
        number: number(*a, *b, *c),
        user: is_set(first, 0),
        repeat: is_set(first, 1),
    })
}

/// How many octets a status with this octet 0 has for its highest sequence number.
fn highest_len(first: u8) -> usize
    ensures { result ≡ highest_len first }
{
    if is_set(first, 0) { 3 } else { 0 }
}

/// A delivery status with this octet 0 and number of ranges, by its octets from octet 2 on.
fn counted(alloc: Global, first: u8, count: u8, rest: &[u8]) -> Result<Frame, NruErr>
    requires { first / 2 ^ 4 ≡ 1 }
    ensures frame { IfOk result (IsFrame (first ∷ count ∷ rest.now)) }
    ensures fault { IfErr result (λ e. (e ≡ errors.Memory) ⊎ (status_fault first (count ∷ rest.now) ≡ Some e)) }
{
    let start = highest_len(first);
    let len = 6 * count as usize;
    if rest.len() < start + len {
        return Err(NruErr::Short {
            place: 2 + rest.len(),
        });
    }
    let (front, rest) = rest.split_at(start);
    let (octets, padding) = rest.split_at(len);
    let highest = highest(front)?;
    let lost = ranges(alloc, octets, 2 + start)?;
    if padding.len() > 3 {
        return Err(NruErr::Trailing {
            place: 2 + start + len + 3,
        });
    }
    Ok(Frame::Status { highest, lost })
}

/// A delivery status with this octet 0, by its octets from octet 1 on.
fn status(alloc: Global, first: u8, rest: &[u8]) -> Result<Frame, NruErr>
    requires { first / 2 ^ 4 ≡ 1 }
    ensures frame { IfOk result (IsFrame (first ∷ rest.now)) }
    ensures fault { IfErr result (λ e. (e ≡ errors.Memory) ⊎ (status_fault first rest.now ≡ Some e)) }
{
    match rest {
        [] => Err(NruErr::Short { place: 1 }),
        [count, rest @ ..] => counted(alloc, first, *count, rest),
    }
}

/// The frame that the octets are, or the first check that fails.
fn read(alloc: Global, input: &[u8]) -> Result<Frame, NruErr>
    ensures frame { IfOk result (IsFrame input.now) }
    ensures fault { IfErr result (IsFaultOf input.now) }
{
    let [first, rest @ ..] = input else {
        return Err(NruErr::Short { place: 0 });
    };
    match first >> 4 {
        0 => user(*first, rest),
        1 => status(alloc, *first, rest),
        _ => Err(NruErr::Kind { place: 0 }),
    }
}

/// The frame that the octets are, with 0 to 3 octets of padding after it.
/// An error names the first check that fails, and its place.
pub fn decode(alloc: Global, input: &[u8]) -> Result<Frame, NruErr>
    ensures frame { IfOk result (IsFrame input.now) }
    // Nothing that is a frame is refused, unless memory runs out.
    ensures only { (f : Frame) → IsFrame input.now f → MatchResult result (λ g. g ≡ f) (λ e. e ≡ errors.Memory) }
    ensures fault { IfErr result (IsFaultOf input.now) }
{
    read(alloc, input)
}
