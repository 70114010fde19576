//! When two answers or two shapes are the same.

ghost use Rattle.std.specs.Prelude.{◌≡◌, ◌<◌};
ghost use Rattle.claims.specs.Sameness.{answer_number, flag_number, is_same_answer, legs_number, shape_number};

use dc_base::{Answer, Cell, LegSet, Refusal, Shape};

/// Whether two answers are the same.
pub fn is_same_answer(one: Answer, other: Answer) -> bool
    ensures { result ≡ is_same_answer one other }
{
    answer_number(one) == answer_number(other)
}

/// A number by which answers are told apart: 0 is ok.
fn answer_number(answer: Answer) -> u8
    ensures { result ≡ answer_number answer }
{
    match answer {
        Answer::Ok => 0,
        Answer::No(Refusal::NoBearer) => 1,
        Answer::No(Refusal::BearerThere) => 2,
        Answer::No(Refusal::Busy) => 3,
        Answer::No(Refusal::NoSecondary) => 4,
        Answer::No(Refusal::SecondaryThere) => 5,
        Answer::No(Refusal::SameShape) => 6,
        Answer::No(Refusal::IdSpent) => 7,
        Answer::No(Refusal::CounterSpent) => 8,
        Answer::No(Refusal::RootUsed) => 9,
        Answer::No(Refusal::NoFlight) => 10,
        Answer::No(Refusal::NotFirst) => 11,
        Answer::No(Refusal::NotTunnel) => 12,
        Answer::No(Refusal::Aged) => 13,
        Answer::No(Refusal::Full) => 14,
        Answer::No(Refusal::Exhausted) => 15,
        Answer::No(Refusal::NoPolicy) => 16,
    }
}

/// A shape as a number.
pub(crate) fn shape_number(shape: Shape) -> u8
    ensures { result ≡ shape_number shape }
{
    legs_number(shape.legs) + 4 * flag_number(shape.at_second) + 8 * flag_number(shape.dup)
}

/// Legs as a number.
fn legs_number(legs: LegSet) -> u8
    ensures number { result ≡ legs_number legs }
    ensures small { result < 4 }
{
    match legs {
        LegSet::Mcg => 0,
        LegSet::Scg => 1,
        LegSet::Split(Cell::Mcg) => 2,
        LegSet::Split(Cell::Scg) => 3,
    }
}

/// A flag as a number.
fn flag_number(flag: bool) -> u8
    ensures number { result ≡ flag_number flag }
    ensures small { result < 2 }
{
    if flag { 1 } else { 0 }
}
