//! COUNTs, and the part of each that is sent (TS 38.323, 6.3.5 and 7.1).

ghost use Rattle.std.specs.Prelude.{◌≡◌, ℕ, ◌<◌, MatchOption};
ghost use Rattle.dc_base.specs.Count.{modulus, window, sn, distance, count_for, IsCountFor, HasNoCountFor};

/// The length of a PDCP sequence number (TS 38.323, 6.3.2).
#[derive(Clone, Copy, Debug, PartialEq, Eq)]
pub enum SnLen {
    S12,
    S18,
}

/// How many sequence numbers there are.
#[tactic(auto, unfolding(crate::specs::Count::modulus))]
fn modulus(n: SnLen) -> u32
    ensures { result ≡ modulus n }
{
    match n {
        SnLen::S12 => 4096,
        SnLen::S18 => 262_144,
    }
}

/// Window_Size: half the sequence numbers, 2,048 or 131,072 (TS 38.323, 7.2).
#[tactic(auto, unfolding(crate::specs::Count::window))]
pub fn window(n: SnLen) -> u32
    ensures { result ≡ window n }
{
    match n {
        SnLen::S12 => 2048,
        SnLen::S18 => 131_072,
    }
}

/// The sequence number of a COUNT: its low 12 or 18 bits (TS 38.323, 6.3.5).
#[tactic(auto, using(crate::proofs::Counting::modulus_bounds), unfolding(crate::specs::Count::sn))]
pub fn sn_of(n: SnLen, count: u32) -> u32
    ensures value { result ≡ sn n count }
    ensures small { result < modulus n }
{
    count % modulus(n)
}

/// How far above the lower end of the window round `reference` the first number that has the sequence number
/// `sn` lies, in COUNTs. `sn` is below 2^12 or 2^18.
#[tactic(auto, using(crate::proofs::Counting::modulus_bounds, crate::proofs::Counting::window_small), unfolding(crate::specs::Count::distance))]
fn distance(n: SnLen, reference: u32, sn: u32) -> u32
    requires { sn < modulus n }
    ensures { result ≡ distance n reference sn }
{
    (sn + modulus(n) + window(n) - sn_of(n, reference)) % modulus(n)
}

/// The COUNT that has the sequence number `sn` and lies in the window round `reference`: from
/// `reference - window(n)` on, and below `reference + window(n)`. `None` exactly where that number is
/// below 0 or above 2^32 - 1 (TS 38.323, 5.2.2.1). `sn` is below 2^12 or 2^18.
#[tactic(auto, using(crate::proofs::Counting::count_for_decides), unfolding(crate::specs::Count::count_for))]
pub fn infer(n: SnLen, reference: u32, sn: u32) -> Option<u32>
    requires { sn < modulus n }
    ensures found { MatchOption result (HasNoCountFor n reference sn) (λ c. IsCountFor n reference sn c) }
    ensures computed { result ≡ count_for n reference sn }
{
    inferred(n, reference, sn)
}

/// The same, by how far the number lies above the window's lower end.
#[tactic(auto, unfolding(crate::specs::Count::count_for))]
fn inferred(n: SnLen, reference: u32, sn: u32) -> Option<u32>
    requires { sn < modulus n }
    ensures { result ≡ count_for n reference sn }
{
    let above = reference as u64 + distance(n, reference, sn) as u64;
    let window = window(n) as u64;
    if above < window {
        None
    } else if above - window < 1 << 32 {
        Some((above - window) as u32)
    } else {
        None
    }
}
