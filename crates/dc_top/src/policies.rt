//! The routing policies that the program is shipped with (TS 38.323, 5.2.1, leaves the choice between two legs to a node).

ghost use Rattle.std.specs.Prelude.{◌≡◌, ℕ, ◌<◌, ◌^◌, IfOk};
ghost use Rattle.split_leg.specs.declared.policies.Choice.{Choice};
ghost use Rattle.split_leg.specs.Routing.{chosen};
ghost use Rattle.split_leg.specs.Stored.{margins};
ghost use Rattle.dc_top.specs.Policies.{even, second, shipped};

use dc_base::{Memory, Octets};
use dc_text::write_text;
use split_leg::{Choice, Choose, Policies, Policy};
use std::alloc::Global;

/// The leg with fewer outstanding octets, and the MCG leg where both have as many.
pub fn even(mcg: u64, scg: u64) -> Choice
    ensures { result ≡ chosen even mcg scg }
{
    if scg < mcg { Choice::Scg } else { Choice::Mcg }
}

/// The SCG leg while at most 100,000 octets more are outstanding on it than on the MCG leg.
pub fn second(mcg: u64, scg: u64) -> Choice
    ensures { result ≡ chosen second mcg scg }
{
    if scg.saturating_sub(100_000) <= mcg {
        Choice::Scg
    } else {
        Choice::Mcg
    }
}

/// A name, as octets.
fn name(alloc: Global, word: &str) -> Result<Octets, Memory> {
    let mut name = Octets::new(alloc);
    write_text(&mut name, word)?;
    Ok(name)
}

/// The shipped policies with these rules: 0 is `even` and 1 is `second`. The macro `shipped_policies` makes the rules.
pub fn shipped(alloc: Global, by_even: Choose, by_second: Choose) -> Result<Policies, Memory>
    requires even_callable { (mcg scg : ℕ) → mcg < 2 ^ 48 → scg < 2 ^ 48 → Choose.pre by_even mcg scg }
    requires even_tied { (mcg scg : ℕ) (choice : Choice) → mcg < 2 ^ 48 → scg < 2 ^ 48 → Choose.post by_even mcg scg choice → choice ≡ chosen even mcg scg }
    requires second_callable { (mcg scg : ℕ) → mcg < 2 ^ 48 → scg < 2 ^ 48 → Choose.pre by_second mcg scg }
    requires second_tied { (mcg scg : ℕ) (choice : Choice) → mcg < 2 ^ 48 → scg < 2 ^ 48 → Choose.post by_second mcg scg choice → choice ≡ chosen second mcg scg }
    ensures { IfOk result (λ made. margins made ≡ shipped) }
{
    let mut list = Vec::new(alloc);
    list.push(Policy::new(name(alloc, "even")?, 0, 1, by_even))?;
    list.push(Policy::new(name(alloc, "second")?, 100_000, 0, by_second))?;
    Ok(Policies::new(list))
}

/// The shipped policies, as a `Result<split_leg::Policies, dc_base::Memory>`. A function that calls it makes the rules in its
/// own body, and its crate lists `dc_base` and `split_leg`.
#[macro_export]
macro_rules! shipped_policies {
    ($alloc:expr) => {{
        let alloc = $alloc;
        let by_even = Box::new(alloc, |mcg: u64, scg: u64| $crate::even(mcg, scg));
        let by_second = Box::new(alloc, |mcg: u64, scg: u64| $crate::second(mcg, scg));
        match (by_even, by_second) {
            (Ok(by_even), Ok(by_second)) => $crate::shipped(alloc, by_even, by_second),
            _ => Err(dc_base::Memory),
        }
    }};
}
