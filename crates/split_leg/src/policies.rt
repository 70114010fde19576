//! Stored routing policies (TS 38.323, 5.2.1, leaves the choice between two legs to each node).

ghost use Rattle.std.specs.Prelude.{◌≡◌, ℕ, ◌<◌, ◌≤◌, ◌+◌, ◌^◌, length, map, max};
ghost use Rattle.split_leg.specs.declared.policies.Choice.{Choice};
ghost use Rattle.split_leg.specs.Routing.{Margins, chosen, margins_at, other_volume, chosen_volume};

use dc_base::Octets;

/// The leg that a policy chooses.
#[derive(Clone, Copy, Debug, PartialEq, Eq)]
pub enum Choice {
    Mcg,
    Scg,
}

/// A rule that chooses a leg from the volumes of the MCG and of the SCG leg, in octets.
pub type Choose = Box<dyn Fn(u64, u64) -> Choice + Send + Drop>;

/// A stored routing policy: a rule, and two numbers of octets that tie it. For all volumes below 2^48 the
/// rule chooses the SCG leg exactly where `scg + minus <= mcg + plus`.
#[derive(Drop)]
pub struct Policy {
    name: Octets,
    plus: u64,
    minus: u64,
    choose: Choose,
    ghost callable: { (mcg scg : ℕ) → mcg < 2 ^ 48 → scg < 2 ^ 48 → Choose.pre choose mcg scg },
    ghost tied: { (mcg scg : ℕ) (choice : Choice) → mcg < 2 ^ 48 → scg < 2 ^ 48 → Choose.post choose mcg scg choice → choice ≡ chosen (record { plus = plus; minus = minus }) mcg scg },
}

impl Policy {
    ghost use Rattle.split_leg.specs.Stored.{margins_of};

    /// A policy of this name. The rule may be called at all volumes below 2^48, and is tied by `plus` and
    /// `minus`, both below 2^48. It takes no memory.
    pub fn new(name: Octets, plus: u64, minus: u64, choose: Choose) -> Policy
        requires plus { plus < 2 ^ 48 }
        requires minus { minus < 2 ^ 48 }
        requires callable { (mcg scg : ℕ) → mcg < 2 ^ 48 → scg < 2 ^ 48 → Choose.pre choose mcg scg }
        requires tied { (mcg scg : ℕ) (choice : Choice) → mcg < 2 ^ 48 → scg < 2 ^ 48 → Choose.post choose mcg scg choice → choice ≡ chosen (record { plus = plus; minus = minus }) mcg scg }
        ensures { margins_of result ≡ record { plus = plus; minus = minus } }
    {
        Policy {
            name,
            plus,
            minus,
            choose,
        }
    }

    /// The leg that the rule chooses.
    fn choose(&self, mcg: u64, scg: u64) -> Choice
        requires mcg { mcg < 2 ^ 48 }
        requires scg { scg < 2 ^ 48 }
        ensures { result ≡ chosen (margins_of self.now) mcg scg }
    {
        (self.choose)(mcg, scg)
    }
}

/// The policies of a node, numbered from 0, which may move to another thread (`Send`). Contracts see the two
/// numbers of each, by `margins`.
#[derive(Drop)]
pub struct Policies {
    list: Vec<Policy>,
}

impl Policies {
    ghost use Rattle.split_leg.specs.Stored.{margins, margins_of};

    /// These policies, numbered in their order. It takes no memory.
    pub fn new(list: Vec<Policy>) -> Policies
        ensures { margins result ≡ map margins_of list.items }
    {
        Policies { list }
    }

    /// How many policies there are.
    pub fn len(&self) -> usize
        ensures { result ≡ length (margins self.now) }
    {
        self.list.len()
    }

    /// The leg that policy `i` chooses at these volumes, in octets, both below 2^48. Where no policy has that number, it is
    /// the SCG leg while its volume is at most that of the MCG leg.
    pub fn choose(&self, i: usize, mcg: u64, scg: u64) -> Choice
        requires mcg { mcg < 2 ^ 48 }
        requires scg { scg < 2 ^ 48 }
        ensures choice { result ≡ chosen (margins_at (margins self.now) i) mcg scg }
        ensures near { chosen_volume result mcg scg ≤ other_volume result mcg scg + max (margins_at (margins self.now) i).plus (margins_at (margins self.now) i).minus }
    {
        match self.list.get(i) {
            Some(policy) => policy.choose(mcg, scg),
            None => { if scg <= mcg { Choice::Scg } else { Choice::Mcg } }
        }
    }
}
