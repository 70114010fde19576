//! What is to be said of the cores in a table.

ghost use Rattle.std.specs.Prelude.{◌≡◌, ℕ, None, Some, true, false};

use dc_base::Node;

/// What is to be said of a core.
#[derive(Clone, Copy, Debug, PartialEq, Eq)]
pub(crate) struct Tally {
    /// How many inputs it took.
    pub(crate) inputs: usize,
    /// The line, from 1, of its first step that was not as wanted.
    pub(crate) differs: Option<usize>,
}

impl Tally {
    /// The core took a further input, in the step of this line.
    fn with(self, line: usize, is_as_wanted: bool) -> Tally
        ensures as_wanted { is_as_wanted ≡ true → result.differs ≡ self.differs }
        ensures differs { is_as_wanted ≡ false → self.differs ≡ None → result.differs ≡ Some line }
        ensures first { (earlier : ℕ) → self.differs ≡ Some earlier → result.differs ≡ Some earlier }
    {
        let here = if is_as_wanted { None } else { Some(line) };
        Tally {
            inputs: self.inputs.saturating_add(1),
            differs: self.differs.or(here),
        }
    }
}

/// What is to be said of each core.
#[derive(Clone, Copy, Debug, PartialEq, Eq)]
pub(crate) struct Tallies {
    by_number: [Tally; 4],
}

impl Tallies {
    /// No core took an input yet.
    pub(crate) fn new() -> Tallies {
        let none = Tally {
            inputs: 0,
            differs: None,
        };
        Tallies {
            by_number: [none; 4],
        }
    }

    /// What is to be said of the core of a node.
    pub(crate) fn of(&self, node: Node) -> Tally {
        self.by_number[node.number()]
    }

    /// The core took a further input, in the step of this line.
    pub(crate) fn count(&mut self, node: Node, line: usize, is_as_wanted: bool) {
        self.by_number[node.number()] = self.of(node).with(line, is_as_wanted);
    }
}
