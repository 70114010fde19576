//! Why a live run is a run of the rules: whatever order legal journals are merged in, the script that they make, run by the
//! rules of the whole machine, gives exactly what the workers wrote down.
#![tactic(auto)]

ghost use Rattle.std.specs.Prelude.{◌≡◌, ℕ, List};
ghost use Rattle.dc_base.specs.Nodes.{node_number};
ghost use Rattle.dc_base.specs.declared.events.Header.{Header};
ghost use Rattle.dc_base.specs.declared.nodes.Node.{Node};
ghost use Rattle.journal_runs.specs.OwnSteps.{AreOwnSteps};
ghost use Rattle.journal_runs.specs.Scripts.{IsRunOf};
ghost use Rattle.journals.specs.Journals.{Legal};
ghost use Rattle.journals.specs.Merging.{Merged};
ghost use Rattle.journals.specs.declared.entries.JournalEntry.{JournalEntry};
ghost use Rattle.node_rules.specs.Choices.{Choices};
ghost use Rattle.node_rules.specs.NodeRule.{NodeState};
ghost use Rattle.node_rules.specs.Run.{node_at};
ghost use Rattle.node_rules.specs.World.{new_world};

/// Where the journals are legal and each has its own node's steps from the beginning on, the run of the script of any order in
/// which they are merged has the entries of the journals, with their answers and lines, and leaves each node as its worker did.
pub fn merged_run()
    ensures { (c : Choices) (h : Header) (j : ℕ → List JournalEntry) (ends : Node → NodeState) (xs : List (Node × JournalEntry))
        → Legal j → ((n : Node) → AreOwnSteps c n (node_at (new_world h) n) (j (node_number n)) (ends n)) → Merged j xs → IsRunOf c h j ends xs }
{}
