//! What is so of all journals that are legal: lemmas.

ghost use Rattle.std.specs.Prelude.{◌≡◌, ℕ, List};
ghost use Rattle.std.specs.List.{AllByRecursion};
ghost use Rattle.dc_base.specs.declared.nodes.Node.{Node};
ghost use Rattle.journals.specs.declared.entries.JournalEntry.{JournalEntry};
ghost use Rattle.journals.specs.Journals.{Legal, SentBefore, took};
ghost use Rattle.journals.specs.Merging.{Merged, Runs, empty, merged, numbered};

/// In any order in which legal journals are merged, each message stands at the front of what its sender sent to its receiver
/// when it is taken.
pub fn each_found()
    ensures { (j : ℕ → List JournalEntry) (xs : List (Node × JournalEntry)) → Legal j → Merged j xs → Runs empty xs }
{}

/// The journals of the four nodes, put together entry by entry, are such an order.
pub fn merged_is()
    ensures { (t m a b : List JournalEntry) → Legal (numbered t m a b) → Merged (numbered t m a b) (merged t m a b) }
{}

/// Each message that was taken was sent in an entry of its sender with a smaller stamp.
pub fn sent_before()
    ensures { (j : ℕ → List JournalEntry) (n : ℕ) → Legal j → AllByRecursion (λ (e : JournalEntry). AllByRecursion (SentBefore j e.stamp) (took e.what)) (j n) }
{}
