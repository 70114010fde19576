//! The journals of four workers in one order, and the script that they make.
#![tactic(auto)]

ghost use Rattle.std.specs.Prelude.{◌≡◌, ◌<◌, ◌+◌, ◌++◌, length, IfOk, OnOk};
ghost use Rattle.journal_runs.specs.Scripts.{event_of, script};
ghost use Rattle.journals.specs.Journals.{Legal, Rising};
ghost use Rattle.journals.specs.Merging.{Merged, Sorted, numbered, put_all};
ghost use Rattle.merging.specs.Heads.{goes_first};

use dc_base::{Event, Memory, Node, Seq};
use journals::{JournalEntry, What};
use std::alloc::Global;
use std::collections::VecDeque;

// Whether the next entry of the node comes before the next of the others.
fn is_next(
    node: Node,
    entries: &VecDeque<JournalEntry>,
    others: &VecDeque<(Node, JournalEntry)>,
) -> bool
    requires { 0 < length entries.now.items }
    ensures { result ≡ goes_first node entries.now.items others.now.items }
{
    let Some(entry) = entries.front() else {
        return true;
    };
    let Some(other) = others.front() else {
        return true;
    };
    let own = node.number();
    let theirs = other.0.number();
    entry.stamp < other.1.stamp || (entry.stamp == other.1.stamp && own <= theirs)
}

// Takes the entry that comes next.
fn take_next(
    node: Node,
    entries: &mut VecDeque<JournalEntry>,
    others: &mut VecDeque<(Node, JournalEntry)>,
    merged: &mut VecDeque<(Node, JournalEntry)>,
) -> Result<(), Memory>
    requires some { 0 < length entries.old.items }
    requires rising { Rising 0 0 entries.old.items }
    requires sorted { Sorted others.old.items }
    ensures same { OnOk result (merged.new.items ++ put_all node entries.new.items others.new.items ≡ merged.old.items ++ put_all node entries.old.items others.old.items) }
    ensures rising { OnOk result (Rising 0 0 entries.new.items) }
    ensures sorted { OnOk result (Sorted others.new.items) }
    ensures fewer { OnOk result (length entries.new.items + length others.new.items < length entries.old.items + length others.old.items) }
{
    if is_next(node, entries, others) {
        let entry = entries.pop_front().unwrap();
        merged.push_back((node, entry))?;
    } else {
        let other = others.pop_front().unwrap();
        merged.push_back(other)?;
    }
    Ok(())
}

// Puts the entries of a node among those of others.
fn merge_in(
    alloc: Global,
    node: Node,
    entries: VecDeque<JournalEntry>,
    others: VecDeque<(Node, JournalEntry)>,
) -> Result<VecDeque<(Node, JournalEntry)>, Memory>
    requires rising { Rising 0 0 entries.items }
    requires sorted { Sorted others.items }
    ensures all { IfOk result (λ m. m.items ≡ put_all node entries.items others.items) }
    ensures sorted { IfOk result (λ m. Sorted m.items) }
{
    let mut entries = entries;
    let mut others = others;
    let mut merged = VecDeque::new(alloc);
    while !entries.is_empty() {
        take_next(node, &mut entries, &mut others, &mut merged)?;
    }
    while let Some(other) = others.pop_front() {
        merged.push_back(other)?;
    }
    Ok(merged)
}

// The entries of four nodes in one order.
fn merge_all(
    alloc: Global,
    t: VecDeque<JournalEntry>,
    m: VecDeque<JournalEntry>,
    a: VecDeque<JournalEntry>,
    b: VecDeque<JournalEntry>,
) -> Result<VecDeque<(Node, JournalEntry)>, Memory>
    requires { Legal (numbered t.items m.items a.items b.items) }
    ensures { IfOk result (λ all. Merged (numbered t.items m.items a.items b.items) all.items) }
{
    let only_b = merge_in(alloc, Node::B, b, VecDeque::new(alloc))?;
    let from_a = merge_in(alloc, Node::A, a, only_b)?;
    let from_m = merge_in(alloc, Node::M, m, from_a)?;
    let all = merge_in(alloc, Node::T, t, from_m)?;
    Ok(all)
}

// The entries of a journal as a queue.
fn queue(journal: Seq<JournalEntry>) -> VecDeque<JournalEntry>
    ensures { result.items ≡ journal }
{
    VecDeque::from(journal.into_vec())
}

/// All entries of the four nodes' journals, each with its node: by stamp, then by node in the order t, m, a, b, then by place.
pub fn merge(
    alloc: Global,
    t: Seq<JournalEntry>,
    m: Seq<JournalEntry>,
    a: Seq<JournalEntry>,
    b: Seq<JournalEntry>,
) -> Result<Seq<(Node, JournalEntry)>, Memory>
    requires { Legal (numbered t m a b) }
    ensures { IfOk result (λ all. Merged (numbered t m a b) all) }
{
    let all = merge_all(alloc, queue(t), queue(m), queue(a), queue(b))?;
    Ok(Seq::from_vec(Vec::from(all)))
}

// The event of an entry.
fn event_of(entry: JournalEntry) -> Event
    ensures { result ≡ event_of entry.what }
{
    let JournalEntry { what, .. } = entry;
    match what {
        What::Driver(event) => event,
        What::Step(message) => Event::Step {
            link: message.link,
            index: 0,
        },
        What::Loss(message) => Event::Lose {
            link: message.link,
            index: 0,
        },
    }
}

/// The events of merged journals: the lines of the plan, and what happened to messages, each of which stands first on its link.
pub fn script(alloc: Global, merged: Seq<(Node, JournalEntry)>) -> Result<Seq<Event>, Memory>
    ensures { IfOk result (λ events. events ≡ script merged) }
{
    let mut events = Seq::new(alloc);
    for tagged in merged.into_vec() {
        events.push(event_of(tagged.1))?;
    }
    Ok(events)
}
