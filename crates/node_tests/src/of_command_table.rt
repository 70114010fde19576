//! Commands on a small table, one after another. The plans wanted were written by hand from TS 37.340, 10.2 to 10.5, and TS
//! 33.501, 6.10.

use command_table::CommandTable;
use dc_base::{Cell, DrbId, Event, Item, KeyName, LegSet, Memory, Node, Plan, Shape, Side, SnLen};
use std::process::Abort;
use std::test::Fail;

/// The anchor and the only leg at the master.
fn mm() -> Shape {
    Shape {
        at_second: false,
        legs: LegSet::Mcg,
        dup: false,
    }
}

/// The anchor at the master, and both legs.
fn split() -> Shape {
    Shape {
        at_second: false,
        legs: LegSet::Split(Cell::Mcg),
        dup: false,
    }
}

/// The anchor and the only leg at the secondary node.
fn ss() -> Shape {
    Shape {
        at_second: true,
        legs: LegSet::Scg,
        dup: false,
    }
}

/// The master's key of a root.
fn master(root: u32) -> KeyName {
    KeyName {
        root,
        side: Side::Master,
    }
}

/// K_SN of a root and an SN Counter.
fn second(root: u32, counter: u16) -> KeyName {
    KeyName {
        root,
        side: Side::Second(counter),
    }
}

/// The command that sets a new bearer up.
fn bearer(id: DrbId, shape: Shape) -> Event {
    Event::Bearer {
        id,
        n: SnLen::S12,
        first: 7,
        shape,
        threshold: 100,
        policy: 1,
    }
}

/// The item that sets such a bearer.
fn set(id: DrbId, shape: Shape, key: KeyName, old: Option<Node>) -> Item {
    Item::Set {
        id,
        n: SnLen::S12,
        first: 7,
        shape,
        threshold: 100,
        policy: 1,
        key,
        old,
    }
}

/// Drafts a command, draws its draft and carries it out, and answers the plan.
fn carried(table: &mut CommandTable, event: &Event) -> Result<Plan, Fail> {
    let draft = table.draft(event)?.ok_or("no draft")?;
    table.draw(&draft)?;
    table.carry(&draft.change)?;
    Ok(draft.change.plan.copy()?)
}

/// Carries a command out, and compares its plan.
fn check(
    rt: &impl Abort,
    table: &mut CommandTable,
    event: &Event,
    g: u32,
    sec: Option<Node>,
    items: &[Item],
) -> Result<(), Fail> {
    let plan = carried(table, event)?;
    assert_eq!(rt; plan.g, g);
    assert_eq!(rt; plan.sec, sec);
    assert_eq!(rt; plan.items.as_slice(), items);
    Ok(())
}

/// A bearer with both legs, and the secondary node A: three commands.
fn add_second(rt: &impl Abort, table: &mut CommandTable, one: DrbId) -> Result<(), Fail> {
    let item = set(one, mm(), master(0), None);
    check(rt, table, &bearer(one, mm()), 1, None, &[item])?;
    let add = Event::Add { node: Node::A };
    check(rt, table, &add, 2, Some(Node::A), &[])?;
    let reshape = Event::Reshape {
        id: one,
        shape: split(),
    };
    let item = set(one, split(), master(0), Some(Node::M));
    check(rt, table, &reshape, 3, Some(Node::A), &[item])
}

/// A bearer at the secondary node, and a new K_SN there.
fn rekey_second(rt: &impl Abort, table: &mut CommandTable, two: DrbId) -> Result<(), Fail> {
    let item = set(two, ss(), second(0, 0), None);
    check(rt, table, &bearer(two, ss()), 4, Some(Node::A), &[item])?;
    let item = set(two, ss(), second(0, 1), Some(Node::A));
    check(rt, table, &Event::RekeySecond, 5, Some(Node::A), &[item])
}

/// The change to the other secondary node, and a new root.
fn change(rt: &impl Abort, table: &mut CommandTable, one: DrbId, two: DrbId) -> Result<(), Fail> {
    let items = [
        set(one, split(), master(0), Some(Node::M)),
        set(two, ss(), second(0, 2), Some(Node::A)),
    ];
    check(rt, table, &Event::Change, 6, Some(Node::B), &items)?;
    let items = [
        set(one, split(), master(1), Some(Node::M)),
        set(two, ss(), second(1, 0), Some(Node::B)),
    ];
    let rekey = Event::RekeyMaster { root: [0x22; 32] };
    check(rt, table, &rekey, 7, Some(Node::B), &items)
}

/// The release of the secondary node, and a bearer dropped.
fn release(rt: &impl Abort, table: &mut CommandTable, one: DrbId, two: DrbId) -> Result<(), Fail> {
    let items = [
        set(one, mm(), master(1), Some(Node::M)),
        set(two, mm(), master(1), Some(Node::B)),
    ];
    check(rt, table, &Event::Release, 8, None, &items)?;
    let item = Item::Unset { id: one };
    check(rt, table, &Event::Remove { id: one }, 9, None, &[item])
}

/// What is left is bearer 2, of generation 8.
fn check_rows(rt: &impl Abort, table: &CommandTable, one: DrbId, two: DrbId) -> Result<(), Fail> {
    assert_eq!(rt; table.rows().len(), 1);
    assert!(rt; table.row(one).is_none());
    let row = table.row(two).ok_or("bearer 2 is there")?;
    assert!(rt; row.est == 4 && row.g == 8 && row.anchor == Node::M);
    assert!(rt; row.shape == mm() && row.key == master(1));
    Ok(())
}

#[test]
fn commands_one_after_another(rt: HostRuntime) -> Result<(), Fail> {
    let one = DrbId::new(1).ok_or("1 is an identity")?;
    let two = DrbId::new(2).ok_or("2 is an identity")?;
    let mut table = CommandTable::new(rt.alloc(), &[0x11; 32], 0)?;
    add_second(&rt, &mut table, one)?;
    rekey_second(&rt, &mut table, two)?;
    change(&rt, &mut table, one, two)?;
    release(&rt, &mut table, one, two)?;
    check_rows(&rt, &table, one, two)?;
    assert!(rt; table.last() == 9 && table.sec().is_none());
    assert!(rt; table.current_root() == 1 && table.second_key() == second(1, 0));
    Ok(())
}

#[test]
fn keys_that_are_spent(rt: HostRuntime) -> Result<(), Fail> {
    let one = DrbId::new(1).ok_or("1 is an identity")?;
    let two = DrbId::new(2).ok_or("2 is an identity")?;
    let mut table = CommandTable::new(rt.alloc(), &[0x11; 32], 0)?;
    add_second(&rt, &mut table, one)?;
    carried(&mut table, &Event::Remove { id: one })?;
    let again = table.draft(&bearer(one, mm()))?;
    assert!(rt; table.is_draft_spent(&again));
    let other = table.draft(&bearer(two, mm()))?;
    assert!(rt; !table.is_draft_spent(&other));
    let at_second = table.draft(&bearer(one, ss()))?;
    assert!(rt; !table.is_draft_spent(&at_second));
    Ok(())
}

#[test]
fn roots_and_counters(rt: HostRuntime) -> Result<(), Fail> {
    let mut table = CommandTable::new(rt.alloc(), &[0x11; 32], 65535)?;
    assert!(rt; !table.is_counter_spent());
    carried(&mut table, &Event::Add { node: Node::B })?;
    assert!(rt; table.second_key() == second(0, 65535));
    assert!(rt; table.is_counter_spent());
    assert!(rt; table.draft(&Event::RekeySecond).is_err());
    assert!(rt; table.draft(&Event::ScgFail)?.is_none());
    assert!(rt; table.is_noted(&[0x11; 32]) && !table.is_noted(&[0x22; 32]));
    assert_eq!(rt; table.octets(&master(0)), Ok([0x11; 32]));
    assert_eq!(rt; table.octets(&master(1)), Err(Memory));
    Ok(())
}
