//! The fields that have parts: keys, items of a plan, and bearers with their generations.

ghost use Rattle.std.specs.Prelude.{◌≡◌, ◌≤◌, List, ℕ, [], ◌∷◌, IfOk, IfErr, IfSome, IfNone, refl};
ghost use Rattle.transcript.specs.Words.{key_word};
ghost use Rattle.transcript.specs.Text.{item_text, pair_text};
ghost use Rattle.dc_base.specs.declared.records.Item.TheVariants.{Set, Unset};
ghost use Rattle.script_text.specs.Scripts.{IsIdentity};
ghost use Rattle.transcript_text.specs.Ranges.{IsKey, IsItem, IsPair, IsWord};
ghost use Rattle.transcript_text.specs.Grammar.{Allows, Kind, Key, PlanItem, BearerPair};
ghost use Rattle.transcript_text.specs.Items.{item_parts, set_kinds};
ghost use Rattle.transcript_text.specs.Places.{IsFaultAt};

use crate::fault::LineFault;
use crate::field_reader::FieldReader;
use crate::spelling::{Spelled, identity_of, number_of};
use dc_base::{DrbId, Gen, Item, KeyName, Memory, Node, Shape, Side, SnLen};
use std::alloc::Global;

impl Spelled for KeyName {
    ghost kind = { Key };

    ghost word = { key_word };

    ghost in_range = { IsKey };

    fn of(alloc: Global, field: &[u8]) -> Result<Option<KeyName>, Memory> {
        key_of(alloc, field)
    }

    ghost allowed = { λ v h. (v, h, refl) };
}

impl Spelled for Item {
    ghost kind = { PlanItem };

    ghost word = { item_text };

    ghost in_range = { IsItem };

    fn of(alloc: Global, field: &[u8]) -> Result<Option<Item>, Memory> {
        item_of(alloc, field)
    }

    ghost allowed = { λ v h. (v, h, refl) };
}

impl Spelled for (DrbId, Gen) {
    ghost kind = { BearerPair };

    ghost word = { pair_text };

    ghost in_range = { IsPair };

    fn of(alloc: Global, field: &[u8]) -> Result<Option<(DrbId, Gen)>, Memory> {
        pair_of(alloc, field)
    }

    ghost allowed = { λ v h. (v, h, refl) };
}

/// The key of a name: `mR`, or `sR.C`.
fn key_of(alloc: Global, field: &[u8]) -> Result<Option<KeyName>, Memory>
    ensures some { IfOk result (λ found. IfSome found (λ key. IsKey key × (field.now ≡ key_word key))) }
    ensures none { IfOk result (λ found. IfNone found (Allows Key field.now → ⊥)) }
{
    match field.split_first() {
        Some((b'm', name)) => Ok(master_key(name)),
        Some((b's', name)) => second_key(alloc, name),
        _ => Ok(None),
    }
}

/// The master's key of the root that is named after `m`.
fn master_key(name: &[u8]) -> Option<KeyName>
    ensures some { IfSome result (λ key. IsKey key × (109 ∷ name.now ≡ key_word key)) }
    ensures none { IfNone result (Allows Key (109 ∷ name.now) → ⊥) }
{
    match number_of(name, 0, u32::MAX) {
        Some(root) => Some(KeyName {
            root,
            side: Side::Master,
        }),
        None => None,
    }
}

/// The K_SN of the root and the SN Counter that are named after `s`, with a dot between them.
fn second_key(alloc: Global, name: &[u8]) -> Result<Option<KeyName>, Memory>
    ensures some { IfOk result (λ found. IfSome found (λ key. IsKey key × (115 ∷ name.now ≡ key_word key))) }
    ensures none { IfOk result (λ found. IfNone found (Allows Key (115 ∷ name.now) → ⊥)) }
{
    let mut parts = FieldReader::new(name, b'.');
    let read: Result<(u32, u16), LineFault> = parts.two(alloc);
    match read {
        Ok(names) => Ok(Some(KeyName {
            root: names.0,
            side: Side::Second(names.1),
        })),
        Err(LineFault::Memory) => Err(Memory),
        Err(LineFault::Column(_)) => Ok(None),
    }
}

/// The identity of a bearer and a generation of it, with a slash between them.
fn pair_of(alloc: Global, field: &[u8]) -> Result<Option<(DrbId, Gen)>, Memory>
    ensures some { IfOk result (λ found. IfSome found (λ p. IsPair p × (field.now ≡ pair_text p))) }
    ensures none { IfOk result (λ found. IfNone found (Allows BearerPair field.now → ⊥)) }
{
    let mut parts = FieldReader::new(field, b'/');
    let read: Result<(DrbId, Gen), LineFault> = parts.two(alloc);
    match read {
        Ok(pair) => Ok(Some(pair)),
        Err(LineFault::Memory) => Err(Memory),
        Err(LineFault::Column(_)) => Ok(None),
    }
}

/// The item that the field writes.
fn item_of(alloc: Global, field: &[u8]) -> Result<Option<Item>, Memory>
    ensures some { IfOk result (λ found. IfSome found (λ item. IsItem item × (field.now ≡ item_text item))) }
    ensures none { IfOk result (λ found. IfNone found (Allows PlanItem field.now → ⊥)) }
{
    let mut parts = FieldReader::new(field, b'/');
    match set_item(alloc, &mut parts) {
        Ok(item) => Ok(Some(item)),
        Err(LineFault::Memory) => Err(Memory),
        Err(LineFault::Column(_)) => Ok(unset_item(field)),
    }
}

/// The parts of an item that sets a bearer.
fn set_item(alloc: Global, parts: &mut FieldReader) -> Result<Item, LineFault>
    ensures read { IfOk result (λ item. IsItem item × (parts.old.fields ≡ item_parts item)) }
    ensures fault { IfErr result (λ f. IsFaultAt set_kinds parts.old f) }
{
    let id: DrbId = parts.take(alloc)?;
    let n: SnLen = parts.take(alloc)?;
    let first: u32 = parts.take(alloc)?;
    let rest: (Shape, u32, u8, KeyName, Option<Node>) = parts.five(alloc)?;
    Ok(Item::Set {
        id,
        n,
        first,
        shape: rest.0,
        threshold: rest.1,
        policy: rest.2,
        key: rest.3,
        old: rest.4,
    })
}

/// The item that drops a bearer: a dash and its identity.
fn unset_item(field: &[u8]) -> Option<Item>
    ensures some { IfSome result (λ item. IsItem item × (field.now ≡ item_text item)) }
    ensures none { IfNone result ((id : ℕ) → IsIdentity id → field.now ≡ item_text (Unset id) → ⊥) }
{
    match field.split_first() {
        Some((b'-', name)) => match identity_of(name) {
            Some(id) => Some(Item::Unset { id }),
            None => None,
        },
        _ => None,
    }
}
