//! The words of a form, read.

ghost use Rattle.std.specs.Prelude.{◌≡◌, ◌≢◌, ℕ, ◌≤◌, List, [], ◌∷◌, codes, length, IfOk, MatchOption, map, string_bytes};
ghost use Rattle.dc_forms.specs.declared.form.Form.{Form};
ghost use Rattle.std.specs.Fmt.{decimal as decimal_text};
ghost use Rattle.dc_base.specs.declared.nodes.Dir.{Dir};
ghost use Rattle.transcript.specs.Words.{dir_word};
ghost use Rattle.dc_forms.specs.declared.form.Kind.{Kind};
ghost use Rattle.dc_forms.specs.Forms.{IsForm, IsRead, kind_word};

use crate::form::{Form, Kind};
use dc_base::{Dir, DrbId, Memory, Octets};
use dc_text::{decimal, hex_octets};
use std::alloc::Global;

/// The 32 octets of a list of 32.
fn root_of(octets: &Octets) -> [u8; 32]
    requires { length octets.now ≡ 32 }
    ensures { result ≡ octets.now }
{
    let mut root = [0; 32];
    root.copy_from_slice(octets.as_slice());
    root
}

/// The 16 octets of a list of 16.
fn key_of(octets: &Octets) -> [u8; 16]
    requires { length octets.now ≡ 16 }
    ensures { result ≡ octets.now }
{
    let mut key = [0; 16];
    key.copy_from_slice(octets.as_slice());
    key
}

/// The form `keys ROOT COUNTER`, if these are its words.
fn read_keys(alloc: Global, root: &[u8], counter: &[u8]) -> Result<Option<Form>, Memory>
    ensures { IfOk result (λ found. IsRead (codes "keys" ∷ root.now ∷ counter.now ∷ []) found) }
{
    let Some(octets) = hex_octets(alloc, root)? else {
        return Ok(None);
    };
    if octets.len() != 32 {
        return Ok(None);
    }
    let Some(counter) = decimal(counter, 65_535) else {
        return Ok(None);
    };
    Ok(Some(Form::Keys {
        root: root_of(&octets),
        counter: counter as u16,
    }))
}

/// The direction that a word names.
fn dir_of(word: &[u8]) -> Option<Dir>
    ensures { MatchOption result ((dir : Dir) → word.now ≢ dir_word dir) (λ dir. word.now ≡ dir_word dir) }
{
    if word == b"ul".as_slice() {
        Some(Dir::Ul)
    } else if word == b"dl".as_slice() {
        Some(Dir::Dl)
    } else {
        None
    }
}

/// The identity that a word is, 1 to 32.
fn id_of(word: &[u8]) -> Option<DrbId>
    ensures { MatchOption result ((id : ℕ) → 1 ≤ id → id ≤ 32 → word.now ≢ decimal_text id) (λ id. (word.now ≡ decimal_text id) × (1 ≤ id) × (id ≤ 32)) }
{
    DrbId::new(decimal(word, 32)? as u8)
}

/// The form `nea2 KEY COUNT DRB DIR HEX`, if these are its words.
fn read_cipher(
    alloc: Global,
    key: &[u8],
    count: &[u8],
    id: &[u8],
    dir: &[u8],
    text: &[u8],
) -> Result<Option<Form>, Memory>
    ensures { IfOk result (λ found. IsRead (codes "nea2" ∷ key.now ∷ count.now ∷ id.now ∷ dir.now ∷ text.now ∷ []) found) }
{
    let Some(octets) = hex_octets(alloc, key)? else {
        return Ok(None);
    };
    if octets.len() != 16 {
        return Ok(None);
    }
    let Some(count) = decimal(count, u32::MAX as u64) else {
        return Ok(None);
    };
    let Some(id) = id_of(id) else {
        return Ok(None);
    };
    let Some(dir) = dir_of(dir) else {
        return Ok(None);
    };
    let Some(text) = hex_octets(alloc, text)? else {
        return Ok(None);
    };
    if text.len() > 9000 {
        return Ok(None);
    }
    Ok(Some(Form::Cipher {
        key: key_of(&octets),
        count: count as u32,
        id,
        dir,
        text,
    }))
}

/// The kind that a word names.
fn kind_of(word: &[u8]) -> Option<Kind>
    ensures { MatchOption result ((kind : Kind) → word.now ≢ kind_word kind) (λ kind. word.now ≡ kind_word kind) }
{
    if word == b"pdu12".as_slice() {
        Some(Kind::Pdu12)
    } else if word == b"pdu18".as_slice() {
        Some(Kind::Pdu18)
    } else if word == b"gtp".as_slice() {
        Some(Kind::Gtp)
    } else if word == b"nru".as_slice() {
        Some(Kind::Nru)
    } else {
        None
    }
}

/// The form `show KIND HEX`, if these are its words.
fn read_show(alloc: Global, kind: &[u8], octets: &[u8]) -> Result<Option<Form>, Memory>
    ensures { IfOk result (λ found. IsRead (codes "show" ∷ kind.now ∷ octets.now ∷ []) found) }
{
    let Some(kind) = kind_of(kind) else {
        return Ok(None);
    };
    let Some(octets) = hex_octets(alloc, octets)? else {
        return Ok(None);
    };
    Ok(Some(Form::Show { kind, octets }))
}

/// The form that three words are, if they are one.
fn read_three(
    alloc: Global,
    name: &[u8],
    second: &[u8],
    third: &[u8],
) -> Result<Option<Form>, Memory>
    ensures { IfOk result (λ found. IsRead (name.now ∷ second.now ∷ third.now ∷ []) found) }
{
    if name == b"keys".as_slice() {
        read_keys(alloc, second, third)
    } else if name == b"show".as_slice() {
        read_show(alloc, second, third)
    } else {
        Ok(None)
    }
}

/// The form that six words are, if they are one.
fn read_six(
    alloc: Global,
    name: &[u8],
    key: &[u8],
    count: &[u8],
    id: &[u8],
    dir: &[u8],
    text: &[u8],
) -> Result<Option<Form>, Memory>
    ensures { IfOk result (λ found. IsRead (name.now ∷ key.now ∷ count.now ∷ id.now ∷ dir.now ∷ text.now ∷ []) found) }
{
    if name == b"nea2".as_slice() {
        read_cipher(alloc, key, count, id, dir, text)
    } else {
        Ok(None)
    }
}

/// The form that the words of a command line are, if they are one.
pub fn read_form(alloc: Global, words: &[String]) -> Result<Option<Form>, Memory>
    ensures { IfOk result (λ found. IsRead (map string_bytes words.now) found) }
{
    match words {
        [name, second, third] => read_three(
            alloc,
            name.as_bytes(),
            second.as_bytes(),
            third.as_bytes(),
        ),
        [name, key, count, id, dir, text] => read_six(
            alloc,
            name.as_bytes(),
            key.as_bytes(),
            count.as_bytes(),
            id.as_bytes(),
            dir.as_bytes(),
            text.as_bytes(),
        ),
        _ => Ok(None),
    }
}
