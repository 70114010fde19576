//! What a form writes.

ghost use Rattle.std.specs.Prelude.{◌≡◌, ◌++◌, IfOk, OnOk, MatchOption, map, string_bytes, length, ◌≤◌};
ghost use Rattle.hex.specs.Hex.{encode_lower};
ghost use Rattle.dc_base.specs.declared.nodes.Alg.{Alg};
ghost use Rattle.dc_forms.specs.declared.form.Form.{Form};
ghost use Rattle.dc_forms.specs.Forms.{IsForm, IsOutput, HasFormText, named};

use crate::form::Form;
use crate::reading::read_form;
use crate::shown::show;
use dc_base::{Alg, Dir, DrbId, Memory, Octets};
use dc_text::write_hex;
use key_chain::{k_sn, k_upenc};
use nea2::{Aes128, nea};
use std::alloc::Global;

/// Writes a line of a name and octets.
fn write_named(out: &mut Octets, name: &[u8], octets: &[u8]) -> Result<(), Memory>
    ensures { OnOk result (out.new ≡ out.old ++ named name.now octets.now) }
{
    out.extend(name)?;
    write_hex(out, octets)?;
    out.push(b'\n')
}

/// The keys under a root key and an SN Counter, for 128-NEA2.
fn keys(alloc: Global, root: &[u8; 32], counter: u16) -> Result<Octets, Memory>
    ensures { IfOk result (λ text. IsOutput (Form.Keys root.now counter) text) }
{
    let second = k_sn(root, counter);
    let mut out = Octets::new(alloc);
    write_named(&mut out, b"master-upenc ", &k_upenc(root, Alg::Nea2))?;
    write_named(&mut out, b"ksn ", &second)?;
    write_named(&mut out, b"second-upenc ", &k_upenc(&second, Alg::Nea2))?;
    Ok(out)
}

/// A text combined with its keystream.
fn cipher(
    alloc: Global,
    key: &[u8; 16],
    count: u32,
    id: DrbId,
    dir: Dir,
    text: &Octets,
) -> Result<Octets, Memory>
    requires { length text.now ≤ 9000 }
    ensures { IfOk result (λ line. IsOutput (Form.Cipher key.now count id dir text.now) line) }
{
    let mut octets = Vec::from_slice(alloc, text.as_slice())?;
    nea(
        Alg::Nea2,
        &Aes128::new(key),
        count,
        id,
        dir,
        octets.as_mut_slice(),
    );
    let mut out = Octets::new(alloc);
    write_named(&mut out, b"", octets.as_slice())?;
    Ok(out)
}

/// What a form writes.
fn output(alloc: Global, form: &Form) -> Result<Octets, Memory>
    requires { IsForm form.now }
    ensures { IfOk result (λ text. IsOutput form.now text) }
{
    match form {
        Form::Keys { root, counter } => keys(alloc, root, *counter),
        Form::Cipher {
            key,
            count,
            id,
            dir,
            text,
        } => cipher(alloc, key, *count, *id, *dir, text),
        Form::Show { kind, octets } => show(alloc, *kind, octets.as_slice()),
    }
}

/// What the form writes that the words of a command line are, if they are one: `keys ROOT COUNTER`,
/// `nea2 KEY COUNT DRB DIR HEX` or `show KIND HEX`. The only error is want of memory.
pub fn run_form(alloc: Global, words: &[String]) -> Result<Option<Octets>, Memory>
    ensures { IfOk result (λ found. HasFormText (map string_bytes words.now) found) }
{
    let Some(form) = read_form(alloc, words)? else {
        return Ok(None);
    };
    Ok(Some(output(alloc, &form)?))
}
