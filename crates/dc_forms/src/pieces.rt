//! Pieces of text, written. After want of memory what was written is not used.

ghost use Rattle.std.specs.Prelude.{◌≡◌, ◌++◌, OnOk};
ghost use Rattle.dc_forms.specs.Shown.{numbered, bad};

use dc_base::{Memory, Octets};
use dc_text::write_decimal;

/// Writes a word and a number.
pub fn write_numbered(out: &mut Octets, word: &[u8], number: u64) -> Result<(), Memory>
    ensures { OnOk result (out.new ≡ out.old ++ numbered word.now number) }
{
    out.extend(word)?;
    write_decimal(out, number)
}

/// Writes the word of a failed check, and its place.
pub fn write_bad(out: &mut Octets, word: &[u8], place: usize) -> Result<(), Memory>
    ensures { OnOk result (out.new ≡ out.old ++ bad word.now place) }
{
    out.extend(b"bad ")?;
    out.extend(word)?;
    write_numbered(out, b" ", place as u64)
}
