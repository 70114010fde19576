//! Text, written at the end of a list of octets. The only error is want of memory, and what was written is not used after it.

ghost use Rattle.std.specs.Prelude.{◌≡◌, ◌≤◌, ◌++◌, length, OnOk};
ghost use Rattle.std.specs.Fmt.{decimal};
ghost use Rattle.hex.specs.Hex.{encode_lower};

use dc_base::{Memory, Octets};

/// How many octets are written in digits at a time.
const MAX_PART: usize = 64;

/// Writes a word as it stands.
pub fn write_text(out: &mut Octets, text: &str) -> Result<(), Memory>
    ensures { OnOk result (out.new ≡ out.old ++ text.now) }
{
    out.extend(text.as_bytes())
}

/// Writes a number in decimal digits, with no leading zero except `0` itself.
pub fn write_decimal(out: &mut Octets, number: u64) -> Result<(), Memory>
    ensures { OnOk result (out.new ≡ out.old ++ decimal number) }
{
    let mut digits = itoa::Buffer::new();
    write_text(out, digits.format(number))
}

/// Writes octets in lower-case hexadecimal digits, two for each octet.
pub fn write_hex(out: &mut Octets, octets: &[u8]) -> Result<(), Memory>
    ensures { OnOk result (out.new ≡ out.old ++ encode_lower octets.now) }
{
    let mut rest = octets;
    while !rest.is_empty() {
        let (part, more) = rest.split_at(rest.len().min(MAX_PART));
        write_hex_part(out, part)?;
        rest = more;
    }
    Ok(())
}

/// Writes at most 64 octets in lower-case hexadecimal digits.
fn write_hex_part(out: &mut Octets, part: &[u8]) -> Result<(), Memory>
    requires { length part.now ≤ MAX_PART }
    ensures { OnOk result (out.new ≡ out.old ++ encode_lower part.now) }
{
    let mut digits = [0; 2 * MAX_PART];
    let text = &mut digits[..2 * part.len()];
    let _ = hex::encode_to_slice(part, text);
    out.extend(text)
}
