ghost use Rattle.std.specs.Prelude.{◌≡◌, ◌≢◌, ◌⊎◌, ◌↔◌, ℕ, ◌<◌, ◌≤◌, [], ◌∷◌, slice_index, IfNone, IfSome, IsTrue};
ghost use Rattle.std.specs.Fmt.{decimal as decimal_text};

/// The number that a field writes in decimal digits: one digit or more and nothing else, and no leading zero except `0`
/// itself. It takes no memory.
///
/// `None` exactly where the field writes no such number, or one above `max`.
pub fn decimal(field: &[u8], max: u64) -> Option<u64>
    ensures some { IfSome result (λ n. (field.now ≡ decimal_text n) × (n ≤ max)) }
    ensures none { IfNone result ((n : ℕ) → n ≤ max → field.now ≢ decimal_text n) }
{
    if !begins_a_number(field) {
        return None;
    }
    let Ok(text) = str::from_utf8(field) else {
        return None;
    };
    match text.parse::<u64>() {
        Ok(number) if number <= max => Some(number),
        _ => None,
    }
}

/// Whether a field is `0`, or begins with one of the other nine digits.
fn begins_a_number(field: &[u8]) -> bool
    ensures { IsTrue result ↔ ((field.now ≡ 48 ∷ []) ⊎ ((48 < slice_index field.now 0) × (slice_index field.now 0 ≤ 57))) }
{
    match field {
        [b'0'] | [b'1'..=b'9', ..] => true,
        _ => false,
    }
}
