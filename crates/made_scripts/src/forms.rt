//! The forms of the command line that make a script: `make SEED TURNS` and `soak SEED TURNS`.

ghost use Rattle.std.specs.Prelude.{◌≡◌, ◌≢◌, ◌≤◌, ℕ, [], ◌∷◌, MatchOption, map, string_bytes};
ghost use Rattle.std.specs.Fmt.{decimal as decimal_text};
ghost use Rattle.made_scripts.specs.Forms.{IsRead, purpose_word};
ghost use Rattle.made_scripts.specs.declared.forms.Purpose.{Purpose};

use dc_text::decimal;

/// The most turns of a made script.
const MAX_TURNS: u64 = 20_000;

/// What is done with a made script.
#[derive(Clone, Copy, Debug, PartialEq, Eq)]
pub enum Purpose {
    /// It is written.
    Make,
    /// It is run and summed up.
    Soak,
}

/// A form of the command line that makes a script.
#[derive(Clone, Copy, Debug, PartialEq, Eq)]
pub struct MadeForm {
    pub purpose: Purpose,
    /// Any number of 64 bits.
    pub seed: u64,
    /// 1 to 20,000.
    pub turns: u32,
}

/// The purpose that a word names.
fn purpose_of(word: &[u8]) -> Option<Purpose>
    ensures { MatchOption result ((purpose : Purpose) → word.now ≢ purpose_word purpose) (λ purpose. word.now ≡ purpose_word purpose) }
{
    if word == b"make".as_slice() {
        Some(Purpose::Make)
    } else if word == b"soak".as_slice() {
        Some(Purpose::Soak)
    } else {
        None
    }
}

/// The number of turns that a word is, 1 to 20,000.
fn turns_of(word: &[u8]) -> Option<u32>
    ensures { MatchOption result ((n : ℕ) → 1 ≤ n → n ≤ 20000 → word.now ≢ decimal_text n) (λ n. (word.now ≡ decimal_text n) × (1 ≤ n) × (n ≤ 20000)) }
{
    let turns = decimal(word, MAX_TURNS)?;
    if turns == 0 {
        return None;
    }
    Some(turns as u32)
}

/// The form that three words are, if they are one.
fn form_of(purpose: &[u8], seed: &[u8], turns: &[u8]) -> Option<MadeForm>
    ensures { IsRead (purpose.now ∷ seed.now ∷ turns.now ∷ []) result }
{
    let purpose = purpose_of(purpose)?;
    let seed = decimal(seed, u64::MAX)?;
    let turns = turns_of(turns)?;
    Some(MadeForm {
        purpose,
        seed,
        turns,
    })
}

/// The form that the words of a command line are, if they are one. It takes no memory.
pub fn read_form(words: &[String]) -> Option<MadeForm>
    ensures { IsRead (map string_bytes words.now) result }
{
    match words {
        [purpose, seed, turns] => form_of(purpose.as_bytes(), seed.as_bytes(), turns.as_bytes()),
        _ => None,
    }
}
