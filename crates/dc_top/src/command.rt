//! The command line, read and run.

ghost use Rattle.std.specs.Prelude.{◌≡◌, ◌↔◌, ◌⊎◌, ◌∷◌, [], ℕ, List, Some, IsTrue, map, string_bytes};
ghost use Rattle.dc_base.specs.declared.answers.Status.{Status};
ghost use Rattle.dc_outside.specs.Faults.{Rose};
ghost use Rattle.split_leg.specs.Stored.{margins};
ghost use Rattle.node_rules.specs.Choices.{by_policies};
ghost use Rattle.dc_top.specs.Command.{HasShown, HasWritten, IsCheck, IsNoOther, IsNoShown, IsRun};
ghost use Rattle.dc_top.specs.Ended.{HasEnded};

use crate::faults::write_fault;
use crate::running::run_script;
use dc_base::Status;
use dc_forms::run_form;
use dc_outside::{Sink, Source};
use made_runs::made_command;
use made_scripts::read_form;
use split_leg::Policies;
use std::alloc::Global;

/// Whether the words are this one alone.
fn is_only(words: &[String], name: &str) -> bool
    ensures { IsTrue result ↔ (map string_bytes words.now ≡ name.now ∷ []) }
{
    match words {
        [word] => word.as_str() == name,
        _ => false,
    }
}

/// Whether the words are the form that reads a script: `run`.
fn is_run(words: &[String]) -> bool
    ensures { IsTrue result ↔ IsRun (map string_bytes words.now) }
{
    is_only(words, "run")
}

/// Whether the words are the form that reads a transcript: `check`. It is no form of `run_command`; a call of its own takes it,
/// `check_command` of `check_form`.
pub fn is_check(words: &[String]) -> bool
    ensures { IsTrue result ↔ IsCheck (map string_bytes words.now) }
{
    is_only(words, "check")
}

/// Runs the script that the source gives, and writes its transcript.
fn run<S: Source, K: Sink>(alloc: Global, src: &mut S, out: &mut K, policies: &Policies) -> Status
    ensures ended { (input : List ℕ) → S.left src.old ≡ Some input
        → HasEnded (by_policies (margins policies.now)) input result (S.left src.new) (K.put_out out.old) (K.put_out out.new) }
    ensures no_read_fault { result ≡ Status.Ok → S.fault_count src.new ≡ S.fault_count src.old }
    ensures no_write_fault { result ≡ Status.Ok → K.fault_count out.new ≡ K.fault_count out.old }
    ensures read_fault { result ≡ Status.ReadFault → Rose (S.fault_count src.old) (S.fault_count src.new) }
    ensures write_fault { result ≡ Status.WriteFault → Rose (K.fault_count out.old) (K.fault_count out.new) }
    ensures others { result ≡ Status.Usage → ⊥ }
{
    match run_script(alloc, src, out, policies) {
        Ok(()) => Status::Ok,
        Err(status) => status,
    }
}

/// Writes what `keys`, `nea2` or `show` shows.
fn write_shown<K: Sink>(alloc: Global, words: &[String], out: &mut K) -> Status
    ensures written { HasShown (map string_bytes words.now) result (K.put_out out.old) (K.put_out out.new) }
    ensures usage { result ≡ Status.Usage → IsNoShown (map string_bytes words.now) }
    ensures no_form { IsNoShown (map string_bytes words.now) → (result ≡ Status.Usage) ⊎ (result ≡ Status.Memory) }
    ensures no_fault { result ≡ Status.Ok → K.fault_count out.new ≡ K.fault_count out.old }
    ensures fault { result ≡ Status.WriteFault → Rose (K.fault_count out.old) (K.fault_count out.new) }
    ensures others { result ≡ Status.ReadFault → ⊥ }
{
    match run_form(alloc, words) {
        Ok(None) => Status::Usage,
        Ok(Some(text)) => match out.write_all(text.as_slice()) {
            Ok(()) => Status::Ok,
            Err(_) => Status::WriteFault,
        },
        Err(_) => Status::Memory,
    }
}

/// Writes what one of the forms that read nothing does.
fn write_form<K: Sink>(alloc: Global, words: &[String], out: &mut K, policies: &Policies) -> Status
    ensures written { HasWritten (by_policies (margins policies.now)) (map string_bytes words.now) result (K.put_out out.old) (K.put_out out.new) }
    ensures usage { result ≡ Status.Usage → IsNoOther (map string_bytes words.now) }
    ensures no_form { IsNoOther (map string_bytes words.now) → (result ≡ Status.Usage) ⊎ (result ≡ Status.Memory) }
    ensures no_fault { result ≡ Status.Ok → K.fault_count out.new ≡ K.fault_count out.old }
    ensures fault { result ≡ Status.WriteFault → Rose (K.fault_count out.old) (K.fault_count out.new) }
    ensures others { result ≡ Status.ReadFault → ⊥ }
{
    match read_form(words) {
        Some(form) => made_command(alloc, form, out, policies),
        None => write_shown(alloc, words, out),
    }
}

/// The top call: runs the program on the words of its command line, without its name, and answers the status that it
/// ends with. `run` reads a script from `src` and writes the transcript to `out`; its bearers name the stored policies by
/// their numbers. `make`, `soak`, `keys`, `nea2` and `show` write what their words say, and read nothing. Any other words are
/// `Usage`. A fault text goes to `err`, whose faults change nothing.
pub fn run_command<S: Source, K: Sink, E: Sink>(
    alloc: Global,
    words: &[String],
    src: &mut S,
    out: &mut K,
    err: &mut E,
    policies: &Policies,
) -> Status
    // A run: what was written, where source and sink tell their octets. The run theorem stands here.
    ensures ended { IsRun (map string_bytes words.now) → (input : List ℕ) → S.left src.old ≡ Some input
        → HasEnded (by_policies (margins policies.now)) input result (S.left src.new) (K.put_out out.old) (K.put_out out.new) }

    // Another form, or none: what was written, and that nothing was read.
    ensures written { (IsRun (map string_bytes words.now) → ⊥)
        → HasWritten (by_policies (margins policies.now)) (map string_bytes words.now) result (K.put_out out.old) (K.put_out out.new) }
    ensures unread { (IsRun (map string_bytes words.now) → ⊥) → src.new ≡ src.old }

    // With Ok no read and no write failed.
    ensures no_read_fault { result ≡ Status.Ok → S.fault_count src.new ≡ S.fault_count src.old }
    ensures no_write_fault { result ≡ Status.Ok → K.fault_count out.new ≡ K.fault_count out.old }

    // When the answers other than Ok come.
    ensures usage { result ≡ Status.Usage → (IsRun (map string_bytes words.now) → ⊥) × IsNoOther (map string_bytes words.now) }
    ensures no_form { (IsRun (map string_bytes words.now) → ⊥) → IsNoOther (map string_bytes words.now)
        → (result ≡ Status.Usage) ⊎ (result ≡ Status.Memory) }
    ensures read_fault { result ≡ Status.ReadFault → Rose (S.fault_count src.old) (S.fault_count src.new) }
    ensures write_fault { result ≡ Status.WriteFault → Rose (K.fault_count out.old) (K.fault_count out.new) }

    // Where the answer is Ok, `err` is as before.
    ensures quiet { result ≡ Status.Ok → err.new ≡ err.old }
{
    let status = if is_run(words) {
        run(alloc, src, out, policies)
    } else {
        write_form(alloc, words, out, policies)
    };
    write_fault(alloc, status, err);
    status
}
