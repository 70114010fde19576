//! A script, run line by line.

ghost use Rattle.std.specs.Prelude.{◌≡◌, ℕ, List, Some, IfErr, IsErrOf, MatchResult, OnOk, Option};
ghost use Rattle.dc_base.specs.declared.answers.Status.{Status};
ghost use Rattle.dc_outside.specs.Faults.{Rose};
ghost use Rattle.split_leg.specs.Stored.{margins};
ghost use Rattle.node_rules.specs.Choices.{by_policies};
ghost use Rattle.dc_network.specs.Counting.{IsWithin};
ghost use Rattle.dc_text.specs.Lines.{input};
ghost use Rattle.dc_top.specs.Ended.{HasEnded};
ghost use Rattle.dc_top.specs.SoFar.{IsAfterLines};

use crate::reading::{take_header, take_line};
use crate::stepping::run_line;
use crate::writing::write_first;
use counted_network::CountedNetwork;
use dc_base::{Header, Octets, Status};
use dc_outside::{Sink, Source};
use dc_text::LineReader;
use split_leg::Policies;
use std::alloc::Global;

/// Runs the script that a source gives, and writes its transcript. Each line is judged once the texts of the lines
/// before it are written.
pub fn run_script<S: Source, K: Sink>(
    alloc: Global,
    src: &mut S,
    out: &mut K,
    policies: &Policies,
) -> Result<(), Status>
    ensures ended { (input : List ℕ) → S.left src.old ≡ Some input → MatchResult result
        (λ _. HasEnded (by_policies (margins policies.now)) input Status.Ok (S.left src.new) (K.put_out out.old) (K.put_out out.new))
        (λ s. HasEnded (by_policies (margins policies.now)) input s (S.left src.new) (K.put_out out.old) (K.put_out out.new)) }
    ensures no_read_fault { OnOk result (S.fault_count src.new ≡ S.fault_count src.old) }
    ensures no_write_fault { OnOk result (K.fault_count out.new ≡ K.fault_count out.old) }
    ensures read_fault { IsErrOf result Status.ReadFault → Rose (S.fault_count src.old) (S.fault_count src.new) }
    ensures write_fault { IsErrOf result Status.WriteFault → Rose (K.fault_count out.old) (K.fault_count out.new) }
    ensures not_usage { IfErr result (λ s. s ≡ Status.Usage → ⊥) }
    ensures not_ok { IfErr result (λ s. s ≡ Status.Ok → ⊥) }
{
    let mut reader = LineReader::new(alloc);
    let header = take_header(&mut reader, src)?;
    let mut text = Octets::new(alloc);
    write_first(&mut text, &header, out)?;
    let Ok(mut network) = CountedNetwork::new(alloc, &header) else {
        return Err(Status::Memory);
    };
    run_lines(
        alloc,
        &mut reader,
        &mut network,
        src,
        policies,
        &mut text,
        out,
    )
}

/// Runs the lines after the header, until the source is at its end.
fn run_lines<S: Source, K: Sink>(
    alloc: Global,
    reader: &mut LineReader,
    network: &mut CountedNetwork,
    src: &mut S,
    policies: &Policies,
    text: &mut Octets,
    out: &mut K,
) -> Result<(), Status>
    requires { IsWithin network.old.counts }
    ensures ended { (all before : Option (List ℕ)) → IsAfterLines (by_policies (margins policies.now)) network.old 2 reader.old.passed reader.old.ended
        all (input reader.old (S.left src.old)) before (K.put_out out.old) → (octets : List ℕ) → all ≡ Some octets → MatchResult result
        (λ _. HasEnded (by_policies (margins policies.now)) octets Status.Ok (S.left src.new) before (K.put_out out.new))
        (λ s. HasEnded (by_policies (margins policies.now)) octets s (S.left src.new) before (K.put_out out.new)) }
    ensures no_read_fault { OnOk result (S.fault_count src.new ≡ S.fault_count src.old) }
    ensures no_write_fault { OnOk result (K.fault_count out.new ≡ K.fault_count out.old) }
    ensures read_fault { IsErrOf result Status.ReadFault → Rose (S.fault_count src.old) (S.fault_count src.new) }
    ensures write_fault { IsErrOf result Status.WriteFault → Rose (K.fault_count out.old) (K.fault_count out.new) }
    ensures not_usage { IfErr result (λ s. s ≡ Status.Usage → ⊥) }
    ensures not_ok { IfErr result (λ s. s ≡ Status.Ok → ⊥) }
{
    for number in 2..u32::MAX {
        let Some(line) = take_line(alloc, reader, src, number)? else {
            return Ok(());
        };
        run_line(network, line, policies, text, out)?;
    }
    Err(Status::TooLong)
}
