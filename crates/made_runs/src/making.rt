//! A made script, written, and its run, summed up.

ghost use Rattle.std.specs.Prelude.{◌≡◌, ◌++◌, IfOk, IsErrOf, OnOk};
ghost use Rattle.split_leg.specs.Stored.{margins};
ghost use Rattle.node_rules.specs.Choices.{by_policies};
ghost use Rattle.made_scripts.specs.Scripts.{opened, turns_from};
ghost use Rattle.made_runs.specs.Made.{IsMakeable, IsSummable, event_lines, made_summary, made_text, turned};
ghost use Rattle.made_runs.specs.Running.{HasRun, PassesLimit, run_start};

use crate::halt::Halt;
use crate::running::MadeRun;
use crate::turning::run_turns;
use crate::writing::write_lines;
use dc_base::Octets;
use made_scripts::{closing, made_header, opening};
use script_text::write_first;
use split_leg::Policies;
use std::alloc::Global;

/// The most octets of a script: 16 MiB.
const MAX_SCRIPT: usize = 16_777_216;

/// Runs a made script up to its last turn, and writes the lines of the turns.
fn run_to_closing(
    alloc: Global,
    run: &mut MadeRun,
    seed: u64,
    turns: u32,
    policies: &Policies,
    text: &mut Octets,
) -> Result<(), Halt>
    requires { run.old ≡ run_start }
    ensures ran { OnOk result (HasRun (by_policies (margins policies.now)) run_start
        (turned (by_policies (margins policies.now)) seed turns) run.new) }
    ensures written { OnOk result (text.new ≡ text.old ++ event_lines (turns_from (by_policies (margins policies.now))
        (opened (by_policies (margins policies.now))) 0 seed turns)) }
    ensures past { IsErrOf result Halt.TooLong → PassesLimit (by_policies (margins policies.now)) run_start
        (turned (by_policies (margins policies.now)) seed turns) }
{
    run.lines(&opening(), policies)?;
    run_turns(alloc, run, seed, turns, policies, text)
}

/// The script that is made of a seed and a number of turns. `TooLong` exactly where its run passes a limit of a run up to the
/// last turn, or it has more than 16 MiB.
pub fn make_script(
    alloc: Global,
    seed: u64,
    turns: u32,
    policies: &Policies,
) -> Result<Octets, Halt>
    ensures text { IfOk result (λ text. text ≡ made_text (by_policies (margins policies.now)) seed turns) }
    ensures within { OnOk result (IsMakeable (by_policies (margins policies.now)) seed turns) }
    ensures past { IsErrOf result Halt.TooLong → IsMakeable (by_policies (margins policies.now)) seed turns → ⊥ }
{
    let mut run = MadeRun::new(alloc)?;
    script_of(alloc, &mut run, seed, turns, policies)
}

/// The script, made in this run.
fn script_of(
    alloc: Global,
    run: &mut MadeRun,
    seed: u64,
    turns: u32,
    policies: &Policies,
) -> Result<Octets, Halt>
    requires { run.old ≡ run_start }
    ensures text { IfOk result (λ text. text ≡ made_text (by_policies (margins policies.now)) seed turns) }
    ensures within { OnOk result (IsMakeable (by_policies (margins policies.now)) seed turns) }
    ensures past { IsErrOf result Halt.TooLong → IsMakeable (by_policies (margins policies.now)) seed turns → ⊥ }
{
    let mut text = Octets::new(alloc);
    write_first(&mut text, &made_header())?;
    write_lines(&mut text, &opening())?;
    run_to_closing(alloc, run, seed, turns, policies, &mut text)?;
    write_lines(&mut text, &closing())?;
    if text.len() > MAX_SCRIPT {
        return Err(Halt::TooLong);
    }
    Ok(text)
}

/// What the transcript of a made script comes to. `TooLong` exactly where the run of the script passes a limit of a run.
pub fn sum_up(alloc: Global, seed: u64, turns: u32, policies: &Policies) -> Result<Octets, Halt>
    ensures text { IfOk result (λ text. text ≡ made_summary (by_policies (margins policies.now)) seed turns) }
    ensures within { OnOk result (IsSummable (by_policies (margins policies.now)) seed turns) }
    ensures past { IsErrOf result Halt.TooLong → IsSummable (by_policies (margins policies.now)) seed turns → ⊥ }
{
    let mut run = MadeRun::new(alloc)?;
    summary_of(alloc, &mut run, seed, turns, policies)
}

/// What it comes to in this run.
fn summary_of(
    alloc: Global,
    run: &mut MadeRun,
    seed: u64,
    turns: u32,
    policies: &Policies,
) -> Result<Octets, Halt>
    requires { run.old ≡ run_start }
    ensures text { IfOk result (λ text. text ≡ made_summary (by_policies (margins policies.now)) seed turns) }
    ensures within { OnOk result (IsSummable (by_policies (margins policies.now)) seed turns) }
    ensures past { IsErrOf result Halt.TooLong → IsSummable (by_policies (margins policies.now)) seed turns → ⊥ }
{
    let mut lines = Octets::new(alloc);
    run_to_closing(alloc, run, seed, turns, policies, &mut lines)?;
    run.lines(&closing(), policies)?;
    let mut text = Octets::new(alloc);
    run.write_summary(&mut text)?;
    Ok(text)
}
