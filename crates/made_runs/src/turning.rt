//! The turns of a made script: each one's event is written, and happens.

ghost use Rattle.std.specs.Prelude.{◌≡◌, ◌++◌, IsErrOf, OnOk};
ghost use Rattle.split_leg.specs.Stored.{margins};
ghost use Rattle.node_rules.specs.Choices.{by_policies};
ghost use Rattle.dc_network.specs.Counting.{IsWithin};
ghost use Rattle.made_scripts.specs.Scripts.{as_list, turns_from};
ghost use Rattle.made_scripts.specs.Turns.{turn_of};
ghost use Rattle.made_runs.specs.Made.{event_lines};
ghost use Rattle.made_runs.specs.Running.{HasRun, PassesLimit};

use crate::halt::Halt;
use crate::running::MadeRun;
use dc_base::Octets;
use made_scripts::Draws;
use made_turns::turn_event;
use script_text::write_event;
use split_leg::Policies;
use std::alloc::Global;

/// The turn of this number: its event, if it has one, is written as a line, and happens.
fn run_turn(
    alloc: Global,
    run: &mut MadeRun,
    draws: &mut Draws,
    number: u32,
    policies: &Policies,
    text: &mut Octets,
) -> Result<(), Halt>
    requires { IsWithin run.old.counting.counts }
    ensures ran { OnOk result (HasRun (by_policies (margins policies.now)) run.old
        (as_list (turn_of run.old.counting.world number draws.old).event) run.new) }
    ensures drawn { OnOk result (draws.new ≡ (turn_of run.old.counting.world number draws.old).draws) }
    ensures written { OnOk result (text.new ≡ text.old ++ event_lines (as_list (turn_of run.old.counting.world number draws.old).event)) }
    ensures past { IsErrOf result Halt.TooLong → PassesLimit (by_policies (margins policies.now)) run.old
        (as_list (turn_of run.old.counting.world number draws.old).event) }
{
    let Some(event) = turn_event(alloc, run.network(), draws, number)? else {
        return Ok(());
    };
    write_event(text, &event)?;
    text.push(b'\n')?;
    run.event(event, policies)
}

/// So many turns, from the first, with the draws that a seed gives.
pub(crate) fn run_turns(
    alloc: Global,
    run: &mut MadeRun,
    seed: u64,
    turns: u32,
    policies: &Policies,
    text: &mut Octets,
) -> Result<(), Halt>
    requires { IsWithin run.old.counting.counts }
    ensures ran { OnOk result (HasRun (by_policies (margins policies.now)) run.old
        (turns_from (by_policies (margins policies.now)) run.old.counting.world 0 seed turns) run.new) }
    ensures written { OnOk result (text.new ≡ text.old ++ event_lines
        (turns_from (by_policies (margins policies.now)) run.old.counting.world 0 seed turns)) }
    ensures past { IsErrOf result Halt.TooLong → PassesLimit (by_policies (margins policies.now)) run.old
        (turns_from (by_policies (margins policies.now)) run.old.counting.world 0 seed turns) }
{
    let mut draws = Draws::new(seed);
    for number in 0..turns {
        run_turn(alloc, run, &mut draws, number, policies, text)?;
    }
    Ok(())
}
