//! The forms `make` and `soak`.

ghost use Rattle.std.specs.Prelude.{◌≡◌, IfErr, IfOk, IsErrOf, OnOk};
ghost use Rattle.dc_base.specs.declared.answers.Status.{Status};
ghost use Rattle.dc_outside.specs.Faults.{Rose};
ghost use Rattle.split_leg.specs.Stored.{margins};
ghost use Rattle.node_rules.specs.Choices.{by_policies};
ghost use Rattle.made_runs.specs.Written.{HasMade, IsLimited, made_of};

use crate::halt::Halt;
use crate::making::{make_script, sum_up};
use dc_base::{Octets, Status};
use dc_outside::Sink;
use made_scripts::{MadeForm, Purpose};
use split_leg::Policies;
use std::alloc::Global;

/// What a form writes.
fn text_of(alloc: Global, form: MadeForm, policies: &Policies) -> Result<Octets, Halt>
    ensures text { IfOk result (λ text. text ≡ made_of (by_policies (margins policies.now)) form) }
    ensures within { OnOk result (IsLimited (by_policies (margins policies.now)) form) }
    ensures past { IsErrOf result Halt.TooLong → IsLimited (by_policies (margins policies.now)) form → ⊥ }
{
    match form.purpose {
        Purpose::Make => make_script(alloc, form.seed, form.turns, policies),
        Purpose::Soak => sum_up(alloc, form.seed, form.turns, policies),
    }
}

/// Writes to `out` what a form makes: the script of `make`, or what the run of that script comes to, of `soak`. Nothing is
/// written before all of it is made.
pub fn made_command<K: Sink>(
    alloc: Global,
    form: MadeForm,
    out: &mut K,
    policies: &Policies,
) -> Status
    ensures made { HasMade (by_policies (margins policies.now)) form result (K.put_out out.old) (K.put_out out.new) }
    ensures no_fault { result ≡ Status.Ok → K.fault_count out.new ≡ K.fault_count out.old }
    ensures fault { result ≡ Status.WriteFault → Rose (K.fault_count out.old) (K.fault_count out.new) }
{
    match text_of(alloc, form, policies) {
        Ok(text) => match out.write_all(text.as_slice()) {
            Ok(()) => Status::Ok,
            Err(_) => Status::WriteFault,
        },
        Err(Halt::TooLong) => Status::TooLong,
        Err(Halt::Memory) => Status::Memory,
    }
}
