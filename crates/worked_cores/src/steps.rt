//! A step of a table: what is given to a core, and what is wanted of it.

ghost use Rattle.std.specs.Prelude.{◌≡◌, ◌↔◌, ◌∷◌, IfOk, IsTrue};
ghost use Rattle.dc_base.specs.declared.events.Line.TheVariants as line;
ghost use Rattle.transcript.specs.Text.{lines_text};

use crate::asking::{read_question, reply_line};
use crate::cores::Cores;
use crate::sent::Sent;
use dc_base::{Answer, Event, Line, Memory, Node, Octets};
use dc_network::lines_of;
use node_rules::Input;
use script_text::{LineFault, Scripted, read_line, write_lines};
use split_leg::Policies;
use std::alloc::Global;

/// The most octets of a line of a script.
pub(crate) const MOST_OCTETS: usize = 20_000;

/// The node of this letter.
fn node_of(letter: &str) -> Option<Node> {
    match letter {
        "t" => Some(Node::T),
        "m" => Some(Node::M),
        "a" => Some(Node::A),
        "b" => Some(Node::B),
        _ => None,
    }
}

/// The input that an event is: `step` names the flight that comes, and any other event is given as it is. `None` where no such
/// flight was sent.
fn input_of(event: Event, sent: &Sent) -> Result<Option<Input>, Memory> {
    match event {
        Event::Step { link, index } => match sent.flight(link, index) {
            Some(flight) => Ok(Some(Input::Come(link, flight.copy()?))),
            None => Ok(None),
        },
        _ => Ok(Some(Input::Cmd(event))),
    }
}

/// The input that a line says; `None` where it says none.
fn read_input(alloc: Global, line: &str, sent: &Sent) -> Result<Option<Input>, Memory> {
    if line.len() > MOST_OCTETS {
        return Ok(None);
    }
    match read_line(alloc, line.as_bytes()) {
        Ok(Scripted::One(event)) => input_of(event, sent),
        Ok(Scripted::Drain) => Ok(None),
        Err(LineFault::Column(_)) => Ok(None),
        Err(LineFault::Memory) => Err(Memory),
    }
}

/// The node and the input of a step, from its first line; `None` where that says none.
fn read_step(alloc: Global, first: &str, sent: &Sent) -> Result<Option<(Node, Input)>, Memory> {
    let Some((letter, line)) = first.split_once(' ') else {
        return Ok(None);
    };
    match (node_of(letter), read_input(alloc, line, sent)?) {
        (Some(node), Some(input)) => Ok(Some((node, input))),
        _ => Ok(None),
    }
}

/// Whether the text is that of this answer and these lines.
fn is_wanted(alloc: Global, answer: Answer, lines: &[Line], wanted: &str) -> Result<bool, Memory>
    ensures { IfOk result (λ is_so. IsTrue is_so ↔ (lines_text (line.Answer answer ∷ lines.now) ≡ wanted.now)) }
{
    let mut text = Octets::new(alloc);
    write_lines(&mut text, &[Line::Answer(answer)])?;
    write_lines(&mut text, lines)?;
    Ok(text.as_slice() == wanted.as_bytes())
}

/// Asks a core what a step asks. The node, and whether it says what is wanted; `None` where the first line asks nothing.
fn ask(
    alloc: Global,
    cores: &Cores,
    first: &str,
    wanted: &str,
) -> Result<Option<(Node, bool)>, Memory> {
    let Some((letter, line)) = first.split_once(' ') else {
        return Ok(None);
    };
    match (node_of(letter), read_question(line)) {
        (Some(node), Some(question)) => {
            let reply = reply_line(alloc, cores.reply(node, question))?;
            Ok(Some((node, reply.as_str() == wanted)))
        }
        _ => Ok(None),
    }
}

/// Gives a core the input of a step, and puts what it sends on the links, or asks it what the step asks. The node, and whether
/// it did what is wanted; `None` where the text is no step.
pub(crate) fn take_step(
    alloc: Global,
    cores: &mut Cores,
    sent: &mut Sent,
    policies: &Policies,
    text: &str,
) -> Result<Option<(Node, bool)>, Memory> {
    let Some((first, wanted)) = text.split_once('\n') else {
        return Ok(None);
    };
    let Some((node, input)) = read_step(alloc, first, sent)? else {
        return ask(alloc, cores, first, wanted);
    };
    let outcome = cores.step(node, input, policies)?;
    let answer = outcome.answer;
    let lines = lines_of(alloc, outcome)?;
    let is_as_wanted = is_wanted(alloc, answer, lines.as_slice(), wanted)?;
    sent.put(lines)?;
    Ok(Some((node, is_as_wanted)))
}
