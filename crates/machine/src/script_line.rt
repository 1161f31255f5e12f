//! What one line of a step script says.

ghost use Rattle.std.specs.Prelude.{◌≡◌};
ghost use Rattle.texts.specs.Reading.{SaysOption};
ghost use Rattle.machine.specs.ScriptLine.{own_of, transaction_of, script_line_of, own_step, transaction_step};
ghost use Rattle.machine.specs.ScriptLine.{SaysScriptLine};

use crate::step::{Step, Transaction};
use common::{Addr, CoreId};
use program::Name;
use texts::{Number, decimal, space_in};

/// The kind of a step that a core takes alone.
#[derive(Clone, Copy)]
pub enum CoreStep {
    Exec,
    Drain,
}

/// What a line says, with its core and its name not yet looked up.
#[derive(Clone, Copy)]
pub enum ParsedLine {
    CoreStep(CoreStep, Number),
    Transaction(Transaction, Number, Name),
}

#[tactic(auto, unfolding(crate::specs::ScriptLine::own_of))]
fn own_of(own: CoreStep, rest: &[u8]) -> Option<ParsedLine>
    ensures { SaysOption SaysScriptLine result (own_of own rest.now) }
{
    let core = decimal(rest)?;
    Some(ParsedLine::CoreStep(own, core))
}

#[tactic(auto, unfolding(crate::specs::ScriptLine::transaction_of))]
fn transaction_of(kind: Transaction, rest: &[u8]) -> Option<ParsedLine>
    ensures { SaysOption SaysScriptLine result (transaction_of kind rest.now) }
{
    let at = space_in(rest)?;
    let core = decimal(&rest[..at])?;
    let name = Name::new(&rest[at + 1..])?;
    Some(ParsedLine::Transaction(kind, core, name))
}

/// What the line says, if it is in the grammar.
#[tactic(auto, unfolding(crate::specs::ScriptLine::script_line_of))]
pub fn script_line_of(line: &[u8]) -> Option<ParsedLine>
    ensures { SaysOption SaysScriptLine result (script_line_of line.now) }
{
    if let Some(rest) = line.strip_prefix(b"exec ".as_slice()) {
        return own_of(CoreStep::Exec, rest);
    }
    if let Some(rest) = line.strip_prefix(b"drain ".as_slice()) {
        return own_of(CoreStep::Drain, rest);
    }
    if let Some(rest) = line.strip_prefix(b"gets ".as_slice()) {
        return transaction_of(Transaction::GetS, rest);
    }
    if let Some(rest) = line.strip_prefix(b"getm ".as_slice()) {
        return transaction_of(Transaction::GetM, rest);
    }
    match line.strip_prefix(b"put ".as_slice()) {
        Some(rest) => transaction_of(Transaction::Put, rest),
        None => None,
    }
}

/// The step of this kind that the core takes.
pub fn own_step(own: CoreStep, core: CoreId) -> Step
    ensures { result ≡ own_step own core }
{
    match own {
        CoreStep::Exec => Step::Exec(core),
        CoreStep::Drain => Step::Drain(core),
    }
}

/// The transaction of this kind of the core at the address.
pub fn transaction_step(kind: Transaction, core: CoreId, addr: Addr) -> Step
    ensures { result ≡ transaction_step kind core addr }
{
    match kind {
        Transaction::GetS => Step::GetS(core, addr),
        Transaction::GetM => Step::GetM(core, addr),
        Transaction::Put => Step::Put(core, addr),
    }
}
