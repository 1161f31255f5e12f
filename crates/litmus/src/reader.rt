//! What was read of a text so far, with the initial values.

ghost use Rattle.std.specs.Prelude.{◌≡◌};

use crate::builder::Builder;
use crate::line::{ParsedLine, parsed_line};
use crate::line_refusal::{LineRefusal, LitmusError};
use common::OutOfMemory;
use program::{Name, Program};
use std::alloc::Global;
use texts::{Number, ReadLines};

/// The names, the operations, and the initial values up to that of the last `init` line.
pub struct Reader {
    pub builder: Builder,
    pub init: Vec<u32>,
    alloc: Global,
}

impl Drop for Reader {
    fn drop(self) {
        let Reader {
            builder: _,
            init: _,
            alloc: _,
        } = self;
    }
}

impl Reader {
    ghost use Rattle.std.specs.Prelude.{◌≡◌, ◌≤◌, ◌++◌, ◌∷◌, [], ℕ, IfOk, OnOk, length};
    ghost use Rattle.litmus.specs.Built.{draft, state};
    ghost use Rattle.litmus.specs.Drafts.{drafted_program, filled, init_step, plain};
    ghost use Rattle.texts.specs.Decimals.{IsValue};
    ghost use Rattle.program.specs.Parts.{IsProgram};
    ghost use Rattle.texts.specs.Reading.{AnswersLine, seen_as};

    /// These names and operations, without an `init` line.
    pub fn of(alloc: Global, builder: Builder) -> Reader
        ensures { draft result ≡ plain (state builder) }
    {
        Reader {
            builder,
            init: Vec::new(alloc),
            alloc,
        }
    }

    // Adds the initial value of an address that is above those so far.
    fn begin_with(&mut self, addr: usize, value: u32) -> Result<(), OutOfMemory>
        requires { length self.old.init.items ≤ addr }
        ensures init { OnOk result (self.new.init.items ≡ filled addr self.old.init.items ++ value ∷ []) }
        ensures builder { self.new.builder ≡ self.old.builder }
    {
        self.init.resize(addr, 0)?;
        self.init.push(value)?;
        Ok(())
    }

    // The value's size is tested before its name, and that it is 0 at last.
    #[tactic(auto, unfolding(crate::specs::Drafts::init_step))]
    fn init(&mut self, name: Name, value: Number, number: usize) -> Result<(), LitmusError>
        ensures { (n : ℕ) → IsValue value n →
            AnswersLine (seen_as result (λ _. draft self.new)) number
            (init_step (draft self.old) name n) }
    {
        let Number::Value(value) = value else {
            return Err(LitmusError::AtLine(LineRefusal::L5, number));
        };
        let Some(addr) = self.builder.names.get_index_of(&name) else {
            return Err(LitmusError::AtLine(LineRefusal::L6, number));
        };
        if addr < self.init.len() {
            return Err(LitmusError::AtLine(LineRefusal::L7, number));
        }
        if value == 0 {
            return Err(LitmusError::AtLine(LineRefusal::L8, number));
        }
        self.begin_with(addr, value)?;
        Ok(())
    }

    /// The program of what was read; an address without an `init` line begins with 0. Fails
    /// only if out of memory.
    pub fn finish(self) -> Result<Program, OutOfMemory>
        requires { IsProgram (drafted_program (draft self)) }
        ensures { IfOk result (λ p. p ≡ drafted_program (draft self)) }
    {
        let Reader {
            builder,
            mut init,
            alloc: _,
        } = self;
        init.resize(builder.names.len(), 0)?;
        Ok(Program::of_lawful(builder.names, builder.cores, init))
    }
}

impl ReadLines for Reader {
    ghost use Rattle.std.specs.Prelude.{⊤};
    ghost use Rattle.litmus.specs.Drafts.{Draft, step};
    ghost use Rattle.litmus.specs.Built.{draft};

    type Refusal = LineRefusal;

    ghost Subject = { ⊤ };

    ghost subject = { λ _. tt };

    ghost State = { Draft };

    ghost state = { draft };

    ghost step = { λ _. step };

    fn take_line(&mut self, line: &[u8], number: usize) -> Result<(), LitmusError> {
        let said = parsed_line(line);
        if !self.init.is_empty() && !matches!(said, Some(ParsedLine::Init(_, _))) {
            return Err(LitmusError::AtLine(LineRefusal::L1, number));
        }
        match said {
            None => Err(LitmusError::AtLine(LineRefusal::L1, number)),
            Some(ParsedLine::Core) => self.builder.begin_core(self.alloc, number),
            Some(ParsedLine::Fence) => self.builder.fence(number),
            Some(ParsedLine::Load(name)) => self.builder.load(name, number),
            Some(ParsedLine::Write(write, name, value)) => {
                self.builder.write(write, name, value, number)
            }
            Some(ParsedLine::Compare(name, expected, value)) => {
                self.builder.compare(name, expected, value, number)
            }
            Some(ParsedLine::Init(name, value)) => self.init(name, value, number),
        }
    }
}
