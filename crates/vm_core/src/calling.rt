// Units that are called, and how a unit is left.
ghost use Rattle.std.specs.Prelude.{◌≡◌, ◌+◌, ◌^◌, ◌<◌, [], ◌∷◌, replicate, OnOk};
ghost use Rattle.std.specs.Option.{option_copied};
ghost use Rattle.eng_value.specs.Causes.{is_skip, only};
ghost use Rattle.eng_value.specs.declared.cause.Cause.TheVariants.{Mismatch};
ghost use Rattle.eng_value.specs.declared.out.Out.TheVariants.{Good};
ghost use Rattle.eng_value.specs.declared.value.Value.TheVariants.{Null};
ghost use Rattle.vm_code.specs.Machine.{Closed, End, Finished, called, given_up, inputs_with, is_integer, leads_to, leaving_of, no_store, outs_from, read as read_of, returned, skip_if, unit_at};
ghost use Rattle.vm_core.specs.Events.{Acts, StopsOrActs};

use crate::Event;
use crate::cursor::closed;
use crate::pace::Pace;
use crate::running::Running;
use eng_value::{Cause, Causes, Out, Value};
use std::alloc::{AllocError, Global};
use std::mem;
use vm_code::{Program, Unit};
use vm_store::{Frame, Registers, Sorters};

impl Running {
    /// Runs a unit in a new frame, with so many registers as its arguments; its results go to the registers from one on. A unit that
    /// is not there leaves NULL.
    #[inline(never)]
    pub fn call(
        &mut self,
        alloc: Global,
        program: &Program,
        unit: u32,
        first: u32,
        count: u32,
        to: u32,
    ) -> Result<Pace, AllocError>
        requires { self.old.pc + 1 < 2 ^ 64 }
        ensures { Acts result self.old self.new (λ s. called (unit_at program.now unit) s unit (outs_from s.regs first count) to) }
    {
        match unit_at(program, unit) {
            None => {
                self.put(to, Out::Good(Value::Null));
                Ok(Pace::Going)
            }
            Some(callee) => {
                let args = self.registers.range(alloc, first, count)?;
                self.enter(alloc, unit, callee, args, to)?;
                Ok(Pace::Going)
            }
        }
    }

    /// Puts the frame that runs behind those that wait, and goes to the start of a unit.
    fn enter(
        &mut self,
        alloc: Global,
        unit: u32,
        callee: &Unit,
        args: Registers,
        to: u32,
    ) -> Result<(), AllocError>
        requires { self.old.pc + 1 < 2 ^ 64 }
        ensures { OnOk result (self.new ≡ record self.old {
          unit = unit;
          pc = 0;
          regs = replicate callee.now.registers (Good Null);
          inputs = inputs_with self.old.inputs args;
          scene = record { cursors = replicate callee.now.cursors Closed; slots = [] };
          store = no_store;
          stack = record {
            unit = self.old.unit;
            pc = self.old.pc + 1;
            regs = self.old.regs;
            inputs = self.old.inputs;
            scene = self.old.scene;
            store = self.old.store;
            to = to;
          } ∷ self.old.stack;
        }) }
    {
        let registers = Registers::nulls(alloc, callee.registers)?;
        let cursors = closed(alloc, callee.cursors)?;
        let frame = Frame {
            unit: self.unit,
            pc: self.pc + 1,
            registers: mem::replace(&mut self.registers, registers),
            args: mem::replace(&mut self.args, args),
            cursors: mem::replace(&mut self.cursors, cursors),
            sorters: mem::replace(&mut self.sorters, Sorters::new(alloc)),
            to,
        };
        self.frames.push(frame)?;
        self.unit = unit;
        self.pc = 0;
        Ok(())
    }

    /// Leaves the unit with so many registers as its results. Where no frame waits the run is at its end.
    #[inline(never)]
    pub fn ret(&mut self, first: u32, count: u32, event: &mut Event) -> Result<Pace, AllocError>
        ensures { StopsOrActs result event.new self.old self.new (λ s. returned s.stack s.shared (outs_from s.regs first count)) }
    {
        match self.frames.pop() {
            None => {
                *event = Event::Done;
                Ok(Pace::Stopping)
            }
            Some(mut frame) => {
                frame.receive(&mut self.registers, first, count);
                self.resume(frame);
                Ok(Pace::Going)
            }
        }
    }

    /// Goes on with a frame that waited.
    fn resume(&mut self, frame: Frame)
        ensures { self.new ≡ record self.old {
          unit = frame.unit;
          pc = frame.pc;
          regs = frame.regs;
          inputs = frame.inputs;
          scene = frame.scene;
          store = frame.store;
        } }
    {
        let Frame {
            unit,
            pc,
            registers,
            args,
            cursors,
            sorters,
            to: _,
        } = frame;
        self.unit = unit;
        self.pc = pc;
        self.registers = registers;
        self.args = args;
        self.cursors = cursors;
        self.sorters = sorters;
    }

    /// Ends the run.
    #[inline(never)]
    pub fn finish(&self, event: &mut Event) -> Result<Pace, AllocError>
        ensures { StopsOrActs result event.new self.now self.now (λ s. End Finished s.shared) }
    {
        *event = Event::Done;
        Ok(Pace::Stopping)
    }

    /// Gives up with the causes of a register, where it has some; else ends the run.
    #[inline(never)]
    pub fn halt(&mut self, register: u32, event: &mut Event) -> Result<Pace, AllocError>
        ensures { StopsOrActs result event.new self.old self.new (λ s. leads_to (leaving_of (read_of s.regs register)) s.stack s.shared) }
    {
        match self.registers.take(register) {
            Out::Good(_) => {
                *event = Event::Done;
                Ok(Pace::Stopping)
            }
            Out::Bad(causes) => self.give_up(causes, event),
        }
    }

    /// Goes on where a register holds an integer; else gives up.
    #[inline(never)]
    pub fn must_be_int(
        &mut self,
        alloc: Global,
        register: u32,
        event: &mut Event,
    ) -> Result<Pace, AllocError>
        requires { self.old.pc + 1 < 2 ^ 64 }
        ensures { StopsOrActs result event.new self.old self.new (λ s. skip_if (is_integer (read_of s.regs register)) s (only Mismatch)) }
    {
        if self.holds_integer(register) {
            self.go_on();
            return Ok(Pace::Going);
        }
        self.give_up(Causes::one(alloc, Cause::Mismatch), event)
    }

    /// Leaves the unit for causes. Where they say no more than that the row is left, it answers 1 to the frame that waits; else the run
    /// fails, for those that may be named.
    pub fn give_up(&mut self, causes: Causes, event: &mut Event) -> Result<Pace, AllocError>
        ensures { StopsOrActs result event.new self.old self.new (λ s. given_up s.stack s.shared causes) }
    {
        if is_skip(&causes) {
            if let Some(mut frame) = self.frames.pop() {
                frame.receive_integer(1);
                self.resume(frame);
                return Ok(Pace::Going);
            }
        }
        *event = Event::Bad(causes.named());
        Ok(Pace::Stopping)
    }
}

/// A unit of a program: the main unit is number 0, and a number that got no unit has none.
pub(crate) fn unit_at(program: &Program, number: u32) -> Option<&Unit>
    ensures { option_copied result ≡ unit_at program.now number }
{
    match number.checked_sub(1) {
        None => Some(&program.main),
        Some(behind) => match program.units.get(behind as usize) {
            Some(Some(unit)) => Some(unit),
            _ => None,
        },
    }
}

/// Whether causes say no more than that the row is left.
fn is_skip(causes: &Causes) -> bool
    ensures { result ≡ is_skip causes.now }
{
    causes.contains(&Cause::Skip) && causes.count() == 1
}
