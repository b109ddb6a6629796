// Frames that wait.
ghost use Rattle.std.specs.Prelude.{◌≡◌, [], ◌∷◌, MatchOption, OnOk, OnErr};
ghost use Rattle.eng_value.specs.declared.out.Out.TheVariants.{Good};
ghost use Rattle.eng_value.specs.declared.value.Value.TheVariants.{Integer};
ghost use Rattle.vm_code.specs.Machine.{outs_from, put_all};

use crate::{Cursor, Registers, Sorters};
use smallvec::SmallVec;
use std::alloc::{AllocError, Global};
use std::default::MadeWith;
use std::marker::Model;

/// A unit that waits for the results of another, and the first of the registers that they go to. Contracts see the frame of the
/// machine over lists.
#[derive(Drop)]
pub struct Frame {
    pub unit: u32,
    pub pc: usize,
    pub registers: Registers,
    pub args: Registers,
    pub cursors: Vec<Cursor>,
    pub sorters: Sorters,
    pub to: u32,
}

impl Model for Frame {
    ghost use Rattle.std.specs.Prelude.{[]};
    ghost use Rattle.vm_code.specs.Machine.{Frame as MeantFrame};

    ghost Value = { MeantFrame };

    ghost use Rattle.std.specs.Coded.{codes};
    ghost use Rattle.eng_value.specs.contracts.causes.Causes as causes;
    ghost use Rattle.eng_value.specs.contracts.out.Out as out;

    ghost coded = { Prim.hlevel (codes, causes.the_row.coded, out.the_row.coded) };

    ghost view = { λ f.
        record {
          unit = f.unit;
          pc = f.pc;
          regs = f.registers;
          inputs = record { args = f.args; running = [] };
          scene = record { cursors = f.cursors.items; slots = [] };
          store = record { lists = f.sorters; groups = []; rows = [] };
          to = f.to;
        } };
}

impl MadeWith<Global> for Frame {
    fn made_with(alloc: Global) -> Frame {
        Frame {
            unit: 0,
            pc: 0,
            registers: Registers::empty(alloc),
            args: Registers::empty(alloc),
            cursors: Vec::new(alloc),
            sorters: Sorters::new(alloc),
            to: 0,
        }
    }
}

impl Frame {
    /// Takes the results of the unit that was called: what `count` of its registers hold, from `first` on. Takes no memory.
    pub fn receive(&mut self, results: &mut Registers, first: u32, count: u32)
        ensures { self.new ≡ record self.old { regs = put_all self.old.regs self.old.to (outs_from results.old first count) } }
    {
        self.registers.receive(self.to, results, first, count);
    }

    /// Takes an integer as the only result.
    pub fn receive_integer(&mut self, n: i64)
        ensures { self.new ≡ record self.old { regs = put_all self.old.regs self.old.to (Good (Integer n) ∷ []) } }
    {
        self.registers.write_integer(self.to, n);
    }
}

/// The frames that wait. The first takes no memory of its own. Contracts see the list of them, the last called first.
#[derive(Drop)]
pub struct Frames {
    frames: SmallVec<Frame, 1>,
}

impl Model for Frames {
    ghost use Rattle.std.specs.Prelude.{List, reverse};
    ghost use Rattle.vm_code.specs.Machine.{Frame as MeantFrame};

    ghost Value = { List MeantFrame };

    ghost use Rattle.std.specs.Coded.{codes};
    ghost use Rattle.eng_value.specs.contracts.causes.Causes as causes;
    ghost use Rattle.eng_value.specs.contracts.out.Out as out;

    ghost coded = { Prim.hlevel (codes, causes.the_row.coded, out.the_row.coded) };

    ghost view = { λ f. reverse f.frames.items };
}

impl Frames {
    /// None.
    pub fn new(alloc: Global) -> Frames
        ensures { result ≡ [] }
    {
        Frames {
            frames: SmallVec::new(alloc),
        }
    }

    /// One more, which was called last.
    pub fn push(&mut self, frame: Frame) -> Result<(), AllocError>
        ensures ok { OnOk result (self.new ≡ frame ∷ self.old) }
        ensures err { OnErr result (self.new ≡ self.old) }
    {
        self.frames.reserve(1)?;
        self.frames.push_reserved(frame);
        Ok(())
    }

    /// Takes out the one that was called last, if there is one.
    pub fn pop(&mut self) -> Option<Frame>
        ensures { MatchOption result ((self.old ≡ []) × (self.new ≡ [])) (λ frame. self.old ≡ frame ∷ self.new) }
    {
        self.frames.pop()
    }
}
