// Operands.
ghost use Rattle.std.specs.Prelude.{◌≡◌, IfOk};

use eng_value::Out;
use std::alloc::{AllocError, Global};
use std::marker::Model;
use std::rc::Rc;

/// What is always the same. Copies share it, so that an instruction holds no more than where it stands.
#[derive(Drop)]
pub struct Constant {
    out: Rc<Out>,
}

impl Model for Constant {
    ghost use Rattle.eng_value.specs.declared.out.Out.{Out as MeantOut};

    ghost Value = { MeantOut };

    ghost use Rattle.std.specs.Coded.{codes};
    ghost use Rattle.eng_value.specs.contracts.out.Out as contracts;

    ghost coded = { Prim.hlevel (codes, contracts.the_row.coded) };

    ghost view = { λ c. c.out.value };
}

impl Clone for Constant {
    ghost is_clone = { λ source copy. copy ≡ source };

    fn clone(&self) -> Result<Constant, AllocError> {
        Ok(Constant {
            out: self.out.clone()?,
        })
    }
}

impl Constant {
    pub fn new(alloc: Global, out: Out) -> Result<Constant, AllocError>
        ensures { IfOk result (λ c. c ≡ out) }
    {
        match Rc::new(alloc, out) {
            Ok(out) => Ok(Constant { out }),
            Err(_) => Err(AllocError),
        }
    }

    pub fn get(&self) -> &Out
        ensures { result.now ≡ self.now }
    {
        &self.out
    }
}

/// What an instruction reads and leaves as it is. One that is not there reads NULL.
#[derive(Drop)]
pub enum Operand {
    /// What the register of this number holds.
    Register(u32),
    /// Always this.
    Constant(Constant),
    /// The parameter of this number, from 1 on. A text or a blob that is longer than the limit is bad (`TooBig`).
    Parameter(u32),
    /// The argument of this number of the unit that runs.
    Argument(u32),
    /// A column of the row under a cursor.
    Column { cursor: u32, column: u32 },
    /// The rowid of the row under a cursor.
    Rowid { cursor: u32 },
}

impl Clone for Operand {
    ghost is_clone = { λ source copy. copy ≡ source };

    fn clone(&self) -> Result<Operand, AllocError> {
        match self {
            Operand::Register(register) => Ok(Operand::Register(*register)),
            Operand::Constant(out) => Ok(Operand::Constant(out.clone()?)),
            Operand::Parameter(number) => Ok(Operand::Parameter(*number)),
            Operand::Argument(number) => Ok(Operand::Argument(*number)),
            Operand::Column { cursor, column } => Ok(Operand::Column {
                cursor: *cursor,
                column: *column,
            }),
            Operand::Rowid { cursor } => Ok(Operand::Rowid { cursor: *cursor }),
        }
    }
}
