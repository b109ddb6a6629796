// The test of programs.
ghost use Rattle.std.specs.List.{list_all};
ghost use Rattle.std.specs.Prelude.{◌≡◌, ◌↔◌, [], IfSome, IsSome};
ghost use Rattle.vm_code.specs.Accepted.{IsAccepted};
ghost use Rattle.vm_check.specs.Tests.{is_called_well, is_code_well, is_unit_well, is_well, starts_empty};

use crate::instructions::is_op_well;
use std::marker::Model;
use vm_code::{Program, Unit, UnitKind};

/// A program that keeps the rules. Contracts see the program.
#[derive(Drop)]
pub struct Checked {
    program: Program,
}

impl Model for Checked {
    ghost use Rattle.vm_code.specs.Accepted.{IsAccepted};
    ghost use Rattle.vm_code.specs.declared.program.Program.{Program as MeantProgram};

    ghost Value = { MeantProgram };

    ghost use Rattle.std.specs.Coded.{codes};
    ghost use Rattle.vm_code.specs.contracts.program.Program as contracts;

    ghost coded = { Prim.hlevel (codes, contracts.the_row.coded) };

    ghost view = { λ c. c.program };

    ghost invariant = { λ c. IsAccepted c.program };
}

impl Checked {
    /// The program.
    pub fn program(&self) -> &Program
        ensures same { result.now ≡ self.now }
        ensures accepted { IsAccepted self.now }
    {
        &self.program
    }
}

/// The program, where it keeps the rules. Takes no memory, and time as the program is long and its sets are large.
pub fn check(program: Program) -> Option<Checked>
    ensures exact { IsSome result ↔ IsAccepted program }
    ensures same { IfSome result (λ c. c ≡ program) }
{
    if is_well(&program) {
        Some(Checked { program })
    } else {
        None
    }
}

fn is_well(program: &Program) -> bool
    ensures { result ≡ is_well program.now }
{
    program.main.kind == UnitKind::Main
        && is_unit_well(program, &program.main)
        && are_called_well(program, program.units.as_slice())
}

fn are_called_well(program: &Program, units: &[Option<Unit>]) -> bool
    ensures { result ≡ list_all (is_called_well program.now) units.now }
{
    units.iter().all(|unit| is_called_well(program, unit))
}

/// Whether a unit is called, and keeps the rules. A number that was taken and got no unit has none.
fn is_called_well(program: &Program, unit: &Option<Unit>) -> bool
    ensures { result ≡ is_called_well program.now unit.now }
{
    match unit {
        None => true,
        Some(unit) => unit.kind == UnitKind::Called && is_unit_well(program, unit),
    }
}

fn is_unit_well(program: &Program, unit: &Unit) -> bool
    ensures { result ≡ is_unit_well program.now unit.now }
{
    unit.sets.len() == unit.code.len() && starts_empty(unit) && is_code_well(program, unit)
}

/// Whether the first instruction is reached with nothing open.
fn starts_empty(unit: &Unit) -> bool
    ensures { result ≡ starts_empty unit.now }
{
    match unit.sets.get(0) {
        None => false,
        Some(open) => open.is_empty(),
    }
}

fn is_code_well(program: &Program, unit: &Unit) -> bool
    ensures { result ≡ is_code_well program.now unit.now 0 unit.now.code }
{
    for (place, op) in unit.code.as_slice().iter().enumerate() {
        if !is_op_well(program, unit, place, op) {
            return false;
        }
    }
    true
}
