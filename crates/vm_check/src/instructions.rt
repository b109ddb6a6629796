// The rules of instructions.
ghost use Rattle.std.specs.List.{list_all};
ghost use Rattle.std.specs.Option.{option_copied};
ghost use Rattle.std.specs.Prelude.{◌≡◌};
ghost use Rattle.vm_code.specs.Machine.{unit_at};
ghost use Rattle.vm_code.specs.Track.{needs_of};
ghost use Rattle.vm_check.specs.Tests.{falls_well, goes_on, is_met, is_op_well, is_reached_well, jumps_well, leads_well, reached_well, takes, units_well};

use crate::sets::{are_below, are_left};
use vm_code::{Op, OpenCursor, Program, Unit, UnitKind, Way};

/// Whether the instruction in a place is reached with what is left open by one of this way.
fn leads_well(unit: &Unit, place: usize, way: Way, open: &[OpenCursor]) -> bool
    ensures { result ≡ leads_well unit.now place way open.now }
{
    match unit.sets.get(place) {
        None => false,
        Some(behind) => are_left(way, open, behind),
    }
}

/// Whether the unit goes on behind an instruction of this way.
fn goes_on(way: Way) -> bool
    ensures { result ≡ goes_on way }
{
    match way {
        Way::Jumps(_) => false,
        Way::Leaves => false,
        Way::Returns(_) => false,
        _ => true,
    }
}

/// Whether the unit goes on well behind a place.
#[tactic(auto, using(crate::proofs::Rules::falls_off))]
fn falls_well(unit: &Unit, place: usize, open: &[OpenCursor], way: Way) -> bool
    ensures { result ≡ falls_well unit.now place open.now way }
{
    if !goes_on(way) {
        return true;
    }
    if place < unit.sets.len() {
        leads_well(unit, place + 1, way, open)
    } else {
        false
    }
}

/// Whether what an instruction jumps to is reached with what is open.
fn jumps_well(unit: &Unit, open: &[OpenCursor], way: Way) -> bool
    ensures { result ≡ jumps_well unit.now open.now way }
{
    match way {
        Way::Forks(target) => leads_well(unit, target, way, open),
        Way::Jumps(target) => leads_well(unit, target, way, open),
        _ => true,
    }
}

/// Whether what an instruction needs of cursors is so where these are open.
fn are_met(op: &Op, open: &[OpenCursor]) -> bool
    ensures { result ≡ list_all (is_met open.now) (needs_of op.now) }
{
    op.needs_are_met(open)
}

/// A unit of a program: the main unit is number 0, and a number that got no unit has none.
fn unit_at(program: &Program, number: u32) -> Option<&Unit>
    ensures { option_copied result ≡ unit_at program.now number }
{
    match number.checked_sub(1) {
        None => Some(&program.main),
        Some(behind) => match program.units.get(behind as usize) {
            Some(Some(unit)) => Some(unit),
            _ => None,
        },
    }
}

/// Whether a unit is called with so many arguments, and its results have room in so many registers from one on.
fn takes(registers: u32, count: u32, to: u32, unit: Option<&Unit>) -> bool
    ensures { result ≡ takes registers count to (option_copied unit.entry) }
{
    match unit {
        None => false,
        Some(unit) => {
            unit.kind == UnitKind::Called
                && unit.arguments == count
                && u64::from(to) + u64::from(unit.results) <= u64::from(registers)
        }
    }
}

/// Whether a unit that is called is there, and one that gives results is called.
fn units_well(program: &Program, unit: &Unit, way: Way) -> bool
    ensures { result ≡ units_well program.now unit.now way }
{
    match way {
        Way::Calls {
            unit: number,
            count,
            to,
        } => takes(unit.registers, count, to, unit_at(program, number)),
        Way::Returns(count) => unit.kind == UnitKind::Called && unit.results == count,
        _ => true,
    }
}

/// Whether an instruction that is reached with these open has what it needs, and leads where the same is open that it leaves open.
fn reached_well(unit: &Unit, place: usize, op: &Op, open: &[OpenCursor]) -> bool
    ensures { result ≡ reached_well unit.now place op.now open.now }
{
    let way = op.way();
    are_below(unit.cursors, open)
        && are_met(op, open)
        && falls_well(unit, place, open, way)
        && jumps_well(unit, open, way)
}

/// The same, where it is ever reached.
fn is_reached_well(unit: &Unit, place: usize, op: &Op) -> bool
    ensures { result ≡ is_reached_well unit.now place op.now }
{
    match unit.sets.get(place) {
        None => true,
        Some(open) => reached_well(unit, place, op, open),
    }
}

/// Whether an instruction keeps the rules.
pub(crate) fn is_op_well(program: &Program, unit: &Unit, place: usize, op: &Op) -> bool
    ensures { result ≡ is_op_well program.now unit.now place op.now }
{
    op.room() <= u64::from(unit.registers)
        && units_well(program, unit, op.way())
        && is_reached_well(unit, place, op)
}
