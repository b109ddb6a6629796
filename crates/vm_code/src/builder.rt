// The builder of a unit.
ghost use Rattle.std.specs.Prelude.{◌≡◌, ◌+◌, ◌-◌, ◌<◌, ◌≤◌, [], ◌∷◌, ◌++◌, length, map, max, slice_get, slice_set, IfOk, None, Some};
ghost use Rattle.vm_code.specs.Draft.{Draft, begun, bound, given_back, released, taken, with_cursor, with_label, with_number, with_op};
ghost use Rattle.vm_code.specs.Frames.{IsFinished, IsProgramOf, IsUnitOf, IsUnitUnder, place_in, placed};

use crate::track::Track;
use crate::{Op, Program, Unit, UnitKind};
use sqlite_items::Items;
use std::alloc::{AllocError, Global};
use std::marker::Model;

/// How many instructions a unit usually has at most. They have room from the start, so that the list of few units grows.
const USUAL_INSTRUCTIONS: usize = 16;

/// A unit under construction: instructions whose jumps go to labels, registers and cursors that are taken, and the units that
/// are ready or have a number. Code is only added behind the other, a label gets its place once, and so does a number its unit.
#[derive(Drop)]
pub struct Builder {
    code: Vec<Op>,
    labels: Vec<Option<usize>>,
    next: u32,
    most: u32,
    reach: u32,
    cursors: u32,
    units: Items<Option<Unit>>,
    track: Track,
}

impl Model for Builder {
    ghost use Rattle.vm_code.specs.Draft.{Draft};

    ghost Value = { Draft };

    ghost use Rattle.std.specs.Coded.{codes};
    ghost use Rattle.eng_value.specs.contracts.out.Out as out;

    ghost coded = { Prim.hlevel (codes, out.the_row.coded) };

    ghost view = { λ b.
        record {
          code = b.code.items;
          labels = b.labels.items;
          next = b.next;
          most = b.most;
          reach = b.reach;
          cursors = b.cursors;
          units = b.units;
          track = b.track;
        } };
}

impl Builder {
    /// The start of a unit, beside the units that are ready.
    pub fn new(alloc: Global, units: Items<Option<Unit>>) -> Builder
        ensures { result ≡ begun units }
    {
        Builder {
            code: usual_room(alloc),
            labels: Vec::new(alloc),
            next: 0,
            most: 0,
            reach: 0,
            cursors: 0,
            units,
            track: Track::new(alloc),
        }
    }

    /// One more instruction, whose jump, if it has one, goes to a label. What is open in front of it and behind it is noted, and how many
    /// registers it names: there are fewer than 2 ^ 32 of them.
    pub fn op(&mut self, op: Op) -> Result<(), AllocError>
        ensures { IfOk result (λ _. self.new ≡ with_op self.old op) }
    {
        let Ok(room) = u32::try_from(op.room()) else {
            return Err(AllocError);
        };
        self.track.pass(op.way())?;
        self.code.push(op)?;
        self.reach = self.reach.max(room);
        Ok(())
    }

    /// A label whose place is not known yet. At its place the same is open as where it is made.
    pub fn label(&mut self) -> Result<usize, AllocError>
        ensures { IfOk result (λ l. (l ≡ length self.old.labels) × (self.new ≡ with_label self.old)) }
    {
        let label = self.labels.len();
        self.labels.push(None)?;
        self.track.label()?;
        Ok(label)
    }

    /// The label's place is behind the last instruction so far. What is open there is what was open
    /// where it was made.
    pub fn bind(&mut self, label: usize) -> Result<(), AllocError>
        requires { slice_get self.old.labels label ≡ Some None }
        ensures { IfOk result (λ _. self.new ≡ bound self.old label) }
    {
        self.labels[label] = Some(self.code.len());
        self.track.arrive(label)
    }

    /// The first register that is free.
    pub fn next_register(&self) -> u32
        ensures { result ≡ self.now.next }
    {
        self.next
    }

    /// Takes the first register that is free. There are fewer than 2 ^ 32 of them.
    pub fn take(&mut self) -> Result<u32, AllocError>
        ensures { IfOk result (λ r. (r ≡ self.old.next) × (self.new ≡ taken self.old)) }
    {
        let register = self.next;
        let Some(next) = register.checked_add(1) else {
            return Err(AllocError);
        };
        self.next = next;
        self.most = self.most.max(next);
        Ok(register)
    }

    /// The register that was taken last is free again.
    pub fn give_back(&mut self)
        requires { 0 < self.old.next }
        ensures { self.new ≡ given_back self.old }
    {
        self.next -= 1;
    }

    /// The registers from `next` on are free again.
    pub fn release(&mut self, next: u32)
        requires { next ≤ self.old.next }
        ensures { self.new ≡ released self.old next }
    {
        self.next = next;
    }

    /// A cursor that no other code of the unit uses. There are fewer than 2 ^ 32 of them.
    pub fn cursor(&mut self) -> Result<u32, AllocError>
        ensures { IfOk result (λ c. (c ≡ self.old.cursors) × (self.new ≡ with_cursor self.old)) }
    {
        let cursor = self.cursors;
        let Some(next) = cursor.checked_add(1) else {
            return Err(AllocError);
        };
        self.cursors = next;
        Ok(cursor)
    }

    /// The number of a unit that will be written later, so that code can call it already, as units do that call one another. There are
    /// fewer than 2 ^ 32 of them.
    pub fn number(&mut self) -> Result<u32, AllocError>
        ensures { IfOk result (λ k. (k ≡ length self.old.units) × (self.new ≡ with_number self.old)) }
    {
        let Ok(number) = u32::try_from(self.units.len()) else {
            return Err(AllocError);
        };
        self.units.push(None)?;
        Ok(number)
    }

    /// The units and this one behind them, with places in the stead of labels: it is called with so many arguments, and gives so many results.
    /// A label without a place stands for 0.
    pub fn finish_unit(
        self,
        arguments: u32,
        results: u32,
    ) -> Result<Items<Option<Unit>>, AllocError>
        ensures { IfOk result (λ units. IsUnitOf arguments results self units) }
    {
        let (unit, mut units) = self.finished(UnitKind::Called, arguments, results);
        units.push(Some(unit))?;
        Ok(units)
    }

    /// The units with this one under a number that was taken for it.
    pub fn finish_numbered(self, number: u32, arguments: u32, results: u32) -> Items<Option<Unit>>
        requires { slice_get self.units number ≡ Some None }
        ensures { IsUnitUnder arguments results self number result }
    {
        let (unit, mut units) = self.finished(UnitKind::Called, arguments, results);
        units.set(number as usize, Some(unit));
        units
    }

    /// The program whose main unit this is, with places in the stead of labels. A label without a place stands for 0.
    pub fn finish_program(self) -> Program
        ensures { IsProgramOf self result }
    {
        let (main, units) = self.finished(UnitKind::Main, 0, 0);
        Program { main, units }
    }

    /// The unit of this code, and the units beside it.
    fn finished(self, kind: UnitKind, arguments: u32, results: u32) -> (Unit, Items<Option<Unit>>)
        ensures unit { IsFinished kind arguments results self result.0 }
        ensures units { result.1 ≡ self.units }
    {
        let Builder {
            mut code,
            labels,
            next: _,
            most,
            reach,
            cursors,
            units,
            track,
        } = self;
        place_all(&mut code, &labels);
        let unit = Unit {
            kind,
            arguments,
            results,
            registers: most.max(reach),
            cursors,
            code: Items::from_vec(code),
            sets: track.into_sets(),
        };
        (unit, units)
    }
}

/// No instruction yet, with room for the usual number where there is memory for it.
fn usual_room(alloc: Global) -> Vec<Op>
    ensures { result.items ≡ [] }
{
    match Vec::with_capacity(alloc, USUAL_INSTRUCTIONS) {
        Ok(code) => code,
        Err(_) => Vec::new(alloc),
    }
}

/// Puts places in the stead of labels.
fn place_all(code: &mut [Op], labels: &[Option<usize>])
    ensures { code.new ≡ map (placed (place_in labels.now)) code.old }
{
    for op in code.iter_mut() {
        place_op(op, labels);
    }
}

/// The place of a label, 0 where it has none.
fn place(labels: &[Option<usize>], label: usize) -> usize
    ensures { result ≡ place_in labels.now label }
{
    match labels.get(label) {
        Some(Some(place)) => *place,
        _ => 0,
    }
}

/// Puts the place of its label into an instruction that jumps.
fn place_op(op: &mut Op, labels: &[Option<usize>])
    ensures { op.new ≡ placed (place_in labels.now) op.old }
{
    match op {
        Op::Goto { target } => *target = place(labels, *target),
        Op::If { target, .. } => *target = place(labels, *target),
        Op::IfNot { target, .. } => *target = place(labels, *target),
        Op::IsNull { target, .. } => *target = place(labels, *target),
        Op::NotNull { target, .. } => *target = place(labels, *target),
        Op::IsBad { target, .. } => *target = place(labels, *target),
        Op::Rewind { target, .. } => *target = place(labels, *target),
        Op::Next { target, .. } => *target = place(labels, *target),
        Op::Search { target, .. } => *target = place(labels, *target),
        Op::SorterSort { target, .. } => *target = place(labels, *target),
        Op::SorterNext { target, .. } => *target = place(labels, *target),
        Op::NotExists { target, .. } => *target = place(labels, *target),
        Op::NoConflict { target, .. } => *target = place(labels, *target),
        _ => {}
    }
}
