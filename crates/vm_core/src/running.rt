// What a run has come to, and the parts of which instructions are made.
ghost use Rattle.std.specs.Prelude.{◌≡◌, ◌+◌, ◌^◌, ◌<◌, if◌then◌else◌, [], ◌∷◌, ◌++◌, None, slice_get, slice_index_or, slice_set, IfOk, OnOk, OnSome};
ghost use Rattle.std.specs.Option.{option_copied};
ghost use Rattle.eng_value.specs.Casts.{beside, store_as};
ghost use Rattle.eng_value.specs.Environments.{column_of};
ghost use Rattle.eng_value.specs.Outs.{turned};
ghost use Rattle.eng_value.specs.StoredRows.{next_rowid};
ghost use Rattle.eng_value.specs.declared.out.Out.{Out as MeantOut};
ghost use Rattle.eng_value.specs.declared.out.Out.TheVariants.{Good};
ghost use Rattle.eng_value.specs.declared.value.Value.TheVariants as sql;
ghost use Rattle.eng_value.specs.declared.value.Value.TheVariants.{Integer, Null};
ghost use Rattle.vm_code.specs.Machine.{Closed, Open, closed_from, code_of, current, cursor_at, cursor_rows, inserted, is_bad, is_integer, is_missing, jump, put, read as read_of, row_in, skip, standing_on, values_from, with_cursor, with_cursors, with_given, with_row, with_schema, with_table, without_rows, wrote};
ghost use Rattle.vm_tables.specs.Rows.{LendsColumn};
ghost use Rattle.vm_core.specs.Cursors.{has_first, has_next, on_first, on_next, on_sought, rowid_read};
ghost use Rattle.vm_core.specs.Events.{Acts, ActsOn, StopsOrActs};
ghost use Rattle.vm_core.specs.Paused.{first_progress, state_at, written_of};
ghost use Rattle.vm_core.specs.Tests.{passes};

use crate::Event;
use crate::calling::unit_at;
use crate::cursor::{
    advance, close_from, closed, column, lent_at, misses, next_rowid, rewind, rowid, seek, table_at,
};
use crate::jumping::Test;
use crate::pace::Pace;
use crate::values::{compared, stored};
use eng_record::Lent;
use eng_value::{Affinity, Out, Row, StoredRow, Value};
use std::alloc::{AllocError, Global};
use std::marker::Model;
use std::mem;
use vm_code::{Op, Program, SchemaChange, Unit};
use vm_store::{Cursor, Frames, Registers, Sorters, is_bad, is_integer};
use vm_tables::Tables;

/// The frame that runs, the frames that wait, how many rows were changed, and the rowid of the last row that was put. A register, an
/// argument, a cursor or an instruction that is not there counts as the machine over lists says. `spare` is a row that is done with,
/// whose memory serves the next one.
#[derive(Drop)]
pub(crate) struct Running {
    pub(crate) unit: u32,
    pub(crate) pc: usize,
    pub(crate) registers: Registers,
    pub(crate) args: Registers,
    pub(crate) cursors: Vec<Cursor>,
    pub(crate) sorters: Sorters,
    pub(crate) frames: Frames,
    changes: u64,
    last_rowid: i64,
    spare: Row,
}

impl Model for Running {
    ghost use Rattle.std.specs.Prelude.{[]};
    ghost use Rattle.vm_core.specs.Paused.{Progress};

    ghost Value = { Progress };

    ghost use Rattle.std.specs.Coded.{codes};
    ghost use Rattle.eng_value.specs.contracts.causes.Causes as causes;
    ghost use Rattle.eng_value.specs.contracts.out.Out as out;

    ghost coded = { Prim.hlevel (codes, causes.the_row.coded, out.the_row.coded) };

    ghost view = { λ r.
        record {
          unit = r.unit;
          pc = r.pc;
          regs = r.registers;
          inputs = record { args = r.args; running = [] };
          scene = record { cursors = r.cursors.items; slots = [] };
          store = record { lists = r.sorters; groups = []; rows = [] };
          stack = r.frames;
          changes = r.changes;
          last_rowid = r.last_rowid;
        } };
}

impl Running {
    /// At the start of a program's main unit, where this rowid was put last.
    pub fn new(alloc: Global, main: &Unit, last_rowid: i64) -> Result<Running, AllocError>
        ensures { IfOk result (λ r. r ≡ first_progress main.now.registers main.now.cursors last_rowid) }
    {
        Ok(Running {
            unit: 0,
            pc: 0,
            registers: Registers::nulls(alloc, main.registers)?,
            args: Registers::empty(alloc),
            cursors: closed(alloc, main.cursors)?,
            sorters: Sorters::new(alloc),
            frames: Frames::new(alloc),
            changes: 0,
            last_rowid,
            spare: Row::empty(alloc),
        })
    }

    /// How many rows were changed.
    pub fn changes(&self) -> u64
        ensures { result ≡ self.now.changes }
    {
        self.changes
    }

    /// The rowid of the last row that was put.
    pub fn last_rowid(&self) -> i64
        ensures { result ≡ self.now.last_rowid }
    {
        self.last_rowid
    }

    /// The instruction that comes next.
    pub fn op<'a>(&self, program: &'a Program) -> Option<&'a Op>
        ensures op { option_copied result ≡ slice_get (code_of program.now self.now.unit) self.now.pc }
        ensures fits { OnSome result (self.now.pc + 1 < 2 ^ 64) }
    {
        match unit_at(program, self.unit) {
            None => None,
            Some(unit) => op_at(unit.code.as_slice(), self.pc),
        }
    }

    /// Goes on to the next instruction.
    pub fn go_on(&mut self)
        requires { self.old.pc + 1 < 2 ^ 64 }
        ensures { self.new ≡ record self.old { pc = self.old.pc + 1 } }
    {
        self.pc += 1;
    }

    /// Goes on at a place, as an instruction.
    pub fn go_to(&mut self, target: usize) -> Result<Pace, AllocError>
        ensures { Acts result self.old self.new (λ s. jump s target) }
    {
        self.jump(target);
        Ok(Pace::Going)
    }

    /// Goes on at a place.
    pub fn jump(&mut self, target: usize)
        ensures { self.new ≡ record self.old { pc = target } }
    {
        self.pc = target;
    }

    /// Goes on at a place or to the next instruction.
    pub fn jump_if(&mut self, jumps: bool, target: usize)
        requires { self.old.pc + 1 < 2 ^ 64 }
        ensures { self.new ≡ record self.old { pc = if jumps then target else self.old.pc + 1 } }
    {
        if jumps {
            self.jump(target);
        } else {
            self.go_on();
        }
    }

    /// The registers of the frame that runs.
    pub fn registers(&self) -> &Registers
        ensures { result.now ≡ self.now.regs }
    {
        &self.registers
    }

    /// The arguments of the frame that runs.
    pub fn arguments(&self) -> &Registers
        ensures { result.now ≡ self.now.inputs.args }
    {
        &self.args
    }

    /// Writes a register and goes on.
    pub fn put(&mut self, register: u32, out: Out)
        requires { self.old.pc + 1 < 2 ^ 64 }
        ensures { self.new ≡ record self.old { pc = self.old.pc + 1; regs = slice_set self.old.regs register out } }
    {
        self.registers.write(register, out);
        self.pc += 1;
    }

    /// Writes what was made, unless memory was wanting, and goes on.
    pub fn put_made(
        &mut self,
        register: u32,
        made: Result<Out, AllocError>,
    ) -> Result<Pace, AllocError>
        requires { self.old.pc + 1 < 2 ^ 64 }
        ensures { (v : MeantOut) → IfOk made (λ out. out ≡ v) → Acts result self.old self.new (λ s. put s register v) }
    {
        match made {
            Ok(out) => {
                self.put(register, out);
                Ok(Pace::Going)
            }
            Err(error) => Err(error),
        }
    }

    /// Writes NULL.
    pub fn put_null(&mut self, to: u32) -> Result<Pace, AllocError>
        requires { self.old.pc + 1 < 2 ^ 64 }
        ensures { Acts result self.old self.new (λ s. put s to (Good Null)) }
    {
        self.registers.write_null(to);
        self.pc += 1;
        Ok(Pace::Going)
    }

    /// Writes an integer.
    #[inline(always)]
    pub fn put_integer(&mut self, n: i64, to: u32) -> Result<Pace, AllocError>
        requires { self.old.pc + 1 < 2 ^ 64 }
        ensures { Acts result self.old self.new (λ s. put s to (Good (Integer n))) }
    {
        self.registers.write_integer(to, n);
        self.pc += 1;
        Ok(Pace::Going)
    }

    /// Writes a copy of a text, and does not go on.
    pub fn write_str(&mut self, alloc: Global, text: &str, to: u32) -> Result<(), AllocError>
        ensures { OnOk result (self.new ≡ record self.old { regs = slice_set self.old.regs to (Good (sql.Text text.now)) }) }
    {
        self.registers.write_str(alloc, to, text)
    }

    /// Whether a register passes a test of a jump.
    pub fn passes(&self, alloc: Global, test: Test, register: u32) -> bool
        ensures { result ≡ passes test (read_of self.now.regs register) }
    {
        let null = Out::Good(Value::Null);
        test.passes(alloc, self.registers.read(register, &null))
    }

    /// Whether a register is bad.
    pub fn holds_bad(&self, register: u32) -> bool
        ensures { result ≡ is_bad (read_of self.now.regs register) }
    {
        is_bad(self.registers.read(register, &Out::Good(Value::Null)))
    }

    /// Whether a register holds an integer.
    pub fn holds_integer(&self, register: u32) -> bool
        ensures { result ≡ is_integer (read_of self.now.regs register) }
    {
        is_integer(self.registers.read(register, &Out::Good(Value::Null)))
    }

    /// The row that registers hold: a rowid, and so many values.
    pub fn row_in(
        &self,
        alloc: Global,
        rowid: u32,
        first: u32,
        count: u32,
    ) -> Result<StoredRow, AllocError>
        ensures { IfOk result (λ row. row ≡ row_in self.now.regs rowid first count) }
    {
        let values = self.registers.values(Row::empty(alloc), first, count)?;
        Ok(StoredRow::new(self.registers.integer(rowid), values))
    }

    /// Turns a register into what a column of the affinity would hold, and goes on.
    #[tactic(auto, using(crate::proofs::RegisterLaws::written_twice))]
    #[inline(never)]
    pub fn store_as(
        &mut self,
        alloc: Global,
        register: u32,
        affinity: Affinity,
    ) -> Result<Pace, AllocError>
        requires { self.old.pc + 1 < 2 ^ 64 }
        ensures { Acts result self.old self.new (λ s. put s register (turned (store_as affinity) (read_of s.regs register))) }
    {
        let out = self.registers.take(register);
        let out = stored(alloc, affinity, out)?;
        self.put(register, out);
        Ok(Pace::Going)
    }

    /// Turns a register into what a comparison takes it for, and goes on.
    #[tactic(auto, using(crate::proofs::RegisterLaws::written_twice))]
    #[inline(never)]
    pub fn compare_as(
        &mut self,
        alloc: Global,
        register: u32,
        other: Affinity,
        own: Affinity,
    ) -> Result<Pace, AllocError>
        requires { self.old.pc + 1 < 2 ^ 64 }
        ensures { Acts result self.old self.new (λ s. put s register (turned (λ v. Good (beside other own v)) (read_of s.regs register))) }
    {
        let out = self.registers.take(register);
        let out = compared(alloc, other, own, out)?;
        self.put(register, out);
        Ok(Pace::Going)
    }

    /// Gives the values of so many registers as a row, and goes on.
    #[inline(never)]
    pub fn give(
        &mut self,
        alloc: Global,
        first: u32,
        count: u32,
        event: &mut Event,
    ) -> Result<Pace, AllocError>
        requires { self.old.pc + 1 < 2 ^ 64 }
        ensures { StopsOrActs result event.new self.old self.new (λ s.
            skip (record s { shared = with_given s.shared (values_from s.regs first count) })) }
    {
        let spare = mem::replace(&mut self.spare, Row::empty(alloc));
        let row = self.registers.values(spare, first, count)?;
        self.go_on();
        *event = Event::Row(row);
        Ok(Pace::Stopping)
    }

    /// Takes back a row that was given and is done with.
    pub fn take_back(&mut self, row: Row)
        ensures { self.new ≡ self.old }
    {
        self.spare = row;
    }

    /// Opens a cursor on a table, on no row, and goes on.
    #[inline(never)]
    pub fn open(&mut self, number: u32, table: u32) -> Result<Pace, AllocError>
        requires { self.old.pc + 1 < 2 ^ 64 }
        ensures { Acts result self.old self.new (λ s. skip (with_cursor s number (Open table None))) }
    {
        self.put_cursor(number, Cursor::open(table));
        Ok(Pace::Going)
    }

    /// Puts a cursor on the row that registers hold, and goes on.
    #[inline(never)]
    pub fn stand_on(
        &mut self,
        alloc: Global,
        number: u32,
        rowid: u32,
        first: u32,
        count: u32,
    ) -> Result<Pace, AllocError>
        requires { self.old.pc + 1 < 2 ^ 64 }
        ensures { Acts result self.old self.new (λ s. skip (with_cursor s number (standing_on (row_in s.regs rowid first count)))) }
    {
        let row = self.row_in(alloc, rowid, first, count)?;
        self.put_cursor(number, Cursor::standing(row));
        Ok(Pace::Going)
    }

    /// Closes a cursor and goes on.
    #[inline(never)]
    pub fn close(&mut self, number: u32) -> Result<Pace, AllocError>
        requires { self.old.pc + 1 < 2 ^ 64 }
        ensures { Acts result self.old self.new (λ s. skip (with_cursor s number Closed)) }
    {
        self.put_cursor(number, Cursor::closed());
        Ok(Pace::Going)
    }

    /// Closes the cursors from a number on and goes on.
    #[inline(never)]
    pub fn close_from(&mut self, first: u32) -> Result<Pace, AllocError>
        requires { self.old.pc + 1 < 2 ^ 64 }
        ensures { Acts result self.old self.new (λ s. skip (with_cursors s (closed_from first s.scene.cursors))) }
    {
        close_from(&mut self.cursors, first as usize);
        self.pc += 1;
        Ok(Pace::Going)
    }

    /// Puts a cursor in the place of another and goes on.
    pub(crate) fn put_cursor(&mut self, number: u32, cursor: Cursor)
        requires { self.old.pc + 1 < 2 ^ 64 }
        ensures { self.new ≡ record self.old {
          pc = self.old.pc + 1;
          scene = record self.old.scene { cursors = slice_set self.old.scene.cursors number cursor };
        } }
    {
        let at = number as usize;
        if at < self.cursors.len() {
            self.cursors[at] = cursor;
        }
        self.pc += 1;
    }

    /// Brings a cursor to the first row of its table, and says whether there is one.
    pub fn rewind(&mut self, tables: &Tables, number: u32) -> bool
        ensures cursor { let moved = on_first tables.now.world (cursor_at self.old.scene.cursors number) in
            self.new ≡ record self.old { scene = record self.old.scene { cursors = slice_set self.old.scene.cursors number moved } } }
        ensures found { result ≡ has_first tables.now.world (cursor_at self.old.scene.cursors number) }
    {
        let at = number as usize;
        if at < self.cursors.len() {
            rewind(&mut self.cursors[at], tables)
        } else {
            false
        }
    }

    /// Brings a cursor to the row behind its own, and says whether there is one.
    pub fn advance(&mut self, tables: &Tables, number: u32) -> bool
        ensures cursor { let moved = on_next tables.now.world (cursor_at self.old.scene.cursors number) in
            self.new ≡ record self.old { scene = record self.old.scene { cursors = slice_set self.old.scene.cursors number moved } } }
        ensures found { result ≡ has_next tables.now.world (cursor_at self.old.scene.cursors number) }
    {
        let at = number as usize;
        if at < self.cursors.len() {
            advance(&mut self.cursors[at], tables)
        } else {
            false
        }
    }

    /// Brings a cursor to the row of its table that has a rowid; off its row where none has it.
    pub fn seek(&mut self, tables: &Tables, number: u32, rowid: Option<i64>)
        ensures { let moved = on_sought tables.now.world (cursor_at self.old.scene.cursors number) rowid in
            self.new ≡ record self.old { scene = record self.old.scene { cursors = slice_set self.old.scene.cursors number moved } } }
    {
        let at = number as usize;
        if at < self.cursors.len() {
            seek(&mut self.cursors[at], tables, rowid);
        }
    }

    /// A copy of a column of a cursor's row.
    pub fn column(
        &self,
        alloc: Global,
        tables: &Tables,
        number: u32,
        place: u32,
    ) -> Result<Out, AllocError>
        ensures { IfOk result (λ out. out ≡ column_of (current tables.now.world (cursor_at self.now.scene.cursors number)) place) }
    {
        match self.cursors.get(number as usize) {
            None => Ok(Out::Good(Value::Null)),
            Some(cursor) => column(cursor, alloc, tables, place as usize),
        }
    }

    /// The integer or the text in a column of a cursor's row, where there is one.
    #[inline(always)]
    pub fn lent<'t>(&'t self, tables: &'t Tables, number: u32, place: u32) -> Lent<'t>
        ensures { LendsColumn result (column_of (current tables.now.world (cursor_at self.now.scene.cursors number)) place) }
    {
        lent_at(&self.cursors, tables, number, place)
    }

    /// The rowid of a cursor's row, if it is on one.
    #[inline(never)]
    pub fn rowid(&self, tables: &Tables, number: u32) -> Option<i64>
        ensures { rowid_read result ≡ (current tables.now.world (cursor_at self.now.scene.cursors number)).rowid }
    {
        match self.cursors.get(number as usize) {
            None => None,
            Some(cursor) => rowid(cursor, tables),
        }
    }

    /// Whether a cursor's table has no row of a rowid.
    pub fn misses(&self, tables: &Tables, number: u32, rowid: i64) -> bool
        ensures { result ≡ is_missing (cursor_rows tables.now.world (cursor_at self.now.scene.cursors number)) rowid }
    {
        match self.cursors.get(number as usize) {
            None => true,
            Some(cursor) => misses(cursor, tables, rowid),
        }
    }

    /// The rowid behind the last of a cursor's table, if there is one.
    pub fn next_rowid(&self, tables: &Tables, number: u32) -> Option<i64>
        ensures { result ≡ next_rowid (cursor_rows tables.now.world (cursor_at self.now.scene.cursors number)) }
    {
        match self.cursors.get(number as usize) {
            None => Some(1),
            Some(cursor) => next_rowid(cursor, tables),
        }
    }

    /// Puts a row into a cursor's table, unless that has a row under the same rowid, and goes on.
    pub fn insert(
        &mut self,
        alloc: Global,
        tables: &mut Tables,
        number: u32,
        row: &StoredRow,
    ) -> Result<Pace, AllocError>
        requires { self.old.pc + 1 < 2 ^ 64 }
        ensures leads { ActsOn result self.old tables.old.world self.new tables.new.world (λ s.
            wrote s (inserted (cursor_at s.scene.cursors number) s.shared.written row.now)) }
        ensures marks { tables.new.marks ≡ tables.old.marks }
    {
        match table_at(&self.cursors, number as usize) {
            None => {
                self.pc += 1;
                Ok(Pace::Going)
            }
            Some(table) => self.put_row(alloc, tables, table, row),
        }
    }

    /// The same of a table. Where the number of changes has no room for one more, that is want of memory.
    fn put_row(
        &mut self,
        alloc: Global,
        tables: &mut Tables,
        table: u32,
        row: &StoredRow,
    ) -> Result<Pace, AllocError>
        requires { self.old.pc + 1 < 2 ^ 64 }
        ensures leads { ActsOn result self.old tables.old.world self.new tables.new.world (λ s.
            wrote s (with_row s.shared.written table row.now)) }
        ensures marks { tables.new.marks ≡ tables.old.marks }
    {
        if !tables.is_free(table, row.rowid()) {
            self.pc += 1;
            return Ok(Pace::Going);
        }
        match self.changes.checked_add(1) {
            None => Err(AllocError),
            Some(changes) => {
                tables.put(alloc, table, row)?;
                self.changes = changes;
                self.last_rowid = row.rowid();
                self.pc += 1;
                Ok(Pace::Going)
            }
        }
    }

    /// Changes which tables there are and goes on.
    #[inline(never)]
    pub fn change_schema(
        &mut self,
        alloc: Global,
        tables: &mut Tables,
        change: SchemaChange,
    ) -> Result<Pace, AllocError>
        requires { self.old.pc + 1 < 2 ^ 64 }
        ensures leads { ActsOn result self.old tables.old.world self.new tables.new.world (λ s. wrote s (with_schema change s.shared.written)) }
        ensures marks { tables.new.marks ≡ tables.old.marks }
    {
        match change {
            SchemaChange::AddTable => self.add_table(alloc, tables),
            SchemaChange::DropTable { table } => self.drop_table(alloc, tables, table),
        }
    }

    /// Adds a table without rows behind the others and goes on.
    fn add_table(&mut self, alloc: Global, tables: &mut Tables) -> Result<Pace, AllocError>
        requires { self.old.pc + 1 < 2 ^ 64 }
        ensures leads { ActsOn result self.old tables.old.world self.new tables.new.world (λ s. wrote s (with_table s.shared.written)) }
        ensures marks { tables.new.marks ≡ tables.old.marks }
    {
        tables.add(alloc)?;
        self.pc += 1;
        Ok(Pace::Going)
    }

    /// Takes all rows from a table and goes on.
    fn drop_table(
        &mut self,
        alloc: Global,
        tables: &mut Tables,
        table: u32,
    ) -> Result<Pace, AllocError>
        requires { self.old.pc + 1 < 2 ^ 64 }
        ensures leads { ActsOn result self.old tables.old.world self.new tables.new.world (λ s. wrote s (without_rows s.shared.written table)) }
        ensures marks { tables.new.marks ≡ tables.old.marks }
    {
        tables.drop_rows(alloc, table)?;
        self.pc += 1;
        Ok(Pace::Going)
    }
}

/// The instruction at a place.
fn op_at(code: &[Op], pc: usize) -> Option<&Op>
    ensures op { option_copied result ≡ slice_get code.now pc }
    ensures fits { OnSome result (pc + 1 < 2 ^ 64) }
{
    code.get(pc)
}
