// The instructions that write into registers, and `Insert`, which reads them. Each has a method of its own that is not inlined, so
// that it alone pays for the locals that it needs; but for `put_binary`, the most common one, whose own locals are few.
ghost use Rattle.std.specs.Prelude.{◌≡◌, ◌+◌, ◌^◌, ◌<◌, map};
ghost use Rattle.eng_key.specs.Values.{value_keys};
ghost use Rattle.eng_value.specs.Applied.{binary_of, function_by, merged, unary_of};
ghost use Rattle.eng_value.specs.Collations.{own_keys};
ghost use Rattle.eng_value.specs.Comparisons.{like_escaped_of};
ghost use Rattle.eng_value.specs.Environments.{column_of};
ghost use Rattle.eng_value.specs.Outs.{bad};
ghost use Rattle.eng_value.specs.declared.out.Out.TheVariants.{Good};
ghost use Rattle.eng_value.specs.declared.value.Value.TheVariants as value;
ghost use Rattle.vm_code.specs.Machine.{current, cursor_at, inserted, parameter_at, put, read as read_of, row_in, world_of, wrote};
ghost use Rattle.vm_core.specs.Events.{Acts, ActsOn};
ghost use Rattle.vm_core.specs.Operands.{operand_now};

use crate::cursor::lent_at;
use crate::pace::Pace;
use crate::running::Running;
use crate::values::{merge, parameter};
use eng_record::Lent;
use eng_value::{
    BinaryOperator, Blob, Builtin, Cause, Collation, Out, Row, Text, UnaryOperator, Value,
};
use std::alloc::{AllocError, Global};
use vm_code::Operand;
use vm_tables::Tables;

impl Running {
    /// Writes a copy of a text.
    #[inline(never)]
    pub(crate) fn put_text(
        &mut self,
        alloc: Global,
        text: &Text,
        to: u32,
    ) -> Result<Pace, AllocError>
        requires { self.old.pc + 1 < 2 ^ 64 }
        ensures { Acts result self.old self.new (λ s. put s to (Good (value.Text text.now))) }
    {
        self.put_str(alloc, text.as_str(), to)
    }

    /// The same of a text that is lent.
    pub(crate) fn put_str(&mut self, alloc: Global, text: &str, to: u32) -> Result<Pace, AllocError>
        requires { self.old.pc + 1 < 2 ^ 64 }
        ensures { Acts result self.old self.new (λ s. put s to (Good (value.Text text.now))) }
    {
        self.write_str(alloc, text, to)?;
        self.go_on();
        Ok(Pace::Going)
    }

    /// Writes a copy of a blob.
    #[inline(never)]
    pub(crate) fn put_blob(&mut self, blob: &Blob, to: u32) -> Result<Pace, AllocError>
        requires { self.old.pc + 1 < 2 ^ 64 }
        ensures { Acts result self.old self.new (λ s. put s to (Good (value.Blob blob.now))) }
    {
        let blob = blob.clone()?;
        self.put(to, Out::Good(Value::Blob(blob)));
        Ok(Pace::Going)
    }

    /// Writes that the register is bad, for this one cause.
    #[inline(never)]
    pub(crate) fn put_bad(
        &mut self,
        alloc: Global,
        cause: &Cause,
        to: u32,
    ) -> Result<Pace, AllocError>
        requires { self.old.pc + 1 < 2 ^ 64 }
        ensures { Acts result self.old self.new (λ s. put s to (bad cause.now)) }
    {
        let cause = cause.clone()?;
        self.put(to, Out::bad(alloc, cause));
        Ok(Pace::Going)
    }

    /// Writes a copy of a parameter.
    #[inline(never)]
    pub(crate) fn put_parameter(
        &mut self,
        alloc: Global,
        params: &Row,
        number: u32,
        to: u32,
    ) -> Result<Pace, AllocError>
        requires { self.old.pc + 1 < 2 ^ 64 }
        ensures { Acts result self.old self.new (λ s. put s to (parameter_at params.now number)) }
    {
        let made = parameter(params.as_slice(), alloc, number);
        self.put_made(to, made)
    }

    /// Writes a copy of an argument.
    #[inline(never)]
    pub(crate) fn put_argument(&mut self, number: u32, to: u32) -> Result<Pace, AllocError>
        requires { self.old.pc + 1 < 2 ^ 64 }
        ensures { Acts result self.old self.new (λ s. put s to (read_of s.inputs.args number)) }
    {
        let made = self.arguments().copied(number);
        self.put_made(to, made)
    }

    /// Writes a copy of another register.
    #[inline(never)]
    pub(crate) fn put_copy(&mut self, from: u32, to: u32) -> Result<Pace, AllocError>
        requires { self.old.pc + 1 < 2 ^ 64 }
        ensures { Acts result self.old self.new (λ s. put s to (read_of s.regs from)) }
    {
        let made = self.registers().copied(from);
        self.put_made(to, made)
    }

    /// Writes what an operator with one operand gives.
    #[inline(never)]
    pub(crate) fn put_unary(
        &mut self,
        alloc: Global,
        params: &Row,
        tables: &Tables,
        operator: UnaryOperator,
        operand: &Operand,
        to: u32,
    ) -> Result<Pace, AllocError>
        requires { self.old.pc + 1 < 2 ^ 64 }
        ensures { let a = operand_now params.now self.old tables.now.world operand.now in
            ActsOn result self.old tables.now.world self.new tables.now.world (λ s. put s to (unary_of operator a)) }
    {
        let made = self.unary(alloc, params, tables, operator, operand);
        self.put_made(to, made)
    }

    /// Writes what an operator with two operands gives.
    #[inline(always)]
    pub(crate) fn put_binary(
        &mut self,
        alloc: Global,
        params: &Row,
        tables: &Tables,
        operator: &BinaryOperator,
        left: &Operand,
        right: &Operand,
        to: u32,
    ) -> Result<Pace, AllocError>
        requires { self.old.pc + 1 < 2 ^ 64 }
        ensures { let a = operand_now params.now self.old tables.now.world left.now in
            let b = operand_now params.now self.old tables.now.world right.now in
            ActsOn result self.old tables.now.world self.new tables.now.world (λ s. put s to (binary_of own_keys operator.now a b)) }
    {
        match self.integers(params, tables, operator, left, right) {
            Some(n) => self.put_integer(n, to),
            None => self.put_binary_of_texts(alloc, params, tables, operator, left, right, to),
        }
    }

    /// The same, where they do not read integers of which an integer comes.
    #[inline(never)]
    fn put_binary_of_texts(
        &mut self,
        alloc: Global,
        params: &Row,
        tables: &Tables,
        operator: &BinaryOperator,
        left: &Operand,
        right: &Operand,
        to: u32,
    ) -> Result<Pace, AllocError>
        requires { self.old.pc + 1 < 2 ^ 64 }
        ensures { let a = operand_now params.now self.old tables.now.world left.now in
            let b = operand_now params.now self.old tables.now.world right.now in
            ActsOn result self.old tables.now.world self.new tables.now.world (λ s. put s to (binary_of own_keys operator.now a b)) }
    {
        match self.texts(params, tables, operator, left, right) {
            Some(n) => self.put_integer(n, to),
            None => self.put_any_binary(alloc, params, tables, operator, left, right, to),
        }
    }

    /// The same, whatever the operands are.
    #[inline(never)]
    fn put_any_binary(
        &mut self,
        alloc: Global,
        params: &Row,
        tables: &Tables,
        operator: &BinaryOperator,
        left: &Operand,
        right: &Operand,
        to: u32,
    ) -> Result<Pace, AllocError>
        requires { self.old.pc + 1 < 2 ^ 64 }
        ensures { let a = operand_now params.now self.old tables.now.world left.now in
            let b = operand_now params.now self.old tables.now.world right.now in
            ActsOn result self.old tables.now.world self.new tables.now.world (λ s. put s to (binary_of own_keys operator.now a b)) }
    {
        let made = self.binary(alloc, params, tables, *operator, left, right);
        self.put_made(to, made)
    }

    /// Writes what LIKE with an ESCAPE gives.
    #[inline(never)]
    pub(crate) fn put_like_escaped(
        &mut self,
        alloc: Global,
        params: &Row,
        tables: &Tables,
        text: &Operand,
        pattern: &Operand,
        escape: &Operand,
        to: u32,
    ) -> Result<Pace, AllocError>
        requires { self.old.pc + 1 < 2 ^ 64 }
        ensures { let a = operand_now params.now self.old tables.now.world text.now in
            let b = operand_now params.now self.old tables.now.world pattern.now in
            let c = operand_now params.now self.old tables.now.world escape.now in
            ActsOn result self.old tables.now.world self.new tables.now.world (λ s. put s to (like_escaped_of a b c)) }
    {
        let made = self.like_escaped(alloc, params, tables, text, pattern, escape);
        self.put_made(to, made)
    }

    /// Writes what a function gives.
    #[inline(never)]
    pub(crate) fn put_call(
        &mut self,
        alloc: Global,
        params: &Row,
        tables: &Tables,
        name: Builtin,
        collation: Collation,
        args: &[Operand],
        to: u32,
    ) -> Result<Pace, AllocError>
        requires { self.old.pc + 1 < 2 ^ 64 }
        ensures { let outs = map (operand_now params.now self.old tables.now.world) args.now in
            ActsOn result self.old tables.now.world self.new tables.now.world (λ s. put s to (function_by (value_keys own_keys) name collation outs)) }
    {
        let made = self.function(alloc, params, tables, name, collation, args);
        self.put_made(to, made)
    }

    /// Adds the causes of a register. Of one that is good there are none, and nothing is written.
    #[tactic(auto, using(crate::proofs::RegisterLaws::good_adds_nothing))]
    #[inline(never)]
    pub(crate) fn put_merged(&mut self, from: u32, to: u32) -> Result<Pace, AllocError>
        requires { self.old.pc + 1 < 2 ^ 64 }
        ensures { Acts result self.old self.new (λ s. put s to (merged (read_of s.regs from) (read_of s.regs to))) }
    {
        if self.holds_bad(from) {
            let made = merge(self.registers(), from, to);
            return self.put_made(to, made);
        }
        self.go_on();
        Ok(Pace::Going)
    }

    /// Writes a column of the row under a cursor.
    #[inline(never)]
    pub(crate) fn put_column(
        &mut self,
        alloc: Global,
        tables: &Tables,
        cursor: u32,
        place: u32,
        to: u32,
    ) -> Result<Pace, AllocError>
        requires { self.old.pc + 1 < 2 ^ 64 }
        ensures { ActsOn result self.old tables.now.world self.new tables.now.world (λ s.
            put s to (column_of (current (world_of s.shared) (cursor_at s.scene.cursors cursor)) place)) }
    {
        match lent_at(&self.cursors, tables, cursor, place) {
            Lent::Integer(n) => self.put_integer(n, to),
            Lent::Text(text) => {
                self.registers.write_str(alloc, to, text)?;
                self.pc += 1;
                Ok(Pace::Going)
            }
            Lent::Other => self.put_any_column(alloc, tables, cursor, place, to),
        }
    }

    /// The same, whatever the column holds.
    #[inline(never)]
    fn put_any_column(
        &mut self,
        alloc: Global,
        tables: &Tables,
        cursor: u32,
        place: u32,
        to: u32,
    ) -> Result<Pace, AllocError>
        requires { self.old.pc + 1 < 2 ^ 64 }
        ensures { ActsOn result self.old tables.now.world self.new tables.now.world (λ s.
            put s to (column_of (current (world_of s.shared) (cursor_at s.scene.cursors cursor)) place)) }
    {
        let made = self.column(alloc, tables, cursor, place);
        self.put_made(to, made)
    }

    /// Writes the rowid of the row under a cursor.
    #[inline(never)]
    pub(crate) fn put_rowid(
        &mut self,
        tables: &Tables,
        cursor: u32,
        to: u32,
    ) -> Result<Pace, AllocError>
        requires { self.old.pc + 1 < 2 ^ 64 }
        ensures { ActsOn result self.old tables.now.world self.new tables.now.world (λ s.
            put s to (current (world_of s.shared) (cursor_at s.scene.cursors cursor)).rowid) }
    {
        match self.rowid(tables, cursor) {
            Some(rowid) => self.put_integer(rowid, to),
            None => self.put_null(to),
        }
    }

    /// Puts the values of so many registers as a row under the rowid that a register holds, and goes on.
    #[inline(never)]
    pub(crate) fn insert_registers(
        &mut self,
        alloc: Global,
        tables: &mut Tables,
        cursor: u32,
        rowid: u32,
        first: u32,
        count: u32,
    ) -> Result<Pace, AllocError>
        requires { self.old.pc + 1 < 2 ^ 64 }
        ensures leads { ActsOn result self.old tables.old.world self.new tables.new.world (λ s.
            wrote s (inserted (cursor_at s.scene.cursors cursor) s.shared.written (row_in s.regs rowid first count))) }
        ensures marks { tables.new.marks ≡ tables.old.marks }
    {
        let row = self.row_in(alloc, rowid, first, count)?;
        self.insert(alloc, tables, cursor, &row)
    }
}
