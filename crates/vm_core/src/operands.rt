// What operands read, and what operators and functions make of it.
ghost use Rattle.std.specs.Prelude.{◌≡◌, map, IfOk, IfSome};
ghost use Rattle.std.specs.Option.{option_copied};
ghost use Rattle.eng_key.specs.Values.{value_keys};
ghost use Rattle.eng_value.specs.Applied.{binary_of, function_by, unary_of};
ghost use Rattle.eng_value.specs.Collations.{own_keys};
ghost use Rattle.eng_value.specs.Comparisons.{like_escaped_of};
ghost use Rattle.eng_value.specs.Environments.{column_of};
ghost use Rattle.eng_value.specs.declared.out.Out.TheVariants.{Good};
ghost use Rattle.eng_value.specs.declared.value.Value.TheVariants.{Integer};
ghost use Rattle.vm_code.specs.Machine.{current, cursor_at, read as read_of};
ghost use Rattle.vm_core.specs.Cursors.{rowid_read};
ghost use Rattle.vm_core.specs.Operands.{operand_now, out_in};
ghost use Rattle.vm_store.specs.Held.{held_integer, held_text};

use crate::running::Running;
use crate::values::{integer_parameter, parameter, text_parameter};
use eng_operator as operator;
use eng_record::Lent;
use eng_scalar as scalar;
use eng_value::{BinaryOperator, Builtin, Collation, Out, Row, UnaryOperator, Value};
use std::alloc::{AllocError, Global};
use vm_code::Operand;
use vm_store::{Registers, held_integer, held_text};
use vm_tables::Tables;

/// What an operand reads: lent where it stands somewhere as it is, and else a copy.
#[derive(Drop)]
pub(crate) enum Reading<'a> {
    Lent(&'a Out),
    Own(Out),
}

impl<'a> Reading<'a> {
    fn as_out(&self) -> &Out
        ensures { result.now ≡ out_in self.now }
    {
        match self {
            Reading::Lent(out) => out,
            Reading::Own(out) => out,
        }
    }

    /// Takes memory only where it is lent.
    fn into_out(self) -> Result<Out, AllocError>
        ensures { IfOk result (λ out. out ≡ out_in self.entry) }
    {
        match self {
            Reading::Lent(out) => out.clone(),
            Reading::Own(out) => Ok(out),
        }
    }
}

impl Running {
    /// What an operator with one operand gives.
    pub(crate) fn unary(
        &self,
        alloc: Global,
        params: &Row,
        tables: &Tables,
        operator: UnaryOperator,
        operand: &Operand,
    ) -> Result<Out, AllocError>
        ensures { IfOk result (λ out. out ≡ unary_of operator (operand_now params.now self.now tables.now.world operand.now)) }
    {
        let operand = self.read(alloc, params, tables, operand)?;
        operator::unary(alloc, operator, operand.as_out())
    }

    /// What an operator with two operands gives.
    pub(crate) fn binary(
        &self,
        alloc: Global,
        params: &Row,
        tables: &Tables,
        operator: BinaryOperator,
        left: &Operand,
        right: &Operand,
    ) -> Result<Out, AllocError>
        ensures { let a = operand_now params.now self.now tables.now.world left.now in
            let b = operand_now params.now self.now tables.now.world right.now in
            IfOk result (λ out. out ≡ binary_of own_keys operator a b) }
    {
        let left = self.read(alloc, params, tables, left)?;
        let right = self.read(alloc, params, tables, right)?;
        operator::binary(alloc, operator, left.as_out(), right.as_out())
    }

    /// The same where both are integers and an integer comes of them; none says nothing. LIKE and GLOB make nothing of two integers as
    /// they are, so that for them no column is sought in vain.
    #[inline]
    pub(crate) fn integers(
        &self,
        params: &Row,
        tables: &Tables,
        operator: &BinaryOperator,
        left: &Operand,
        right: &Operand,
    ) -> Option<i64>
        ensures { let a = operand_now params.now self.now tables.now.world left.now in
            let b = operand_now params.now self.now tables.now.world right.now in
            IfSome result (λ n. binary_of own_keys operator.now a b ≡ Good (Integer n)) }
    {
        match operator {
            BinaryOperator::Like | BinaryOperator::Glob => None,
            _ => self.of_integers(params, tables, operator, left, right),
        }
    }

    #[inline]
    fn of_integers(
        &self,
        params: &Row,
        tables: &Tables,
        operator: &BinaryOperator,
        left: &Operand,
        right: &Operand,
    ) -> Option<i64>
        ensures { let a = operand_now params.now self.now tables.now.world left.now in
            let b = operand_now params.now self.now tables.now.world right.now in
            IfSome result (λ n. binary_of own_keys operator.now a b ≡ Good (Integer n)) }
    {
        let a = self.integer(params, tables, left)?;
        let b = self.integer(params, tables, right)?;
        operator::binary_of_integers(operator, a, b)
    }

    /// The same where both are texts and an integer comes of them; none says nothing. Only LIKE and GLOB make an integer of two texts
    /// as they are, so that for other operators no column is sought in vain.
    pub(crate) fn texts(
        &self,
        params: &Row,
        tables: &Tables,
        operator: &BinaryOperator,
        left: &Operand,
        right: &Operand,
    ) -> Option<i64>
        ensures { let a = operand_now params.now self.now tables.now.world left.now in
            let b = operand_now params.now self.now tables.now.world right.now in
            IfSome result (λ n. binary_of own_keys operator.now a b ≡ Good (Integer n)) }
    {
        match operator {
            BinaryOperator::Like | BinaryOperator::Glob => self.matched(
                params, tables, operator, left, right,
            ),
            _ => None,
        }
    }

    fn matched(
        &self,
        params: &Row,
        tables: &Tables,
        operator: &BinaryOperator,
        left: &Operand,
        right: &Operand,
    ) -> Option<i64>
        ensures { let a = operand_now params.now self.now tables.now.world left.now in
            let b = operand_now params.now self.now tables.now.world right.now in
            IfSome result (λ n. binary_of own_keys operator.now a b ≡ Good (Integer n)) }
    {
        let a = self.text(params, tables, left)?;
        let b = self.text(params, tables, right)?;
        operator::binary_of_texts(operator, a, b)
    }

    /// Whether a text is like a pattern with a character of escape.
    pub(crate) fn like_escaped(
        &self,
        alloc: Global,
        params: &Row,
        tables: &Tables,
        text: &Operand,
        pattern: &Operand,
        escape: &Operand,
    ) -> Result<Out, AllocError>
        ensures { let a = operand_now params.now self.now tables.now.world text.now in
            let b = operand_now params.now self.now tables.now.world pattern.now in
            let c = operand_now params.now self.now tables.now.world escape.now in
            IfOk result (λ out. out ≡ like_escaped_of a b c) }
    {
        let text = self.read(alloc, params, tables, text)?;
        let pattern = self.read(alloc, params, tables, pattern)?;
        let escape = self.read(alloc, params, tables, escape)?;
        operator::like_escaped(alloc, text.as_out(), pattern.as_out(), escape.as_out())
    }

    /// What a function gives.
    pub(crate) fn function(
        &self,
        alloc: Global,
        params: &Row,
        tables: &Tables,
        function: Builtin,
        collation: Collation,
        args: &[Operand],
    ) -> Result<Out, AllocError>
        ensures { let outs = map (operand_now params.now self.now tables.now.world) args.now in
            IfOk result (λ out. out ≡ function_by (value_keys own_keys) function collation outs) }
    {
        let mut outs = self.outs(alloc, params, tables, args)?;
        scalar::function(alloc, function, collation, &mut outs)
    }

    /// What operands read, as copies, since functions keep what they are given.
    fn outs(
        &self,
        alloc: Global,
        params: &Row,
        tables: &Tables,
        operands: &[Operand],
    ) -> Result<Vec<Out>, AllocError>
        ensures { IfOk result (λ outs. outs.items ≡ map (operand_now params.now self.now tables.now.world) operands.now) }
    {
        let mut outs = Vec::new(alloc);
        for operand in operands {
            outs.push(self.read(alloc, params, tables, operand)?.into_out()?)?;
        }
        Ok(outs)
    }

    /// What an operand reads.
    fn read<'a>(
        &'a self,
        alloc: Global,
        params: &Row,
        tables: &Tables,
        operand: &'a Operand,
    ) -> Result<Reading<'a>, AllocError>
        ensures { IfOk result (λ reading. out_in reading ≡ operand_now params.now self.now tables.now.world operand.now) }
    {
        match operand {
            Operand::Register(register) => Ok(lent(self.registers(), *register)),
            Operand::Constant(out) => Ok(Reading::Lent(out.get())),
            Operand::Parameter(number) => Ok(Reading::Own(parameter(
                params.as_slice(),
                alloc,
                *number,
            )?)),
            Operand::Argument(number) => Ok(lent(self.arguments(), *number)),
            Operand::Column { cursor, column } => Ok(Reading::Own(self.column(
                alloc, tables, *cursor, *column,
            )?)),
            Operand::Rowid { cursor } => Ok(Reading::Own(integer_or_null(self.rowid(
                tables, *cursor,
            )))),
        }
    }

    /// The integer that an operand reads, if it reads one.
    #[inline(always)]
    fn integer(&self, params: &Row, tables: &Tables, operand: &Operand) -> Option<i64>
        ensures { result ≡ held_integer (operand_now params.now self.now tables.now.world operand.now) }
    {
        match operand {
            Operand::Register(register) => self.registers().integer_at(*register),
            Operand::Constant(out) => held_integer(out.get()),
            Operand::Parameter(number) => integer_parameter(params.as_slice(), *number),
            Operand::Argument(number) => self.arguments().integer_at(*number),
            Operand::Column { cursor, column } => self.integer_in(tables, *cursor, *column),
            Operand::Rowid { cursor } => self.rowid(tables, *cursor),
        }
    }

    #[inline(never)]
    fn integer_in(&self, tables: &Tables, cursor: u32, column: u32) -> Option<i64>
        ensures { result ≡ held_integer (column_of (current tables.now.world (cursor_at self.now.scene.cursors cursor)) column) }
    {
        match self.lent(tables, cursor, column) {
            Lent::Integer(n) => Some(n),
            Lent::Text(_) => None,
            Lent::Other => None,
        }
    }

    /// The text that an operand reads, if it reads one.
    fn text<'a>(
        &'a self,
        params: &'a Row,
        tables: &'a Tables,
        operand: &'a Operand,
    ) -> Option<&'a str>
        ensures { option_copied result ≡ held_text (operand_now params.now self.now tables.now.world operand.now) }
    {
        match operand {
            Operand::Register(register) => self.registers().text_at(*register),
            Operand::Constant(out) => held_text(out.get()),
            Operand::Parameter(number) => text_parameter(params.as_slice(), *number),
            Operand::Argument(number) => self.arguments().text_at(*number),
            Operand::Column { cursor, column } => self.text_in(tables, *cursor, *column),
            Operand::Rowid { cursor } => self.text_of_rowid(tables, *cursor),
        }
    }

    fn text_in<'a>(&'a self, tables: &'a Tables, cursor: u32, column: u32) -> Option<&'a str>
        ensures { option_copied result ≡ held_text (column_of (current tables.now.world (cursor_at self.now.scene.cursors cursor)) column) }
    {
        match self.lent(tables, cursor, column) {
            Lent::Text(text) => Some(text),
            Lent::Integer(_) => None,
            Lent::Other => None,
        }
    }

    /// None: a rowid is an integer, or NULL where there is no row.
    fn text_of_rowid<'a>(&self, tables: &'a Tables, cursor: u32) -> Option<&'a str>
        ensures { option_copied result ≡ held_text (current tables.now.world (cursor_at self.now.scene.cursors cursor)).rowid }
    {
        let _rowid = self.rowid(tables, cursor);
        None
    }
}

/// A rowid as a value; NULL where there is none.
fn integer_or_null(rowid: Option<i64>) -> Out
    ensures { result ≡ rowid_read rowid }
{
    match rowid {
        Some(rowid) => Out::Good(Value::Integer(rowid)),
        None => Out::Good(Value::Null),
    }
}

/// What a register holds.
fn lent(registers: &Registers, register: u32) -> Reading<'_>
    ensures { out_in result ≡ read_of registers.now register }
{
    match registers.get(register) {
        Some(out) => Reading::Lent(out),
        None => Reading::Own(Out::Good(Value::Null)),
    }
}
