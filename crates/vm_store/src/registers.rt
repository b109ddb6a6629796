// Registers.
ghost use Rattle.std.specs.Prelude.{◌≡◌, ◌+◌, ◌<◌, ◌^◌, [], replicate, slice_get, slice_index_or, slice_set, IfOk, OnOk};
ghost use Rattle.std.specs.Option.{option_copied};
ghost use Rattle.eng_index.specs.Searching.{front_values};
ghost use Rattle.eng_value.specs.declared.out.Out.TheVariants.{Good};
ghost use Rattle.eng_value.specs.declared.value.Value.TheVariants as sql;
ghost use Rattle.eng_value.specs.declared.value.Value.TheVariants.{Integer, Null};
ghost use Rattle.vm_code.specs.Machine.{columns_from, good_or_null, integer_in, integer_of, outs_from, put_all, read as read_of, row_of_outs, values_from};
ghost use Rattle.vm_store.specs.Held.{held_integer, held_text, held_value};

use crate::{held_integer, held_text};
use eng_value::{Out, Row, Text, Value};
use std::alloc::{AllocError, Global};
use std::marker::Model;
use std::mem;

/// The registers of a unit that runs, or its arguments: each holds a value or is bad. One that is not there reads NULL and takes
/// nothing. Contracts see the list of what they hold.
#[derive(Drop)]
pub struct Registers {
    outs: Vec<Out>,
}

impl Model for Registers {
    ghost use Rattle.std.specs.Prelude.{List};
    ghost use Rattle.eng_value.specs.declared.out.Out.{Out as MeantOut};

    ghost Value = { List MeantOut };

    ghost use Rattle.std.specs.Coded.{codes};
    ghost use Rattle.eng_value.specs.contracts.out.Out as out;

    ghost coded = { Prim.hlevel (codes, out.the_row.coded) };

    ghost view = { λ r. r.outs.items };
}

impl Registers {
    /// None.
    pub fn empty(alloc: Global) -> Registers
        ensures { result ≡ [] }
    {
        Registers {
            outs: Vec::new(alloc),
        }
    }

    /// So many that hold NULL.
    pub fn nulls(alloc: Global, count: u32) -> Result<Registers, AllocError>
        ensures { IfOk result (λ registers. registers ≡ replicate count (Good Null)) }
    {
        let mut outs = Vec::with_capacity(alloc, count as usize)?;
        for _ in 0..count {
            outs.push(Out::Good(Value::Null))?;
        }
        Ok(Registers { outs })
    }

    /// What a register holds, or `null` where there is none.
    pub fn read<'a>(&'a self, register: u32, null: &'a Out) -> &'a Out
        ensures { result.now ≡ slice_index_or self.now register null.now }
    {
        self.outs.get(register as usize).unwrap_or(null)
    }

    /// What a register holds; none where there is no such register.
    pub fn get(&self, register: u32) -> Option<&Out>
        ensures { option_copied result ≡ slice_get self.now register }
    {
        self.outs.get(register as usize)
    }

    /// A copy of what a register holds.
    pub fn copied(&self, register: u32) -> Result<Out, AllocError>
        ensures { IfOk result (λ out. out ≡ read_of self.now register) }
    {
        copied(&self.outs, register as usize)
    }

    /// Copies of what so many registers hold, from the first on.
    pub fn outs(&self, alloc: Global, first: u32, count: u32) -> Result<Vec<Out>, AllocError>
        ensures { IfOk result (λ outs. outs.items ≡ outs_from self.now first count) }
    {
        let mut outs = Vec::new(alloc);
        for i in 0..count {
            outs.push(copied(&self.outs, first as usize + i as usize)?)?;
        }
        Ok(outs)
    }

    /// The same as registers of their own.
    pub fn range(&self, alloc: Global, first: u32, count: u32) -> Result<Registers, AllocError>
        ensures { IfOk result (λ registers. registers ≡ outs_from self.now first count) }
    {
        Ok(Registers {
            outs: self.outs(alloc, first, count)?,
        })
    }

    /// Copies of the values of so many registers, from the first on; NULL for what is bad. `spare` is a row that is done with, whose
    /// memory is taken again.
    pub fn values(&self, spare: Row, first: u32, count: u32) -> Result<Row, AllocError>
        ensures { IfOk result (λ row. row ≡ values_from self.now first count) }
    {
        let mut values = spare.into_vec();
        values.clear();
        values.reserve(count as usize)?;
        let mut row = Row::new(values);
        for i in 0..count {
            row.push(value(&self.outs, first as usize + i as usize)?)?;
        }
        Ok(row)
    }

    /// Copies of the values of so many registers, from the first on, in front of the first that is bad.
    pub fn front_values(
        &self,
        alloc: Global,
        first: u32,
        count: usize,
    ) -> Result<Vec<Value>, AllocError>
        requires { count < 2 ^ 63 }
        ensures { IfOk result (λ values. values.items ≡ front_values (outs_from self.now first count)) }
    {
        let mut values = Vec::new(alloc);
        for i in 0..count {
            match good_at(&self.outs, first as usize + i)? {
                None => return Ok(values),
                Some(value) => values.push(value)?,
            }
        }
        Ok(values)
    }

    /// The integer that a register holds; 0 where it holds none.
    pub fn integer(&self, register: u32) -> i64
        ensures { result ≡ integer_in self.now register }
    {
        integer(self.read(register, &Out::Good(Value::Null)))
    }

    /// The integer that a register holds, if it holds one.
    pub fn integer_at(&self, register: u32) -> Option<i64>
        ensures { result ≡ held_integer (read_of self.now register) }
    {
        held_integer(self.outs.get(register as usize)?)
    }

    /// The text that a register holds, if it holds one.
    pub fn text_at(&self, register: u32) -> Option<&str>
        ensures { option_copied result ≡ held_text (read_of self.now register) }
    {
        held_text(self.outs.get(register as usize)?)
    }

    /// Writes a register. Takes no memory.
    #[inline]
    pub fn write(&mut self, register: u32, out: Out)
        ensures { self.new ≡ slice_set self.old register out }
    {
        match out {
            Out::Good(Value::Null) => self.write_null(register),
            Out::Good(Value::Integer(n)) => self.write_integer(register, n),
            out => self.replace(register, out),
        }
    }

    /// Writes NULL.
    #[inline]
    pub fn write_null(&mut self, register: u32)
        ensures { self.new ≡ slice_set self.old register (Good Null) }
    {
        let at = register as usize;
        if at < self.outs.len() {
            set_null(&mut self.outs[at]);
        }
    }

    /// Writes an integer.
    #[inline(always)]
    pub fn write_integer(&mut self, register: u32, n: i64)
        ensures { self.new ≡ slice_set self.old register (Good (Integer n)) }
    {
        let at = register as usize;
        if at < self.outs.len() {
            set_integer(&mut self.outs[at], n);
        }
    }

    /// Writes a copy of a text. A text that the register holds gives its memory for it.
    pub fn write_str(&mut self, alloc: Global, register: u32, text: &str) -> Result<(), AllocError>
        ensures { OnOk result (self.new ≡ slice_set self.old register (Good (sql.Text text.now))) }
    {
        let at = register as usize;
        if at < self.outs.len() {
            set_str(alloc, &mut self.outs[at], text)?;
        }
        Ok(())
    }

    #[inline(never)]
    fn replace(&mut self, register: u32, out: Out)
        ensures { self.new ≡ slice_set self.old register out }
    {
        let at = register as usize;
        if at < self.outs.len() {
            self.outs[at] = out;
        }
    }

    /// Takes what a register holds out of it, where NULL is left. Takes no memory.
    pub fn take(&mut self, register: u32) -> Out
        ensures out { result ≡ read_of self.old register }
        ensures left { self.new ≡ slice_set self.old register (Good Null) }
    {
        take_from(&mut self.outs, register as usize)
    }

    /// Takes what `count` registers of another hold, from `first` on, and writes it to the registers from `to` on. Takes no memory.
    pub fn receive(&mut self, to: u32, from: &mut Registers, first: u32, count: u32)
        ensures { self.new ≡ put_all self.old to (outs_from from.old first count) }
    {
        for i in 0..count {
            let out = take_from(&mut from.outs, first as usize + i as usize);
            write_to(&mut self.outs, to as usize + i as usize, out);
        }
    }

    /// Writes copies of the first `count` columns of a row to the registers from `to` on; NULL for one that the row does not have.
    pub fn load(&mut self, to: u32, row: &[Out], count: u32) -> Result<(), AllocError>
        ensures { OnOk result (self.new ≡ put_all self.old to (columns_from (row_of_outs row.now) 0 count)) }
    {
        for i in 0..count {
            let at = to as usize + i as usize;
            let out = copied(row, i as usize)?;
            write_to(&mut self.outs, at, out);
        }
        Ok(())
    }
}

fn take_from(outs: &mut Vec<Out>, at: usize) -> Out
    ensures out { result ≡ read_of outs.old.items at }
    ensures left { outs.new.items ≡ slice_set outs.old.items at (Good Null) }
{
    if at < outs.len() {
        mem::replace(&mut outs[at], Out::Good(Value::Null))
    } else {
        Out::Good(Value::Null)
    }
}

fn write_to(outs: &mut Vec<Out>, at: usize, out: Out)
    ensures { outs.new.items ≡ slice_set outs.old.items at out }
{
    if at < outs.len() {
        outs[at] = out;
    }
}

// The next three write in place where they can: then little is moved, and nothing of another kind is dropped.
#[inline]
fn set_null(out: &mut Out)
    ensures { out.new ≡ Good Null }
{
    match out {
        Out::Good(Value::Null) => {}
        _ => drop_to_null(out),
    }
}

#[inline]
fn set_integer(out: &mut Out, n: i64)
    ensures { out.new ≡ Good (Integer n) }
{
    match out {
        Out::Good(Value::Integer(old)) => *old = n,
        _ => drop_to_integer(out, n),
    }
}

#[inline]
fn set_str(alloc: Global, out: &mut Out, text: &str) -> Result<(), AllocError>
    ensures { OnOk result (out.new ≡ Good (sql.Text text.now)) }
{
    match out {
        Out::Good(Value::Text(old)) => refill(alloc, old, text),
        _ => {
            *out = Out::Good(Value::Text(Text::from_str(alloc, text)?));
            Ok(())
        }
    }
}

/// Puts a copy of a text in the place of another, in the same memory where that is enough.
fn refill(alloc: Global, text: &mut Text, new: &str) -> Result<(), AllocError>
    ensures { OnOk result (text.new ≡ new.now) }
{
    let mut string = mem::replace(text, Text::new(String::new(alloc))).into_string();
    string.clear();
    string.push_str(new)?;
    *text = Text::new(string);
    Ok(())
}

#[inline(never)]
fn drop_to_null(out: &mut Out)
    ensures { out.new ≡ Good Null }
{
    *out = Out::Good(Value::Null);
}

#[inline(never)]
fn drop_to_integer(out: &mut Out, n: i64)
    ensures { out.new ≡ Good (Integer n) }
{
    *out = Out::Good(Value::Integer(n));
}

fn copied(outs: &[Out], register: usize) -> Result<Out, AllocError>
    ensures { IfOk result (λ out. out ≡ read_of outs.now register) }
{
    match outs.get(register) {
        Some(out) => Ok(out.clone()?),
        None => Ok(Out::Good(Value::Null)),
    }
}

fn value(outs: &[Out], register: usize) -> Result<Value, AllocError>
    ensures { IfOk result (λ value. value ≡ good_or_null (read_of outs.now register)) }
{
    match outs.get(register) {
        Some(Out::Good(value)) => Ok(value.clone()?),
        _ => Ok(Value::Null),
    }
}

/// A copy of the value that a register holds; none where it is bad.
fn good_at(outs: &[Out], register: usize) -> Result<Option<Value>, AllocError>
    ensures { IfOk result (λ value. value ≡ held_value (read_of outs.now register)) }
{
    match outs.get(register) {
        None => Ok(Some(Value::Null)),
        Some(Out::Good(value)) => Ok(Some(value.clone()?)),
        Some(Out::Bad(_)) => Ok(None),
    }
}

fn integer(out: &Out) -> i64
    ensures { result ≡ integer_of (good_or_null out.now) }
{
    match out {
        Out::Good(Value::Integer(n)) => *n,
        _ => 0,
    }
}
