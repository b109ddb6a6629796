// What jumps go by.
ghost use Rattle.std.specs.Prelude.{◌≡◌};
ghost use Rattle.eng_value.specs.Outs.{turned};
ghost use Rattle.eng_value.specs.Truths.{truth_in, truth_of_number};
ghost use Rattle.eng_value.specs.declared.out.Out.TheVariants.{Good};
ghost use Rattle.eng_number.specs.Numbers.{fits_integer};
ghost use Rattle.vm_code.specs.Machine.{is_accepted, is_bad, is_false, is_integer, is_known, is_null, is_rejected, is_true};

use eng_value::{Out, Value, to_number};
use std::alloc::Global;

/// Whether a jump on true is taken: where it is true (SQL Language Expressions, section 8), and on NULL where that counts. What is
/// bad takes none. Takes no memory, but for the cause of a REAL.
#[tactic(auto, unfolding(eng_value::specs::Truths::truth_of))]
pub fn is_accepted(alloc: Global, out: &Out, on_null: bool) -> bool
    ensures { result ≡ is_accepted on_null out.now }
{
    match out {
        Out::Good(Value::Integer(n)) => *n != 0,
        Out::Good(Value::Null) => on_null,
        Out::Good(value) => is_true(&to_number(alloc, value), on_null),
        Out::Bad(_) => false,
    }
}

/// Whether a jump on false is taken: where it is false, and on NULL where that counts. What is bad takes none.
#[tactic(auto, unfolding(eng_value::specs::Truths::truth_of))]
pub fn is_rejected(alloc: Global, out: &Out, on_null: bool) -> bool
    ensures { result ≡ is_rejected on_null out.now }
{
    match out {
        Out::Good(Value::Integer(n)) => *n == 0,
        Out::Good(Value::Null) => on_null,
        Out::Good(value) => is_false(&to_number(alloc, value), on_null),
        Out::Bad(_) => false,
    }
}

/// Whether it is NULL.
pub fn is_null(out: &Out) -> bool
    ensures { result ≡ is_null out.now }
{
    match out {
        Out::Good(Value::Null) => true,
        _ => false,
    }
}

/// Whether it is a value that is not NULL.
pub fn is_known(out: &Out) -> bool
    ensures { result ≡ is_known out.now }
{
    match out {
        Out::Good(Value::Null) => false,
        Out::Good(_) => true,
        Out::Bad(_) => false,
    }
}

/// Whether it is bad.
pub fn is_bad(out: &Out) -> bool
    ensures { result ≡ is_bad out.now }
{
    match out {
        Out::Good(_) => false,
        Out::Bad(_) => true,
    }
}

/// Whether it is an integer.
pub fn is_integer(out: &Out) -> bool
    ensures { result ≡ is_integer out.now }
{
    match out {
        Out::Good(Value::Integer(n)) => fits(*n),
        _ => false,
    }
}

/// An integer of a register has 64 bits.
fn fits(_n: i64) -> bool
    ensures { result ≡ fits_integer _n }
{
    true
}

fn is_true(number: &Out, on_null: bool) -> bool
    ensures { result ≡ is_true on_null (truth_in (turned (λ v. Good (truth_of_number v)) number.now)) }
{
    match number {
        Out::Good(Value::Integer(n)) => *n != 0,
        Out::Good(_) => on_null,
        Out::Bad(_) => false,
    }
}

fn is_false(number: &Out, on_null: bool) -> bool
    ensures { result ≡ is_false on_null (truth_in (turned (λ v. Good (truth_of_number v)) number.now)) }
{
    match number {
        Out::Good(Value::Integer(n)) => *n == 0,
        Out::Good(_) => on_null,
        Out::Bad(_) => false,
    }
}
