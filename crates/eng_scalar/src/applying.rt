// A call of a built-in function on what its arguments came to.
ghost use Rattle.std.specs.Prelude.{◌≡◌, ◌≤◌, [], IfOk, None, length, map, vec_capacity, vec_len};
ghost use Rattle.eng_key.specs.Values.{value_keys};
ghost use Rattle.eng_scalar.specs.Called.{bad_in, beside_causes, function_of, looks_at_keys, value_in};
ghost use Rattle.eng_value.specs.Collations.{own_keys};
ghost use Rattle.eng_value.specs.Functions.{call_of, kind_of};
ghost use Rattle.eng_value.specs.declared.out.Out.TheVariants.{Good};

use crate::calling::call;
use eng_key::value_key_under;
use eng_value::{Blob, Builtin, Causes, Collation, Out, Value};
use std::alloc::{AllocError, Global};
use std::mem;

/// What a built-in function gives for some arguments under a collation, by which max, min and nullif compare, where no host has one
/// (Built-in Scalar SQL Functions). Where an argument is bad it is not called, and the result is bad with the causes of all. The arguments stay as they
/// were, also where memory fails, and none of them is copied. Only memory can fail.
pub fn function(
    alloc: Global,
    f: Builtin,
    collation: Collation,
    args: &mut [Out],
) -> Result<Out, AllocError>
    ensures out { IfOk result (λ out. out ≡ function_of f collation args.old) }
    ensures args { args.new ≡ args.old }
{
    match causes_of_bad(args) {
        Ok(None) => on_values(alloc, f, collation, args),
        Ok(Some(causes)) => Ok(Out::Bad(causes)),
        Err(error) => Err(error),
    }
}

// The causes of all arguments that are bad.
fn causes_of_bad(args: &[Out]) -> Result<Option<Causes>, AllocError>
    ensures { IfOk result (λ causes. causes ≡ bad_in args.now) }
{
    let mut found = None;
    let mut left = args.len();
    while left > 0 {
        left -= 1;
        found = beside_causes(&args[left], found)?;
    }
    Ok(found)
}

fn beside_causes(arg: &Out, found: Option<Causes>) -> Result<Option<Causes>, AllocError>
    ensures { IfOk result (λ causes. causes ≡ beside_causes arg.now found) }
{
    match (arg, found) {
        (Out::Good(_), found) => Ok(found),
        (Out::Bad(causes), None) => Ok(Some(causes.clone()?)),
        (Out::Bad(causes), Some(others)) => Ok(Some(causes.union(&others)?)),
    }
}

// Each argument is good: its value is moved out for the call, and back behind it.
fn on_values(
    alloc: Global,
    f: Builtin,
    collation: Collation,
    args: &mut [Out],
) -> Result<Out, AllocError>
    requires { bad_in args.old ≡ None }
    ensures out { IfOk result (λ out. out ≡ function_of f collation args.old) }
    ensures args { args.new ≡ args.old }
{
    let mut values = Vec::with_capacity(alloc, args.len())?;
    move_out(args, &mut values);
    let out = call_by_keys(alloc, f, collation, &values);
    move_back(args, values);
    out
}

fn move_out(args: &mut [Out], values: &mut Vec<Value>)
    requires none_yet { values.old.items ≡ [] }
    requires room { length args.old ≤ vec_capacity values.old }
    ensures { values.new.items ≡ map value_in args.old }
{
    for arg in args.iter_mut() {
        values.push_reserved(take_value(arg));
    }
}

fn take_value(arg: &mut Out) -> Value
    ensures { result ≡ value_in arg.old }
{
    match mem::replace(arg, Out::Good(Value::Null)) {
        Out::Good(value) => value,
        Out::Bad(_) => Value::Null,
    }
}

fn move_back(args: &mut [Out], mut values: Vec<Value>)
    requires { length args.old ≡ length values.items }
    ensures { args.new ≡ map Good values.items }
{
    let mut left = args.len();
    while let Some(value) = values.pop() {
        left -= 1;
        args[left] = Out::Good(value);
    }
}

// It makes the keys where the function looks at them.
#[tactic(auto, using(crate::proofs::CalledLaws::without_keys))]
fn call_by_keys(
    alloc: Global,
    f: Builtin,
    collation: Collation,
    values: &[Value],
) -> Result<Out, AllocError>
    ensures { IfOk result (λ out. out ≡ call_of f values.now (map (value_keys own_keys collation) values.now)) }
{
    if looks_at_keys(f) {
        call(alloc, f, values, &keys_of(alloc, collation, values)?)
    } else {
        call(alloc, f, values, &[])
    }
}

#[tactic(auto, unfolding(eng_value::specs::Functions::kind_of))]
fn looks_at_keys(f: Builtin) -> bool
    ensures { result ≡ looks_at_keys (kind_of f) }
{
    matches!(f, Builtin::Max | Builtin::Min | Builtin::NullIf)
}

fn keys_of(alloc: Global, collation: Collation, values: &[Value]) -> Result<Vec<Blob>, AllocError>
    ensures { IfOk result (λ keys. keys.items ≡ map (value_keys own_keys collation) values.now) }
{
    let mut keys = Vec::with_capacity(alloc, values.len())?;
    for value in values {
        keys.push(value_key_under(alloc, value, collation)?)?;
    }
    Ok(keys)
}
