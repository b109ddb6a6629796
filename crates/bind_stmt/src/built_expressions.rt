// What is built of expressions: no aggregate, no FILTER, no RAISE and no query.
ghost use Rattle.std.specs.Prelude.{◌≡◌, map, codes};
ghost use Rattle.std.specs.Option.{option_map};
ghost use Rattle.sql_meaning.specs.Built.{all_pass, is_aggregate, is_built_arm, is_built_expr, option_passes};
ghost use Rattle.eng_entry.specs.Names.{is_same_name};
ghost use Rattle.sql_words.specs.Names.{is_named_in};
ghost use Rattle.sql_words.specs.Spelled.{name_bytes, name_of, undoubled};

use bind_name::{inside, past_second, slice_of};
use eng_entry::is_same_name;
use sql_tree::{Arguments, Arm, Expr, Token};
use sqlite_items::Boxed;

/// Whether all of an expression in the text is built. Takes no memory.
#[cycle(built)]
pub(crate) fn is_built(text: &str, e: &Expr) -> bool
    ensures { result ≡ is_built_expr e.now text.now }
{
    match e {
        Expr::Literal(_) => true,
        Expr::Parameter(_) => true,
        Expr::Column(_) => true,
        Expr::TableColumn(_, _) => true,
        Expr::Unary(_, a) => is_built(text, a.get()),
        Expr::Binary(_, a, b) => is_built(text, a.get()) && is_built(text, b.get()),
        Expr::Between(a, low, high) => {
            is_built(text, a.get()) && is_built(text, low.get()) && is_built(text, high.get())
        }
        Expr::Like(a, b, escape) => {
            is_built(text, a.get()) && is_built(text, b.get()) && is_option_built(text, escape)
        }
        Expr::In(a, others) => is_built(text, a.get()) && are_built(text, others.as_slice()),
        Expr::Collate(a, _) => is_built(text, a.get()),
        Expr::Cast(a, _) => is_built(text, a.get()),
        Expr::Call(token, how, args, None) => {
            !is_aggregate(text, token, *how, args.len()) && are_built(text, args.as_slice())
        }
        Expr::Call(_, _, _, Some(_)) => false,
        Expr::Case(a, arms, otherwise) => {
            is_option_built(text, a)
                && are_arms_built(text, arms.as_slice())
                && is_option_built(text, otherwise)
        }
        Expr::InQuery(_, _) => false,
        Expr::Subquery(_) => false,
        Expr::Exists(_) => false,
        Expr::RaiseIgnore => false,
        Expr::RaiseAbort(_) => false,
    }
}

/// The same of an expression that may be absent.
#[cycle(built)]
fn is_option_built(text: &str, e: &Option<Boxed<Expr>>) -> bool
    ensures { result ≡ option_passes (option_map is_built_expr e.now) text.now }
{
    match e {
        Some(e) => is_built(text, e.get()),
        None => true,
    }
}

/// The same of all these.
#[cycle(built)]
fn are_built(text: &str, es: &[Expr]) -> bool
    ensures { result ≡ all_pass (map is_built_expr es.now) text.now }
{
    for e in es {
        if !is_built(text, e) {
            return false;
        }
    }
    true
}

/// The same of the arms of a CASE.
#[cycle(built)]
fn are_arms_built(text: &str, arms: &[Arm]) -> bool
    ensures { result ≡ all_pass (map is_built_arm arms.now) text.now }
{
    for arm in arms {
        if !(is_built(text, &arm.condition) && is_built(text, &arm.value)) {
            return false;
        }
    }
    true
}

/// Whether a call is that of an aggregate (Built-in Aggregate Functions).
fn is_aggregate(text: &str, token: &Token, how: Arguments, given: usize) -> bool
    ensures { result ≡ is_aggregate (name_bytes text.now token.now) how given }
{
    let bytes = slice_of(text, token);
    if is_named(bytes, b"count") || is_named(bytes, b"sum") || is_named(bytes, b"group_concat") {
        return true;
    }
    how != Arguments::Star && given == 1 && (is_named(bytes, b"max") || is_named(bytes, b"min"))
}

/// Whether the bytes stand for this name.
fn is_named(bytes: &[u8], name: &[u8]) -> bool
    ensures { result ≡ is_same_name name.now (name_of bytes.now) }
{
    match bytes {
        [] => is_same_name(name, bytes),
        [first, ..] if *first == b'[' => is_same_name(name, inside(bytes)),
        [first, ..] if *first == b'"' || *first == b'`' => {
            is_undoubled(*first, inside(bytes), name)
        }
        _ => is_same_name(name, bytes),
    }
}

/// Whether the bytes, with one quote for two, are this name.
fn is_undoubled(quote: u8, bytes: &[u8], name: &[u8]) -> bool
    ensures { result ≡ is_same_name name.now (undoubled quote bytes.now) }
{
    let mut rest = bytes;
    let mut wanted = name;
    while let [first, behind @ ..] = rest {
        let [letter, others @ ..] = wanted else {
            return false;
        };
        if !first.eq_ignore_ascii_case(letter) {
            return false;
        }
        rest = past_second(quote, *first, behind);
        wanted = others;
    }
    wanted.is_empty()
}
