// Which column a name stands for.
ghost use Rattle.std.specs.Prelude.{◌≡◌, None, drop, IfOk, Ok, Err};
ghost use Rattle.sql_bound.specs.declared.scopes.WithEntry.{WithEntry};
ghost use Rattle.std.specs.Option.{option_copied};
ghost use Rattle.bind_query.specs.Scopes.{own_sight, result_called, scope_of};
ghost use Rattle.sql_bound.specs.Answers.{Answers, Comes, OnlyMem, Refuses};
ghost use Rattle.sql_bound.specs.Columns.{called_column_bound, column_bound, of_outer, of_own};
ghost use Rattle.sql_words.specs.Names.{dotted};
ghost use Rattle.sql_words.specs.Spelled.{name_at};
ghost use Rattle.eng_value.specs.declared.cause.Cause.TheVariants as cause;
ghost use Rattle.eng_value.specs.declared.cause.NameKind.TheVariants as kind;

use crate::binding::bind;
use crate::dotted::dotted;
use crate::fuel::less;
use crate::leaves::named;
use crate::scope::Scope;
use bind_name::name;
use bind_scope::{further_out, nearest_bare, nearest_called, no_column, own_bare, seen, text_of};
use eng_entry::is_same_name;
use eng_value::{Cause, NameKind};
use sql_bound::{Operand, ScopeItem, Sight, WithEntry, Work};
use sql_tree::{Expr, ResultColumn, Token};
use sqlite_items::Items;
use std::alloc::Global;

/// A column of the own FROM, a result, or a column further out.
#[cycle(binding)]
pub(crate) fn column<'a>(
    alloc: Global,
    fuel: u32,
    scope: &Scope<'a>,
    levels: &[Items<ScopeItem>],
    tables: &[WithEntry],
    token: &Token,
    work: &mut Work,
) -> Result<Operand, Cause>
    ensures { Comes (column_bound (scope_of scope.now levels.now tables.now) (name_at scope.now.text token.now) work.old) result work.new }
{
    let fuel = less(fuel)?;
    let name = named(alloc, scope.text, token)?;
    if !scope.allowed.columns {
        return no_column(alloc, levels, name.as_str());
    }
    match own_sight(alloc, levels, name.as_str())? {
        Some(sight) => seen(sight, work),
        None => beside_own(alloc, fuel, scope, levels, tables, name.as_str(), work),
    }
}

/// A name that no column of the own FROM has.
#[cycle(binding)]
fn beside_own<'a>(
    alloc: Global,
    fuel: u32,
    scope: &Scope<'a>,
    levels: &[Items<ScopeItem>],
    tables: &[WithEntry],
    name: &str,
    work: &mut Work,
) -> Result<Operand, Cause>
    ensures { Comes (of_own None (scope_of scope.now levels.now tables.now) name.now (drop 1 levels.now) work.old) result work.new }
{
    let fuel = less(fuel)?;
    match result_called(alloc, scope, name)? {
        Some(e) => bind(alloc, fuel, &scope.plain(), levels, tables, e, work),
        None => outer_column(alloc, levels, name, work),
    }
}

/// `table.name`: a column of an item of that name.
pub(crate) fn called_column(
    alloc: Global,
    scope: &Scope<'_>,
    levels: &[Items<ScopeItem>],
    tables: &[WithEntry],
    table: &Token,
    token: &Token,
    work: &mut Work,
) -> Result<Operand, Cause>
    ensures { Comes (called_column_bound (scope_of scope.now levels.now tables.now) (name_at scope.now.text table.now) (name_at scope.now.text token.now) work.old) result work.new }
{
    let table = named(alloc, scope.text, table)?;
    let name = named(alloc, scope.text, token)?;
    if !scope.allowed.columns {
        return no_column(alloc, levels, name.as_str());
    }
    match nearest_called(alloc, table.as_str(), name.as_str(), levels)? {
        Some(sight) => seen(sight, work),
        None => unknown_dotted(alloc, table.as_str(), name.as_str()),
    }
}

/// The column of the own FROM.
fn own_sight(alloc: Global, levels: &[Items<ScopeItem>], name: &str) -> Result<Option<Sight>, Cause>
    ensures { Answers (own_sight levels.now name.now) result }
{
    match levels {
        [] => Ok(None),
        [own, ..] => own_bare(alloc, name, own.as_slice()),
    }
}

/// A column further out than the own FROM.
fn outer_column(
    alloc: Global,
    levels: &[Items<ScopeItem>],
    name: &str,
    work: &mut Work,
) -> Result<Operand, Cause>
    ensures { Comes (of_outer name.now (drop 1 levels.now) work.old) result work.new }
{
    let sight = nearest_bare(alloc, name, &levels[levels.len().min(1)..])?;
    match further_out(sight)? {
        Some(sight) => seen(sight, work),
        None => unknown(alloc, name),
    }
}

fn unknown(alloc: Global, name: &str) -> Result<Operand, Cause>
    ensures { Refuses (cause.Unknown kind.Column name.now) result }
{
    Err(Cause::Unknown(NameKind::Column, text_of(alloc, name)?))
}

/// The expression of the first result of this name behind AS.
fn result_called<'a>(
    alloc: Global,
    scope: &Scope<'a>,
    called: &str,
) -> Result<Option<&'a Expr>, Cause>
    ensures ok { IfOk result (λ e. option_copied e ≡ result_called scope.now.text scope.now.results called.now) }
    ensures mem { OnlyMem result }
{
    for column in scope.results {
        if let ResultColumn::Expression(spanned, Some(alias)) = column {
            if is_same_name(
                name(alloc, scope.text, alias)?.as_bytes(),
                called.as_bytes(),
            ) {
                return Ok(Some(&spanned.expr));
            }
        }
    }
    Ok(None)
}

/// No item of this name has a column of this name.
fn unknown_dotted(alloc: Global, table: &str, name: &str) -> Result<Operand, Cause>
    ensures { Refuses (cause.Unknown kind.Column (dotted table.now name.now)) result }
{
    Err(Cause::Unknown(NameKind::Column, dotted(alloc, table, name)?))
}
