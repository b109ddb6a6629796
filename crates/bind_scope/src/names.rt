// Names, looked up in the FROMs around them, the nearest first (SQL Language Expressions, section 3).
ghost use Rattle.std.specs.Prelude.{◌≡◌, ◌∷◌, [], IfOk, filter};
ghost use Rattle.std.specs.List.{flat_map};
ghost use Rattle.eng_entry.specs.Names.{is_same_name};
ghost use Rattle.std.specs.Option.{option_copied};
ghost use Rattle.eng_value.specs.declared.cause.Cause.TheVariants.{Misuse};
ghost use Rattle.sql_bound.specs.Answers.{Answers, OnlyMem, Refuses};
ghost use Rattle.sql_bound.specs.Columns.{further_out, name_shown};
ghost use Rattle.sql_bound.specs.Scopes.{bare_in, called_in, columns_named, nearest};
ghost use Rattle.bind_scope.specs.Sights.{candidates, first};

use crate::copies::{copied_text, text_of};
use crate::sights::{another_of, first_of, sight_in, sighted};
use eng_entry::is_same_name;
use eng_value::{Cause, Text};
use sql_bound::{Operand, ScopeColumn, ScopeItem, Sight};
use sqlite_items::Items;
use std::alloc::Global;

#[tactic(auto, using(crate::proofs::SightLaws::sight_steps))]
fn nearest_column(
    alloc: Global,
    table: Option<&str>,
    name: &str,
    levels: &[Items<ScopeItem>],
) -> Result<Option<Sight>, Cause>
    ensures { Answers (nearest name.now (candidates (option_copied table.entry) name.now) levels.now) result }
{
    let mut up = 0;
    for level in levels {
        let level = level.as_slice();
        if let Some(column) = first_of(table, name, level) {
            return sighted(alloc, up, name, column, another_of(table, name, level));
        }
        up += 1;
    }
    Ok(None)
}

/// The column that a name alone means in the nearest FROM that has one of the name. Two of them there are refused as ambiguous.
pub fn nearest_bare(
    alloc: Global,
    name: &str,
    levels: &[Items<ScopeItem>],
) -> Result<Option<Sight>, Cause>
    ensures { Answers (nearest name.now (bare_in name.now) levels.now) result }
{
    nearest_column(alloc, None, name, levels)
}

/// The column that `table.name` means, as `nearest_bare`.
pub fn nearest_called(
    alloc: Global,
    table: &str,
    name: &str,
    levels: &[Items<ScopeItem>],
) -> Result<Option<Sight>, Cause>
    ensures { Answers (nearest name.now (called_in table.now name.now) levels.now) result }
{
    nearest_column(alloc, Some(table), name, levels)
}

/// The column that a name alone means in this FROM.
pub fn own_bare(alloc: Global, name: &str, own: &[ScopeItem]) -> Result<Option<Sight>, Cause>
    ensures { Answers (nearest name.now (bare_in name.now) (own.now ∷ [])) result }
{
    sight_in(alloc, 0, None, name, own)
}

/// The same column, seen with one FROM more in between.
pub fn further_out(sight: Option<Sight>) -> Result<Option<Sight>, Cause>
    ensures ok { IfOk result (λ s. s ≡ further_out sight) }
    ensures mem { OnlyMem result }
{
    match sight {
        None => Ok(None),
        Some(Sight { up, column }) => match up.checked_add(1) {
            Some(up) => Ok(Some(Sight { up, column })),
            None => Err(Cause::Mem),
        },
    }
}

/// The first column of a FROM with the name.
#[tactic(auto, using(crate::proofs::SightLaws::sight_steps))]
fn declared<'a>(own: &'a [ScopeItem], name: &str) -> Option<&'a ScopeColumn>
    ensures { option_copied result ≡ first (flat_map (columns_named name.now) own.now) }
{
    for item in own {
        if let Some(column) = declared_in(item.columns.as_slice(), name) {
            return Some(column);
        }
    }
    None
}

fn declared_in<'a>(columns: &'a [ScopeColumn], name: &str) -> Option<&'a ScopeColumn>
    ensures { option_copied result ≡ first (filter (λ c. is_same_name c.name name.now) columns.now) }
{
    for column in columns {
        if is_same_name(column.name.as_bytes(), name.as_bytes()) {
            return Some(column);
        }
    }
    None
}

/// The name of a column, as it was declared in the nearest FROM, or as it is written where none has it.
pub fn name_shown(alloc: Global, levels: &[Items<ScopeItem>], name: &str) -> Result<Text, Cause>
    ensures ok { IfOk result (λ n. n ≡ name_shown levels.now name.now) }
    ensures mem { OnlyMem result }
{
    match levels {
        [] => text_of(alloc, name),
        [own, ..] => match declared(own.as_slice(), name) {
            Some(column) => copied_text(&column.name),
            None => text_of(alloc, name),
        },
    }
}

/// The refusal of a column where none may stand.
pub fn no_column<T>(alloc: Global, levels: &[Items<ScopeItem>], name: &str) -> Result<T, Cause>
    ensures { Refuses (Misuse (name_shown levels.now name.now)) result }
{
    let name = name_shown(alloc, levels, name)?;
    Err(Cause::Misuse(name))
}
