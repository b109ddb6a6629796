// What single instructions with registers alone are said to do.
ghost use Rattle.std.specs.Prelude.{◌≡◌, ◌∷◌, [], IfOk, codes};
ghost use Rattle.std.specs.Fmt.{decimal, signed_decimal};
ghost use Rattle.std.specs.List.{concat};
ghost use Rattle.vm_listing.specs.Listing.{gets, joins, or_null, says};
ghost use Rattle.vm_listing.specs.Pieces.{blob_literal, register, registers, text_literal};

use crate::literals::{blob_literal, text_literal};
use crate::pieces::{between, gets, number_between, numbered, register, registers, says, text_of};
use eng_value::Text;
use itoa::Buffer;
use std::alloc::{AllocError, Global};

/// The words for a jump that is taken on NULL too.
pub(crate) fn or_null(on_null: bool) -> &'static str
    ensures { result.now ≡ or_null on_null }
{
    if on_null { " or NULL" } else { "" }
}

/// A register between two words.
pub(crate) fn about(alloc: Global, left: &str, number: u32, right: &str) -> Result<Text, AllocError>
    ensures { IfOk result (λ text. text ≡ joins left.now (register number) right.now) }
{
    between(alloc, left, &register(alloc, number)?, right)
}

/// A register behind a word.
pub(crate) fn behind(alloc: Global, word: &str, number: u32) -> Result<Text, AllocError>
    ensures { IfOk result (λ text. text ≡ says word.now (register number)) }
{
    says(alloc, word, &register(alloc, number)?)
}

/// Registers behind a word.
pub(crate) fn all_behind(
    alloc: Global,
    word: &str,
    first: u32,
    count: u32,
) -> Result<Text, AllocError>
    ensures { IfOk result (λ text. text ≡ says word.now (registers first count)) }
{
    says(alloc, word, &registers(alloc, first, count)?)
}

/// A call of a unit.
pub(crate) fn call(
    alloc: Global,
    unit: u32,
    first: u32,
    count: u32,
    to: u32,
) -> Result<Text, AllocError>
    ensures { IfOk result (λ text. text ≡ gets to (concat (codes "unit " ∷ decimal unit ∷ codes "(" ∷ registers first count ∷ codes ")" ∷ []))) }
{
    let handed = registers(alloc, first, count)?;
    let called = text_of(
        alloc,
        &[
            "unit ",
            Buffer::new().format(unit),
            "(",
            handed.as_str(),
            ")",
        ],
    )?;
    gets(alloc, to, called.as_str())
}

pub(crate) fn argument(alloc: Global, number: u32, to: u32) -> Result<Text, AllocError>
    ensures { IfOk result (λ text. text ≡ gets to (joins (codes "argument[") (decimal number) (codes "]"))) }
{
    let read = number_between(alloc, "argument[", number, "]")?;
    gets(alloc, to, read.as_str())
}

pub(crate) fn integer(alloc: Global, value: i64, to: u32) -> Result<Text, AllocError>
    ensures { IfOk result (λ text. text ≡ gets to (signed_decimal value)) }
{
    gets(alloc, to, Buffer::new().format(value))
}

pub(crate) fn text(alloc: Global, text: &str, to: u32) -> Result<Text, AllocError>
    ensures { IfOk result (λ shown. shown ≡ gets to (text_literal text.now)) }
{
    let shown = text_literal(alloc, text)?;
    gets(alloc, to, shown.as_str())
}

pub(crate) fn blob(alloc: Global, blob: &[u8], to: u32) -> Result<Text, AllocError>
    ensures { IfOk result (λ shown. shown ≡ gets to (blob_literal blob.now)) }
{
    let shown = blob_literal(alloc, blob)?;
    gets(alloc, to, shown.as_str())
}

pub(crate) fn variable(alloc: Global, number: u32, to: u32) -> Result<Text, AllocError>
    ensures { IfOk result (λ text. text ≡ gets to (says (codes "?") (decimal number))) }
{
    let read = numbered(alloc, "?", number)?;
    gets(alloc, to, read.as_str())
}

pub(crate) fn copy(alloc: Global, from: u32, to: u32) -> Result<Text, AllocError>
    ensures { IfOk result (λ text. text ≡ gets to (register from)) }
{
    let read = register(alloc, from)?;
    gets(alloc, to, read.as_str())
}

pub(crate) fn merge(alloc: Global, from: u32, to: u32) -> Result<Text, AllocError>
    ensures { IfOk result (λ text. text ≡ gets to (joins (codes "bad if ") (register from) (codes " is bad"))) }
{
    let read = about(alloc, "bad if ", from, " is bad")?;
    gets(alloc, to, read.as_str())
}

/// A cursor that stands on registers.
pub(crate) fn row_of(
    alloc: Global,
    cursor: u32,
    rowid: u32,
    first: u32,
    count: u32,
) -> Result<Text, AllocError>
    ensures { IfOk result (λ text. text ≡ concat (codes "c" ∷ decimal cursor ∷ codes " on row " ∷ register rowid ∷ codes ": " ∷ registers first count ∷ [])) }
{
    let rowid = register(alloc, rowid)?;
    let values = registers(alloc, first, count)?;
    text_of(
        alloc,
        &[
            "c",
            Buffer::new().format(cursor),
            " on row ",
            rowid.as_str(),
            ": ",
            values.as_str(),
        ],
    )
}

/// Registers get the columns of a sorter's row.
pub(crate) fn sorter_data(
    alloc: Global,
    cursor: u32,
    first: u32,
    count: u32,
) -> Result<Text, AllocError>
    ensures { IfOk result (λ text. text ≡ concat (registers first count ∷ codes "=c" ∷ decimal cursor ∷ [])) }
{
    let values = registers(alloc, first, count)?;
    text_of(
        alloc,
        &[values.as_str(), "=c", Buffer::new().format(cursor)],
    )
}
