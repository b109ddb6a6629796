// What instructions with cursors, operators and functions are said to do.
ghost use Rattle.std.specs.Prelude.{◌≡◌, ◌+◌, ◌∷◌, [], IfOk, codes};
ghost use Rattle.std.specs.Fmt.{decimal};
ghost use Rattle.std.specs.List.{concat};
ghost use Rattle.vm_listing.specs.Listing.{calls, gets, goes, joins, or_goes, says, schema_says, searches, unique_mark};
ghost use Rattle.vm_listing.specs.Pieces.{column, cursor, operand_text, register, registers, rowid, table_name};
ghost use Rattle.vm_listing.specs.Words.{binary_sign, terms_word, unary_sign};

use crate::cursors::{column, cursor, rowid, table_name};
use crate::numbers::at;
use crate::operands::{calls, operand_text};
use crate::pieces::{between, gets, goes, or_goes, register, registers, says, text_of};
use crate::terms::terms_word;
use crate::words::{binary_sign, bounds_word, unary_sign};
use eng_index::{Bounds, KeyTerm};
use eng_value::{BinaryOperator, Text, UnaryOperator};
use itoa::Buffer;
use std::alloc::{AllocError, Global};
use table_labels::TableLabel;
use vm_code::{Op, Operand, SchemaChange};

/// The tables, and the code of the unit, by which cursors are named.
#[derive(Clone, Copy)]
pub(crate) struct Names<'a> {
    pub(crate) alloc: Global,
    pub(crate) tables: &'a [TableLabel],
    pub(crate) code: &'a [Op],
}

impl Names<'_> {
    /// The name of a cursor behind a word.
    pub(crate) fn says(self, word: &str, number: u32) -> Result<Text, AllocError>
        ensures { IfOk result (λ text. text ≡ says word.now (cursor self.entry.tables.now self.entry.code.now number)) }
    {
        let named = cursor(self.alloc, self.tables, self.code, number)?;
        says(self.alloc, word, &named)
    }

    pub(crate) fn unary(
        self,
        operator: UnaryOperator,
        operand: &Operand,
        to: u32,
    ) -> Result<Text, AllocError>
        ensures { IfOk result (λ text. text ≡ gets to (says (unary_sign operator) (operand_text self.entry.tables.now self.entry.code.now operand.now))) }
    {
        let read = operand_text(self.alloc, self.tables, self.code, operand)?;
        let made = says(self.alloc, unary_sign(operator), &read)?;
        gets(self.alloc, to, made.as_str())
    }

    pub(crate) fn binary(
        self,
        operator: BinaryOperator,
        left: &Operand,
        right: &Operand,
        to: u32,
    ) -> Result<Text, AllocError>
        ensures { IfOk result (λ text. text ≡ gets to (joins (operand_text self.entry.tables.now self.entry.code.now left.now) (binary_sign operator) (operand_text self.entry.tables.now self.entry.code.now right.now))) }
    {
        let left = operand_text(self.alloc, self.tables, self.code, left)?;
        let right = operand_text(self.alloc, self.tables, self.code, right)?;
        let made = text_of(
            self.alloc,
            &[left.as_str(), binary_sign(operator), right.as_str()],
        )?;
        gets(self.alloc, to, made.as_str())
    }

    pub(crate) fn like_escaped(
        self,
        text: &Operand,
        pattern: &Operand,
        escape: &Operand,
        to: u32,
    ) -> Result<Text, AllocError>
        ensures { IfOk result (λ shown. shown ≡ gets to (concat (operand_text self.entry.tables.now self.entry.code.now text.now ∷ codes " like " ∷ operand_text self.entry.tables.now self.entry.code.now pattern.now ∷ codes " escape " ∷ operand_text self.entry.tables.now self.entry.code.now escape.now ∷ []))) }
    {
        let text = operand_text(self.alloc, self.tables, self.code, text)?;
        let pattern = operand_text(self.alloc, self.tables, self.code, pattern)?;
        let escape = operand_text(self.alloc, self.tables, self.code, escape)?;
        let made = text_of(
            self.alloc,
            &[
                text.as_str(),
                " like ",
                pattern.as_str(),
                " escape ",
                escape.as_str(),
            ],
        )?;
        gets(self.alloc, to, made.as_str())
    }

    pub(crate) fn function(self, name: &str, args: &[Operand], to: u32) -> Result<Text, AllocError>
        ensures { IfOk result (λ text. text ≡ gets to (calls (operand_text self.entry.tables.now self.entry.code.now) name.now args.now)) }
    {
        let made = calls(self.alloc, self.tables, self.code, name, args)?;
        gets(self.alloc, to, made.as_str())
    }

    /// A cursor on a table, with words behind it.
    pub(crate) fn opened(self, number: u32, table: u32, behind: &str) -> Result<Text, AllocError>
        ensures { IfOk result (λ text. text ≡ concat (codes "c" ∷ decimal number ∷ codes " on " ∷ table_name self.entry.tables.now table ∷ behind.now ∷ [])) }
    {
        let table = table_name(self.alloc, self.tables, table)?;
        text_of(
            self.alloc,
            &[
                "c",
                Buffer::new().format(number),
                " on ",
                table.as_str(),
                behind,
            ],
        )
    }

    pub(crate) fn rewind(self, number: u32, base: usize, target: usize) -> Result<Text, AllocError>
        ensures { IfOk result (λ text. text ≡ or_goes (codes "first of ") (cursor self.entry.tables.now self.entry.code.now number) (base + target)) }
    {
        let named = cursor(self.alloc, self.tables, self.code, number)?;
        or_goes(self.alloc, "first of ", &named, base, target)
    }

    pub(crate) fn next(self, number: u32, base: usize, target: usize) -> Result<Text, AllocError>
        ensures { IfOk result (λ text. text ≡ joins (codes "next of ") (cursor self.entry.tables.now self.entry.code.now number) (says (codes ", ") (goes (base + target)))) }
    {
        let named = cursor(self.alloc, self.tables, self.code, number)?;
        let jump = goes(self.alloc, base, target)?;
        let back = says(self.alloc, ", ", &jump)?;
        between(self.alloc, "next of ", &named, back.as_str())
    }

    pub(crate) fn search(
        self,
        number: u32,
        terms: &[KeyTerm],
        bounds: Bounds,
        first: u32,
        target: usize,
    ) -> Result<Text, AllocError>
        ensures { IfOk result (λ text. text ≡ searches (cursor self.entry.tables.now self.entry.code.now number) terms.now bounds first target) }
    {
        let named = cursor(self.alloc, self.tables, self.code, number)?;
        let terms = terms_word(self.alloc, terms)?;
        let bounds = bounds_word(self.alloc, bounds)?;
        let first = register(self.alloc, first)?;
        text_of(
            self.alloc,
            &[
                "first of ",
                named.as_str(),
                " by ",
                terms.as_str(),
                ": ",
                bounds.as_str(),
                " from ",
                first.as_str(),
                ", else goto ",
                Buffer::new().format(target),
            ],
        )
    }

    pub(crate) fn seek(self, number: u32, row: u32) -> Result<Text, AllocError>
        ensures { IfOk result (λ text. text ≡ concat (codes "row " ∷ register row ∷ codes " of " ∷ cursor self.entry.tables.now self.entry.code.now number ∷ [])) }
    {
        let named = cursor(self.alloc, self.tables, self.code, number)?;
        let row = register(self.alloc, row)?;
        text_of(self.alloc, &["row ", row.as_str(), " of ", named.as_str()])
    }

    pub(crate) fn column(self, number: u32, place: u32, to: u32) -> Result<Text, AllocError>
        ensures { IfOk result (λ text. text ≡ gets to (column self.entry.tables.now self.entry.code.now number place)) }
    {
        let read = column(self.alloc, self.tables, self.code, number, place)?;
        gets(self.alloc, to, read.as_str())
    }

    pub(crate) fn rowid(self, number: u32, to: u32) -> Result<Text, AllocError>
        ensures { IfOk result (λ text. text ≡ gets to (rowid self.entry.tables.now self.entry.code.now number)) }
    {
        let read = rowid(self.alloc, self.tables, self.code, number)?;
        gets(self.alloc, to, read.as_str())
    }

    pub(crate) fn missing(
        self,
        number: u32,
        row: u32,
        base: usize,
        target: usize,
    ) -> Result<Text, AllocError>
        ensures { IfOk result (λ text. text ≡ concat (codes "if no row " ∷ register row ∷ codes " in " ∷ cursor self.entry.tables.now self.entry.code.now number ∷ codes " goto " ∷ decimal (base + target) ∷ [])) }
    {
        let named = cursor(self.alloc, self.tables, self.code, number)?;
        let row = register(self.alloc, row)?;
        let target = at(base, target)?;
        text_of(
            self.alloc,
            &[
                "if no row ",
                row.as_str(),
                " in ",
                named.as_str(),
                " goto ",
                Buffer::new().format(target),
            ],
        )
    }

    pub(crate) fn fits(
        self,
        number: u32,
        row: u32,
        first: u32,
        count: u32,
        target: usize,
    ) -> Result<Text, AllocError>
        ensures { IfOk result (λ text. text ≡ concat (codes "if row " ∷ register row ∷ codes ": " ∷ registers first count ∷ codes " fits in " ∷ cursor self.entry.tables.now self.entry.code.now number ∷ codes " goto " ∷ decimal target ∷ [])) }
    {
        let named = cursor(self.alloc, self.tables, self.code, number)?;
        let row = register(self.alloc, row)?;
        let values = registers(self.alloc, first, count)?;
        text_of(
            self.alloc,
            &[
                "if row ",
                row.as_str(),
                ": ",
                values.as_str(),
                " fits in ",
                named.as_str(),
                " goto ",
                Buffer::new().format(target),
            ],
        )
    }

    pub(crate) fn new_rowid(self, number: u32, to: u32) -> Result<Text, AllocError>
        ensures { IfOk result (λ text. text ≡ gets to (says (codes "new rowid of ") (cursor self.entry.tables.now self.entry.code.now number))) }
    {
        let made = self.says("new rowid of ", number)?;
        gets(self.alloc, to, made.as_str())
    }

    pub(crate) fn insert(
        self,
        number: u32,
        row: u32,
        first: u32,
        count: u32,
    ) -> Result<Text, AllocError>
        ensures { IfOk result (λ text. text ≡ concat (cursor self.entry.tables.now self.entry.code.now number ∷ codes " gets row " ∷ register row ∷ codes ": " ∷ registers first count ∷ [])) }
    {
        let named = cursor(self.alloc, self.tables, self.code, number)?;
        let row = register(self.alloc, row)?;
        let values = registers(self.alloc, first, count)?;
        text_of(
            self.alloc,
            &[
                named.as_str(),
                " gets row ",
                row.as_str(),
                ": ",
                values.as_str(),
            ],
        )
    }

    pub(crate) fn index(
        self,
        number: u32,
        terms: &[KeyTerm],
        unique: &Option<Text>,
    ) -> Result<Text, AllocError>
        ensures { IfOk result (λ text. text ≡ concat (codes "index of " ∷ cursor self.entry.tables.now self.entry.code.now number ∷ codes " by " ∷ terms_word terms.now ∷ unique_mark unique.now ∷ [])) }
    {
        let named = cursor(self.alloc, self.tables, self.code, number)?;
        let terms = terms_word(self.alloc, terms)?;
        let mark = unique_mark(self.alloc, unique)?;
        text_of(
            self.alloc,
            &[
                "index of ",
                named.as_str(),
                " by ",
                terms.as_str(),
                mark.as_str(),
            ],
        )
    }

    pub(crate) fn schema(self, change: SchemaChange) -> Result<Text, AllocError>
        ensures { IfOk result (λ text. text ≡ schema_says self.entry.tables.now change) }
    {
        match change {
            SchemaChange::AddTable => Text::from_str(self.alloc, "add a table"),
            SchemaChange::DropTable { table } => {
                let table = table_name(self.alloc, self.tables, table)?;
                says(self.alloc, "drop ", &table)
            }
        }
    }
}

/// The table that a UNIQUE index names.
fn unique_mark(alloc: Global, unique: &Option<Text>) -> Result<Text, AllocError>
    ensures { IfOk result (λ text. text ≡ unique_mark unique.now) }
{
    match unique {
        None => Text::from_str(alloc, ""),
        Some(table) => text_of(alloc, &[" unique in ", table.as_str()]),
    }
}

/// The order in which a sorter's rows are put.
pub(crate) fn sort(
    alloc: Global,
    number: u32,
    terms: &[KeyTerm],
    base: usize,
    target: usize,
) -> Result<Text, AllocError>
    ensures { IfOk result (λ text. text ≡ concat (codes "sort c" ∷ decimal number ∷ codes " by " ∷ terms_word terms.now ∷ codes ", if empty goto " ∷ decimal (base + target) ∷ [])) }
{
    let terms = terms_word(alloc, terms)?;
    let target = at(base, target)?;
    text_of(
        alloc,
        &[
            "sort c",
            Buffer::new().format(number),
            " by ",
            terms.as_str(),
            ", if empty goto ",
            Buffer::new().format(target),
        ],
    )
}

/// A sorter's next row.
pub(crate) fn sorter_next(
    alloc: Global,
    number: u32,
    base: usize,
    target: usize,
) -> Result<Text, AllocError>
    ensures { IfOk result (λ text. text ≡ concat (codes "next of c" ∷ decimal number ∷ codes ", goto " ∷ decimal (base + target) ∷ [])) }
{
    let target = at(base, target)?;
    text_of(
        alloc,
        &[
            "next of c",
            Buffer::new().format(number),
            ", goto ",
            Buffer::new().format(target),
        ],
    )
}
