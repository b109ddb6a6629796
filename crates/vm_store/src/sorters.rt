// Sorters.
ghost use Rattle.std.specs.Prelude.{◌≡◌, ◌∷◌, ◌++◌, [], drop, is_some, map, slice_get, slice_index_or, IfOk, OnOk, OnErr};
ghost use Rattle.eng_index.specs.Keys.{key_cmp, term_cmp, term_value};
ghost use Rattle.eng_value.specs.Arrangements.{arranged};
ghost use Rattle.eng_value.specs.declared.value.Value.TheVariants.{Null};
ghost use Rattle.vm_code.specs.Machine.{added, comes_before, compared, first_of, good_or_null, last_list, other_lists, row_of_outs};

use eng_index::{KeyTerm, TermSource};
use eng_value::{Out, Value, compare};
use std::alloc::{AllocError, Global};
use std::cmp::Ordering;
use std::marker::Model;

/// A row of a sorter: what registers held. Contracts see the row of the machine over lists.
#[derive(Drop)]
pub struct SorterRow {
    outs: Vec<Out>,
}

impl Model for SorterRow {
    ghost use Rattle.eng_value.specs.Environments.{ItemRow};
    ghost use Rattle.vm_code.specs.Machine.{row_of_outs};

    ghost Value = { ItemRow };

    ghost use Rattle.std.specs.Coded.{codes};
    ghost use Rattle.eng_value.specs.contracts.causes.Causes as causes;
    ghost use Rattle.eng_value.specs.contracts.out.Out as out;

    ghost coded = { Prim.hlevel (codes, causes.the_row.coded, out.the_row.coded) };

    ghost view = { λ r. row_of_outs r.outs.items };
}

impl SorterRow {
    pub fn new(outs: Vec<Out>) -> SorterRow
        ensures { result ≡ row_of_outs outs.items }
    {
        SorterRow { outs }
    }

    /// What its columns hold.
    fn outs(&self) -> &[Out]
        ensures { row_of_outs result.now ≡ self.now }
    {
        self.outs.as_slice()
    }
}

/// The rows of a sorter that are in order, the first of which is left out from each `drop_first` on. Contracts see the list of those that are left.
#[derive(Drop)]
pub struct SortedRows {
    rows: Vec<SorterRow>,
    dropped: usize,
}

impl Model for SortedRows {
    ghost use Rattle.std.specs.Prelude.{List, drop};
    ghost use Rattle.eng_value.specs.Environments.{ItemRow};

    ghost Value = { List ItemRow };

    ghost use Rattle.std.specs.Coded.{codes};
    ghost use Rattle.eng_value.specs.contracts.causes.Causes as causes;
    ghost use Rattle.eng_value.specs.contracts.out.Out as out;

    ghost coded = { Prim.hlevel (codes, causes.the_row.coded, out.the_row.coded) };

    ghost view = { λ r. drop r.dropped r.rows.items };
}

impl SortedRows {
    /// None.
    pub fn none(alloc: Global) -> SortedRows
        ensures { result ≡ [] }
    {
        SortedRows::new(Vec::new(alloc))
    }

    fn new(rows: Vec<SorterRow>) -> SortedRows
        ensures { result ≡ rows.items }
    {
        SortedRows { rows, dropped: 0 }
    }

    /// Whether there is one.
    pub fn has_first(&self) -> bool
        ensures { result ≡ is_some (slice_get self.now 0) }
    {
        self.dropped < self.rows.len()
    }

    /// What the columns of the first hold; nothing where there is none.
    pub fn first(&self) -> &[Out]
        ensures { row_of_outs result.now ≡ first_of self.now }
    {
        match self.rows.get(self.dropped) {
            None => &[],
            Some(row) => row.outs(),
        }
    }

    /// Leaves out the first, and says whether there is one behind it.
    #[tactic(auto, using(crate::proofs::SorterLaws::drop_one, crate::proofs::SorterLaws::has_second))]
    pub fn drop_first(&mut self) -> bool
        ensures rows { self.new ≡ drop 1 self.old }
        ensures more { result ≡ is_some (slice_get self.old 1) }
    {
        if self.rows.len() <= self.dropped {
            return false;
        }
        self.dropped += 1;
        self.dropped < self.rows.len()
    }
}

/// The rows of a sorter that is open, in the order in which they came. Contracts see the list of them.
#[derive(Drop)]
struct Sorter {
    rows: Vec<SorterRow>,
}

impl Model for Sorter {
    ghost use Rattle.std.specs.Prelude.{List};
    ghost use Rattle.eng_value.specs.Environments.{ItemRow};

    ghost Value = { List ItemRow };

    ghost use Rattle.std.specs.Coded.{codes};
    ghost use Rattle.eng_value.specs.contracts.causes.Causes as causes;
    ghost use Rattle.eng_value.specs.contracts.out.Out as out;

    ghost coded = { Prim.hlevel (codes, causes.the_row.coded, out.the_row.coded) };

    ghost view = { λ s. s.rows.items };
}

impl Sorter {
    /// One row more, behind the others.
    fn push(&mut self, row: SorterRow) -> Result<(), AllocError>
        ensures ok { OnOk result (self.new ≡ self.old ++ row ∷ []) }
        ensures err { OnErr result (self.new ≡ self.old) }
    {
        self.rows.push(row)?;
        Ok(())
    }
}

/// The sorters that are open in a frame. Where there are none that takes no memory. Contracts see the list of what each holds, the last opened first.
#[derive(Drop)]
pub struct Sorters {
    sorters: Vec<Sorter>,
}

impl Model for Sorters {
    ghost use Rattle.std.specs.Prelude.{List, reverse};
    ghost use Rattle.eng_value.specs.Environments.{ItemRow};

    ghost Value = { List (List ItemRow) };

    ghost use Rattle.std.specs.Coded.{codes};
    ghost use Rattle.eng_value.specs.contracts.causes.Causes as causes;
    ghost use Rattle.eng_value.specs.contracts.out.Out as out;

    ghost coded = { Prim.hlevel (codes, causes.the_row.coded, out.the_row.coded) };

    ghost view = { λ s. reverse s.sorters.items };
}

impl Sorters {
    /// None.
    pub fn new(alloc: Global) -> Sorters
        ensures { result ≡ [] }
    {
        Sorters {
            sorters: Vec::new(alloc),
        }
    }

    /// Opens one more, which holds no rows.
    pub fn open(&mut self, alloc: Global) -> Result<(), AllocError>
        ensures ok { OnOk result (self.new ≡ [] ∷ self.old) }
        ensures err { OnErr result (self.new ≡ self.old) }
    {
        self.sorters.push(Sorter {
            rows: Vec::new(alloc),
        })?;
        Ok(())
    }

    /// Puts a row behind those of the one that was opened last, if there is one.
    pub fn insert(&mut self, row: SorterRow) -> Result<(), AllocError>
        ensures ok { OnOk result (self.new ≡ added row self.old) }
        ensures err { OnErr result (self.new ≡ self.old) }
    {
        match self.sorters.pop() {
            None => Ok(()),
            Some(mut sorter) => {
                let pushed = sorter.push(row);
                self.sorters.push_reserved(sorter);
                pushed
            }
        }
    }

    /// Takes out the one that was opened last, and puts its rows in the order of terms: those that are equal there stay as they stood.
    /// Where there is none it gives no rows.
    pub fn sort_last(&mut self, alloc: Global, terms: &[KeyTerm]) -> Result<SortedRows, AllocError>
        ensures rows { IfOk result (λ rows. rows ≡ arranged (comes_before terms.now) (last_list self.old)) }
        ensures left { self.new ≡ other_lists self.old }
    {
        match self.sorters.pop() {
            None => Ok(SortedRows::none(alloc)),
            Some(sorter) => {
                let mut rows = sorter.rows;
                sort(&mut rows, terms)?;
                Ok(SortedRows::new(rows))
            }
        }
    }
}

/// Puts rows in the order of terms: those that are equal there stay as they stood. Where memory is wanting all stay.
fn sort(rows: &mut Vec<SorterRow>, terms: &[KeyTerm]) -> Result<(), AllocError>
    ensures ok { OnOk result (rows.new.items ≡ arranged (comes_before terms.now) rows.old.items) }
    ensures err { OnErr result (rows.new.items ≡ rows.old.items) }
{
    rows.sort_by(|a, b| compare_rows(terms, a, b))
}

/// How one row stands to another, by the first term in which they differ. Takes no memory.
fn compare_rows(terms: &[KeyTerm], a: &SorterRow, b: &SorterRow) -> Ordering
    ensures { result ≡ key_cmp terms.now (compared a.now) (compared b.now) }
{
    for term in terms {
        let ordering = compare_by(term, a.outs(), b.outs());
        if ordering.is_ne() {
            return ordering;
        }
    }
    Ordering::Equal
}

/// How one row stands to another in a term.
fn compare_by(term: &KeyTerm, a: &[Out], b: &[Out]) -> Ordering
    ensures { result ≡ term_cmp term.now (term_value term.now (compared (row_of_outs a.now))) (term_value term.now (compared (row_of_outs b.now))) }
{
    match term.source {
        TermSource::Rowid => Ordering::Equal,
        TermSource::Column(column) => compare_columns(term, a, b, column as usize),
    }
}

/// The same in a term that reads a column.
fn compare_columns(term: &KeyTerm, a: &[Out], b: &[Out], column: usize) -> Ordering
    ensures { result ≡ term_cmp term.now (slice_index_or (map good_or_null a.now) column Null) (slice_index_or (map good_or_null b.now) column Null) }
{
    let null = Value::Null;
    let a = value_at(a, column, &null);
    let b = value_at(b, column, &null);
    if term.descending {
        compare(b, a, term.collation)
    } else {
        compare(a, b, term.collation)
    }
}

/// The value of a column; `null` where there is none, or where it is bad.
fn value_at<'a>(outs: &'a [Out], column: usize, null: &'a Value) -> &'a Value
    requires { null.now ≡ Null }
    ensures { result.now ≡ slice_index_or (map good_or_null outs.now) column Null }
{
    match outs.get(column) {
        Some(Out::Good(value)) => value,
        _ => null,
    }
}
