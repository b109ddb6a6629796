// Cursors.
ghost use Rattle.std.specs.Prelude.{◌≡◌, ◌∷◌, [], None, is_some, slice_get, true, false};
ghost use Rattle.vm_code.specs.Machine.{Closed, Open, Sorted, first_sorted, row_of_outs, standing_on};
ghost use Rattle.vm_store.specs.Cursors.{cursor_of, has_chosen, has_next_sorted, on_chosen, on_next_chosen, on_next_sorted};
ghost use Rattle.vm_store.specs.declared.cursor.Spot.TheVariants as spots;

use crate::{Rowids, SortedRows};
use eng_value::{Out, StoredRow};
use std::marker::Model;

/// A cursor: closed, open on a table and there on a row or on none, on a row that was chosen with others, on a row that is no table's, or
/// on the rows of a sorter.
/// Contracts see the cursor of the machine over lists.
#[derive(Drop)]
pub struct Cursor {
    spot: Spot,
}

/// Where a cursor stands.
#[derive(Drop)]
pub enum Spot {
    Closed,
    Open {
        table: u32,
        place: Option<Place>,
    },
    /// On a row of a table that was chosen with others, with the rowids of those behind it.
    Chosen {
        table: u32,
        place: Place,
        rest: Rowids,
    },
    /// On a row that is no table's, with none behind it.
    Standing {
        row: StoredRow,
    },
    /// In front of these rows of a sorter.
    Sorted {
        rows: SortedRows,
    },
}

/// A row by its rowid, and where the search for it came to, which makes the next search near it short. The row may stand
/// elsewhere by now, since rows may have come in front of it.
#[derive(Clone, Copy)]
pub struct Place {
    pub rowid: i64,
    pub near: usize,
}

impl Model for Cursor {
    ghost use Rattle.vm_code.specs.Machine.{Cursor as MeantCursor};

    ghost Value = { MeantCursor };

    ghost use Rattle.std.specs.Coded.{codes};
    ghost use Rattle.eng_value.specs.contracts.out.Out as out;

    ghost coded = { Prim.hlevel (codes, out.the_row.coded) };

    ghost use Rattle.vm_store.specs.Cursors.{cursor_of};

    ghost view = { λ c. cursor_of c.spot };
}

impl Cursor {
    pub fn closed() -> Cursor
        ensures { result ≡ Closed }
    {
        Cursor { spot: Spot::Closed }
    }

    /// On no row of a table.
    pub fn open(table: u32) -> Cursor
        ensures { result ≡ Open table None }
    {
        Cursor {
            spot: Spot::Open { table, place: None },
        }
    }

    /// On a row that is no table's.
    pub fn standing(row: StoredRow) -> Cursor
        ensures { result ≡ standing_on row }
    {
        Cursor {
            spot: Spot::Standing { row },
        }
    }

    /// In front of the rows of a sorter.
    pub fn sorted(rows: SortedRows) -> Cursor
        ensures { result ≡ Sorted rows }
    {
        Cursor {
            spot: Spot::Sorted { rows },
        }
    }

    /// Where it stands.
    pub fn spot(&self) -> &Spot
        ensures { cursor_of result.now ≡ self.now }
    {
        &self.spot
    }

    /// Goes to the row of a rowid, or to none. `near` is where the search for it came to.
    pub fn come_to(&mut self, table: u32, rowid: Option<i64>, near: usize)
        ensures { self.new ≡ Open table rowid }
    {
        let place = rowid.map(|rowid| Place { rowid, near });
        move_to(&mut self.spot, table, place);
    }

    /// Goes to the first of these rows of a table, with the others behind it, and says whether there is one. Where there is none it is on no
    /// row of the table.
    pub fn choose(&mut self, table: u32, rowids: Vec<i64>) -> bool
        ensures cursor { self.new ≡ on_chosen table rowids.items }
        ensures found { result ≡ is_some (slice_get rowids.items 0) }
    {
        let mut rest = Rowids::new(rowids);
        match rest.next() {
            None => {
                self.come_to(table, None, 0);
                false
            }
            Some(rowid) => {
                let place = Place { rowid, near: 0 };
                self.spot = Spot::Chosen { table, place, rest };
                true
            }
        }
    }

    /// Goes to the next of the rows that were chosen, and says whether there is one. Behind the last one it comes off its row; where none were
    /// chosen it stays as it is.
    pub fn next_chosen(&mut self) -> bool
        ensures cursor { self.new ≡ on_next_chosen self.old }
        ensures found { result ≡ has_chosen self.old }
    {
        next_chosen(&mut self.spot)
    }

    /// What the columns of a sorter's first row hold that it stands in front of; nothing where there is none.
    pub fn sorted_outs(&self) -> &[Out]
        ensures { row_of_outs result.now ≡ first_sorted self.now }
    {
        match &self.spot {
            Spot::Sorted { rows } => rows.first(),
            _ => &[],
        }
    }

    /// Leaves the first of a sorter's rows, and says whether there is one behind it. Where it stands elsewhere it stays as it is.
    pub fn next_sorted(&mut self) -> bool
        ensures cursor { self.new ≡ on_next_sorted self.old }
        ensures found { result ≡ has_next_sorted self.old }
    {
        match &mut self.spot {
            Spot::Sorted { rows } => rows.drop_first(),
            _ => false,
        }
    }

    /// Comes off its row and its table.
    pub fn close(&mut self)
        ensures { self.new ≡ Closed }
    {
        self.spot = Spot::Closed;
    }
}

/// Goes to a place of a table. Where it is on a table already it is written there, so that nothing of another kind is dropped.
fn move_to(spot: &mut Spot, table: u32, place: Option<Place>)
    ensures { spot.new ≡ spots.Open table place }
{
    match spot {
        Spot::Open {
            table: old_table,
            place: old_place,
        } => {
            *old_table = table;
            *old_place = place;
        }
        _ => *spot = Spot::Open { table, place },
    }
}

/// Goes to the next of the rows that were chosen.
fn next_chosen(spot: &mut Spot) -> bool
    ensures cursor { cursor_of spot.new ≡ on_next_chosen (cursor_of spot.old) }
    ensures found { result ≡ has_chosen (cursor_of spot.old) }
{
    match spot {
        Spot::Chosen { table, place, rest } => {
            if next_rowid(place, rest) {
                return true;
            }
            let table = *table;
            *spot = Spot::Open { table, place: None };
            false
        }
        _ => false,
    }
}

/// Takes the first of the rowids that are left for a place, and says whether there is one.
fn next_rowid(place: &mut Place, rest: &mut Rowids) -> bool
    ensures more { result ≡ true → rest.old ≡ place.new.rowid ∷ rest.new }
    ensures none { result ≡ false → rest.old ≡ [] }
{
    match rest.next() {
        None => false,
        Some(rowid) => {
            place.rowid = rowid;
            true
        }
    }
}
