// The instructions of sorters, by a method each.
ghost use Rattle.std.specs.Prelude.{◌≡◌, ◌+◌, ◌^◌, ◌<◌, ◌∷◌, [], slice_set};
ghost use Rattle.eng_value.specs.Arrangements.{arranged};
ghost use Rattle.vm_code.specs.Machine.{On, Sorted, added, columns_from, comes_before, cursor_at, dropped, first_sorted, last_list, other_lists, outs_from, put_all, row_of_outs, skip, sorted_to, with_cursor, with_lists};
ghost use Rattle.vm_store.specs.Cursors.{has_next_sorted, on_next_sorted};
ghost use Rattle.vm_core.specs.Events.{Acts};

use crate::pace::Pace;
use crate::running::Running;
use eng_index::KeyTerm;
use std::alloc::{AllocError, Global};
use vm_store::{Cursor, SortedRows, SorterRow};

impl Running {
    /// Opens a sorter without rows, and a cursor for those that it will have, and goes on.
    #[inline(never)]
    pub(crate) fn open_sorter(&mut self, alloc: Global, cursor: u32) -> Result<Pace, AllocError>
        requires { self.old.pc + 1 < 2 ^ 64 }
        ensures { Acts result self.old self.new (λ s. skip (with_cursor (with_lists s ([] ∷ s.store.lists)) cursor (Sorted []))) }
    {
        self.sorters.open(alloc)?;
        self.put_cursor(cursor, Cursor::sorted(SortedRows::none(alloc)));
        Ok(Pace::Going)
    }

    /// Puts what so many registers hold as a row into the sorter that was opened last, and goes on.
    #[inline(never)]
    pub(crate) fn insert_sorted(
        &mut self,
        alloc: Global,
        first: u32,
        count: u32,
    ) -> Result<Pace, AllocError>
        requires { self.old.pc + 1 < 2 ^ 64 }
        ensures { Acts result self.old self.new (λ s. skip (with_lists s (added (row_of_outs (outs_from s.regs first count)) s.store.lists))) }
    {
        let outs = self.registers.outs(alloc, first, count)?;
        self.sorters.insert(SorterRow::new(outs))?;
        self.pc += 1;
        Ok(Pace::Going)
    }

    /// Puts the rows of the sorter that was opened last in the order of terms and a cursor in front of them, and jumps where there are none.
    #[inline(never)]
    pub(crate) fn sort(
        &mut self,
        alloc: Global,
        cursor: u32,
        terms: &[KeyTerm],
        target: usize,
    ) -> Result<Pace, AllocError>
        requires { self.old.pc + 1 < 2 ^ 64 }
        ensures { Acts result self.old self.new (λ s.
            sorted_to (with_lists s (other_lists s.store.lists)) cursor target (arranged (comes_before terms.now) (last_list s.store.lists))) }
    {
        let rows = self.sorters.sort_last(alloc, terms)?;
        self.stand_before(cursor, rows, target)
    }

    /// Puts a cursor in front of rows of a sorter, and jumps where there are none.
    fn stand_before(
        &mut self,
        cursor: u32,
        rows: SortedRows,
        target: usize,
    ) -> Result<Pace, AllocError>
        requires { self.old.pc + 1 < 2 ^ 64 }
        ensures { Acts result self.old self.new (λ s. sorted_to s cursor target rows) }
    {
        let found = rows.has_first();
        self.put_cursor(cursor, Cursor::sorted(rows));
        if !found {
            self.jump(target);
        }
        Ok(Pace::Going)
    }

    /// Writes the columns of the sorter's first row that a cursor stands in front of to so many registers, and goes on.
    #[inline(never)]
    pub(crate) fn put_sorted(
        &mut self,
        cursor: u32,
        first: u32,
        count: u32,
    ) -> Result<Pace, AllocError>
        requires { self.old.pc + 1 < 2 ^ 64 }
        ensures { Acts result self.old self.new (λ s.
            On (record s { pc = s.pc + 1; regs = put_all s.regs first (columns_from (first_sorted (cursor_at s.scene.cursors cursor)) 0 count) })) }
    {
        match self.cursors.get(cursor as usize) {
            None => self.registers.load(first, &[], count)?,
            Some(cursor) => self.registers.load(first, cursor.sorted_outs(), count)?,
        }
        self.pc += 1;
        Ok(Pace::Going)
    }

    /// Leaves the sorter's first row that a cursor stands in front of, and jumps where there is one behind it.
    #[inline(never)]
    pub(crate) fn jump_where_sorted(
        &mut self,
        cursor: u32,
        target: usize,
    ) -> Result<Pace, AllocError>
        requires { self.old.pc + 1 < 2 ^ 64 }
        ensures { Acts result self.old self.new (λ s. dropped (cursor_at s.scene.cursors cursor) s cursor target) }
    {
        let more = self.next_sorted(cursor);
        self.jump_if(more, target);
        Ok(Pace::Going)
    }

    /// Leaves a sorter's first row, and says whether there is one behind it.
    fn next_sorted(&mut self, number: u32) -> bool
        ensures cursor { let moved = on_next_sorted (cursor_at self.old.scene.cursors number) in
            self.new ≡ record self.old { scene = record self.old.scene { cursors = slice_set self.old.scene.cursors number moved } } }
        ensures found { result ≡ has_next_sorted (cursor_at self.old.scene.cursors number) }
    {
        let at = number as usize;
        if at < self.cursors.len() {
            self.cursors[at].next_sorted()
        } else {
            false
        }
    }
}
