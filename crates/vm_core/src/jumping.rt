// The instructions that jump, by a method each. The two that a scan runs for each row are inlined, since a call costs as much as they do.
ghost use Rattle.std.specs.Prelude.{◌≡◌, ◌+◌, ◌^◌, ◌<◌};
ghost use Rattle.vm_code.specs.Machine.{advanced, cursor_at, cursor_rows, integer_in, is_missing, jump_if, read as read_of, rewound, world_of};
ghost use Rattle.vm_core.specs.Events.{Acts, ActsOn};
ghost use Rattle.vm_core.specs.Tests.{passes};

use crate::pace::Pace;
use crate::running::Running;
use eng_value::Out;
use std::alloc::{AllocError, Global};
use vm_store::{is_accepted, is_bad, is_known, is_null, is_rejected};
use vm_tables::Tables;

/// What a jump asks of a register.
#[derive(Clone, Copy)]
pub(crate) enum Test {
    /// Whether it is true, where this says whether NULL counts as true.
    True(bool),
    /// Whether it is false, where this says whether NULL counts as false.
    False(bool),
    /// Whether it is NULL.
    Null,
    /// Whether it is a value that is not NULL.
    Known,
    /// Whether it is bad.
    Bad,
}

impl Test {
    /// Whether what a register holds passes.
    pub(crate) fn passes(self, alloc: Global, out: &Out) -> bool
        ensures { result ≡ passes self out.now }
    {
        match self {
            Test::True(on_null) => is_accepted(alloc, out, on_null),
            Test::False(on_null) => is_rejected(alloc, out, on_null),
            Test::Null => is_null(out),
            Test::Known => is_known(out),
            Test::Bad => is_bad(out),
        }
    }
}

impl Running {
    /// Jumps where a register passes a test.
    #[inline(always)]
    pub(crate) fn jump_where(
        &mut self,
        alloc: Global,
        test: Test,
        register: u32,
        target: usize,
    ) -> Result<Pace, AllocError>
        requires { self.old.pc + 1 < 2 ^ 64 }
        ensures { Acts result self.old self.new (λ s. jump_if (passes test (read_of s.regs register)) s target) }
    {
        let jumps = self.passes(alloc, test, register);
        self.jump_if(jumps, target);
        Ok(Pace::Going)
    }

    /// Brings a cursor to the first row of its table, and jumps where there is none.
    #[inline(never)]
    pub(crate) fn jump_where_empty(
        &mut self,
        tables: &Tables,
        cursor: u32,
        target: usize,
    ) -> Result<Pace, AllocError>
        requires { self.old.pc + 1 < 2 ^ 64 }
        ensures { ActsOn result self.old tables.now.world self.new tables.now.world (λ s. rewound (cursor_at s.scene.cursors cursor) s cursor target) }
    {
        let found = self.rewind(tables, cursor);
        self.jump_if(!found, target);
        Ok(Pace::Going)
    }

    /// Jumps where a cursor's table has no row of the rowid that a register holds.
    #[inline(never)]
    pub(crate) fn jump_where_missing(
        &mut self,
        tables: &Tables,
        cursor: u32,
        rowid: u32,
        target: usize,
    ) -> Result<Pace, AllocError>
        requires { self.old.pc + 1 < 2 ^ 64 }
        ensures { ActsOn result self.old tables.now.world self.new tables.now.world (λ s.
            jump_if (is_missing (cursor_rows (world_of s.shared) (cursor_at s.scene.cursors cursor)) (integer_in s.regs rowid)) s target) }
    {
        let rowid = self.registers().integer(rowid);
        let jumps = self.misses(tables, cursor, rowid);
        self.jump_if(jumps, target);
        Ok(Pace::Going)
    }

    /// Brings a cursor to the row behind its own, and jumps where there is one.
    #[inline(always)]
    pub(crate) fn jump_where_next(
        &mut self,
        tables: &Tables,
        cursor: u32,
        target: usize,
    ) -> Result<Pace, AllocError>
        requires { self.old.pc + 1 < 2 ^ 64 }
        ensures { ActsOn result self.old tables.now.world self.new tables.now.world (λ s. advanced (cursor_at s.scene.cursors cursor) s cursor target) }
    {
        let found = self.advance(tables, cursor);
        self.jump_if(found, target);
        Ok(Pace::Going)
    }
}
