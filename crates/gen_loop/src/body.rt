// What is done with rows.
ghost use Rattle.std.specs.Prelude.{◌≡◌, ◌<◌, ◌≤◌, ℕ, List, None, OnOk};
ghost use Rattle.gen_loop.specs.Loops.{KeepsWritten};
ghost use Rattle.vm_code.specs.declared.open_cursor.Need.{Need};
ghost use Rattle.vm_code.specs.Frames.{Does, Effect, needing};

use std::alloc::AllocError;
use vm_code::Builder;

/// What loops do with each row that they give.
pub trait LoopBody {
    ghost effect: { Self → Effect };

    /// The most instructions for a row.
    ghost cost: { Self → ℕ };

    /// The registers below this number are the body's own.
    ghost own: { Self → ℕ };

    /// What its code needs of cursors.
    ghost needs: { Self → List Need };

    /// Writes the body's code, where the register `causes` holds the causes of the row. It is written once, and writes no table.
    fn emit(&mut self, b: &mut Builder, causes: u32) -> Result<(), AllocError>
        requires taken { causes < b.old.next }
        requires owned { own self.old ≤ causes }
        requires counted { b.old.next ≤ b.old.most }
        ensures does { OnOk result (Does (needing (needs self.old)) b.old b.new (own self.old) causes None (effect self.old) (λ _ _ _. cost self.old)) }
        ensures keeps { OnOk result (KeepsWritten (effect self.old)) }
        ensures cursors { OnOk result (b.new.cursors ≡ b.old.cursors) }
        ensures units { OnOk result (b.new.units ≡ b.old.units) };
}
