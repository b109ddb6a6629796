// Rows that are bad.
ghost use Rattle.std.specs.Prelude.{◌≡◌, OnOk};
ghost use Rattle.gen_write.specs.Stretches.{with_bad_refused, with_row_tested};

use std::alloc::AllocError;
use vm_code::{Builder, Op};

/// Writes code that gives up for the causes in the register `causes` where it is bad.
pub(crate) fn refuse_bad(b: &mut Builder, causes: u32) -> Result<(), AllocError>
    ensures { OnOk result (b.new ≡ with_bad_refused b.old causes) }
{
    let next = b.label()?;
    let fail = b.label()?;
    b.op(Op::IsBad {
        register: causes,
        target: fail,
    })?;
    b.op(Op::Goto { target: next })?;
    b.bind(fail)?;
    b.op(Op::HaltBad { register: causes })?;
    b.bind(next)
}

/// The same, but no code where there are no causes.
pub(crate) fn refuse_if(b: &mut Builder, may_fail: bool, causes: u32) -> Result<(), AllocError>
    ensures { OnOk result (b.new ≡ with_row_tested may_fail b.old causes) }
{
    if may_fail {
        refuse_bad(b, causes)
    } else {
        Ok(())
    }
}
