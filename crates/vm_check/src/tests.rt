// Programs that break one rule are refused, and their mended twins pass.
use crate::check;
use sqlite_items::Items;
use std::alloc::{AllocError, Global};
use std::test::Fail;
use vm_code::{CursorKind, Op, OpenCursor, OpenSets, Program, Unit, UnitKind};

/// What is open in front of an instruction.
#[derive(Clone, Copy)]
enum Open {
    Nothing,
    On(u32, CursorKind),
    Never,
}

const TABLE: Open = Open::On(0, CursorKind::Table);

const OTHER_TABLE: Open = Open::On(1, CursorKind::Table);

const SORTER: Open = Open::On(0, CursorKind::Sorter);

fn set(alloc: Global, open: Open) -> Result<Option<Items<OpenCursor>>, AllocError> {
    match open {
        Open::Nothing => Ok(Some(Items::new(alloc))),
        Open::On(cursor, kind) => Ok(Some(Items::from_slice(
            alloc,
            &[OpenCursor { cursor, kind }],
        )?)),
        Open::Never => Ok(None),
    }
}

fn sets(alloc: Global, open: &[Open]) -> Result<OpenSets, AllocError> {
    let mut sets = Vec::new(alloc);
    for each in open {
        sets.push(set(alloc, *each)?)?;
    }
    OpenSets::from_lists(alloc, sets)
}

/// A unit that takes nothing, gives one result if it is called, and has two registers and one cursor.
fn unit(alloc: Global, kind: UnitKind, code: Vec<Op>, open: &[Open]) -> Result<Unit, AllocError> {
    Ok(Unit {
        kind,
        arguments: 0,
        results: 1,
        registers: 2,
        cursors: 1,
        code: Items::from_vec(code),
        sets: sets(alloc, open)?,
    })
}

fn passes(main: Unit, units: Items<Option<Unit>>) -> bool {
    check(Program { main, units }).is_some()
}

/// Whether a main unit alone passes.
fn alone(alloc: Global, code: Vec<Op>, open: &[Open]) -> Result<bool, AllocError> {
    Ok(passes(unit(alloc, UnitKind::Main, code, open)?, Items::new(alloc)))
}

/// Whether a main unit passes that begins so, where the unit of number 1 is of this kind.
fn beside(alloc: Global, first: Op, kind: UnitKind) -> Result<bool, AllocError> {
    let nothing = [Open::Nothing, Open::Nothing];
    let code = vec![in alloc; first, Op::Halt]?;
    let main = unit(alloc, UnitKind::Main, code, &nothing)?;
    let code = vec![in alloc; end_of(kind)]?;
    let mut units = Items::new(alloc);
    units.push(Some(unit(alloc, kind, code, &[Open::Nothing])?))?;
    Ok(passes(main, units))
}

fn end_of(kind: UnitKind) -> Op {
    match kind {
        UnitKind::Called => Op::Ret { first: 0, count: 1 },
        UnitKind::Main => Op::Halt,
    }
}

fn call(unit: u32) -> Op {
    Op::Call {
        unit,
        first: 0,
        count: 0,
        to: 0,
    }
}

/// Whether code passes that opens a cursor and rewinds it.
fn rewound(alloc: Global, open: Op, behind: Open) -> Result<bool, AllocError> {
    let rewind = Op::Rewind {
        cursor: 0,
        target: 2,
    };
    let code = vec![in alloc; open, rewind, Op::Halt]?;
    alone(alloc, code, &[Open::Nothing, behind, behind])
}

/// Whether code passes that rewinds a cursor after it was opened anew on a sorter.
fn reopened(alloc: Global, open: [Open; 4]) -> Result<bool, AllocError> {
    let rewind = Op::Rewind {
        cursor: 0,
        target: 3,
    };
    let code = vec![in alloc;
        open_read(0),
        Op::SorterOpen { cursor: 0 },
        rewind,
        Op::Halt,
    ]?;
    alone(alloc, code, &open)
}

fn open_read(cursor: u32) -> Op {
    Op::OpenRead { cursor, table: 0 }
}

#[test]
fn sets_are_what_is_open(rt: HostRuntime) -> Result<(), Fail> {
    let alloc = rt.alloc();
    // Nothing is open at first.
    assert!(rt; !alone(alloc, vec![in alloc; Op::Halt]?, &[TABLE])?);
    assert!(rt; alone(alloc, vec![in alloc; Op::Halt]?, &[Open::Nothing])?);
    // Behind an instruction that is open which it leaves open.
    let opens = vec![in alloc; open_read(0), Op::Halt]?;
    assert!(rt; !alone(alloc, opens, &[Open::Nothing, Open::Nothing])?);
    let opens = vec![in alloc; open_read(0), Op::Halt]?;
    assert!(rt; alone(alloc, opens, &[Open::Nothing, TABLE])?);
    // What is used is open, on what it has to be.
    let null = Op::Null { to: 0 };
    assert!(rt; !rewound(alloc, null, Open::Nothing)?);
    assert!(rt; !rewound(alloc, Op::SorterOpen { cursor: 0 }, SORTER)?);
    assert!(rt; rewound(alloc, open_read(0), TABLE)?);
    assert!(rt; !reopened(alloc, [Open::Nothing, TABLE, SORTER, SORTER])?);
    Ok(())
}

#[test]
fn what_is_named_is_there(rt: HostRuntime) -> Result<(), Fail> {
    let alloc = rt.alloc();
    let nothing = [Open::Nothing, Open::Nothing];
    // Registers.
    let far = vec![in alloc; Op::Null { to: 2 }, Op::Halt]?;
    assert!(rt; !alone(alloc, far, &nothing)?);
    let near = vec![in alloc; Op::Null { to: 1 }, Op::Halt]?;
    assert!(rt; alone(alloc, near, &nothing)?);
    // Cursors.
    let far = vec![in alloc; open_read(1), Op::Halt]?;
    assert!(rt; !alone(alloc, far, &[Open::Nothing, OTHER_TABLE])?);
    // Instructions: one that is jumped to, and one that is fallen to.
    let out = vec![in alloc; Op::Goto { target: 1 }]?;
    assert!(rt; !alone(alloc, out, &[Open::Nothing])?);
    let round = vec![in alloc; Op::Goto { target: 0 }, Op::Halt]?;
    assert!(rt; alone(alloc, round, &[Open::Nothing, Open::Never])?);
    let off = vec![in alloc; Op::Null { to: 1 }]?;
    assert!(rt; !alone(alloc, off, &[Open::Nothing])?);
    // Units: one that is called, and only that, and none that the main unit gives results to.
    assert!(rt; beside(alloc, call(1), UnitKind::Called)?);
    assert!(rt; !beside(alloc, call(2), UnitKind::Called)?);
    assert!(rt; !beside(alloc, Op::Null { to: 0 }, UnitKind::Main)?);
    let ret = vec![in alloc; Op::Ret { first: 0, count: 1 }]?;
    assert!(rt; !alone(alloc, ret, &[Open::Nothing])?);
    Ok(())
}
