// What is open at the instructions of a unit under construction.
ghost use Rattle.std.specs.Prelude.{◌≡◌, [], ◌∷◌, ◌++◌, IfOk, Some};
ghost use Rattle.vm_code.specs.OpenSets.{set_of};
ghost use Rattle.vm_code.specs.Track.{arrived, at_start, behind, closed, closed_from, opened, passed, with_mark};

use crate::OpenCursor;
use crate::open_sets::{OpenSets, set_of};
use crate::way::Way;
use sqlite_items::Items;
use std::alloc::{AllocError, Global};
use std::marker::Model;

/// What is open in front of each instruction, behind the last one and at each label. Most instructions change nothing of it, so that each set
/// stands once, and instructions and labels go by its number: 0 is that of no cursors, and those in `sets` follow.
#[derive(Drop)]
pub(crate) struct Track {
    alloc: Global,
    sets: Vec<Option<Items<OpenCursor>>>,
    numbers: Vec<u32>,
    now: u32,
    marks: Vec<u32>,
}

impl Model for Track {
    ghost use Rattle.std.specs.Prelude.{◌≤◌, length};
    ghost use Rattle.vm_code.specs.OpenSets.{set_of, sets_of, AreNumbers};
    ghost use Rattle.vm_code.specs.Track.{Track};

    ghost Value = { Track };

    ghost view = { λ t.
        record {
          opens = sets_of t.sets.items t.numbers.items;
          now = set_of t.sets.items t.now;
          marks = sets_of t.sets.items t.marks.items;
        } };

    ghost invariant = { λ t. (t.now ≤ length t.sets.items) × AreNumbers t.sets.items t.numbers.items × AreNumbers t.sets.items t.marks.items };
}

impl Track {
    /// Takes no memory.
    pub(crate) fn new(alloc: Global) -> Track
        ensures { result ≡ at_start }
    {
        Track {
            alloc,
            sets: Vec::new(alloc),
            numbers: Vec::new(alloc),
            now: 0,
            marks: Vec::new(alloc),
        }
    }

    /// One more instruction.
    pub(crate) fn pass(&mut self, way: Way) -> Result<(), AllocError>
        ensures { IfOk result (λ _. self.new ≡ passed way self.old) }
    {
        self.note()?;
        match way {
            Way::Continues => Ok(()),
            Way::Forks(_) => Ok(()),
            Way::Calls { .. } => Ok(()),
            _ => self.turn(way),
        }
    }

    /// Notes what is open in front of an instruction.
    #[tactic(auto, using(crate::proofs::SetNumbers::noted))]
    fn note(&mut self) -> Result<(), AllocError>
        ensures { IfOk result (λ _. self.new ≡ record self.old { opens = self.old.opens ++ self.old.now ∷ [] }) }
    {
        self.numbers.push(self.now)?;
        Ok(())
    }

    /// What is open changes as behind an instruction.
    fn turn(&mut self, way: Way) -> Result<(), AllocError>
        ensures { IfOk result (λ _. self.new ≡ record self.old { now = behind way self.old.now }) }
    {
        let now = open_behind(self.alloc, way, self.sets.as_slice(), self.now)?;
        self.change(now)
    }

    /// From here on this is open.
    #[tactic(auto, using(crate::proofs::SetNumbers::changed))]
    fn change(&mut self, now: Option<Items<OpenCursor>>) -> Result<(), AllocError>
        ensures { IfOk result (λ _. self.new ≡ record self.old { now = now }) }
    {
        self.sets.push(now)?;
        match u32::try_from(self.sets.len()) {
            Ok(number) => {
                self.now = number;
                Ok(())
            }
            Err(_) => Err(AllocError),
        }
    }

    /// One more label. Where its place will be, the same is open as here.
    #[tactic(auto, using(crate::proofs::SetNumbers::noted))]
    pub(crate) fn label(&mut self) -> Result<(), AllocError>
        ensures { IfOk result (λ _. self.new ≡ with_mark self.old) }
    {
        self.marks.push(self.now)?;
        Ok(())
    }

    /// A label's place.
    #[tactic(auto, using(crate::proofs::SetNumbers::set_past))]
    pub(crate) fn arrive(&mut self, label: usize) -> Result<(), AllocError>
        ensures { IfOk result (λ _. self.new ≡ arrived self.old label) }
    {
        if label < self.marks.len() {
            self.now = self.marks[label];
            return Ok(());
        }
        self.change(None)
    }

    /// What is open at the instructions.
    pub(crate) fn into_sets(self) -> OpenSets
        ensures { result ≡ self.opens }
    {
        let Track {
            alloc: _,
            sets,
            numbers,
            now: _,
            marks: _,
        } = self;
        OpenSets::new(sets, numbers)
    }
}

/// What is open behind an instruction, where the set of this number is open in front of it.
#[tactic(auto, using(crate::proofs::SetNumbers::behind_none))]
fn open_behind(
    alloc: Global,
    way: Way,
    sets: &[Option<Items<OpenCursor>>],
    now: u32,
) -> Result<Option<Items<OpenCursor>>, AllocError>
    ensures { IfOk result (λ left. left ≡ behind way (set_of sets.now now)) }
{
    match set_of(sets, now) {
        Some(open) => behind(alloc, way, open),
        None => Ok(None),
    }
}

/// What is open behind an instruction, where these are open in front of it.
fn behind(
    alloc: Global,
    way: Way,
    open: &[OpenCursor],
) -> Result<Option<Items<OpenCursor>>, AllocError>
    ensures { IfOk result (λ left. left ≡ behind way (Some open.now)) }
{
    match way {
        Way::Opens(cursor) => Ok(Some(opened(alloc, cursor, open)?)),
        Way::Closes(cursor) => Ok(Some(closed(alloc, cursor, open)?)),
        Way::ClosesFrom(cursor) => Ok(Some(closed_from(alloc, cursor, open)?)),
        Way::Jumps(_) => Ok(None),
        Way::Leaves => Ok(None),
        Way::Returns(_) => Ok(None),
        Way::Continues => Ok(Some(Items::from_slice(alloc, open)?)),
        Way::Forks(_) => Ok(Some(Items::from_slice(alloc, open)?)),
        Way::Calls { .. } => Ok(Some(Items::from_slice(alloc, open)?)),
    }
}

/// With one cursor more, which is open on this now, whatever it was open on.
fn opened(
    alloc: Global,
    cursor: OpenCursor,
    open: &[OpenCursor],
) -> Result<Items<OpenCursor>, AllocError>
    ensures { IfOk result (λ left. left ≡ opened cursor open.now) }
{
    let mut cursors = closed(alloc, cursor.cursor, open)?;
    cursors.push(cursor)?;
    Ok(cursors)
}

/// Without the cursor of a number.
fn closed(alloc: Global, cursor: u32, open: &[OpenCursor]) -> Result<Items<OpenCursor>, AllocError>
    ensures { IfOk result (λ left. left ≡ closed cursor open.now) }
{
    let mut cursors = Items::new(alloc);
    for each in open {
        if each.cursor != cursor {
            cursors.push(*each)?;
        }
    }
    Ok(cursors)
}

/// Without the cursors from a number on.
fn closed_from(
    alloc: Global,
    cursor: u32,
    open: &[OpenCursor],
) -> Result<Items<OpenCursor>, AllocError>
    ensures { IfOk result (λ left. left ≡ closed_from cursor open.now) }
{
    let mut cursors = Items::new(alloc);
    for each in open {
        if each.cursor < cursor {
            cursors.push(*each)?;
        }
    }
    Ok(cursors)
}
