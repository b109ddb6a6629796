// The cursors that are open at the instructions of a unit.
ghost use Rattle.std.specs.Option.{option_map};
ghost use Rattle.std.specs.Prelude.{◌≡◌, length, IfOk, None, slice_index_or};
ghost use Rattle.vm_code.specs.OpenSets.{set_of, sets_of};

use crate::OpenCursor;
use sqlite_items::Items;
use std::alloc::{AllocError, Global};
use std::marker::Model;

/// At each instruction of a unit the cursors that are open there, in the order in which they were opened; or none where the
/// instruction is never reached. Each set stands once: instructions name it by a number. Contracts see the sets of the instructions.
#[derive(Drop)]
pub struct OpenSets {
    sets: Vec<Option<Items<OpenCursor>>>,
    numbers: Vec<u32>,
}

impl Model for OpenSets {
    ghost use Rattle.std.specs.Prelude.{List, Option};
    ghost use Rattle.vm_code.specs.OpenSets.{sets_of};
    ghost use Rattle.vm_code.specs.Track.{OpenSet};

    ghost Value = { List (Option OpenSet) };

    ghost view = { λ s. sets_of s.sets.items s.numbers.items };
}

impl OpenSets {
    /// The sets by the numbers of them that the instructions have.
    pub(crate) fn new(sets: Vec<Option<Items<OpenCursor>>>, numbers: Vec<u32>) -> OpenSets
        ensures { result ≡ sets_of sets.items numbers.items }
    {
        OpenSets { sets, numbers }
    }

    /// Each instruction has the set in its place, or none: for units that no builder made.
    pub fn from_lists(
        alloc: Global,
        sets: Vec<Option<Items<OpenCursor>>>,
    ) -> Result<OpenSets, AllocError>
        ensures { IfOk result (λ made. made ≡ sets.items) }
    {
        let numbers = numbers_of(alloc, sets.as_slice())?;
        Ok(OpenSets { sets, numbers })
    }

    /// How many instructions have one, or are known never to be reached.
    pub fn len(&self) -> usize
        ensures { result ≡ length self.now }
    {
        self.numbers.len()
    }

    /// The cursors that are open at the instruction in a place: in constant time. None where it is never reached, or is not there.
    #[tactic(auto, using(crate::proofs::SetNumbers::set_past))]
    pub fn get(&self, place: usize) -> Option<&[OpenCursor]>
        ensures { option_map (λ xs. xs.now) result ≡ slice_index_or self.now place None }
    {
        if place < self.numbers.len() {
            set_of(self.sets.as_slice(), self.numbers[place])
        } else {
            None
        }
    }
}

/// The numbers of all sets of a list, in their order.
#[tactic(auto, using(crate::proofs::SetNumbers::each_step))]
fn numbers_of(alloc: Global, sets: &[Option<Items<OpenCursor>>]) -> Result<Vec<u32>, AllocError>
    ensures { IfOk result (λ numbers. sets_of sets.now numbers.items ≡ sets.now) }
{
    let mut numbers = Vec::new(alloc);
    for place in 0..sets.len() {
        match u32::try_from(place + 1) {
            Ok(number) => numbers.push(number)?,
            Err(_) => return Err(AllocError),
        }
    }
    Ok(numbers)
}

/// The set of a number.
#[tactic(auto, using(crate::proofs::SetNumbers::set_above))]
pub(crate) fn set_of(sets: &[Option<Items<OpenCursor>>], number: u32) -> Option<&[OpenCursor]>
    ensures { option_map (λ xs. xs.now) result ≡ set_of sets.now number }
{
    match number.checked_sub(1) {
        Some(place) => set_in(sets, place as usize),
        None => Some(&[]),
    }
}

/// The set in a place of a list.
fn set_in(sets: &[Option<Items<OpenCursor>>], place: usize) -> Option<&[OpenCursor]>
    ensures { option_map (λ xs. xs.now) result ≡ slice_index_or sets.now place None }
{
    match sets.get(place) {
        Some(Some(set)) => Some(set.as_slice()),
        _ => None,
    }
}
