// The rowids of rows that were chosen.
ghost use Rattle.std.specs.Prelude.{◌≡◌, ◌∷◌, [], MatchOption};

use std::marker::Model;

/// The rowids of rows that are still to be visited, the first of which is taken out at each `next`. Contracts see the list of them.
#[derive(Drop)]
pub struct Rowids {
    rowids: Vec<i64>,
    taken: usize,
}

impl Model for Rowids {
    ghost use Rattle.std.specs.Prelude.{List, ℤ, drop};

    ghost Value = { List ℤ };

    ghost view = { λ r. drop r.taken r.rowids.items };
}

impl Rowids {
    pub fn new(rowids: Vec<i64>) -> Rowids
        ensures { result ≡ rowids.items }
    {
        Rowids { rowids, taken: 0 }
    }

    /// Takes the first out, if there is one.
    pub fn next(&mut self) -> Option<i64>
        ensures { MatchOption result ((self.old ≡ []) × (self.new ≡ [])) (λ rowid. self.old ≡ rowid ∷ self.new) }
    {
        match self.rowids.get(self.taken) {
            None => None,
            Some(rowid) => {
                self.taken += 1;
                Some(*rowid)
            }
        }
    }
}
