// What cursors promise whoever walks. Nothing here runs: each contract is a law.
ghost use Rattle.eng_cursor.specs.Walks.{PrevUndoesNext, SeeksAsTheMap, WalksInOrder};

/// A walk from the first pair by `next` stands on each pair in turn, and then on none.
pub fn walks_in_order()
    ensures { WalksInOrder }
{}

/// Where `next` finds a row, `prev` goes back to the one before it.
pub fn prev_undoes_next()
    ensures { PrevUndoesNext }
{}

/// `seek` to the first key that is not below finds the pair that the tree's own `seek` answers.
pub fn seeks_as_the_map()
    ensures { SeeksAsTheMap }
{}
