//! Laws of maps, each as the contract of a function that does nothing: a change and its undoing leave the map before.
ghost use Rattle.eng_tree.specs.Undo.{NewKeyUndone, ReplacedValueUndone, RemovedKeyUndone};

/// A new key, taken out again.
pub fn new_key_undone()
    ensures { NewKeyUndone }
{}

/// A value that was replaced, put back.
pub fn replaced_value_undone()
    ensures { ReplacedValueUndone }
{}

/// A key that was taken out, put back with its value.
pub fn removed_key_undone()
    ensures { RemovedKeyUndone }
{}
