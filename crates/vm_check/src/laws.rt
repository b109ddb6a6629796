// What is known of accepted programs. Nothing here runs: each contract is a law.
ghost use Rattle.vm_check.specs.Missing.{AcceptedNeverMisses};

/// An accepted program never meets a register, a cursor, a unit or a frame that is not there, nor a cursor that is closed or open on something else.
pub fn accepted_never_misses()
    ensures { AcceptedNeverMisses }
{}
