// What is true of every run of the machine over lists. Nothing here runs: each contract is a law.
ghost use Rattle.vm_code.specs.Reading.{GivenBeforeHasNoInfluence, HasOneEnd, ReadsOnlyOpened, RunsAddUp};

/// A run of so many instructions and a run of so many more from there are one run.
pub fn runs_add_up()
    ensures { RunsAddUp }
{}

/// A run behind rows that were given before is the same run, with its rows behind those.
pub fn what_was_given_before_has_no_influence()
    ensures { GivenBeforeHasNoInfluence }
{}

/// However many instructions are allowed, a run that ends does so in one way.
pub fn a_run_has_one_end()
    ensures { HasOneEnd }
{}

/// Over tables that agree on those that the program opens, and that open cursors stand on, runs come to the same.
pub fn a_program_reads_only_the_tables_that_it_opens()
    ensures { ReadsOnlyOpened }
{}
