// How the run of a script went.
ghost use Rattle.std.specs.Prelude.{◌≡◌, true, false};
ghost use Rattle.sql_shell.specs.Courses.{at_end, ended_in, status_in};

use sql_meaning::Ending;

/// How the run of a script's parts went.
#[derive(Clone, Copy, PartialEq, Eq)]
pub(crate) enum Course {
    /// All of them ran, and none has an error line.
    Passed,
    /// All of them ran, and some have an error line.
    Failed,
    /// An error line ended the script.
    Ended,
}

impl Course {
    /// That of parts that all ran.
    pub(crate) fn at_end(failed: bool) -> Course
        ensures { result ≡ at_end failed }
    {
        if failed {
            Course::Failed
        } else {
            Course::Passed
        }
    }

    /// Whether an error line ended the script.
    pub(crate) fn has_ended(self) -> bool
        ensures { result ≡ ended_in self }
    {
        match self {
            Course::Passed | Course::Failed => false,
            Course::Ended => true,
        }
    }

    /// The exit status of a script with this ending.
    pub(crate) fn exit_status(self, ending: Ending) -> u8
        ensures { result ≡ status_in ending self }
    {
        match (self, ending) {
            (Course::Ended, _) => 1,
            (Course::Passed, Ending::End) => 0,
            (Course::Failed, Ending::End) => 1,
            (_, Ending::ReadFault) => 3,
            (_, Ending::TooLong) => 5,
        }
    }
}
