//! How a call of the program ends.
ghost use Rattle.std.specs.Prelude.{◌≡◌};
ghost use Rattle.papi_tools.specs.Status.{number_of, status_of};

/// How a call ends. The number of a status is the program's exit status.
#[derive(Clone, Copy)]
pub enum Status {
    /// The whole output was written.
    Whole,
    /// The whole output was written, and it says no: a name that is not known, events that do not go together.
    No,
    /// The words, a file or a line of a stream were refused. What was refused stands on standard error.
    Refused,
    /// An opening or a read failed.
    ReadFault,
    /// Memory was refused. A prefix of the output may have been written.
    Memory,
    /// A write failed. A prefix of the output has been written.
    WriteFault,
}

/// The number of a status, from 0 to 5 in the order above.
pub fn status_number(status: Status) -> u8
    ensures { result ≡ number_of status }
{
    match status {
        Status::Whole => 0,
        Status::No => 1,
        Status::Refused => 2,
        Status::ReadFault => 3,
        Status::Memory => 4,
        Status::WriteFault => 5,
    }
}

/// How a call ends that writes all that it has to say.
#[derive(Clone, Copy)]
pub enum Outcome {
    /// The output is the tool's text.
    Whole,
    /// The output is the tool's text, which says no.
    No,
    /// The words, a file or a line of a stream are refused.
    Refused,
    /// An opening or a read failed.
    ReadFault,
}

impl Outcome {
    /// The status of a call that has written all that it has to say.
    pub fn status(self) -> Status
        ensures { result ≡ status_of self }
    {
        match self {
            Outcome::Whole => Status::Whole,
            Outcome::No => Status::No,
            Outcome::Refused => Status::Refused,
            Outcome::ReadFault => Status::ReadFault,
        }
    }
}
