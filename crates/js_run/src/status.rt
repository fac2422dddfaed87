//! How a run ends.

ghost use Rattle.std.specs.Prelude.{◌≡◌};
ghost use Rattle.js_run.specs.Statuses.{code_of};

/// How a run ends.
#[derive(Debug, Clone, Copy, PartialEq, Eq)]
pub enum Status {
    /// The text has a reading, and its tree was written.
    Ok,
    /// The text has no reading, and diagnostics were written.
    Refused,
    /// The words are not admitted.
    Usage,
    /// The source failed.
    ReadFault,
    /// The sink failed.
    WriteFault,
    /// Memory was refused.
    NoMemory,
    /// The source's bytes are not UTF-8.
    NotUtf8,
    /// The source has too many bytes.
    TooLong,
}

impl Status {
    /// The status of the process.
    pub fn code(self) -> u8
        ensures { result ≡ code_of self }
    {
        match self {
            Status::Ok => 0,
            Status::Refused => 1,
            Status::Usage => 2,
            Status::ReadFault => 3,
            Status::WriteFault => 4,
            Status::NoMemory => 5,
            Status::NotUtf8 => 6,
            Status::TooLong => 7,
        }
    }
}
