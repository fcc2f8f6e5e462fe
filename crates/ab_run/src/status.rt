//! The statuses that a run ends with.
ghost use Rattle.std.specs.Prelude.{◌≡◌};
ghost use Rattle.ab_run.specs.Status.{number_of};

#[derive(Clone, Copy)]
pub enum Status {
    /// The script was run to its end, every command was accepted, and nothing is left open.
    Done,
    /// A command was refused.
    Refused,
    /// The line of words was refused.
    BadLine,
    /// The source failed, or the load of the script's file.
    ReadFault,
    /// The sink failed.
    WriteFault,
    /// There was no memory.
    NoMemory,
    /// The script ended in an open proof, or in the midst of a command.
    Unfinished,
    /// The input, or the script's file, has more bytes than are looked at.
    TooLong,
    /// There is no file of the script's name.
    NoFile,
}

impl Status {
    /// The number that the program ends with.
    pub fn number(self) -> u8
        ensures { result ≡ number_of self }
    {
        match self {
            Status::Done => 0,
            Status::Refused => 1,
            Status::BadLine => 2,
            Status::ReadFault => 3,
            Status::WriteFault => 4,
            Status::NoMemory => 5,
            Status::Unfinished => 6,
            Status::TooLong => 7,
            Status::NoFile => 8,
        }
    }
}
