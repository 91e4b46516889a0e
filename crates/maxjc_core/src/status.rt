/// How a command ended.
#[derive(Clone, Copy, PartialEq, Eq)]
pub enum Status {
    /// The command did its work.
    Done,
    /// The input is refused, and the line that says why was said.
    Refused,
    /// The words are no command.
    Usage,
    /// A file could not be read.
    ReadFault,
    /// A file could not be written, or nothing could be said.
    WriteFault,
    /// No memory was left.
    NoMemory,
    /// A simulation made all edges that it may make.
    EdgeLimit,
}

impl Status {
    ghost use Rattle.std.specs.Prelude.{◌≡◌};
    ghost use Rattle.maxjc_core.specs.ExitStatus.{code_of};

    /// The exit status of the program, 0 to 6.
    pub fn code(self) -> u8
        ensures { result ≡ code_of self }
    {
        match self {
            Status::Done => 0,
            Status::Refused => 1,
            Status::Usage => 2,
            Status::ReadFault => 3,
            Status::WriteFault => 4,
            Status::NoMemory => 5,
            Status::EdgeLimit => 6,
        }
    }
}
