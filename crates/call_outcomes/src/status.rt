ghost use Rattle.std.specs.Prelude.{◌≡◌};
ghost use Rattle.call_outcomes.specs.Code.{code_of};

/// How a call ended.
#[derive(Clone, Copy, Debug, PartialEq, Eq)]
pub enum Status {
    Done,
    Listed,
    Usage,
    Missing,
    ReadFault,
    WriteFault,
    GoesOn,
}

impl Status {
    pub fn code(self) -> u8
        ensures { result ≡ code_of self }
    {
        match self {
            Status::Done => 0,
            Status::Listed => 1,
            Status::Usage => 2,
            Status::Missing => 3,
            Status::ReadFault => 4,
            Status::WriteFault => 5,
            Status::GoesOn => 6,
        }
    }
}
