//! How a run of the program ended.
ghost use Rattle.std.specs.Prelude.{◌≡◌};
ghost use Rattle.pam_top.specs.Answer.{status_code};

#[derive(Clone, Copy, Debug, PartialEq, Eq)]
pub enum Status {
    Ok,
    Usage,
    BadRecord,
    TooLarge,
    ReadFault,
    WriteFault,
    NoMemory,
}

impl Status {
    pub fn code(self) -> u8
        ensures { result ≡ status_code self }
    {
        match self {
            Status::Ok => 0,
            Status::Usage => 2,
            Status::BadRecord => 3,
            Status::TooLarge => 4,
            Status::ReadFault => 5,
            Status::WriteFault => 6,
            Status::NoMemory => 7,
        }
    }
}
