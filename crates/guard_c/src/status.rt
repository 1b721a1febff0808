//! How a call ends.
ghost use Rattle.guard_c.specs.Statuses.{number};
ghost use Rattle.std.specs.Prelude.{◌≡◌};

/// How a call ends. `derguard.h` says of each call which of them it answers, and what it leaves.
#[derive(Clone, Copy)]
pub enum Status {
    /// What was asked for is done.
    Done,
    /// The texts say no policy.
    Refused,
    /// Memory ran out, and nothing was done.
    OutOfMemory,
    /// The handle holds no policy.
    NoPolicy,
    /// The handle holds no link.
    NoLink,
    /// The names are no route.
    BadNames,
    /// There is too little room in the buffer.
    TooSmall,
    /// A frame is longer than frames may be, and the link is closed.
    FrameTooLong,
    /// Memory ran out for what a piece adds, and the link is closed.
    WriteFailed,
    /// The link was closed before.
    Closed,
    /// The stream ended within a frame.
    TornFrame,
}

impl Status {
    /// The number of the status, as C has it.
    pub(crate) fn number(self) -> u32
        ensures { result ≡ number self }
    {
        match self {
            Status::Done => 0,
            Status::Refused => 1,
            Status::OutOfMemory => 2,
            Status::NoPolicy => 3,
            Status::NoLink => 4,
            Status::BadNames => 5,
            Status::TooSmall => 6,
            Status::FrameTooLong => 7,
            Status::WriteFailed => 8,
            Status::Closed => 9,
            Status::TornFrame => 10,
        }
    }
}
