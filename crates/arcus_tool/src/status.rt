//! How a job ends.
ghost use Rattle.std.specs.Prelude.{◌≡◌, Some};
ghost use Rattle.arcus_tool.specs.Statuses.{exit_status, status_line, run_status, serve_status};

use script_runs::RunEnd;
use serve_runs::ServeEnd;
use std::fmt;

/// How a job ends.
#[derive(Clone, Copy, Debug, PartialEq, Eq)]
pub enum Status {
    /// The job came to its end. For a session: the source ended behind a unit, or a line was `quit`. For a script: all its
    /// sessions were served. For a server: no worker has a link left, or each has served as many as it may.
    Done,
    /// The words are none that the program knows; the first bad one stands at this place, counted from 0, or one is
    /// missing there.
    BadWords(usize),
    /// The source failed.
    ReadFault,
    /// The sink failed. A front of the output was sent.
    WriteFault,
    /// A port of a server failed, or a call for one.
    PortFault,
    /// What was read is no script: the first part that is none begins at this offset, in bytes.
    BadScript(usize),
    /// A session has taken 2^40 bytes, which is all that it takes; or a script has more than 2^28.
    LongInput,
    /// The source ended within a unit, of which so many bytes came.
    CutInput(u64),
    /// A line of a session has no end within 65,536 bytes. The session answered it, and nothing is read behind it.
    LineTooLong,
    /// Memory was refused.
    NoMemory,
}

impl Status {
    /// The exit status of a program that ends with this status: 0 for `Done`.
    pub fn exit_status(self) -> u8
        ensures { result ≡ exit_status self }
    {
        match self {
            Status::Done => 0,
            Status::BadWords(_) => 2,
            Status::ReadFault => 3,
            Status::WriteFault => 4,
            Status::PortFault => 5,
            Status::BadScript(_) => 6,
            Status::LongInput => 7,
            Status::CutInput(_) => 8,
            Status::LineTooLong => 9,
            Status::NoMemory => 10,
        }
    }
}

// The status of a script's run that ended so.
pub(crate) fn run_status(ended: RunEnd) -> Status
    ensures { result ≡ run_status ended }
{
    match ended {
        RunEnd::Done => Status::Done,
        RunEnd::ReadFault => Status::ReadFault,
        RunEnd::WriteFault => Status::WriteFault,
        RunEnd::LongInput => Status::LongInput,
        RunEnd::BadScript(offset) => Status::BadScript(offset),
        RunEnd::NoMemory => Status::NoMemory,
    }
}

// The status of a server that ended so.
pub(crate) fn serve_status(ended: ServeEnd) -> Status
    ensures { result ≡ serve_status ended }
{
    match ended {
        ServeEnd::Done => Status::Done,
        ServeEnd::WriteFault => Status::WriteFault,
        ServeEnd::PortFault => Status::PortFault,
        ServeEnd::NoMemory => Status::NoMemory,
    }
}

/// The line that tells the status, without a line end; empty for `Done`.
impl fmt::Display for Status {
    ghost output = { λ ended. Some (status_line ended) };

    fn fmt<W: fmt::Write>(&self, f: &mut fmt::Formatter<W>) -> fmt::Result {
        match self {
            Status::Done => Ok(()),
            Status::BadWords(place) => write!(f, "arcus: bad words at {place}"),
            Status::ReadFault => write!(f, "arcus: read fault"),
            Status::WriteFault => write!(f, "arcus: write fault"),
            Status::PortFault => write!(f, "arcus: port fault"),
            Status::BadScript(offset) => write!(f, "arcus: bad script at {offset}"),
            Status::LongInput => write!(f, "arcus: input too long"),
            Status::CutInput(_) => write!(f, "arcus: input ends within a unit"),
            Status::LineTooLong => write!(f, "arcus: line too long"),
            Status::NoMemory => write!(f, "arcus: no memory"),
        }
    }
}
