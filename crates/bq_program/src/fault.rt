//! Why a program fails.
ghost use Rattle.std.specs.Prelude.{◌≡◌, option_map};
ghost use Rattle.bq_program.specs.Faults.{fault_detail, fault_of_end, fault_of_loop, fault_of_run, fault_text};

use crate::chosen::OptionFault;
use bq_host::RunFault;
use bq_job::LineEnd;

/// What a program needs memory for.
#[derive(Clone, Copy, PartialEq, Eq)]
pub enum Need {
    /// The words of its command line and the options.
    Options,
    /// The input on which a server receives the command `drain`.
    ControlLine,
    /// The doors of a server's seats, with the buffers of their connections.
    Doors,
    /// The queue, its seats, and what passes between their threads.
    Queue,
}

/// Why a program ends with status 1.
#[derive(Clone, Copy, PartialEq, Eq)]
pub enum Fault {
    /// Reading from the client failed.
    ReadFailed,
    /// Writing to the client, or writing the help, failed.
    WriteFailed,
    /// The address could not be bound.
    CannotListen,
    /// Memory for this could not be allocated.
    NoMemory(Need),
    /// The system refused to start a thread.
    ThreadRefused,
    /// The system refused epoll, or to watch the listener or the control line with it.
    EpollRefused,
    /// The configuration is out of its ranges, or has another number of seats than there are doors.
    BadConfiguration,
    /// Some seat ended because a connection could not be accepted.
    NotAccepted,
    /// An event loop took 2^64 - 1 turns, which at a million a second last for half a million years.
    TooManyTurns,
}

impl Fault {
    /// The first line of the report of this fault, without the program's name. It is the same wherever the fault
    /// arose, so that scripts can compare it.
    pub fn text(self) -> &'static str
        ensures { result.now ≡ fault_text self }
    {
        match self {
            Fault::ReadFailed => "read failed",
            Fault::WriteFailed => "write failed",
            Fault::CannotListen => "cannot listen",
            Fault::NoMemory(_) => "no memory",
            Fault::ThreadRefused => "a thread was refused",
            Fault::EpollRefused => "epoll was refused",
            Fault::BadConfiguration => "bad configuration",
            Fault::NotAccepted => "a connection could not be accepted",
            Fault::TooManyTurns => "too many turns",
        }
    }

    /// The second line of the report, if the fault has one: what the memory or epoll was for.
    pub fn detail(self) -> Option<&'static str>
        ensures { option_map (λ text. text.now) result ≡ fault_detail self }
    {
        match self {
            Fault::NoMemory(Need::Options) => Some("could not allocate memory for the options"),
            Fault::NoMemory(Need::ControlLine) => {
                Some("could not allocate memory for the control line")
            }
            Fault::NoMemory(Need::Doors) => {
                Some("could not allocate memory for the buffers of the seats")
            }
            Fault::NoMemory(Need::Queue) => {
                Some("could not allocate memory for the queue and its seats")
            }
            Fault::EpollRefused => Some("could not watch the listener and standard input"),
            _ => None,
        }
    }
}

impl From<RunFault> for Fault {
    fn from(fault: RunFault) -> Fault
        ensures { result ≡ fault_of_run fault }
    {
        match fault {
            RunFault::NoMemory => Fault::NoMemory(Need::Queue),
            RunFault::ThreadRefused => Fault::ThreadRefused,
            RunFault::BadConfiguration => Fault::BadConfiguration,
        }
    }
}

/// Returns the fault that an error of a run by an event loop is. It starts no threads: what the
/// system may refuse is epoll.
pub fn fault_of_loop(fault: RunFault) -> Fault
    ensures { result ≡ fault_of_loop fault }
{
    match fault {
        RunFault::ThreadRefused => Fault::EpollRefused,
        _ => Fault::from(fault),
    }
}

/// Returns the fault by which a client's connection ended, or None if it ended well.
pub fn fault_of_end(end: LineEnd) -> Option<Fault>
    ensures { result ≡ fault_of_end end }
{
    match end {
        LineEnd::Quit | LineEnd::EndOfInput => None,
        LineEnd::ReadFault => Some(Fault::ReadFailed),
        LineEnd::WriteFault => Some(Fault::WriteFailed),
    }
}

/// Why a program did not do all of its work.
#[derive(Drop)]
pub enum Stop {
    /// Its command line has no options: they are wrong, or help was asked for.
    Options(OptionFault),
    /// It failed.
    Fault(Fault),
}

impl From<OptionFault> for Stop {
    fn from(fault: OptionFault) -> Stop
        ensures { result ≡ Stop.Options fault }
    {
        Stop::Options(fault)
    }
}

impl From<Fault> for Stop {
    fn from(fault: Fault) -> Stop
        ensures { result ≡ Stop.Fault fault }
    {
        Stop::Fault(fault)
    }
}
