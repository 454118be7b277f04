// Why a call is refused, and where.
ghost use Rattle.std.specs.Prelude.{◌≡◌, Some, decimal};
ghost use Rattle.disk.specs.Refusals.{refusal_number, fault_text};

use std::error::Error;
use std::fmt;

// Every cause of a refusal, with the number by which it is reported.
#[derive(Clone, Copy, PartialEq, Eq, Debug)]
pub enum Refusal {
    // the area is not one block long
    WrongLength = 1,
    // the disk has no block of that number
    NoSuchBlock = 2,
    // the read or write failed
    AccessFailed = 3,
    // the block holds no record
    NotARecord = 4,
    // the room is not open; of a call that comes before the opening: it is open already
    NotOpen = 5,
    // there is no such host or resource
    NoSuchHostOrResource = 6,
    // the host is down; of a restart: it is up
    HostDown = 7,
    // the host's seat for the resource is not in the state that the call needs
    WrongSeat = 8,
    // the wait is not over
    Early = 9,
    // the lease or the claim has run out
    Late = 10,
    // the host's write has not landed yet
    NotLanded = 11,
    // there is no room for another write in flight
    FlightFull = 12,
    // a stamp, term, generation or tick has reached its last value
    NumberSpent = 13,
    // there is no such write in flight
    NoSuchWrite = 14,
    // a value is out of its range
    BadValue = 15,
    // the log list is full
    LogFull = 16,
    // the buffer is shorter than the text
    BufferShort = 17,
    // the bytes are no log line
    NotALine = 18,
    // the queue's list is full
    QueueFull = 19,
}

// A refusal with the block number and the height at which it arose.
#[derive(Clone, Copy, PartialEq, Eq, Debug)]
pub struct Fault {
    pub cause: Refusal,
    pub number: usize,
    pub height: u8,
}

impl Refusal {
    // The number by which the cause is reported. A method of this name is plainer at a call than `u8::from`.
    pub fn number(self) -> u8
        ensures { result ≡ refusal_number self }
    {
        self as u8
    }

    // This cause, with where it arose.
    pub fn at(self, number: usize, height: u8) -> Fault
        ensures { result ≡ record { cause = self; number = number; height = height } }
    {
        Fault {
            cause: self,
            number,
            height,
        }
    }
}

// A refusal prints as its number.
impl fmt::Display for Refusal {
    ghost output = { λ r. Some (decimal (refusal_number r)) };

    fn fmt<W: fmt::Write>(&self, f: &mut fmt::Formatter<W>) -> fmt::Result {
        write!(f, "{}", self.number())
    }
}

impl Error for Refusal {}

// A fault prints as its refusal, its block and its height.
impl fmt::Display for Fault {
    ghost output = { λ x. Some (fault_text x) };

    fn fmt<W: fmt::Write>(&self, f: &mut fmt::Formatter<W>) -> fmt::Result {
        write!(
            f,
            "refused {}, block {}, height {}",
            self.cause, self.number, self.height
        )
    }
}

impl Error for Fault {}
