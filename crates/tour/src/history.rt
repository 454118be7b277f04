// A short history of leases: log lines printed and read back, and deadlines taken from a queue.
ghost use Rattle.std.specs.Prelude.{◌≡◌};

use format::{Event, LogEntry, Tick};
use queue::{Deadline, Queue};
use report::LogReport;
use std::io;

// The first host's clock is a quarter of a second fast, the second's a second and a half slow.
const FIRST_OFFSET: i32 = -250;

const SECOND_OFFSET: i32 = 1500;

fn entry(tick: u32, event: Event, host: u8, term: u32, until: u32) -> LogEntry
    ensures { result ≡ record { tick = record { 0 = tick }; event = event; host = host; resource = 0; term = term; until = record { 0 = until } } }
{
    LogEntry {
        tick: Tick(tick),
        event,
        host,
        resource: 0,
        term,
        until: Tick(until),
    }
}

// Prints the log of two hosts; the last entry is of a host that there never is.
pub(crate) fn tell_log(rt: &impl Print) -> io::Result<()> {
    let log = [
        (entry(21, Event::Granted, 0, 1, 40), FIRST_OFFSET),
        (entry(40, Event::Expired, 0, 1, 0), FIRST_OFFSET),
        (entry(102, Event::Granted, 1, 2, 141), SECOND_OFFSET),
        (entry(120, Event::Crashed, 1, 0, 0), SECOND_OFFSET),
        (entry(120, Event::Crashed, 16, 0, 0), SECOND_OFFSET),
    ];
    for (entry, offset) in log {
        println!(rt; "{}", LogReport { entry, offset })?;
    }
    Ok(())
}

// A queue of the deadlines of hosts, and where its steps are told.
#[derive(Drop)]
struct Deadlines<'a, 'q, R> {
    rt: &'a R,
    queue: Queue<'q, Deadline<u8>>,
}

impl<'a, 'q, R: Print> Deadlines<'a, 'q, R> {
    // Puts a deadline into the queue.
    fn set(&mut self, tick: u32, host: u8) -> io::Result<()> {
        match self.queue.push(Deadline { tick, of: host }) {
            Ok(()) => println!(self.rt; "deadline {tick} of host {host}: queued"),
            Err(refusal) => println!(self.rt; "deadline {tick} of host {host}: refused {refusal}"),
        }
    }

    // Takes all deadlines that are due at a tick.
    fn drain(&mut self, tick: u32) -> io::Result<()> {
        while let Some(deadline) = self.queue.take(tick) {
            println!(self.rt;
                "tick {tick}: deadline {} of host {}",
                deadline.tick, deadline.of
            )?;
        }
        println!(self.rt; "tick {tick}: no deadline is due")
    }
}

// Three deadlines fit; those of one tick come in the order in which they were set.
pub(crate) fn tell_deadlines(rt: &impl Print) -> io::Result<()> {
    let mut list = [Deadline { tick: 0, of: 0 }; 3];
    let queue = Queue::new(&mut list);
    let mut deadlines = Deadlines { rt, queue };
    deadlines.set(141, 1)?;
    deadlines.set(40, 0)?;
    deadlines.set(141, 2)?;
    deadlines.set(90, 3)?;
    deadlines.drain(39)?;
    deadlines.drain(40)?;
    deadlines.set(90, 3)?;
    deadlines.drain(141)
}
