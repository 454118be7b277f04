// The steps of the takeover: calls of the room, each told in a line.
ghost use Rattle.std.specs.Prelude.{◌≡◌};
ghost use Rattle.queue.specs.Holdings.{entries};

use crate::show::Told;
use disk::{BLOCK_LENGTH, Disk, Fault};
use format::LogEntry;
use machine::Answer;
use queue::{Deadline, Queue};
use report::LogReport;
use room::{Call, Room};
use std::{fmt, io};

// The one resource of the takeover.
pub(crate) const RESOURCE: usize = 0;

// A room with the list that its log lies in, the ticks at which the leases of hosts run out, and where its steps are
// told.
#[derive(Drop)]
pub(crate) struct Stage<'a, 'q, R, D> {
    pub(crate) rt: &'a R,
    pub(crate) room: Room<D>,
    pub(crate) log: [LogEntry; 8],
    pub(crate) deadlines: Queue<'q, Deadline<usize>>,
}

impl<'a, 'q, R: Print, D: Disk> Stage<'a, 'q, R, D> {
    // Tells what came of a step, at the tick of the room.
    fn tell(&self, what: &str, came: impl fmt::Display + Drop) -> io::Result<()> {
        let tick = self.room.current_tick().0;
        println!(self.rt; "tick {tick}: {what}: {came}")
    }

    // Tells what a call answered.
    fn tell_answer(&self, what: &str, answer: Result<Answer, Fault>) -> io::Result<()> {
        match answer {
            Ok(answer) => self.tell(what, Told(answer)),
            Err(fault) => self.tell(what, fault),
        }
    }

    // Makes a call and tells what it answers.
    pub(crate) fn make(&mut self, what: &str, call: Call) -> io::Result<()> {
        let mut area = [0u8; BLOCK_LENGTH];
        let answer = self.room.perform(call, &mut self.log, &mut area);
        self.tell_answer(what, answer)
    }

    // A host checks its claim; a granted lease gets a deadline, the tick at which the host's clock reads until.
    pub(crate) fn check(&mut self, what: &str, host: usize) -> io::Result<()> {
        let mut area = [0u8; BLOCK_LENGTH];
        let answer = self
            .room
            .check(host, RESOURCE, &mut self.log, &mut area)
            .map(Answer::from);
        if let Ok(Answer::Granted { until, .. }) = answer {
            if let Some(offset) = self.room.offset(host) {
                let tick = until.tick(offset).0;
                let _ = self.deadlines.push(Deadline { tick, of: host });
            }
        }
        self.tell_answer(what, answer)
    }

    // Asks for the term that a host signs with.
    pub(crate) fn sign(&self, what: &str, host: usize) -> io::Result<()> {
        match self.room.sign(host, RESOURCE) {
            Ok(term) => self.tell(what, format_args!("under term {term}")),
            Err(fault) => self.tell(what, fault),
        }
    }

    // Ends the lease of a host that has run out.
    fn end_lease(&mut self, host: usize) -> io::Result<()>
        ensures { entries self.new.deadlines ≡ entries self.old.deadlines }
    {
        match self.room.watch(host, RESOURCE, &mut self.log) {
            Ok(()) => {
                let tick = self.room.current_tick().0;
                println!(self.rt; "tick {tick}: the lease of host {host} has run out")
            }
            Err(fault) => self.tell("a deadline", fault),
        }
    }

    // Ends all leases that have run out.
    fn end_leases(&mut self) -> io::Result<()> {
        let tick = self.room.current_tick().0;
        while let Some(deadline) = self.deadlines.take(tick) {
            self.end_lease(deadline.of)?;
        }
        Ok(())
    }

    // Lets ticks pass.
    pub(crate) fn pass(&mut self, ticks: u32) -> io::Result<()> {
        for _ in 0..ticks {
            let _ = self.room.tick();
            self.end_leases()?;
        }
        Ok(())
    }

    // Tells the lines of what was logged.
    pub(crate) fn tell_log(&self) -> io::Result<()> {
        for &entry in self.log.iter().take(self.room.logged()) {
            if let Some(offset) = self.room.offset(usize::from(entry.host)) {
                println!(self.rt; "{}", LogReport { entry, offset })?;
            }
        }
        Ok(())
    }
}
