// A takeover, a line for each step: host 0, whose clock is a quarter of a second fast, claims a resource, is granted the
// lease, signs and asks for more time, but its writes do not come through; once a lease has passed, host 1 takes over, and
// what host 0 still has on its way changes nothing.
#![tactic(auto)]

ghost use Rattle.std.specs.Prelude.{◌≡◌};

mod show;
mod step;

use board::WriteName;
use disk::{BLOCK_LENGTH, Disk, Retry, Span, Tally, TiredImage};
use format::{Event, LogEntry, Tick};
use machine::Settings;
use queue::{Deadline, Queue};
use room::{Call, Room};
use std::io;
use step::{RESOURCE, Stage};

// What stands in the log list before anything is logged. No derived `Default`: no event is the one that an entry has by
// itself.
const NO_ENTRY: LogEntry = LogEntry {
    tick: Tick(0),
    event: Event::Granted,
    host: 0,
    resource: 0,
    term: 0,
    until: Tick(0),
};

// The first host, and the one that takes over.
const FIRST: usize = 0;

const SECOND: usize = 1;

// The write of a host that has not crashed, by its stamp.
fn write_of(owner: usize, stamp: usize) -> WriteName
    ensures { result ≡ record { owner = owner; generation = 1; stamp = stamp } }
{
    WriteName {
        owner,
        generation: 1,
        stamp,
    }
}

// Host 0 claims the free resource and is granted it.
fn claim<R: Print, D: Disk>(stage: &mut Stage<R, D>) -> io::Result<()> {
    let host = FIRST;
    let resource = RESOURCE;
    stage.make(
        "host 0 sets its clock",
        Call::SetClock { host, offset: -250 },
    )?;
    stage.make("the room opens", Call::Open)?;
    stage.make("host 0 tries", Call::Try { host, resource })?;
    stage.pass(3)?;
    stage.make("its claim lands", Call::Land(write_of(host, 1)))?;
    stage.pass(17)?;
    stage.check("host 0 checks", host)?;
    stage.pass(1)?;
    stage.check("host 0 checks", host)?;
    stage.sign("host 0 signs", host)
}

// Host 0 asks for more time while host 1 begins to watch; one of its writes is lost, the other is late.
fn hold<R: Print, D: Disk>(stage: &mut Stage<R, D>) -> io::Result<()> {
    let host = FIRST;
    let resource = RESOURCE;
    let watcher = Call::Try {
        host: SECOND,
        resource,
    };
    stage.make("host 1 tries", watcher)?;
    stage.make("host 0 renews", Call::Renew { host, resource })?;
    stage.pass(2)?;
    stage.make("its renewal is lost", Call::Lose(write_of(host, 2)))?;
    stage.make("host 0 confirms", Call::Confirm { host, resource })?;
    stage.pass(15)?;
    stage.make("host 0 renews again", Call::Renew { host, resource })?;
    stage.sign("host 0 signs", host)?;
    stage.pass(2)?;
    stage.sign("host 0 signs", host)
}

// Host 1 has watched for a lease, claims and is granted; the late write of host 0 finds no way any more.
fn take_over<R: Print, D: Disk>(stage: &mut Stage<R, D>) -> io::Result<()> {
    let host = SECOND;
    let resource = RESOURCE;
    let late = Call::Land(write_of(FIRST, 3));
    stage.pass(20)?;
    stage.make("host 1 tries", Call::Try { host, resource })?;
    stage.pass(1)?;
    stage.make("host 1 tries", Call::Try { host, resource })?;
    stage.pass(1)?;
    stage.make("its claim lands", Call::Land(write_of(host, 1)))?;
    stage.pass(20)?;
    stage.check("host 1 checks", host)?;
    stage.make("the late renewal of host 0 lands", late)?;
    stage.sign("host 0 signs", FIRST)?;
    stage.sign("host 1 signs", host)
}

// The room lies over one block of a worn image: its third access fails, and a second try gets over it.
fn main(rt: HostRuntime) -> io::Result<()> {
    let mut bytes = [0u8; 4 * BLOCK_LENGTH];
    let mut tallies = [Tally { good: 0, due: 0 }; 4];
    tallies[2] = Tally { good: 2, due: 1 };
    let image = TiredImage::new(&mut bytes, &mut tallies);
    let disk = Retry::new(Span::new(image, 2, 1), 2);
    let settings = match Settings::new(2, 1, 10, 40) {
        Ok(settings) => settings,
        Err(refusal) => return println!(rt; "settings refused {refusal}"),
    };
    let mut list = [Deadline { tick: 0, of: 0 }; 8];
    let room = Room::found(settings, disk);
    let deadlines = Queue::new(&mut list);
    let mut stage = Stage {
        rt: &rt,
        room,
        log: [NO_ENTRY; 8],
        deadlines,
    };
    claim(&mut stage)?;
    hold(&mut stage)?;
    take_over(&mut stage)?;
    stage.tell_log()
}
