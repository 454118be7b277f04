// The library at work, a line for each step: on a worn disk the records of four resources are formatted, one is claimed
// and read back, one access needs its retries, others are refused; log lines are printed and read back; deadlines fall
// due.
#![tactic(auto)]

mod history;
mod show;

use disk::{BLOCK_LENGTH, Disk, Retry, Span, Tally, TiredImage};
use format::{Kind, LeaseRecord, Mark, read_record, write_record};
use history::{tell_deadlines, tell_log};
use show::{show_area, show_block, show_read, show_worn, show_written};
use std::io;

const RESOURCES: u8 = 4;

// A disk of records with the area that they pass through, and where its steps are told.
#[derive(Drop)]
struct Tour<'a, R, D> {
    rt: &'a R,
    disk: D,
    area: [u8; BLOCK_LENGTH],
}

impl<'a, R: Print, D: Disk> Tour<'a, R, D> {
    // Writes a record and tells how it went.
    fn write(&mut self, what: &str, lease: LeaseRecord) -> io::Result<()> {
        let written = write_record(&mut self.disk, lease, &mut self.area);
        show_written(self.rt, what, lease.resource, written)
    }

    // Formats the records of all resources.
    fn format_all(&mut self) -> io::Result<()> {
        for resource in 0..RESOURCES {
            self.write("format", LeaseRecord::founding(resource))?;
        }
        Ok(())
    }

    // Host 3 claims resource 2.
    fn claim(&mut self) -> io::Result<()> {
        let mark = Mark {
            owner: 3,
            generation: 1,
            stamp: 1,
        };
        let lease = LeaseRecord {
            kind: Kind::Owned,
            resource: 2,
            mark,
            term: 1,
        };
        show_block(self.rt, lease)?;
        self.write("claim", lease)
    }

    // Reads the record of each resource, and of one that is not there, and looks at the area after each.
    fn look_at_all(&mut self) -> io::Result<()> {
        for resource in 0..=usize::from(RESOURCES) {
            let seen = read_record(&mut self.disk, resource, &mut self.area);
            show_read(self.rt, resource, seen)?;
            show_area(self.rt, &self.area)?;
        }
        Ok(())
    }

    // All steps on the disk, in their order.
    fn tell(&mut self) -> io::Result<()> {
        println!(self.rt;
            "retry 3 over span 2, 4 over an image of 16 blocks: {} blocks at height {}",
            self.disk.count(),
            self.disk.height()
        )?;
        self.format_all()?;
        self.claim()?;
        self.look_at_all()
    }
}

// Block 3 of the image fails twice after its first access, which three tries get over; block 5 fails three times.
fn main(rt: HostRuntime) -> io::Result<()> {
    let mut bytes = [0u8; 16 * BLOCK_LENGTH];
    let mut tallies = [Tally { good: 0, due: 0 }; 16];
    tallies[3] = Tally { good: 1, due: 2 };
    tallies[5] = Tally { good: 1, due: 3 };
    show_worn(&rt, "before", &tallies)?;
    {
        let image = TiredImage::new(&mut bytes, &mut tallies);
        let mut tour = Tour {
            rt: &rt,
            disk: Retry::new(Span::new(image, 2, 4), 3),
            area: [0; BLOCK_LENGTH],
        };
        tour.tell()?;
    }
    show_worn(&rt, "after", &tallies)?;
    tell_log(&rt)?;
    tell_deadlines(&rt)
}
