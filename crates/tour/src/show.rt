// The lines that the tour prints.
ghost use Rattle.std.specs.Prelude.{◌≡◌, count_by, nat_eq};

use disk::{BLOCK_LENGTH, Fault, Tally};
use format::{Kind, LeaseRecord};
use std::io;

// The bytes of a block that hold its record; `format` keeps its own number to itself.
const RECORD_LENGTH: usize = 20;

// The blocks of the image that fail at times.
const WORN: [usize; 2] = [3, 5];

// How a write went.
pub(crate) fn show_written(
    rt: &impl Print,
    what: &str,
    resource: u8,
    written: Result<(), Fault>,
) -> io::Result<()> {
    match written {
        Ok(()) => println!(rt; "{what} {resource}: written"),
        Err(fault) => println!(rt; "{what} {resource}: {fault}"),
    }
}

// What was read.
pub(crate) fn show_read(
    rt: &impl Print,
    resource: usize,
    seen: Result<LeaseRecord, Fault>,
) -> io::Result<()> {
    match seen {
        Ok(lease) => match lease.kind {
            Kind::Free => println!(rt; "read {resource}: free, term {}", lease.term),
            Kind::Owned => println!(rt;
                "read {resource}: owned by host {}, generation {}, stamp {}, term {}",
                lease.mark.owner, lease.mark.generation, lease.mark.stamp, lease.term
            ),
        },
        Err(fault) => println!(rt; "read {resource}: {fault}"),
    }
}

// The bytes that hold a record, as they stand in its block.
pub(crate) fn show_block(rt: &impl Print, lease: LeaseRecord) -> io::Result<()> {
    let mut area = [0u8; BLOCK_LENGTH];
    let _ = lease.encode(&mut area);
    print!(rt; "block of the claim:")?;
    for byte in area.iter().take(RECORD_LENGTH) {
        print!(rt; " {byte:02x}")?;
    }
    println!(rt; "")
}

// How many bytes are zero.
fn zeros_in(bytes: &[u8]) -> usize
    ensures { result ≡ count_by (λ b. nat_eq b 0) bytes.now }
{
    bytes.iter().filter(|b| **b == 0).count()
}

// What the area holds after a read.
pub(crate) fn show_area(rt: &impl Print, area: &[u8]) -> io::Result<()> {
    println!(rt;
        "  area: {} of {} bytes are zero",
        zeros_in(area),
        area.len()
    )
}

// How much wear the blocks of the image that fail at times have left.
pub(crate) fn show_worn(rt: &impl Print, when: &str, tallies: &[Tally; 16]) -> io::Result<()> {
    for block in WORN {
        let Tally { good, due } = tallies[block];
        println!(rt; "{when}, block {block}: good {good}, due {due}")?;
    }
    Ok(())
}
