// The block that a lease record writes, and the record that a block is.
ghost use Rattle.std.specs.Prelude.{◌≡◌, length, Ok, MatchOption};
ghost use Rattle.format.specs.Bytes.{ByteOrder};
ghost use Rattle.format.specs.Blocks.{founding as founding_of, valid, front_of, sums, sum_bytes, block_of, Written, encode_answer, encoded_area, decoded};
ghost use Rattle.format.specs.Examples.{WorkedExamples};

use crate::lease::{Kind, LeaseRecord, Mark};
use disk::{BLOCK_LENGTH, Refusal};

// The bytes that hold the record's fields and sums; the rest of the block is zero.
const RECORD_LENGTH: u16 = 20;

const VERSION: u8 = 1;

impl LeaseRecord {
    // The record of a resource that nobody has claimed yet.
    pub fn founding(resource: u8) -> LeaseRecord
        ensures { result ≡ founding_of resource }
    {
        LeaseRecord {
            resource,
            ..LeaseRecord::default()
        }
    }

    // Whether the fields are in range and the mark and term fit the kind.
    pub fn is_valid(self) -> bool
        ensures { result ≡ valid self }
    {
        let Mark {
            owner,
            generation,
            stamp,
        } = self.mark;
        let in_range = self.resource <= 7 && owner <= 15 && stamp <= 9999 && self.term <= 999_999;
        let used = generation >= 1 && stamp >= 1 && self.term >= 1;
        let unused = owner == 0 && generation == 0 && stamp == 0 && self.term == 0;
        match self.kind {
            Kind::Owned => in_range && used,
            Kind::Free => in_range && (used || unused),
        }
    }

    // Fills the area with the record's block; an area that is not one block long is zeroed.
    #[tactic(auto, using(crate::proofs::ByteOrder::byte_order, crate::proofs::Worked::worked_examples))]
    pub fn encode(self, area: &mut [u8]) -> Result<(), Refusal>
        ensures answer { result ≡ encode_answer (length area.old) }
        ensures area { area.new ≡ encoded_area self (length area.old) }
        ensures order { ByteOrder }
        ensures examples { WorkedExamples }
    {
        if area.len() != BLOCK_LENGTH {
            area.fill(0);
            return Err(Refusal::WrongLength);
        }
        area.copy_from_slice(&block(self));
        Ok(())
    }

    // The record whose block the bytes are; any other bytes are refused.
    pub fn decode(bytes: &[u8]) -> Result<LeaseRecord, Refusal>
        ensures answer { result ≡ decoded bytes.now }
        ensures exact { (x : LeaseRecord) → (result ≡ Ok x → Written x bytes.now) × (Written x bytes.now → result ≡ Ok x) }
    {
        fields(bytes)
            .filter(|lease| lease.is_valid() && bytes == block(*lease).as_slice())
            .ok_or(Refusal::NotARecord)
    }
}

// The bytes that the sums are over.
fn front(lease: LeaseRecord) -> [u8; 16]
    ensures { result ≡ front_of lease }
{
    let [l0, l1] = RECORD_LENGTH.to_be_bytes();
    let [g0, g1] = lease.mark.generation.to_be_bytes();
    let [s0, s1, s2, s3] = lease.mark.stamp.to_be_bytes();
    let [t0, t1, t2, t3] = lease.term.to_be_bytes();
    [
        l0,
        l1,
        VERSION,
        lease.kind as u8,
        lease.resource,
        lease.mark.owner,
        g0,
        g1,
        s0,
        s1,
        s2,
        s3,
        t0,
        t1,
        t2,
        t3,
    ]
}

// The two sums over the 16-bit words, as they are stored.
fn checksums(front: &[u8; 16]) -> [u8; 4]
    ensures { result ≡ sum_bytes (sums front.now 0 0) }
{
    let (words, _) = front.as_chunks::<2>();
    let mut s: u32 = 0;
    let mut t: u32 = 0;
    for word in words {
        s = (s + u32::from(u16::from_be_bytes(*word))) % 65535;
        t = (t + s) % 65535;
    }
    let [t0, t1] = (t as u16).to_be_bytes();
    let [s0, s1] = (s as u16).to_be_bytes();
    [t0, t1, s0, s1]
}

// The block that the record writes.
fn block(lease: LeaseRecord) -> [u8; BLOCK_LENGTH]
    ensures { result ≡ block_of lease }
{
    let front = front(lease);
    let mut block = [0; BLOCK_LENGTH];
    block[..16].copy_from_slice(&front);
    block[16..20].copy_from_slice(&checksums(&front));
    block
}

// The fields as they stand in a block: if any record wrote it, it has these.
fn fields(bytes: &[u8]) -> Option<LeaseRecord>
    ensures { MatchOption result ((x : LeaseRecord) → Written x bytes.now → ⊥) (λ y. (x : LeaseRecord) → Written x bytes.now → x ≡ y) }
{
    let bytes: &[u8; BLOCK_LENGTH] = bytes.try_into().ok()?;
    let [
        _,
        _,
        _,
        kind,
        resource,
        owner,
        g0,
        g1,
        s0,
        s1,
        s2,
        s3,
        t0,
        t1,
        t2,
        t3,
        ..
    ] = bytes;
    Some(LeaseRecord {
        kind: Kind::try_from(*kind).ok()?,
        resource: *resource,
        mark: Mark {
            owner: *owner,
            generation: u16::from_be_bytes([*g0, *g1]),
            stamp: u32::from_be_bytes([*s0, *s1, *s2, *s3]),
        },
        term: u32::from_be_bytes([*t0, *t1, *t2, *t3]),
    })
}
