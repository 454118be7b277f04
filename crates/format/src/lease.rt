// The lease record: who owns a resource, or that nobody does.
ghost use Rattle.format.specs.Blocks.{ReadsKind};

use disk::Refusal;

// Whether the resource is free or owned.
#[derive(Clone, Copy, PartialEq, Eq, Debug, Default)]
pub enum Kind {
    #[default]
    Free = 0,
    Owned = 1,
}

// The kind of this number; no other number than 0 and 1 has one.
impl TryFrom<u8> for Kind {
    type Error = Refusal;

    ghost try_from_gives = { ReadsKind };

    fn try_from(number: u8) -> Result<Kind, Refusal> {
        match number {
            0 => Ok(Kind::Free),
            1 => Ok(Kind::Owned),
            _ => Err(Refusal::NotARecord),
        }
    }
}

// A mark names one write: the host that issued it, in which of its generations, and with which stamp.
#[derive(Clone, Copy, PartialEq, Eq, Debug, Default)]
pub struct Mark {
    pub owner: u8,
    pub generation: u16,
    pub stamp: u32,
}

// What a resource's block says. The fields may hold any numbers; `is_valid` says whether they make a record. The mark is
// not inside of `Kind::Owned`: a resource that was released is free and keeps mark and term.
#[derive(Clone, Copy, PartialEq, Eq, Debug, Default)]
pub struct LeaseRecord {
    pub kind: Kind,
    pub resource: u8,
    pub mark: Mark,
    pub term: u32,
}
