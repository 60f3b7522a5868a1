//! What a writer keeps of the events that it took.

use crate::bodies::{Counts, Descriptor, EntryChain};
use crate::lists::{Buffer, NodeEntries};
use cdf_model::{Bytes, DataType, Scope};
use std::alloc::Global;

/// What is known of the whole file.
#[derive(Drop)]
pub struct FileState {
    /// Whether the least byte of a value stands first.
    pub little: bool,
    pub counts: Counts,
    /// The sizes of the dimensions that r variables share, as they are stored.
    pub dims: Bytes,
    /// Where the first attribute, the first r variable and the first z variable stand, 0 as long as there is none.
    pub attributes: u64,
    pub r: u64,
    pub z: u64,
    /// How many record numbers there are up to the greatest MaxRec of the r variables.
    pub extent: u32,
}

impl FileState {
    ghost use Rattle.std.specs.Prelude.{◌≡◌};
    ghost use Rattle.cdf_writer.specs.Progress.{start};

    /// Nothing is known.
    pub fn new(alloc: Global) -> Self
        ensures { result ≡ start.file }
    {
        FileState {
            little: false,
            counts: Counts {
                attributes: 0,
                r: 0,
                z: 0,
                dims: 0,
            },
            dims: Bytes::new(Vec::new(alloc)),
            attributes: 0,
            r: 0,
            z: 0,
            extent: 0,
        }
    }
}

/// An entry that is written once it is known whether another one follows in its chain.
#[derive(Drop)]
pub struct Held {
    /// Whether it is one of a z variable.
    pub in_z: bool,
    pub num: u32,
    pub t: DataType,
    pub elems: u32,
    /// Its Value, as it is stored.
    pub stored: Bytes,
}

/// An attribute whose entries come.
#[derive(Drop)]
pub struct OpenAttribute {
    /// Where room is kept for its ADR.
    pub place: u64,
    pub num: u32,
    pub scope: Scope,
    /// Its Name, as it is stored.
    pub name: Bytes,
    pub g: EntryChain,
    pub z: EntryChain,
    pub held: Option<Held>,
}

/// The stored records that go into one block, with the number of the first and of the last, and how many there are.
#[derive(Drop)]
pub struct Group {
    pub first: u32,
    pub last: u32,
    pub count: u32,
    /// Their bytes, as they are stored.
    pub plain: Buffer,
}

impl Group {
    ghost use Rattle.std.specs.Prelude.{◌≡◌};
    ghost use Rattle.cdf_writer.specs.Progress.{no_group};

    /// One without records.
    pub fn new(alloc: Global) -> Self
        ensures { result ≡ no_group }
    {
        Group {
            first: 0,
            last: 0,
            count: 0,
            plain: Buffer::new(alloc),
        }
    }

    /// Drops all records, and keeps their room.
    pub fn clear(&mut self)
        ensures { self.new ≡ no_group }
    {
        self.first = 0;
        self.last = 0;
        self.count = 0;
        self.plain.clear();
    }
}

/// A variable whose records come.
#[derive(Drop)]
pub struct OpenVariable {
    /// Where room is kept for its VDR.
    pub place: u64,
    pub own: Descriptor,
    pub vary: bool,
    pub rle: bool,
    /// What stands in its VDR from the Name on.
    pub tail: Bytes,
    /// CPRorSPRoffset.
    pub cpr: u64,
    /// The blocks that are written.
    pub leaves: NodeEntries,
    /// The records that are not written yet.
    pub group: Group,
}

/// Which part of the file is open.
#[derive(Drop)]
pub enum Part {
    /// The head has not come.
    Start,
    /// All that came is written.
    Between,
    Attribute(OpenAttribute),
    Variable(OpenVariable),
}
