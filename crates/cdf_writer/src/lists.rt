//! Lists that grow, which contracts see as lists.

ghost use Rattle.std.specs.Prelude.{◌≡◌, ◌++◌, ◌∷◌, [], ◌%◌, length, OnOk};

use crate::bodies::NodeEntry;
use cdf_model::{DataType, Encoding};
use cdf_values::from_network;
use std::alloc::{AllocError, Global};
use std::marker::Model;

/// Bytes that grow.
#[derive(Drop)]
pub struct Buffer {
    items: Vec<u8>,
}

impl Model for Buffer {
    ghost use Rattle.std.specs.Prelude.{ℕ, List};

    ghost Value = { List ℕ };

    ghost view = { λ buffer. buffer.items.items };
}

impl Buffer {
    ghost use Rattle.cdf_model.specs.ByteOrder.{turned};
    ghost use Rattle.cdf_model.specs.Types.{size_of};

    pub fn new(alloc: Global) -> Self
        ensures { result ≡ [] }
    {
        Buffer {
            items: Vec::new(alloc),
        }
    }

    pub fn as_slice(&self) -> &[u8]
        ensures { result.now ≡ self.now }
    {
        &self.items
    }

    /// Drops all bytes, and keeps their room.
    pub fn clear(&mut self)
        ensures { self.new ≡ [] }
    {
        self.items.clear();
    }

    /// Appends the elements of values that are in network order, as an encoding has them.
    pub fn push_values(
        &mut self,
        t: DataType,
        enc: Encoding,
        bytes: &[u8],
    ) -> Result<(), AllocError>
        requires { length bytes.now % size_of t ≡ 0 }
        ensures { OnOk result (self.new ≡ self.old ++ turned t enc.little bytes.now) }
    {
        let start = self.items.len();
        self.items.extend_from_slice(bytes)?;
        from_network(t, enc, &mut self.items[start..]);
        Ok(())
    }
}

/// Entries of nodes.
#[derive(Drop)]
pub struct NodeEntries {
    items: Vec<NodeEntry>,
}

impl Model for NodeEntries {
    ghost use Rattle.std.specs.Prelude.{List};
    ghost use Rattle.cdf_writer.specs.declared.bodies.NodeEntry.{NodeEntry};

    ghost Value = { List NodeEntry };

    ghost view = { λ entries. entries.items.items };
}

impl NodeEntries {
    pub fn new(alloc: Global) -> Self
        ensures { result ≡ [] }
    {
        NodeEntries {
            items: Vec::new(alloc),
        }
    }

    pub fn as_slice(&self) -> &[NodeEntry]
        ensures { result.now ≡ self.now }
    {
        &self.items
    }

    pub fn push(&mut self, entry: NodeEntry) -> Result<(), AllocError>
        ensures { OnOk result (self.new ≡ self.old ++ entry ∷ []) }
    {
        self.items.push(entry)?;
        Ok(())
    }
}
