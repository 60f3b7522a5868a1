//! How a file stood at a moment, by what the system tells.

ghost use Rattle.std.specs.Prelude.{◌≡◌, ◌↔◌, IsTrue};
ghost use Rattle.std.specs.Fs.{metadata_len};

use std::fs::Metadata;
use std::os::unix::fs::MetadataExt;

/// How a file stood: its length, when its bytes were last changed, and where the system keeps it.
#[derive(Clone, Copy, PartialEq, Eq)]
pub struct Stamp {
    pub length: u64,
    pub seconds: i64,
    pub nanoseconds: i64,
    pub device: u64,
    pub inode: u64,
}

impl Stamp {
    /// How the file of this metadata stands.
    pub fn of(metadata: &Metadata) -> Self
        ensures { result.length ≡ metadata_len metadata.now }
    {
        Stamp {
            length: metadata.len(),
            seconds: metadata.mtime(),
            nanoseconds: metadata.mtime_nsec(),
            device: metadata.dev(),
            inode: metadata.ino(),
        }
    }

    /// Whether the file stands now as it stood then.
    pub fn is_unchanged(&self, now: &Stamp) -> bool
        ensures { IsTrue result ↔ (self.now ≡ now.now) }
    {
        self == now
    }

    /// Whether both are of one file, as the system keeps it.
    pub fn is_same_file(&self, other: &Stamp) -> bool
        ensures { IsTrue result ↔ ((self.now.device ≡ other.now.device) × (self.now.inode ≡ other.now.inode)) }
    {
        self.device == other.device && self.inode == other.inode
    }
}
