//! Why a call on a real file failed.

use crate::SystemError;

/// What a name leads to that is no regular file.
#[derive(Clone, Copy, Debug, PartialEq, Eq)]
pub enum FileKind {
    Folder,
    Fifo,
    Socket,
    CharacterDevice,
    BlockDevice,
    Other,
}

/// A stream that a program has from its start.
#[derive(Clone, Copy, Debug, PartialEq, Eq)]
pub enum Stream {
    Input,
    Output,
    Error,
}

/// Why a call on a real file failed.
#[derive(Clone, Copy, Debug, PartialEq, Eq)]
pub enum FileFailure {
    /// The name leads to something else than a regular file.
    NotRegular(FileKind),
    /// Another program wrote the file, or put another in its place, after it was attached.
    Changed,
    /// Another program changed the file each time while it was read.
    ChangedWhileRead,
    /// Another program had the file locked for itself alone each time while it was read.
    Locked,
    /// The file was opened in the place of a standard stream.
    StandardStream,
    /// The file is one that this program has as a standard stream.
    IsStream(Stream),
    /// The file can be read, but could not be opened for writing.
    NotWritable(SystemError),
    /// The system refused a call.
    System(SystemError),
}
