//! What kind of file a name leads to.

ghost use Rattle.std.specs.Prelude.{◌≡◌, ◌↔◌, ◌≢◌, IsOk};
ghost use Rattle.std.specs.Fs.{file_type, IsDir, IsFile};

use crate::{FileFailure, FileKind};
use std::fs::{FileType, Metadata};
use std::os::unix::fs::FileTypeExt;

/// Refuses what is no regular file.
pub fn check_regular(metadata: &Metadata) -> Result<(), FileFailure>
    ensures { IsOk result ↔ IsFile (file_type metadata.now) }
{
    if metadata.is_file() {
        Ok(())
    } else {
        Err(FileFailure::NotRegular(kind_of(metadata.file_type())))
    }
}

/// What a file is that is not regular.
fn kind_of(kind: FileType) -> FileKind
    ensures { result ≡ FileKind.Folder ↔ IsDir kind }
{
    if kind.is_dir() {
        FileKind::Folder
    } else if kind.is_fifo() {
        FileKind::Fifo
    } else if kind.is_socket() {
        FileKind::Socket
    } else if kind.is_char_device() {
        FileKind::CharacterDevice
    } else if kind.is_block_device() {
        FileKind::BlockDevice
    } else {
        FileKind::Other
    }
}
