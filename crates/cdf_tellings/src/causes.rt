//! Why the system did not serve a file, in words.

use cdf_store::{FileFailure, FileKind, Stream, SystemError};
use std::fmt;
use std::io::ErrorKind;

/// An error of the system that has no kind of its own in words, by the number that Linux has for it.
fn words_of_number(number: i32) -> Option<&'static str> {
    match number {
        5 => Some("input/output error"),
        6 | 19 => Some("the device is not there"),
        23 => Some("the system has too many files open"),
        24 => Some("this program has too many files open"),
        _ => None,
    }
}

/// An error of the system in words, by its kind.
fn words_of_error(kind: ErrorKind) -> Option<&'static str> {
    let words = match kind {
        ErrorKind::NotFound => "the file or a folder above it is not there",
        ErrorKind::PermissionDenied => "there is no permission",
        ErrorKind::AlreadyExists => "the file is there already",
        ErrorKind::WouldBlock => "the file is in use",
        ErrorKind::NotADirectory => "a part of the path is no folder",
        ErrorKind::IsADirectory => "it is a folder",
        ErrorKind::ReadOnlyFilesystem => "the file system can only be read",
        ErrorKind::FilesystemLoop => "there are too many symbolic links on the path",
        ErrorKind::StaleNetworkFileHandle => "the file server no longer has the file",
        ErrorKind::InvalidInput => "the name or the place is one that the system does not take",
        ErrorKind::InvalidData => "the system gave what is not UTF-8",
        ErrorKind::TimedOut => "the device did not answer in time",
        ErrorKind::WriteZero => "the device takes no more bytes",
        ErrorKind::StorageFull => "no space is left on the device",
        ErrorKind::NotSeekable => "the file has no places to write at",
        ErrorKind::QuotaExceeded => "the quota of space is used up",
        ErrorKind::FileTooLarge => "the file would be larger than the system allows",
        ErrorKind::ResourceBusy => "the device is busy",
        ErrorKind::ExecutableFileBusy => "the file is a program that is running",
        ErrorKind::Deadlock => "the file is locked",
        ErrorKind::TooManyLinks => "the file has too many links",
        ErrorKind::InvalidFilename => "the name is too long, or is none for this file system",
        ErrorKind::Interrupted => "the call was interrupted again and again",
        ErrorKind::Unsupported => "the device cannot do this",
        ErrorKind::UnexpectedEof => "the file ended too early",
        ErrorKind::OutOfMemory => "the system has no memory",
        _ => return None,
    };
    Some(words)
}

/// Writes why the system refused a call: in words, or by its number where there are none for it.
fn write_error<W: fmt::Write>(error: SystemError, f: &mut fmt::Formatter<W>) -> fmt::Result {
    let by_number = match error.number {
        Some(number) => words_of_number(number),
        None => None,
    };
    match (by_number.or(words_of_error(error.kind)), error.number) {
        (Some(words), _) => f.write_str(words),
        (None, Some(number)) => write!(f, "the system's error number {number}"),
        (None, None) => f.write_str("the system gives a reason that is not known here"),
    }
}

/// What a name leads to that is no regular file.
fn words_of_kind(kind: FileKind) -> &'static str {
    match kind {
        FileKind::Folder => "it is a folder, and no regular file",
        FileKind::Fifo => "it is a pipe, and no regular file",
        FileKind::Socket => "it is a socket, and no regular file",
        FileKind::CharacterDevice => "it is a character device, and no regular file",
        FileKind::BlockDevice => "it is a block device, and no regular file",
        FileKind::Other => "it is no regular file",
    }
}

/// A file that this program has as one of its streams.
fn words_of_stream(stream: Stream) -> &'static str {
    match stream {
        Stream::Input => "it is this program's standard input",
        Stream::Output => "it is this program's standard output",
        Stream::Error => "it is this program's standard error",
    }
}

/// Why a call on a file failed, to be written in words.
#[derive(Clone, Copy, Debug)]
pub struct Cause(pub FileFailure);

impl fmt::Display for Cause {
    fn fmt<W: fmt::Write>(&self, f: &mut fmt::Formatter<W>) -> fmt::Result {
        match self.0 {
            FileFailure::NotRegular(kind) => f.write_str(words_of_kind(kind)),
            FileFailure::Changed => {
                f.write_str(
                    "another program changed it, or put another file in its place, since it was opened",
                )
            }
            FileFailure::ChangedWhileRead => {
                f.write_str("another program changed it while it was read, three times")
            }
            FileFailure::Locked => {
                f.write_str("locked by another program, which may be saving it")
            }
            FileFailure::IsStream(stream) => f.write_str(words_of_stream(stream)),
            FileFailure::StandardStream => f.write_str("it is open as a standard stream"),
            FileFailure::NotWritable(error) => {
                f.write_str("it can be read, and not be written: ")?;
                write_error(error, f)
            }
            FileFailure::System(error) => write_error(error, f),
        }
    }
}
