//! The log beside a file.

use std::alloc::{AllocError, Global};
use std::fs;
use std::io::Read;
use std::rt::Files;

/// The name of the log of a file.
fn log_name(alloc: Global, name: &str) -> Result<String, AllocError> {
    let mut log = String::from_str(alloc, name)?;
    log.push_str(".journal")?;
    Ok(log)
}

/// Whether a file has a log that is open: one of more than 8 bytes that begins with 1.
pub fn has_open_log<R: Files>(rt: &R, alloc: Global, name: &str) -> bool {
    let Ok(name) = log_name(alloc, name) else {
        return false;
    };
    let is_long = match fs::metadata(rt, name.as_str()) {
        Ok(metadata) => metadata.is_file() && metadata.len() > 8,
        Err(_) => false,
    };
    if !is_long {
        return false;
    }
    let mut first = [0; 1];
    match fs::open(rt, name.as_str()) {
        Ok(mut file) => matches!(file.read(&mut first), Ok(1)) && first[0] == 1,
        Err(_) => false,
    }
}
