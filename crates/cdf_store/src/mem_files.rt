//! Files in memory, by their names.

ghost use Rattle.std.specs.Prelude.{◌≡◌, ◌+◌, ◌≤◌, ◌<◌, [], if◌then◌else◌, length, take, IsSome, IsTrue, IfOk, IfSome, IfNone, OnOk, OnErr, Some, None, bytes_eq, vec_len, vec_capacity};
ghost use Rattle.std.specs.Option.{ForSome, option_copied, option_map};
ghost use Rattle.std.specs.List.{IsDistinct};
ghost use Rattle.std.proofs.Props.{props};
ghost use Rattle.cdf_base.specs.Bytes.{put};
ghost use Rattle.cdf_store.specs.Named.{AttachesIn, found_or_made, lookup, lookup_in, names, with_file, with_made};
ghost use Rattle.cdf_store.specs.Disk.{file_in, files_with};
ghost use Rattle.cdf_store.specs.MemFile.{entries, held_at, name_at};

use crate::copy::put_in;
use std::alloc::{AllocError, Global};

/// A file in memory.
#[derive(Drop)]
pub struct MemFile {
    pub name: String,
    pub bytes: Vec<u8>,
}

/// Files in memory, of which no two have one name. At most one is attached.
#[derive(Drop)]
pub struct MemFiles {
    pub alloc: Global,
    pub list: Vec<MemFile>,
    pub attached: Option<usize>,
    ghost in_range: { ForSome attached (λ i. i < length list.items) },
    ghost distinct: { IsDistinct bytes_eq (names (entries list.items)) } by { Prim.hlevel props },
    ghost listed: { held_at list.items attached
        ≡ lookup_in (name_at list.items attached) (entries list.items) } by { Prim.hlevel props },
}

/// Where the file of this name stands.
fn place_of(files: &[MemFile], name: &str) -> Option<usize>
    ensures range { IfSome result (λ i. i < length files.now) }
    ensures named { name_at files.now result ≡ option_map (λ _. name.now) result }
    ensures none { IfNone result (lookup name.now (entries files.now) ≡ None) }
{
    for (i, file) in files.iter().enumerate() {
        if file.name.as_str() == name {
            return Some(i);
        }
    }
    None
}

/// Adds a file, or replaces the one of this name.
fn put_entry(
    files: &mut Vec<MemFile>,
    alloc: Global,
    name: &str,
    bytes: &[u8],
) -> Result<(), AllocError>
    requires { IsDistinct bytes_eq (names (entries files.old.items)) }
    ensures ok { OnOk result (entries files.new.items ≡ with_file name.now bytes.now (entries files.old.items)) }
    ensures err { OnErr result (files.new.items ≡ files.old.items) }
{
    let bytes = Vec::from_slice(alloc, bytes)?;
    match place_of(files, name) {
        Some(place) => {
            files[place].bytes = bytes;
            Ok(())
        }
        None => {
            let name = String::from_str(alloc, name)?;
            files.push(MemFile { name, bytes })?;
            Ok(())
        }
    }
}

impl MemFiles {
    ghost use Rattle.cdf_store.specs.MemFiles.{entries_of, held_of, name_of, room_of};

    pub fn new(alloc: Global) -> Self
        ensures files { entries_of result ≡ [] }
        ensures attached { result.attached ≡ None }
    {
        MemFiles {
            alloc,
            list: Vec::new(alloc),
            attached: None,
        }
    }

    /// Adds a file, or replaces the one of this name. Then no file is attached.
    pub fn put(&mut self, name: &str, bytes: &[u8]) -> Result<(), AllocError>
        ensures ok { OnOk result (entries_of self.new ≡ with_file name.now bytes.now (entries_of self.old)) }
        ensures detached { OnOk result (self.new.attached ≡ None) }
        ensures err { OnErr result (self.new.list.items ≡ self.old.list.items) }
        ensures attached { OnErr result (self.new.attached ≡ self.old.attached) }
    {
        put_entry(&mut self.list, self.alloc, name, bytes)?;
        self.attached = None;
        Ok(())
    }

    /// The bytes of the file of this name.
    pub fn find(&self, name: &str) -> Option<&[u8]>
        ensures { option_copied result ≡ lookup name.now (entries_of self.now) }
    {
        match place_of(&self.list, name) {
            None => None,
            Some(place) => Some(self.list[place].bytes.as_slice()),
        }
    }

    /// Attaches the file of this name, which is made where it is to be, and answers its length.
    pub fn attach(&mut self, name: &str, make: bool) -> Result<Option<u64>, AllocError>
        requires { held_of self.old ≡ None }
        ensures length { IfOk result (λ found. found ≡ option_map length (held_of self.new)) }
        ensures held { OnOk result (held_of self.new
            ≡ found_or_made make (lookup name.now (entries_of self.old))) }
        ensures made { IsTrue make → IfOk result (λ found. IsSome found) }
        ensures name { name_of self.new ≡ option_map (λ _. name.now) (held_of self.new) }
        ensures files { AttachesIn make name.now (Some (entries_of self.old)) (Some (entries_of self.new))
            result }
        ensures err { OnErr result (held_of self.new ≡ None) }
    {
        self.make_absent(name, make)?;
        Ok(self.attach_found(name))
    }

    /// Makes an empty file of this name, where it is to be and there is none.
    fn make_absent(&mut self, name: &str, make: bool) -> Result<(), AllocError>
        requires { held_of self.old ≡ None }
        ensures files { OnOk result (entries_of self.new
            ≡ (if make then with_made name.now (entries_of self.old) else entries_of self.old)) }
        ensures err { OnErr result (entries_of self.new ≡ entries_of self.old) }
        ensures held { held_of self.new ≡ None }
    {
        if !make {
            return Ok(());
        }
        match place_of(&self.list, name) {
            Some(_) => Ok(()),
            None => self.put(name, &[]),
        }
    }

    /// Attaches the file of this name, and answers its length.
    fn attach_found(&mut self, name: &str) -> Option<u64>
        requires { held_of self.old ≡ None }
        ensures held { held_of self.new ≡ lookup name.now (entries_of self.old) }
        ensures name { name_of self.new ≡ option_map (λ _. name.now) (held_of self.new) }
        ensures files { entries_of self.new ≡ entries_of self.old }
        ensures length { result ≡ option_map length (held_of self.new) }
    {
        match place_of(&self.list, name) {
            None => None,
            Some(place) => {
                self.attached = Some(place);
                Some(self.list[place].bytes.len() as u64)
            }
        }
    }

    /// The bytes of the attached file, or none.
    pub fn bytes(&self) -> &[u8]
        ensures { result.now ≡ file_in (held_of self.now) }
    {
        match self.attached {
            None => &[],
            Some(place) => &self.list[place].bytes,
        }
    }

    /// Makes room in the attached file up to an end.
    pub fn reserve(&mut self, end: u64) -> Result<(), AllocError>
        requires { IsSome (held_of self.old) }
        ensures room { OnOk result (end ≤ room_of self.new) }
        ensures kept { room_of self.old ≤ room_of self.new }
        ensures held { held_of self.new ≡ held_of self.old }
        ensures name { name_of self.new ≡ name_of self.old }
        ensures files { entries_of self.new ≡ entries_of self.old }
    {
        let Some(place) = self.attached else {
            return Ok(());
        };
        reserve_to(&mut self.list[place].bytes, end)
    }

    /// Puts bytes at a place of the attached file, which has room for them.
    pub fn write(&mut self, place: usize, bytes: &[u8])
        requires held { IsSome (held_of self.old) }
        requires place { place ≤ length (file_in (held_of self.old)) }
        requires room { place + length bytes.now ≤ room_of self.old }
        ensures held { held_of self.new ≡ Some (put (file_in (held_of self.old)) place bytes.now) }
        ensures name { name_of self.new ≡ name_of self.old }
        ensures files { Some (entries_of self.new)
            ≡ files_with (name_of self.old) (file_in (held_of self.new)) (Some (entries_of self.old)) }
        ensures room { room_of self.old ≤ room_of self.new }
    {
        if let Some(index) = self.attached {
            put_in(&mut self.list[index].bytes, place, bytes);
        }
    }

    /// Cuts the attached file.
    pub fn cut(&mut self, length: usize)
        requires { IsSome (held_of self.old) }
        ensures held { held_of self.new ≡ Some (take length (file_in (held_of self.old))) }
        ensures name { name_of self.new ≡ name_of self.old }
        ensures files { Some (entries_of self.new)
            ≡ files_with (name_of self.old) (file_in (held_of self.new)) (Some (entries_of self.old)) }
        ensures room { room_of self.old ≤ room_of self.new }
    {
        if let Some(index) = self.attached {
            self.list[index].bytes.truncate(length);
        }
    }
}

/// Makes room up to an end.
pub fn reserve_to(bytes: &mut Vec<u8>, end: u64) -> Result<(), AllocError>
    ensures items { bytes.new.items ≡ bytes.old.items }
    ensures room { OnOk result (end ≤ vec_capacity bytes.new) }
    ensures kept { vec_capacity bytes.old ≤ vec_capacity bytes.new }
{
    let have = bytes.len() as u64;
    if end > have {
        bytes.reserve_exact((end - have) as usize)?;
    }
    Ok(())
}
