//! How often an area in pages calls its store, and how it is saved to a real file.

ghost use Rattle.std.specs.Prelude.{◌≡◌, IsSome, IfOk, OnOk, None};

use cdf_area::Area;
use cdf_pages::{PagedArea, SaveError};
use cdf_store::{FileStore, MemStore, Store};
use std::alloc::Global;
use std::fs;
use std::test::Fail;

const NAME: &str = "file";

/// How many bytes a page has.
const PAGE: u64 = 65_536;

/// An area over a file of so many bytes that are 7, whose calls of two numbers fail.
fn failing_area(alloc: Global, size: u64, fails: [u64; 2]) -> Result<PagedArea<MemStore>, Fail>
    ensures base { IfOk result (λ area. (⟦<PagedArea<MemStore> as Area>⟧.frame area).base ≡ None) }
    ensures held { IfOk result (λ area. IsSome (⟦<PagedArea<MemStore> as Area>⟧.frame area).under.0.held) }
{
    let bytes = vec![in alloc; 7u8; size as usize]?;
    let mut store = MemStore::new(alloc);
    store.fail_at(fails[0])?;
    store.fail_at(fails[1])?;
    store.put_file(NAME, &bytes)?;
    let Ok(Some(length)) = store.attach(NAME, false) else {
        return Err(Fail::new("no file was attached"));
    };
    match PagedArea::over(alloc, store, length, 1 << 40) {
        Ok(area) => Ok(area),
        Err(_) => Err(Fail::new("no area")),
    }
}

/// An area over a file of so many bytes that are 7.
fn area_over(alloc: Global, size: u64) -> Result<PagedArea<MemStore>, Fail>
    ensures base { IfOk result (λ area. (⟦<PagedArea<MemStore> as Area>⟧.frame area).base ≡ None) }
    ensures held { IfOk result (λ area. IsSome (⟦<PagedArea<MemStore> as Area>⟧.frame area).under.0.held) }
{
    // No call has the number 0.
    failing_area(alloc, size, [0, 0])
}

/// The byte at a place.
fn byte_at<S: Store>(area: &mut PagedArea<S>, place: u64) -> Result<u8, Fail>
    ensures { ⟦<PagedArea<S> as Area>⟧.frame area.new ≡ ⟦<PagedArea<S> as Area>⟧.frame area.old }
{
    if place >= area.size() {
        return Err(Fail::new("no such byte"));
    }
    let mut out = [0];
    match area.get(place, &mut out) {
        Ok(()) => Ok(out[0]),
        Err(_) => Err(Fail::new("the byte was not read")),
    }
}

/// Writes bytes from a place on.
fn write<S: Store>(area: &mut PagedArea<S>, place: u64, bytes: &[u8]) -> Result<(), Fail>
    ensures { ⟦<PagedArea<S> as Area>⟧.frame area.new ≡ ⟦<PagedArea<S> as Area>⟧.frame area.old }
{
    let size = area.size();
    if place > size || bytes.len() as u64 > size - place {
        return Err(Fail::new("no such bytes"));
    }
    match area.set(place, bytes) {
        Ok(()) => Ok(()),
        Err(_) => Err(Fail::new("nothing was written")),
    }
}

/// Drops the changed pages whose bytes the file has.
fn settle(area: &mut PagedArea<MemStore>) -> Result<(), Fail>
    requires base { (⟦<PagedArea<MemStore> as Area>⟧.frame area.old).base ≡ None }
    requires held { IsSome (⟦<PagedArea<MemStore> as Area>⟧.frame area.old).under.0.held }
    ensures { ⟦<PagedArea<MemStore> as Area>⟧.frame area.new ≡ ⟦<PagedArea<MemStore> as Area>⟧.frame area.old }
{
    match area.settle() {
        Ok(()) => Ok(()),
        Err(_) => Err(Fail::new("the file was not compared")),
    }
}

/// Saves the image with a tail, or without one.
fn save<S: Store>(area: &mut PagedArea<S>, tail: Option<[u8; 16]>) -> Result<(), Fail>
    requires base { (⟦<PagedArea<S> as Area>⟧.frame area.old).base ≡ None }
    requires held { IsSome (⟦<PagedArea<S> as Area>⟧.frame area.old).under.0.held }
    ensures base { (⟦<PagedArea<S> as Area>⟧.frame area.new).base ≡ None }
    ensures held { OnOk result (IsSome (⟦<PagedArea<S> as Area>⟧.frame area.new).under.0.held) }
{
    if area.size() > 1 << 40 {
        return Err(Fail::new("the image is too long"));
    }
    match area.save(tail) {
        Ok(()) => Ok(()),
        Err(_) => Err(Fail::new("the image was not saved")),
    }
}

#[test]
fn a_page_is_read_by_one_call(rt: HostRuntime) -> Result<(), Fail> {
    let mut area = area_over(rt.alloc(), 2 * PAGE)?;
    byte_at(&mut area, 3)?;
    byte_at(&mut area, PAGE - 1)?;
    // The file was attached by one call too.
    assert_eq!(rt; area.into_store().calls(), 2);
    Ok(())
}

#[test]
fn an_edit_across_a_border_writes_two_pages(rt: HostRuntime) -> Result<(), Fail> {
    let mut area = area_over(rt.alloc(), 4 * PAGE)?;
    write(&mut area, PAGE - 1, &[1, 2])?;
    save(&mut area, None)?;
    assert_eq!(rt; area.into_store().calls(), 1 + 2 + 2);
    Ok(())
}

#[test]
fn a_page_that_was_changed_back_is_not_written(rt: HostRuntime) -> Result<(), Fail> {
    let mut area = area_over(rt.alloc(), 4 * PAGE)?;
    write(&mut area, PAGE + 5, &[1])?;
    write(&mut area, PAGE + 5, &[7])?;
    write(&mut area, 3 * PAGE + 5, &[1])?;
    settle(&mut area)?;
    // Two pages were read, and read again to be compared. One was written, which is the one that the last byte is in.
    save(&mut area, None)?;
    assert_eq!(rt; area.into_store().calls(), 1 + 2 + 2 + 1);
    Ok(())
}

/// Why the image is not saved.
fn save_error(area: &mut PagedArea<MemStore>) -> Result<SaveError, Fail>
    requires base { (⟦<PagedArea<MemStore> as Area>⟧.frame area.old).base ≡ None }
    requires held { IsSome (⟦<PagedArea<MemStore> as Area>⟧.frame area.old).under.0.held }
{
    if area.size() > 1 << 40 {
        return Err(Fail::new("the image is too long"));
    }
    match area.save(None) {
        Ok(()) => Err(Fail::new("the image was saved")),
        Err(error) => Ok(error),
    }
}

/// An area over 10 bytes that are 7, whose first byte is 1 and which is three pages long. Calls of two numbers fail.
fn growing_area(alloc: Global, fails: [u64; 2]) -> Result<PagedArea<MemStore>, Fail>
    ensures base { IfOk result (λ area. (⟦<PagedArea<MemStore> as Area>⟧.frame area).base ≡ None) }
    ensures held { IfOk result (λ area. IsSome (⟦<PagedArea<MemStore> as Area>⟧.frame area).under.0.held) }
{
    let mut area = failing_area(alloc, 10, fails)?;
    resize(&mut area, 3 * PAGE)?;
    write(&mut area, 0, &[1])?;
    Ok(area)
}

#[test]
fn a_file_that_cannot_grow_keeps_its_bytes(rt: HostRuntime) -> Result<(), Fail> {
    // The file was attached and its page read. It grows by a part of that page, and the next page fails.
    let mut area = growing_area(rt.alloc(), [4, 4])?;
    assert_eq!(rt; save_error(&mut area)?, SaveError::Failed { kept: true });
    let store = area.into_store();
    assert_eq!(rt; store.calls(), 5);
    assert_eq!(rt; store.file(NAME), Some([7; 10].as_slice()));
    Ok(())
}

#[test]
fn bytes_stay_behind_a_file_that_cannot_be_cut_back(rt: HostRuntime) -> Result<(), Fail> {
    let mut area = growing_area(rt.alloc(), [4, 5])?;
    assert_eq!(rt; save_error(&mut area)?, SaveError::Failed { kept: false });
    let store = area.into_store();
    assert_eq!(rt; store.calls(), 5);
    let Some(bytes) = store.file(NAME) else {
        return Err(Fail::new("there is no file"));
    };
    assert_eq!(rt; bytes.len(), 65_536);
    assert_eq!(rt;
        bytes.get(..11),
        Some([7, 7, 7, 7, 7, 7, 7, 7, 7, 7, 0].as_slice())
    );
    Ok(())
}

#[test]
fn a_growth_that_is_not_stored_is_taken_back(rt: HostRuntime) -> Result<(), Fail> {
    // Three parts of pages were written past the end, and the sync behind them fails.
    let mut area = growing_area(rt.alloc(), [6, 6])?;
    assert_eq!(rt; save_error(&mut area)?, SaveError::Failed { kept: true });
    let store = area.into_store();
    assert_eq!(rt; store.calls(), 7);
    assert_eq!(rt; store.file(NAME), Some([7; 10].as_slice()));
    Ok(())
}

#[test]
fn a_growth_is_taken_back_where_no_byte_is_written_over(rt: HostRuntime) -> Result<(), Fail> {
    // The growth is stored, and the first write before the old end fails.
    let mut area = growing_area(rt.alloc(), [7, 7])?;
    assert_eq!(rt; save_error(&mut area)?, SaveError::Failed { kept: true });
    let store = area.into_store();
    assert_eq!(rt; store.calls(), 8);
    assert_eq!(rt; store.file(NAME), Some([7; 10].as_slice()));
    Ok(())
}

#[test]
fn a_page_across_the_end_is_written_in_two_parts(rt: HostRuntime) -> Result<(), Fail> {
    let mut area = growing_area(rt.alloc(), [0, 0])?;
    save(&mut area, Some([9; 16]))?;
    let store = area.into_store();
    // Parts of three pages and the tail lie past the end, and are stored before a part of a page before it is written.
    assert_eq!(rt; store.calls(), 2 + 3 + 1 + 1 + 1);
    let Some(bytes) = store.file(NAME) else {
        return Err(Fail::new("there is no file"));
    };
    assert_eq!(rt; bytes.len(), 3 * 65_536 + 16);
    assert_eq!(rt;
        bytes.get(..11),
        Some([1, 7, 7, 7, 7, 7, 7, 7, 7, 7, 0].as_slice())
    );
    assert_eq!(rt; bytes.last(), Some(&9));
    Ok(())
}

const REAL: &str = "cdf_layer_tests_pages";

/// An area over the real file, which is made.
fn real_area(rt: HostRuntime) -> Result<PagedArea<FileStore<HostRuntime>>, Fail>
    ensures base { IfOk result (λ area. (⟦<PagedArea<FileStore<HostRuntime>> as Area>⟧.frame area).base ≡ None) }
    ensures held { IfOk result (λ area. IsSome (⟦<PagedArea<FileStore<HostRuntime>> as Area>⟧.frame area).under.0.held) }
{
    let mut store = FileStore::new(rt, rt.alloc());
    let Ok(Some(length)) = store.attach(REAL, true) else {
        return Err(Fail::new("no file was made"));
    };
    match PagedArea::over(rt.alloc(), store, length, 1 << 40) {
        Ok(area) => Ok(area),
        Err(_) => Err(Fail::new("no area")),
    }
}

/// Makes the image so many bytes long.
fn resize<S: Store>(area: &mut PagedArea<S>, size: u64) -> Result<(), Fail>
    requires { (⟦<PagedArea<S> as Area>⟧.frame area.old).base ≡ None }
    ensures { ⟦<PagedArea<S> as Area>⟧.frame area.new ≡ ⟦<PagedArea<S> as Area>⟧.frame area.old }
{
    let now = area.size();
    if size <= now {
        area.shorten(now - size);
        return Ok(());
    }
    if size > area.limit() {
        return Err(Fail::new("the image is too long"));
    }
    match area.extend(size - now) {
        Ok(()) => Ok(()),
        Err(_) => Err(Fail::new("the image did not grow")),
    }
}

#[test]
fn a_real_file_is_saved_in_pages(rt: HostRuntime) -> Result<(), Fail> {
    let _ = fs::remove_file(&rt, REAL);
    let mut area = real_area(rt)?;
    resize(&mut area, 3 * PAGE - 8)?;
    write(&mut area, PAGE - 1, &[1, 2])?;
    // The tail lies in two pages of the file, the last of which the image has not.
    save(&mut area, Some([9; 16]))?;
    let made = fs::read(&rt, REAL)?;
    assert_eq!(rt; made.len(), 3 * 65_536 + 8);
    assert_eq!(rt; made.get(65_535..65_538), Some([1, 2, 0].as_slice()));
    assert_eq!(rt;
        made.get(3 * 65_536 - 9..3 * 65_536 - 7),
        Some([0, 9].as_slice())
    );
    assert_eq!(rt; made.last(), Some(&9));

    resize(&mut area, PAGE + 2)?;
    write(&mut area, PAGE + 1, &[3])?;
    save(&mut area, None)?;
    let cut = fs::read(&rt, REAL)?;
    assert_eq!(rt; cut.len(), 65_538);
    assert_eq!(rt; cut.get(65_535..65_538), Some([1, 2, 3].as_slice()));
    assert_eq!(rt; byte_at(&mut area, PAGE)?, 2);
    fs::remove_file(&rt, REAL)?;
    Ok(())
}
