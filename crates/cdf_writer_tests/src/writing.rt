//! A data set is written event by event, and its bytes are those that another program wrote.

ghost use Rattle.std.specs.Prelude.{[], ◌≡◌, ◌<◌, ◌≤◌, IfOk, length, replicate};
ghost use Rattle.cdf_model.specs.DataSet.{DataSet, head_of};
ghost use Rattle.cdf_model.specs.Events.{events_of, variable_event};
ghost use Rattle.cdf_model.specs.Limits.{image_limit};
ghost use Rattle.cdf_model.specs.declared.data_type.DataType.TheVariants.{Char, Int2};
ghost use Rattle.cdf_model.specs.declared.event.Event.TheVariants as events;
ghost use Rattle.cdf_model.specs.declared.kinds.Kind.TheVariants.{Z};
ghost use Rattle.cdf_writer.specs.Compact.{compact};
ghost use Rattle.cdf_writer.specs.Fine.{Fine};
ghost use Rattle.cdf_writer_tests.specs.Example.{example, field};

use cdf_area::{Area, MemArea};
use cdf_model::{
    Bytes, DataType, EntryKind, Event, Head, Kind, Majority, Nums, Scope, Sparse, Varys,
};
use cdf_writer::{WriteStop, Writer};
use md5::{Digest, Md5};
use std::alloc::{AllocError, Global};
use std::test::Fail;

/// An empty area once these events of a data set were put into it.
fn written<A: Area + Drop>(alloc: Global, area: A, events: &[Event]) -> Result<A, WriteStop>
    requires empty { A.image area ≡ [] }
    requires least { 404 ≤ (A.frame area).limit }
    requires most { (A.frame area).limit ≤ image_limit }
    requires fine { (d : DataSet) × Fine d × events.now ≡ events_of d }
    ensures { (d : DataSet) → Fine d → events.now ≡ events_of d → IfOk result (λ area. A.image area ≡ compact d) }
{
    let mut writer = Writer::new(alloc, area);
    for event in events {
        writer.put(event)?;
    }
    Ok(writer.into_area())
}

/// The bytes of the data set that is written out, in an area of so many bytes.
fn example_in(alloc: Global, limit: u64) -> Result<Vec<u8>, WriteStop>
    requires least { 404 ≤ limit }
    requires most { limit ≤ image_limit }
    ensures { IfOk result (λ bytes. bytes.items ≡ compact example) }
{
    let events = example_events(alloc)?;
    let area = MemArea::new(alloc, Vec::new(alloc), limit);
    Ok(written(alloc, area, &events)?.into_bytes())
}

/// A list of bytes.
fn bytes_of(alloc: Global, items: &[u8]) -> Result<Bytes, AllocError>
    ensures { IfOk result (λ bytes. bytes ≡ items.now) }
{
    Ok(Bytes::new(items.to_vec(alloc)?))
}

/// The head of the file.
fn head(alloc: Global) -> Event
    ensures { result ≡ events.Head (head_of example) }
{
    Event::Head {
        head: Head {
            version: 3,
            release: 9,
            increment: 0,
            encoding: 6,
            majority: Majority::Row,
            md5: false,
            rdims: Nums::new(Vec::new(alloc)),
            attrs: 2,
            rvars: 0,
            zvars: 1,
        },
    }
}

fn attribute(alloc: Global, num: u32, name: &[u8], scope: Scope) -> Result<Event, AllocError>
    ensures { IfOk result (λ e. e ≡ events.Attr num name.now scope) }
{
    Ok(Event::Attr {
        num,
        name: bytes_of(alloc, name)?,
        scope,
    })
}

fn entry(alloc: Global, kind: EntryKind, text: &[u8]) -> Result<Event, AllocError>
    requires { length text.now < 256 }
    ensures { IfOk result (λ e. e ≡ events.Entry kind 0 Char (length text.now) text.now) }
{
    Ok(Event::Entry {
        kind,
        num: 0,
        t: DataType::Char,
        elems: text.len() as u32,
        bytes: bytes_of(alloc, text)?,
    })
}

/// The variable.
fn variable(alloc: Global) -> Result<Event, AllocError>
    ensures { IfOk result (λ e. e ≡ variable_event Z 0 field) }
{
    let mut dims = Vec::new(alloc);
    dims.push(16)?;
    let mut varys = Vec::new(alloc);
    varys.push(true)?;
    Ok(Event::Var {
        kind: Kind::Z,
        num: 0,
        name: bytes_of(alloc, b"Bx")?,
        t: DataType::Int2,
        elems: 1,
        vary: true,
        dims: Nums::new(dims),
        varys: Varys::new(varys),
        sparse: Sparse::NoRule,
        rle: true,
        blocking: 2,
        max_rec: 3,
        has_pad: true,
        pad: bytes_of(alloc, &[1, 2])?,
    })
}

fn record(alloc: Global, num: u32, byte: u8) -> Result<Event, AllocError>
    ensures { IfOk result (λ e. e ≡ events.Rec num Int2 1 (replicate 32 byte)) }
{
    Ok(Event::Rec {
        num,
        t: DataType::Int2,
        elems: 1,
        bytes: bytes_of(alloc, &[byte; 32])?,
    })
}

/// The events of the data set that is written out.
fn example_events(alloc: Global) -> Result<Vec<Event>, AllocError>
    ensures { IfOk result (λ es. es.items ≡ events_of example) }
{
    let mut events = Vec::new(alloc);
    events.push(head(alloc))?;
    events.push(attribute(alloc, 0, b"Title", Scope::Global)?)?;
    events.push(entry(alloc, EntryKind::G, b"Storm")?)?;
    events.push(attribute(alloc, 1, b"UNITS", Scope::Variable)?)?;
    events.push(entry(alloc, EntryKind::Z, b"nT")?)?;
    events.push(variable(alloc)?)?;
    events.push(record(alloc, 0, 0)?)?;
    events.push(record(alloc, 1, 0)?)?;
    events.push(record(alloc, 3, 1)?)?;
    events.push(Event::End {
        attrs: 2,
        vars: 1,
        recs: 3,
    })?;
    Ok(events)
}

// The MD5 of the 1,685 bytes that tools/second/writer.py makes of this data set.
const DIGITS: &str = "970b937d0c9baeaeef27d73e1e9f0355";

#[test]
fn an_image_fills_its_area(rt: HostRuntime) -> Result<(), Fail> {
    let alloc = rt.alloc();
    let bytes = example_in(alloc, 1685)?;
    let mut found = String::new(alloc);
    for byte in Md5::digest(bytes.as_slice()) {
        write!(found, "{byte:02x}")?;
    }
    assert_eq!(rt; found.as_str(), DIGITS);
    assert_eq!(rt; bytes.len(), 1685);
    Ok(())
}

#[test]
fn the_record_that_does_not_fit_is_named(rt: HostRuntime) -> Result<(), Fail> {
    let alloc = rt.alloc();
    // An index of 60 bytes stands last.
    let stop = example_in(alloc, 1684).err();
    assert_eq!(rt;
        stop,
        Some(WriteStop::TooLarge {
            eof: 1625,
            need: 60
        })
    );
    Ok(())
}
