//! Lists of boxed taps.

use crate::{Go, NeedsVarType, Tally, Tap, clear_named, drop_ended, has_tap, is_named, show};
use cdf_model::{Bytes, DataType, EntryKind, Event, Kind, Nums, Scope, Sparse, Varys};
use std::alloc::{AllocError, Global};
use std::test::Fail;

/// Says a dot for each event that it saw, and comes to its end behind so many.
#[derive(Drop)]
struct Dots {
    name: Vec<u8>,
    most: usize,
    seen: Vec<u8>,
}

impl Tap for Dots {
    ghost use Rattle.cdf_tap.specs.Dots.{dots};

    ghost meaning = { λ it. record { own = dots it.name.items it.most; state = it.seen.items } };

    fn name(&self) -> &[u8] {
        &self.name
    }

    fn clear(&mut self) {
        self.seen.clear();
    }

    fn on(&mut self, _: &Event) -> Result<Go, AllocError> {
        self.seen.push(b'.')?;
        if self.seen.len() == self.most {
            Ok(Go::Done)
        } else {
            Ok(Go::More)
        }
    }

    fn text(&self) -> &[u8] {
        &self.seen
    }
}

fn dots_of(alloc: Global, name: &[u8], most: usize) -> Result<Dots, AllocError> {
    Ok(Dots {
        name: Vec::from_slice(alloc, name)?,
        most,
        seen: Vec::new(alloc),
    })
}

/// Shows events to the taps of a name, gives their texts with a blank behind each, and drops those that came to their end.
fn shown(
    taps: &mut Vec<Box<dyn Tap>>,
    alloc: Global,
    name: &[u8],
    events: &[Event],
) -> Result<Vec<u8>, AllocError> {
    let mut ended = Vec::new(alloc);
    ended.resize(taps.len(), false)?;
    clear_named(taps, name);
    for event in events {
        if ended.len() == taps.len() {
            show(taps, name, &mut ended, event)?;
        }
    }
    let mut texts = Vec::new(alloc);
    for tap in taps.iter() {
        if is_named(tap, name) {
            texts.extend_from_slice(tap.text())?;
            texts.push(b' ')?;
        }
    }
    if ended.len() == taps.len() {
        drop_ended(taps, &ended);
    }
    Ok(texts)
}

/// An attribute, a z entry of it for variable 0, and two z variables.
fn some_events(alloc: Global, attribute: &[u8]) -> Result<Vec<Event>, AllocError> {
    let mut events = Vec::new(alloc);
    events.push(Event::Attr {
        num: 0,
        name: Bytes::new(Vec::from_slice(alloc, attribute)?),
        scope: Scope::Variable,
    })?;
    events.push(Event::Entry {
        kind: EntryKind::Z,
        num: 0,
        t: DataType::Char,
        elems: 4,
        bytes: Bytes::new(Vec::from_slice(alloc, b"data")?),
    })?;
    add_variable(&mut events, alloc, 0, b"B")?;
    add_variable(&mut events, alloc, 1, b"V \"x\"")?;
    Ok(events)
}

fn add_variable(
    events: &mut Vec<Event>,
    alloc: Global,
    num: u32,
    name: &[u8],
) -> Result<(), AllocError> {
    events.push(Event::Var {
        kind: Kind::Z,
        num,
        name: Bytes::new(Vec::from_slice(alloc, name)?),
        t: DataType::Int4,
        elems: 1,
        vary: true,
        dims: Nums::new(Vec::new(alloc)),
        varys: Varys::new(Vec::new(alloc)),
        sparse: Sparse::NoRule,
        rle: false,
        blocking: 0,
        max_rec: -1,
        has_pad: false,
        pad: Bytes::new(Vec::new(alloc)),
    })?;
    Ok(())
}

#[test]
fn taps_of_a_name_end_where_they_end(rt: HostRuntime) -> Result<(), Fail> {
    let alloc = rt.alloc();
    let events = some_events(alloc, b"UNITS")?;
    let mut taps: Vec<Box<dyn Tap>> = Vec::new(alloc);
    taps.push(Box::new(alloc, dots_of(alloc, b"t", 1)?)?)?;
    taps.push(Box::new(alloc, dots_of(alloc, b"u", 1)?)?)?;
    taps.push(Box::new(alloc, dots_of(alloc, b"t", 4)?)?)?;
    taps.push(Box::new(alloc, dots_of(alloc, b"t", 9)?)?)?;
    let texts = shown(&mut taps, alloc, b"t", &events)?;
    assert_eq!(rt; texts.as_slice(), b". .... .... ".as_slice());
    assert_eq!(rt; taps.len(), 2);
    let again = shown(&mut taps, alloc, b"t", &events)?;
    assert_eq!(rt; again.as_slice(), b".... ".as_slice());
    let other = shown(&mut taps, alloc, b"u", &events)?;
    assert_eq!(rt; other.as_slice(), b". ".as_slice());
    assert_eq!(rt; taps.len(), 1);
    Ok(())
}

#[test]
fn a_list_without_the_name_stays(rt: HostRuntime) -> Result<(), Fail> {
    let alloc = rt.alloc();
    let events = some_events(alloc, b"UNITS")?;
    let mut taps: Vec<Box<dyn Tap>> = Vec::new(alloc);
    assert!(rt; !has_tap(&taps, b"t"));
    taps.push(Box::new(alloc, dots_of(alloc, b"u", 1)?)?)?;
    assert!(rt; !has_tap(&taps, b"t"));
    assert!(rt; has_tap(&taps, b"u"));
    let texts = shown(&mut taps, alloc, b"t", &events)?;
    assert!(rt; texts.is_empty());
    assert_eq!(rt; taps.len(), 1);
    Ok(())
}

#[test]
fn a_list_of_forty(rt: HostRuntime) -> Result<(), Fail> {
    let alloc = rt.alloc();
    let events = some_events(alloc, b"UNITS")?;
    let mut taps: Vec<Box<dyn Tap>> = Vec::new(alloc);
    for most in 0..40usize {
        let name = if most % 2 == 0 { b"even" } else { b"odd." };
        taps.push(Box::new(alloc, dots_of(alloc, name, most)?)?)?;
    }
    let texts = shown(&mut taps, alloc, b"odd.", &events)?;
    assert_eq!(rt; texts.len(), 1 + 1 + 3 + 1 + 18 * 5);
    assert_eq!(rt; taps.len(), 38);
    Ok(())
}

#[test]
fn shipped_taps_tell_what_they_saw(rt: HostRuntime) -> Result<(), Fail> {
    let alloc = rt.alloc();
    let mut taps: Vec<Box<dyn Tap>> = Vec::new(alloc);
    let tally = Tally::new(alloc)?;
    taps.push(Box::new(alloc, tally)?)?;
    let needs_var_type = NeedsVarType::new(alloc)?;
    taps.push(Box::new(alloc, needs_var_type)?)?;
    let events = some_events(alloc, b"VAR_TYPE")?;
    let counts = shown(&mut taps, alloc, b"tally", &events)?;
    assert_eq!(rt;
        counts.as_slice(),
        b"attributes 1 entries 1 variables 2 records 0\n ".as_slice()
    );
    let missing = shown(&mut taps, alloc, b"vartype", &events)?;
    assert_eq!(rt;
        missing.as_slice(),
        b"missing VAR_TYPE \"V \\\"x\\\"\"\n ".as_slice()
    );
    assert_eq!(rt; taps.len(), 1);
    Ok(())
}

#[test]
fn a_list_with_all_types_passes(rt: HostRuntime) -> Result<(), Fail> {
    let alloc = rt.alloc();
    let mut taps: Vec<Box<dyn Tap>> = Vec::new(alloc);
    let needs_var_type = NeedsVarType::new(alloc)?;
    taps.push(Box::new(alloc, needs_var_type)?)?;
    let mut events = some_events(alloc, b"VAR_TYPE")?;
    events.pop();
    let all = shown(&mut taps, alloc, b"vartype", &events)?;
    assert_eq!(rt; all.as_slice(), b"all zvars have VAR_TYPE\n ".as_slice());
    assert_eq!(rt; taps.len(), 1);
    let other = some_events(alloc, b"OTHER")?;
    let missing = shown(&mut taps, alloc, b"vartype", &other)?;
    assert_eq!(rt; missing.as_slice(), b"missing VAR_TYPE \"B\"\n ".as_slice());
    Ok(())
}
