//! What each event makes of a file.

ghost use Rattle.std.specs.Prelude.{[], ◌≡◌, ◌+◌, ◌<◌, ◌^◌, ◌≤◌, ◌%◌, ◌++◌, ◌∷◌, length, OnOk};
ghost use Rattle.cdf_model.specs.ByteOrder.{turned};
ghost use Rattle.cdf_model.specs.Names.{name_limit};
ghost use Rattle.cdf_model.specs.Types.{size_of};
ghost use Rattle.cdf_writer.specs.Progress.{State, added, added_bodies, adr_opened, ended, entry_in, finish, flags_of, goes_on, is_in_z, record_in, vdr_opened, vdr_tail};
ghost use Rattle.cdf_writer.specs.Shown.{HasRoom, IsStarted, IsVariable, IsWhole, Shows, attribute_bodies, entry_bodies, event_bodies, finish_bodies, finished_image, record_bodies, variable_bodies};
ghost use Rattle.cdf_writer.specs.Laying.{laid};
ghost use Rattle.cdf_writer.specs.Stops.{Writes};

use crate::appending::WriteStop;
use crate::attributes::{add_entry, finish_attribute, is_in_z};
use crate::blocks::{close_group, joins};
use crate::bodies::Descriptor;
use crate::opening::{finish_file, open_attribute, open_variable};
use crate::progress::{FileState, Held, OpenVariable, Part};
use crate::variables::{finish_variable, flags_of, own_of, stored_values, vdr_tail};
use cdf_area::Area;
use cdf_model::{Bytes, DataType, Encoding, Event, Scope};
use std::alloc::Global;

/// Appends what the open part lacks, and writes its descriptor.
fn finish<A: Area>(
    alloc: Global,
    area: &mut A,
    file: &FileState,
    part: &mut Part,
) -> Result<(), WriteStop>
    requires limit { (A.frame area.old).limit ≤ 2 ^ 62 }
    requires within { length (A.image area.old) ≤ (A.frame area.old).limit }
    requires room { HasRoom (length (A.image area.old)) part.old }
    ensures finished { OnOk result (A.image area.new ≡ finished_image file.now part.old (A.image area.old)) }
    ensures area { Writes A.image A.frame A.faults (length (A.image area.old)) area.old area.new (finish_bodies part.old (length (A.image area.old))) result }
{
    match part {
        Part::Start | Part::Between => Ok(()),
        Part::Attribute(a) => finish_attribute(alloc, area, file, a),
        Part::Variable(v) => finish_variable(alloc, area, file, v),
    }
}

/// Takes an attribute.
fn take_attribute<A: Area>(
    alloc: Global,
    area: &mut A,
    file: &mut FileState,
    part: &mut Part,
    num: u32,
    name: &[u8],
    scope: Scope,
) -> Result<(), WriteStop>
    requires limit { (A.frame area.old).limit ≤ 2 ^ 62 }
    requires within { length (A.image area.old) ≤ (A.frame area.old).limit }
    requires name { length name.now ≤ name_limit }
    requires started { IsStarted part.old }
    requires shown { (s : State) × Shows (A.image area.old) file.old part.old s }
    ensures shows { (s : State) → Shows (A.image area.old) file.old part.old s → OnOk result (Shows (A.image area.new) file.new part.new (adr_opened (finish s) num name.now scope)) }
    ensures area { Writes A.image A.frame A.faults (length (A.image area.old)) area.old area.new (attribute_bodies (length (A.image area.old)) part.old name.now) result }
{
    finish(alloc, area, file, part)?;
    let opened = open_attribute(alloc, area, file, num, name, scope)?;
    *part = Part::Attribute(opened);
    Ok(())
}

/// Takes an entry of the attribute that is open.
fn take_entry<A: Area>(
    alloc: Global,
    area: &mut A,
    part: &mut Part,
    held: Held,
) -> Result<(), WriteStop>
    requires limit { (A.frame area.old).limit ≤ 2 ^ 62 }
    requires within { length (A.image area.old) ≤ (A.frame area.old).limit }
    ensures shows { (file : FileState) (s : State) → Shows (A.image area.old) file part.old s → OnOk result (Shows (A.image area.new) file part.new (entry_in s.part s held)) }
    ensures area { Writes A.image A.frame A.faults (length (A.image area.old)) area.old area.new (entry_bodies (length (A.image area.old)) part.old held) result }
{
    match part {
        Part::Attribute(a) => add_entry(alloc, area, a, held),
        _ => Ok(()),
    }
}

/// Takes a variable.
fn take_variable<A: Area>(
    alloc: Global,
    area: &mut A,
    file: &mut FileState,
    part: &mut Part,
    own: Descriptor,
    vary: bool,
    rle: bool,
    tail: Bytes,
) -> Result<(), WriteStop>
    requires limit { (A.frame area.old).limit ≤ 2 ^ 62 }
    requires within { length (A.image area.old) ≤ (A.frame area.old).limit }
    requires started { IsStarted part.old }
    requires shown { (s : State) × Shows (A.image area.old) file.old part.old s }
    ensures shows { (s : State) → Shows (A.image area.old) file.old part.old s → OnOk result (Shows (A.image area.new) file.new part.new (vdr_opened (finish s) own vary rle tail)) }
    ensures area { Writes A.image A.frame A.faults (length (A.image area.old)) area.old area.new (variable_bodies (length (A.image area.old)) part.old rle tail) result }
{
    finish(alloc, area, file, part)?;
    let opened = open_variable(alloc, area, file, own, vary, rle, tail)?;
    *part = Part::Variable(opened);
    Ok(())
}

/// Takes a record of the variable that is open.
fn add_record<A: Area>(
    alloc: Global,
    area: &mut A,
    little: bool,
    v: &mut OpenVariable,
    num: u32,
    t: DataType,
    bytes: &[u8],
) -> Result<(), WriteStop>
    requires limit { (A.frame area.old).limit ≤ 2 ^ 62 }
    requires within { length (A.image area.old) ≤ (A.frame area.old).limit }
    requires some { 0 < length bytes.now }
    requires whole { length bytes.now % size_of t ≡ 0 }
    ensures appended { OnOk result (A.image area.new ≡ A.image area.old ++ laid (added_bodies v.old num (length bytes.now))) }
    ensures variable { OnOk result (v.new ≡ added (length (A.image area.old)) v.old num (turned t little bytes.now) (length bytes.now)) }
    ensures area { Writes A.image A.frame A.faults (length (A.image area.old)) area.old area.new (added_bodies v.old num (length bytes.now)) result }
{
    if joins(v, num, bytes.len() as u64) {
        v.group.count += 1;
    } else {
        close_group(alloc, area, v)?;
        v.group.first = num;
        v.group.count = 1;
    }
    v.group.last = num;
    v.group
        .plain
        .push_values(t, Encoding { code: 0, little }, bytes)?;
    Ok(())
}

/// Takes a record, where a variable is open.
fn take_record<A: Area>(
    alloc: Global,
    area: &mut A,
    little: bool,
    part: &mut Part,
    num: u32,
    t: DataType,
    bytes: &[u8],
) -> Result<(), WriteStop>
    requires limit { (A.frame area.old).limit ≤ 2 ^ 62 }
    requires within { length (A.image area.old) ≤ (A.frame area.old).limit }
    requires some { 0 < length bytes.now }
    requires whole { length bytes.now % size_of t ≡ 0 }
    ensures shows { (file : FileState) (s : State) → file.little ≡ little → Shows (A.image area.old) file part.old s → OnOk result (Shows (A.image area.new) file part.new (record_in s.part s num t bytes.now)) }
    ensures area { Writes A.image A.frame A.faults (length (A.image area.old)) area.old area.new (record_bodies part.old num (length bytes.now)) result }
{
    match part {
        Part::Variable(v) => add_record(alloc, area, little, v, num, t, bytes),
        _ => Ok(()),
    }
}

/// Takes the end of all events.
fn take_end<A: Area>(
    alloc: Global,
    area: &mut A,
    file: &FileState,
    part: &mut Part,
) -> Result<(), WriteStop>
    requires limit { (A.frame area.old).limit ≤ 2 ^ 62 }
    requires within { length (A.image area.old) ≤ (A.frame area.old).limit }
    requires started { IsStarted part.old }
    requires shown { (s : State) × Shows (A.image area.old) file.now part.old s }
    ensures shows { (s : State) → Shows (A.image area.old) file.now part.old s → OnOk result (Shows (A.image area.new) file.now part.new (ended (finish s))) }
    ensures area { Writes A.image A.frame A.faults (length (A.image area.old)) area.old area.new (finish_bodies part.old (length (A.image area.old))) result }
{
    finish(alloc, area, file, part)?;
    finish_file(alloc, area, file)?;
    *part = Part::Between;
    Ok(())
}

/// Takes a variable, as its event describes it.
fn take_described<A: Area>(
    alloc: Global,
    area: &mut A,
    file: &mut FileState,
    part: &mut Part,
    e: &Event,
) -> Result<(), WriteStop>
    requires limit { (A.frame area.old).limit ≤ 2 ^ 62 }
    requires within { length (A.image area.old) ≤ (A.frame area.old).limit }
    requires started { IsStarted part.old }
    requires variable { IsVariable e.now }
    requires whole { IsWhole e.now }
    requires shown { (s : State) × Shows (A.image area.old) file.old part.old s }
    ensures shows { (s : State) → Shows (A.image area.old) file.old part.old s → OnOk result (Shows (A.image area.new) file.new part.new (goes_on s e.now)) }
    ensures area { Writes A.image A.frame A.faults (length (A.image area.old)) area.old area.new (event_bodies (length (A.image area.old)) part.old file.old.little e.now) result }
{
    match e {
        Event::Var {
            kind,
            num,
            name,
            t,
            elems,
            vary,
            dims,
            varys,
            sparse,
            rle,
            blocking,
            max_rec,
            has_pad,
            pad,
        } => {
            let flags = flags_of(*vary, *has_pad, *rle);
            let own = own_of(*kind, *num, *t, *elems, flags, *sparse, *blocking, *max_rec);
            let tail = vdr_tail(
                alloc,
                file.little,
                *kind,
                name.as_slice(),
                dims.as_slice(),
                varys.as_slice(),
                *t,
                *has_pad,
                pad.as_slice(),
            )?;
            take_variable(alloc, area, file, part, own, *vary, *rle, Bytes::new(tail))
        }
        // No other event describes a variable.
        _ => Ok(()),
    }
}

/// Takes an event behind the head.
pub(crate) fn take_event<A: Area>(
    alloc: Global,
    area: &mut A,
    file: &mut FileState,
    part: &mut Part,
    e: &Event,
) -> Result<(), WriteStop>
    requires limit { (A.frame area.old).limit ≤ 2 ^ 62 }
    requires within { length (A.image area.old) ≤ (A.frame area.old).limit }
    requires started { IsStarted part.old }
    requires whole { IsWhole e.now }
    requires shown { (s : State) × Shows (A.image area.old) file.old part.old s }
    ensures shows { (s : State) → Shows (A.image area.old) file.old part.old s → OnOk result (Shows (A.image area.new) file.new part.new (goes_on s e.now)) }
    ensures area { Writes A.image A.frame A.faults (length (A.image area.old)) area.old area.new (event_bodies (length (A.image area.old)) part.old file.old.little e.now) result }
{
    match e {
        Event::Head { .. } => Ok(()),
        Event::Attr { num, name, scope } => {
            take_attribute(alloc, area, file, part, *num, name.as_slice(), *scope)
        }
        Event::Entry {
            kind,
            num,
            t,
            elems,
            bytes,
        } => {
            let stored = stored_values(alloc, *t, file.little, bytes.as_slice())?;
            let held = Held {
                in_z: is_in_z(*kind),
                num: *num,
                t: *t,
                elems: *elems,
                stored: Bytes::new(stored),
            };
            take_entry(alloc, area, part, held)
        }
        Event::Var { .. } => take_described(alloc, area, file, part, e),
        Event::Rec { num, t, bytes, .. } => take_record(
            alloc,
            area,
            file.little,
            part,
            *num,
            *t,
            bytes.as_slice(),
        ),
        Event::End { .. } => take_end(alloc, area, file, part),
    }
}
