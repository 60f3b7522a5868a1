//! The reply to a line.

ghost use Rattle.std.specs.Prelude.{◌≡◌, ◌++◌, IfOk, OnOk};
ghost use Rattle.cdf_model.specs.Texts.{newline, reply_text as text_of};
ghost use Rattle.cdf_model.specs.Whole.{CanBeWritten, HasWholeValues, IsWhole};

use crate::head::append_head;
use crate::item::item_line;
use crate::reason::append_reason;
use cdf_model::{DataType, Head, Item, Outcome, Reason, Reply};
use cdf_values::write_values;
use std::alloc::{AllocError, Global};

/// The bytes that are taken at first for a line without values: most fit.
const LINE_ROOM: usize = 128;

fn plain_line(alloc: Global, number: u64) -> Result<Vec<u8>, AllocError>
    ensures { IfOk result (λ t. t.items ≡ text_of number (Outcome.Done Reply.Plain)) }
{
    let mut text = String::with_capacity(alloc, LINE_ROOM)?;
    write!(text, "{number} ok\n")?;
    Ok(text.into_bytes())
}

fn head_line(alloc: Global, number: u64, head: &Head) -> Result<Vec<u8>, AllocError>
    ensures { IfOk result (λ t. t.items ≡ text_of number (Outcome.Done (Reply.Head head.now))) }
{
    let mut text = String::with_capacity(alloc, LINE_ROOM)?;
    write!(text, "{number} ok ")?;
    append_head(&mut text, head)?;
    text.push_str("\n")?;
    Ok(text.into_bytes())
}

/// The reply of a line that is refused.
fn refused_line(alloc: Global, number: u64, reason: Reason) -> Result<Vec<u8>, AllocError>
    ensures { IfOk result (λ t. t.items ≡ text_of number (Outcome.Refused reason)) }
{
    let mut text = String::with_capacity(alloc, LINE_ROOM)?;
    write!(text, "{number} refused ")?;
    append_reason(&mut text, reason)?;
    text.push_str("\n")?;
    Ok(text.into_bytes())
}

/// Appends values and the newline. Values may be long, so room is taken for just these.
fn append_values(text: &mut Vec<u8>, values: &[u8]) -> Result<(), AllocError>
    ensures { OnOk result (text.new.items ≡ text.old.items ++ values.now ++ newline) }
{
    text.reserve_exact(values.len() + 1)?;
    text.extend_from_slice(values)?;
    text.push(b'\n')?;
    Ok(())
}

fn entry_line(
    alloc: Global,
    number: u64,
    t: DataType,
    elems: u32,
    bytes: &[u8],
) -> Result<Vec<u8>, AllocError>
    requires { IsWhole t elems bytes.now }
    ensures { IfOk result (λ text. text.items ≡ text_of number (Outcome.Done (Reply.Entry t elems bytes.now))) }
{
    let name = t.name();
    let start = format!(in alloc; "{number} ok {name} {elems} ")?;
    let values = write_values(alloc, t, elems, bytes)?;
    let mut text = start.into_bytes();
    append_values(&mut text, values.as_slice())?;
    Ok(text)
}

fn values_line(
    alloc: Global,
    number: u64,
    t: DataType,
    elems: u32,
    bytes: &[u8],
) -> Result<Vec<u8>, AllocError>
    requires { IsWhole t elems bytes.now }
    ensures { IfOk result (λ text. text.items ≡ text_of number (Outcome.Done (Reply.Values t elems bytes.now))) }
{
    let start = format!(in alloc; "{number} ok ")?;
    let values = write_values(alloc, t, elems, bytes)?;
    let mut text = start.into_bytes();
    append_values(&mut text, values.as_slice())?;
    Ok(text)
}

/// The lines of a listing: the first, one for each item, and the last.
fn listing(alloc: Global, number: u64, items: &[Item]) -> Result<Vec<u8>, AllocError>
    ensures { IfOk result (λ t. t.items ≡ text_of number (Outcome.Done (Reply.Listing items.now))) }
{
    let first = format!(in alloc; "{number} ok\n")?;
    let last = format!(in alloc; "{number} end\n")?;
    let mut text = first.into_bytes();
    for item in items {
        let line = item_line(alloc, item)?;
        text.extend_from_slice(line.as_slice())?;
    }
    text.extend_from_slice(last.as_bytes())?;
    Ok(text)
}

/// The reply of a command that is done.
fn done_reply(alloc: Global, number: u64, reply: &Reply) -> Result<Vec<u8>, AllocError>
    requires { HasWholeValues reply.now }
    ensures { IfOk result (λ t. t.items ≡ text_of number (Outcome.Done reply.now)) }
{
    match reply {
        Reply::Plain => plain_line(alloc, number),
        Reply::Head { head } => head_line(alloc, number, head),
        Reply::Listing { items } => listing(alloc, number, items.as_slice()),
        Reply::Entry { t, elems, bytes } => entry_line(alloc, number, *t, *elems, bytes.as_slice()),
        Reply::Values { t, elems, bytes } => values_line(
            alloc,
            number,
            *t,
            *elems,
            bytes.as_slice(),
        ),
    }
}

/// The text that a run writes for the line of a number, each of its lines ended by a newline. The only error is want of memory.
pub fn reply_text(alloc: Global, number: u64, outcome: &Outcome) -> Result<Vec<u8>, AllocError>
    requires { CanBeWritten outcome.now }
    ensures { IfOk result (λ text. text.items ≡ text_of number outcome.now) }
{
    match outcome {
        Outcome::Done { reply } => done_reply(alloc, number, reply),
        Outcome::Refused { reason } => refused_line(alloc, number, *reason),
    }
}
