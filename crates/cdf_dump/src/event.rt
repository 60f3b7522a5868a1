//! The text of an event.

ghost use Rattle.std.specs.Prelude.{◌≡◌, IfOk, OnOk};
ghost use Rattle.cdf_model.specs.EventTexts.{entry_kind_text, event_text as text_of};
ghost use Rattle.cdf_model.specs.Texts.{◌⧺◌};
ghost use Rattle.cdf_model.specs.Whole.{CanBeShown, IsWhole};

use crate::variable::{
    append_dims, append_number, append_pad, append_rules, append_start, append_type,
};
use cdf_model::{DataType, EntryKind, Event, Head, Scope};
use cdf_reply::{append_head, scope_name};
use cdf_values::{append_quoted, append_values};
use std::alloc::{AllocError, Global};

fn entry_kind_letter(kind: EntryKind) -> &'static str
    ensures { result.now ≡ entry_kind_text kind }
{
    match kind {
        EntryKind::G => "g",
        EntryKind::R => "r",
        EntryKind::Z => "z",
    }
}

fn append_head_line(alloc: Global, head: &Head, text: &mut Vec<u8>) -> Result<(), AllocError>
    ensures { OnOk result (text.new.items ≡ text.old.items ⧺ text_of (Event.Head head.now)) }
{
    let mut line = String::new(alloc);
    append_head(&mut line, head)?;
    text.extend_from_slice(line.as_bytes())
}

fn append_attribute(
    num: u32,
    name: &[u8],
    scope: Scope,
    text: &mut Vec<u8>,
) -> Result<(), AllocError>
    ensures { OnOk result (text.new.items ≡ text.old.items ⧺ text_of (Event.Attr num name.now scope)) }
{
    append_number("attribute", u64::from(num), text)?;
    text.push(b' ')?;
    append_quoted(name, text)?;
    text.push(b' ')?;
    text.extend_from_slice(scope_name(scope).as_bytes())
}

fn append_entry(
    kind: EntryKind,
    num: u32,
    t: DataType,
    elems: u32,
    bytes: &[u8],
    text: &mut Vec<u8>,
) -> Result<(), AllocError>
    requires { IsWhole t elems bytes.now }
    ensures { OnOk result (text.new.items ≡ text.old.items ⧺ text_of (Event.Entry kind num t elems bytes.now)) }
{
    text.extend_from_slice("entry ".as_bytes())?;
    append_number(entry_kind_letter(kind), u64::from(num), text)?;
    append_type(t, elems, text)?;
    text.push(b' ')?;
    append_values(t, elems, bytes, text)
}

fn append_record(
    num: u32,
    t: DataType,
    elems: u32,
    bytes: &[u8],
    text: &mut Vec<u8>,
) -> Result<(), AllocError>
    requires { IsWhole t elems bytes.now }
    ensures { OnOk result (text.new.items ≡ text.old.items ⧺ text_of (Event.Rec num t elems bytes.now)) }
{
    append_number("record", u64::from(num), text)?;
    text.push(b' ')?;
    append_values(t, elems, bytes, text)
}

fn append_end(attrs: u32, vars: u32, recs: u64, text: &mut Vec<u8>) -> Result<(), AllocError>
    ensures { OnOk result (text.new.items ≡ text.old.items ⧺ text_of (Event.End attrs vars recs)) }
{
    append_number("end attributes", u64::from(attrs), text)?;
    append_number(" variables", u64::from(vars), text)?;
    append_number(" records", recs, text)
}

/// Appends the line of an event, without its newline. The only error is want of memory.
#[rattlefmt::skip]
pub fn append_event(alloc: Global, event: &Event, text: &mut Vec<u8>) -> Result<(), AllocError>
    requires { CanBeShown event.now }
    ensures { OnOk result (text.new.items ≡ text.old.items ⧺ text_of event.now) }
{
    match event {
        Event::Head { head } => append_head_line(alloc, head, text),
        Event::Attr { num, name, scope } => append_attribute(*num, name.as_slice(), *scope, text),
        Event::Entry { kind, num, t, elems, bytes } => append_entry(*kind, *num, *t, *elems, bytes.as_slice(), text),
        Event::Var { kind, num, name, t, elems, vary, dims, varys, sparse, rle, blocking, max_rec, has_pad, pad } => {
            append_start(*kind, *num, name.as_slice(), *t, *elems, text)?;
            append_dims(alloc, *vary, dims.as_slice(), varys.as_slice(), text)?;
            append_rules(alloc, *sparse, *rle, *blocking, *max_rec, text)?;
            append_pad(*has_pad, *t, *elems, pad.as_slice(), text)?;
            Ok(())
        }
        Event::Rec { num, t, elems, bytes } => append_record(*num, *t, *elems, bytes.as_slice(), text),
        Event::End { attrs, vars, recs } => append_end(*attrs, *vars, *recs, text),
    }
}

/// The line of an event, without its newline. The only error is want of memory.
pub fn event_text(alloc: Global, event: &Event) -> Result<Vec<u8>, AllocError>
    requires { CanBeShown event.now }
    ensures { IfOk result (λ text. text.items ≡ text_of event.now) }
{
    let mut text = Vec::new(alloc);
    append_event(alloc, event, &mut text)?;
    Ok(text)
}
