//! A dump and a report are written to the output itself, part by part.

ghost use Rattle.std.specs.Prelude.{◌≡◌, ◌++◌, ℕ, [], true, map, string_bytes, IfOk, IfErr, OnOk, OnErr};
ghost use Rattle.std.specs.Io.KnownBytes.{Appends};
ghost use Rattle.cdf_area.specs.Calls.{Stays};
ghost use Rattle.cdf_format.specs.Content.{content};
ghost use Rattle.cdf_model.specs.EventTexts.{dump_text};
ghost use Rattle.cdf_model.specs.Taps.{has_tap, left_after, told};
ghost use Rattle.cdf_model.specs.Texts.{done_text, end_text, framed};
ghost use Rattle.cdf_store.specs.Written.{AppendsFront};
ghost use Rattle.cdf_tap.specs.Meanings.{kinds_of};
ghost use Rattle.cdf_saving.specs.Counts.{CountedIn, counts};
ghost use Rattle.cdf_tool.specs.Outlets.{with_taps};
ghost use Rattle.cdf_tool.specs.Showing.{StopsReply, WrotePart, status_of_walk};

use cdf_area::Area;
use cdf_model::{Outcome, Reply};
use cdf_reply::reply_text;
use cdf_saving::Status;
use cdf_session::Session;
use cdf_store::{Failed, Sink, write_all};
use cdf_tap::Tap;
use cdf_walk::{Gathered, WalkError};
use std::alloc::{AllocError, Global};

/// The status of a run whose dump or report stopped.
fn walk_status(error: WalkError) -> Status
    ensures { result ≡ status_of_walk error }
{
    match error {
        WalkError::SinkFault => Status::OutputFault,
        WalkError::Fault => Status::StoreReadFault,
        WalkError::NoMemory => Status::NoMemory,
    }
}

/// The first and the last line of a reply of several lines.
#[derive(Drop)]
struct Frame {
    first: Vec<u8>,
    last: String,
}

/// The first and the last line of the reply to the line of a number.
fn frame_of(alloc: Global, number: u64) -> Result<Frame, AllocError>
    ensures first { IfOk result (λ frame. frame.first.items ≡ done_text number Reply.Plain) }
    ensures last { IfOk result (λ frame. string_bytes frame.last ≡ end_text number) }
{
    let done = Outcome::Done {
        reply: Reply::Plain,
    };
    Ok(Frame {
        first: reply_text(alloc, number, &done)?,
        last: format!(in alloc; "{number} end\n")?,
    })
}

/// Writes what was gathered of replies, and then the first line of the reply to the line of a number. Its last line is handed back.
fn begin<O: Sink>(
    alloc: Global,
    number: u64,
    replies: &mut Gathered,
    out: &mut O,
) -> Result<String, Status>
    ensures wrote { OnOk result (Appends (O.written out.old) (O.written out.new) (replies.old ++ done_text number Reply.Plain)) }
    ensures none_left { OnOk result (replies.new ≡ []) }
    ensures last { IfOk result (λ last. string_bytes last ≡ end_text number) }
    ensures part { IfErr result (WrotePart (O.written out.old) (O.written out.new) replies.old (done_text number Reply.Plain)) }
    ensures counted { (reads source : ℕ) → CountedIn (counts reads 0 (O.faults out.old) source) (counts reads 0 (O.faults out.new) source) result }
{
    match replies.write(out) {
        Ok(()) => {}
        Err(Failed) => return Err(Status::OutputFault),
    }
    let Ok(Frame { first, last }) = frame_of(alloc, number) else {
        return Err(Status::NoMemory);
    };
    match write_all(out, &first) {
        Ok(()) => Ok(last),
        Err(Failed) => Err(Status::OutputFault),
    }
}

/// Writes the last line of a reply.
fn end<O: Sink>(last: &str, out: &mut O) -> Result<(), Status>
    ensures wrote { OnOk result (Appends (O.written out.old) (O.written out.new) last.now) }
    ensures part { OnErr result (AppendsFront (O.written out.old) (O.written out.new) last.now) }
    ensures status { IfErr result (λ status. status ≡ Status.OutputFault) }
    ensures counted { (reads source : ℕ) → CountedIn (counts reads 0 (O.faults out.old) source) (counts reads 0 (O.faults out.new) source) result }
{
    match write_all(out, last.as_bytes()) {
        Ok(()) => Ok(()),
        Err(Failed) => Err(Status::OutputFault),
    }
}

/// Replies all events of the data set to the line of a number. What was gathered of replies is written before.
pub fn dump<A: Area, O: Sink>(
    alloc: Global,
    session: &mut Session<A>,
    number: u64,
    replies: &mut Gathered,
    out: &mut O,
) -> Result<(), Status>
    ensures wrote { OnOk result (Appends (O.written out.old) (O.written out.new) (replies.old ++ framed number (dump_text (content (A.image session.old))))) }
    ensures none_left { OnOk result (replies.new ≡ []) }
    ensures part { IfErr result (WrotePart (O.written out.old) (O.written out.new) replies.old (framed number (dump_text (content (A.image session.old))))) }
    ensures stays { OnOk result (Stays A.image A.frame A.faults A.edited session.old session.new) }
    ensures frame { A.frame session.new ≡ A.frame session.old }
    ensures counted { (source : ℕ) → CountedIn (counts (A.faults session.old) 0 (O.faults out.old) source) (counts (A.faults session.new) 0 (O.faults out.new) source) result }
{
    let last = match begin(alloc, number, replies, out) {
        Ok(last) => last,
        Err(status) => return Err(status),
    };
    match session.dump(out) {
        Ok(()) => end(&last, out),
        Err(error) => Err(walk_status(error)),
    }
}

/// Replies the texts of the taps of a name to the line of a number, and drops those that came to their end. What was gathered of
/// replies is written before.
pub fn report<A: Area, O: Sink>(
    alloc: Global,
    session: &mut Session<A>,
    number: u64,
    name: &[u8],
    taps: &mut Vec<Box<dyn Tap>>,
    replies: &mut Gathered,
    out: &mut O,
) -> Result<(), Status>
    requires { has_tap (kinds_of (map (λ tap. meaning tap) taps.old.items)) name.now ≡ true }
    ensures wrote { OnOk result (Appends (O.written out.old) (O.written out.new) (replies.old ++ framed number (told (kinds_of (map (λ tap. meaning tap) taps.old.items)) name.now (content (A.image session.old))))) }
    ensures none_left { OnOk result (replies.new ≡ []) }
    ensures left { OnOk result (kinds_of (map (λ tap. meaning tap) taps.new.items) ≡ left_after (kinds_of (map (λ tap. meaning tap) taps.old.items)) name.now (content (A.image session.old))) }
    ensures part { IfErr result (StopsReply (with_taps (O.written out.old) (map (λ tap. meaning tap) taps.old.items)) (with_taps (O.written out.new) (map (λ tap. meaning tap) taps.new.items)) replies.old
        (left_after (kinds_of (map (λ tap. meaning tap) taps.old.items)) name.now (content (A.image session.old))) (framed number (told (kinds_of (map (λ tap. meaning tap) taps.old.items)) name.now (content (A.image session.old))))) }
    ensures stays { OnOk result (Stays A.image A.frame A.faults A.edited session.old session.new) }
    ensures frame { A.frame session.new ≡ A.frame session.old }
    ensures counted { (source : ℕ) → CountedIn (counts (A.faults session.old) 0 (O.faults out.old) source) (counts (A.faults session.new) 0 (O.faults out.new) source) result }
{
    let last = match begin(alloc, number, replies, out) {
        Ok(last) => last,
        Err(status) => return Err(status),
    };
    match session.report(name, taps, out) {
        Ok(()) => end(&last, out),
        Err(error) => Err(walk_status(error)),
    }
}
