//! What a run writes beside the replies to its script.

ghost use Rattle.std.specs.Prelude.{◌≡◌, ◌++◌, ℕ, [], IfOk, IfErr, OnOk, string_bytes};
ghost use Rattle.std.specs.Option.{option_map_or};
ghost use Rattle.std.specs.Io.KnownBytes.{Appends};
ghost use Rattle.cdf_model.specs.Texts.{rejected_text, space_text};
ghost use Rattle.cdf_saving.specs.Counts.{Counted, CountedIn, counts};
ghost use Rattle.cdf_tool.specs.Checking.{SaysAccepted, yes_text};
ghost use Rattle.cdf_tool.specs.Says.{SaysUsage, SaysNoFile, SaysRejected, listed_text, unlisted_text, used_text};
ghost use Rattle.cdf_tool.specs.Script.{LineStops};

use cdf_check::Broken;
use cdf_model::Space;
use cdf_saving::Status;
use cdf_store::{Failed, Sink, write_all};
use std::alloc::{AllocError, Global};

/// How the program is called.
const USAGE: &[u8] = b"usage: cdfedit [--new] [--check] [--no-save] [--space] [--make N] FILE\n";

/// Says how the program is called.
pub fn say_usage<O: Sink>(out: &mut O) -> Status
    ensures text { SaysUsage (O.written out.old) (O.written out.new) result }
    ensures counted { (reads writes source : ℕ) → Counted (counts reads writes (O.faults out.old) source) (counts reads writes (O.faults out.new) source) result }
{
    match write_all(out, USAGE) {
        Ok(()) => Status::Usage,
        Err(Failed) => Status::OutputFault,
    }
}

/// Says that there is no such file.
pub fn say_no_file<O: Sink>(out: &mut O) -> Status
    ensures text { SaysNoFile (O.written out.old) (O.written out.new) result }
    ensures counted { (reads writes source : ℕ) → Counted (counts reads writes (O.faults out.old) source) (counts reads writes (O.faults out.new) source) result }
{
    match write_all(out, b"no file\n") {
        Ok(()) => Status::NoFile,
        Err(Failed) => Status::OutputFault,
    }
}

fn rejection(alloc: Global, broken: Broken) -> Result<String, AllocError>
    ensures { IfOk result (λ t. string_bytes t ≡ rejected_text broken.phase broken.rule broken.at) }
{
    let Broken { phase, rule, at } = broken;
    format!(in alloc; "rejected {phase} {rule} {at}\n")
}

/// Says which rule the file breaks, and where.
pub fn say_rejected<O: Sink>(alloc: Global, broken: Broken, out: &mut O) -> Status
    ensures text { SaysRejected (rejected_text broken.phase broken.rule broken.at) (O.written out.old) (O.written out.new) result }
    ensures counted { (reads writes source : ℕ) → Counted (counts reads writes (O.faults out.old) source) (counts reads writes (O.faults out.new) source) result }
{
    let Ok(text) = rejection(alloc, broken) else {
        return Status::NoMemory;
    };
    match write_all(out, text.as_bytes()) {
        Ok(()) => Status::Rejected,
        Err(Failed) => Status::OutputFault,
    }
}

fn append_used(text: &mut String, space: &Space) -> Result<(), AllocError>
    ensures { OnOk result (string_bytes text.new ≡ string_bytes text.old ++ used_text space.now) }
{
    let Space { eof, used, .. } = *space;
    write!(text, "space eof {eof} used {used}")
}

fn append_listed(text: &mut String, space: &Space) -> Result<(), AllocError>
    ensures { OnOk result (string_bytes text.new ≡ string_bytes text.old ++ listed_text space.now) }
{
    let Space {
        listed,
        listed_bytes,
        ..
    } = *space;
    write!(text, " listed {listed} {listed_bytes}")
}

fn append_unlisted(text: &mut String, space: &Space) -> Result<(), AllocError>
    ensures { OnOk result (string_bytes text.new ≡ string_bytes text.old ++ unlisted_text space.now) }
{
    let Space {
        unlisted,
        unlisted_bytes,
        ..
    } = *space;
    write!(text, " unlisted {unlisted} {unlisted_bytes}\n")
}

fn space_line(alloc: Global, space: &Space) -> Result<String, AllocError>
    ensures { IfOk result (λ t. string_bytes t ≡ space_text space.now) }
{
    let mut text = String::new(alloc);
    append_used(&mut text, space)?;
    append_listed(&mut text, space)?;
    append_unlisted(&mut text, space)?;
    Ok(text)
}

/// What is written of a well-formed file, whose records take so much, where that is asked for.
fn accepted_lines(alloc: Global, space: Option<Space>) -> Result<String, AllocError>
    ensures { IfOk result (λ t. string_bytes t ≡ yes_text ++ option_map_or space_text space []) }
{
    let mut text = String::from_str(alloc, "yes\n")?;
    if let Some(space) = space {
        text.push_str(space_line(alloc, &space)?.as_str())?;
    }
    Ok(text)
}

/// Says that a file is well formed, and what its records take, where that is asked for.
pub fn say_accepted<O: Sink>(alloc: Global, space: Option<Space>, out: &mut O) -> Status
    ensures text { SaysAccepted (yes_text ++ option_map_or space_text space []) (O.written out.old) (O.written out.new) result }
    ensures counted { (reads writes source : ℕ) → Counted (counts reads writes (O.faults out.old) source) (counts reads writes (O.faults out.new) source) result }
{
    let Ok(text) = accepted_lines(alloc, space) else {
        return Status::NoMemory;
    };
    match write_all(out, text.as_bytes()) {
        Ok(()) => Status::Done,
        Err(Failed) => Status::OutputFault,
    }
}

/// Says what the records of an image take.
pub fn say_space<O: Sink>(alloc: Global, space: Space, out: &mut O) -> Result<(), Status>
    ensures said { OnOk result (Appends (O.written out.old) (O.written out.new) (space_text space)) }
    ensures stops { IfErr result (LineStops (space_text space) (O.written out.old) (O.written out.new)) }
    ensures counted { (reads writes source : ℕ) → CountedIn (counts reads writes (O.faults out.old) source) (counts reads writes (O.faults out.new) source) result }
{
    let Ok(text) = space_line(alloc, &space) else {
        return Err(Status::NoMemory);
    };
    match write_all(out, text.as_bytes()) {
        Ok(()) => Ok(()),
        Err(Failed) => Err(Status::OutputFault),
    }
}
