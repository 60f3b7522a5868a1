//! Which condition a refused command does not meet.

ghost use Rattle.cdf_area.specs.Calls.{Reads};

use cdf_area::{Area, AreaError};
use cdf_model::limits::{DIMENSION_LIMIT, SIGNED_LIMIT};
use cdf_model::{Command, DataType, EntryKind, Outcome, Reason};
use cdf_saving::{BrokenCondition, Condition};
use cdf_session::Session;
use cdf_walk::Parts;

/// A condition that a word of the line does not meet.
fn by_word(condition: Condition, word: u8) -> Option<BrokenCondition> {
    Some(BrokenCondition {
        condition,
        word: Some(word),
    })
}

/// A condition that no word alone breaks.
fn by_line(condition: Condition) -> Option<BrokenCondition> {
    Some(BrokenCondition {
        condition,
        word: None,
    })
}

/// What is wrong with a number of elements, if anything is.
fn of_elements(t: DataType, elems: u32) -> Option<Condition> {
    let is_text = matches!(t, DataType::Char | DataType::UChar);
    match elems {
        0 => Some(Condition::SomeElements),
        1 => None,
        _ if is_text => None,
        _ => Some(Condition::OneElement(elems)),
    }
}

/// What is wrong with the sizes of dimensions, if anything is.
fn of_sizes(dims: &[u32]) -> Option<Condition> {
    if dims.len() > DIMENSION_LIMIT as usize {
        return Some(Condition::FewDimensions(dims.len() as u64));
    }
    for (number, size) in dims.iter().enumerate() {
        if *size == 0 || *size > SIGNED_LIMIT {
            return Some(Condition::DimensionSize {
                number: number as u64,
                size: *size,
            });
        }
    }
    None
}

/// Why the letters of VARYS, which are a word of the line, do not fit so many dimensions; where they do, a record is too long.
fn of_letters(varys: &[bool], dimensions: u64, word: u8) -> Option<BrokenCondition> {
    let letters = varys.len() as u64;
    if letters != dimensions {
        let condition = Condition::Letters {
            letters,
            dimensions,
        };
        return by_word(condition, word);
    }
    by_line(Condition::RecordSize)
}

/// Why an r variable has a shape that it may not have, where the r variables share so many dimensions.
fn of_r_shape(t: DataType, elems: u32, shared: u64, varys: &[bool]) -> Option<BrokenCondition> {
    match of_elements(t, elems) {
        Some(condition) => by_word(condition, 4),
        None => of_letters(varys, shared, 6),
    }
}

/// Why a z variable has a shape that it may not have.
fn of_z_shape(t: DataType, elems: u32, dims: &[u32], varys: &[bool]) -> Option<BrokenCondition> {
    if let Some(condition) = of_elements(t, elems) {
        return by_word(condition, 4);
    }
    if let Some(condition) = of_sizes(dims) {
        return by_word(condition, 6);
    }
    of_letters(varys, dims.len() as u64, 7)
}

/// Why a command has a shape that it may not have, in a file whose r variables share so many dimensions.
fn of_shape(command: &Command, shared: u64) -> Option<BrokenCondition> {
    match command {
        Command::Setup { dims, .. } => by_word(of_sizes(dims.as_slice())?, 4),
        Command::RVar {
            t,
            elems,
            varys,
            ..
        } => of_r_shape(*t, *elems, shared, varys.as_slice()),
        Command::ZVar {
            t,
            elems,
            dims,
            varys,
            ..
        } => of_z_shape(*t, *elems, dims.as_slice(), varys.as_slice()),
        _ => None,
    }
}

/// Why a number of a command is out of its range.
fn of_number(command: &Command) -> Option<BrokenCondition> {
    match command {
        Command::Setup { encoding, .. } => by_word(Condition::Encoding(*encoding), 2),
        Command::SetBlocking { n, .. } => by_word(Condition::Signed(*n), 3),
        Command::PutEntry { kind, num, .. } => {
            let condition = match kind {
                EntryKind::G => Condition::EntryNumber(*num),
                EntryKind::R => Condition::RVariable(*num),
                EntryKind::Z => Condition::ZVariable(*num),
            };
            by_word(condition, 4)
        }
        _ => None,
    }
}

/// How many dimensions the r variables share.
fn count_shared<A: Area>(session: &mut Session<A>) -> Result<u64, AreaError>
    ensures area { Reads A.image A.frame A.faults A.edited session.old session.new result }
{
    let head = session.head()?;
    Ok(head.rdims.as_slice().len() as u64)
}

/// Which condition a command that was refused for a reason does not meet, in a file whose r variables share so many dimensions.
fn condition_of(command: &Command, reason: Reason, shared: u64) -> Option<BrokenCondition> {
    match reason {
        Reason::BadShape => of_shape(command, shared),
        Reason::NumberOutOfRange => of_number(command),
        Reason::InUse if matches!(command, Command::Setup { .. }) => by_line(Condition::EmptyFile),
        _ => None,
    }
}

/// Which condition a command does not meet that comes to this; none where its reason says all.
pub fn read_broken_condition<A: Area>(
    session: &mut Session<A>,
    command: &Command,
    outcome: &Outcome,
) -> Result<Option<BrokenCondition>, AreaError>
    ensures area { Reads A.image A.frame A.faults A.edited session.old session.new result }
{
    let Outcome::Refused { reason } = outcome else {
        return Ok(None);
    };
    let shared = match command {
        Command::RVar { .. } => count_shared(session)?,
        _ => 0,
    };
    Ok(condition_of(command, *reason, shared))
}
