//! The chains of entries that an Attribute Descriptor Record has, and what it says of them.

ghost use Rattle.std.specs.Prelude.{◌≡◌, OnOk};
ghost use Rattle.std.specs.Int.{cast_unsigned, w32};
ghost use Rattle.cdf_area.specs.Calls.{Edits};
ghost use Rattle.cdf_edits.specs.Commands.EntryChains.{max_field};
ghost use Rattle.cdf_edits.specs.Edits.EntryMarks.{count_field, entries_chain};
ghost use Rattle.cdf_format.specs.Fields.{LiesIn, with_field};

use cdf_area::{Area, AreaError};
use cdf_format::fields::{ADR_NGR_ENTRIES, ADR_NZ_ENTRIES};
use cdf_model::EntryKind;
use cdf_records::{set_adr_max_gr_entry, set_adr_max_z_entry, set_signed4};
use cdf_space::Chain;

/// The chain of the entries of a kind that an Attribute Descriptor Record has.
pub fn entries_chain(kind: EntryKind, adr: u64) -> Chain
    ensures { result ≡ entries_chain kind adr }
{
    match kind {
        EntryKind::G | EntryKind::R => Chain::GrEntries { adr },
        EntryKind::Z => Chain::ZEntries { adr },
    }
}

/// Writes the greatest number of the entries that stand in one chain with those of a kind, -1 for none.
pub fn set_greatest<A: Area>(
    area: &mut A,
    kind: EntryKind,
    adr: u64,
    to: i32,
) -> Result<(), AreaError>
    requires { LiesIn (A.image area.old) adr (max_field kind) }
    ensures written { OnOk result (A.image area.new ≡ with_field (A.image area.old) adr (max_field kind) (cast_unsigned w32 to)) }
    ensures area { Edits A.frame A.faults area.old area.new result }
{
    match kind {
        EntryKind::G | EntryKind::R => set_adr_max_gr_entry(area, adr, to),
        EntryKind::Z => set_adr_max_z_entry(area, adr, to),
    }
}

/// Writes how many entries stand in one chain with those of a kind.
pub fn set_count<A: Area>(area: &mut A, kind: EntryKind, adr: u64, to: i32) -> Result<(), AreaError>
    requires { LiesIn (A.image area.old) adr (count_field kind) }
    ensures written { OnOk result (A.image area.new ≡ with_field (A.image area.old) adr (count_field kind) (cast_unsigned w32 to)) }
    ensures area { Edits A.frame A.faults area.old area.new result }
{
    match kind {
        EntryKind::G | EntryKind::R => set_signed4(area, adr, ADR_NGR_ENTRIES, to),
        EntryKind::Z => set_signed4(area, adr, ADR_NZ_ENTRIES, to),
    }
}
