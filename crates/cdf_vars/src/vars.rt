//! The variables of a file as a command meets them.

ghost use Rattle.std.specs.Prelude.{◌≡◌, ◌<◌, ◌++◌, ℕ, List, is_some, length, slice_index, IfOk, OnOk};
ghost use Rattle.std.specs.Option.{option_map};
ghost use Rattle.cdf_area.specs.Calls.{Reads};
ghost use Rattle.cdf_edits.specs.Commands.Allowances.{shapes_of};
ghost use Rattle.cdf_format.specs.Content.{content};
ghost use Rattle.cdf_format.specs.Shape.{shape, vdrs};
ghost use Rattle.cdf_format.specs.WellFormed.{Good};
ghost use Rattle.cdf_model.specs.declared.kinds.Kind.TheVariants as kinds;
ghost use Rattle.cdf_model.specs.Listing.{variable_items};
ghost use Rattle.cdf_model.specs.Names.{is_among, variable_named, variables_of};
ghost use Rattle.cdf_names.specs.Names.{has_name};
ghost use Rattle.cdf_vars.specs.Finding.{found_among, found_of, id_of, names_of};
ghost use Rattle.cdf_vars.specs.Known.{Known, KnownKind, Knows, KnowsKind, known_of};

use crate::chain::chain_of;
use crate::reading::{push_items_at, read_names};
use cdf_area::{Area, AreaError};
use cdf_model::{Item, Kind};
use cdf_names::NameTable;
use cdf_space::read_chain;
use std::alloc::Global;
use std::marker::Model;

/// A variable: its kind, and its number among those of the kind.
#[derive(Clone, Copy, Debug, PartialEq, Eq)]
pub struct VarId {
    pub kind: Kind,
    pub num: u32,
}

/// The variables of one kind: their names in a table, and where their descriptors stand, in the same order.
#[derive(Drop)]
pub struct VarTable {
    pub(crate) names: NameTable,
    pub(crate) places: Vec<u64>,
}

impl Model for VarTable {
    ghost Value = { KnownKind };

    ghost view = { λ table. record { names = table.names; places = table.places.items } };
}

/// Where the descriptors of the variables of a kind stand, in the order of their numbers.
fn read_places<A: Area>(alloc: Global, area: &mut A, kind: Kind) -> Result<Vec<u64>, AreaError>
    requires { Good (A.image area.old) }
    ensures places { IfOk result (λ places. places.items ≡ vdrs (shapes_of (shape (A.image area.old)) kind)) }
    ensures area { Reads A.image A.frame A.faults A.edited area.old area.new result }
{
    read_chain(alloc, area, chain_of(kind))
}

impl VarTable {
    /// The variables of a kind that a good image has.
    fn load<A: Area>(alloc: Global, area: &mut A, kind: Kind) -> Result<VarTable, AreaError>
        requires { Good (A.image area.old) }
        ensures known { IfOk result (KnowsKind (A.image area.old) kind) }
        ensures area { Reads A.image A.frame A.faults A.edited area.old area.new result }
    {
        let places = read_places(alloc, area, kind)?;
        let names = read_names(alloc, area, &places)?;
        Ok(VarTable { names, places })
    }

    /// The variable of a name, where the variables are those of a kind.
    fn find(&self, kind: Kind, name: &[u8]) -> Option<VarId>
        ensures found { result ≡ found_of kind self.now.names name.now }
        ensures exact { is_some result ≡ has_name self.now.names name.now }
    {
        let num = self.names.find(name)?;
        Some(VarId { kind, num })
    }
}

/// Adds the variables of a kind as `list` shows them.
fn push_kind<A: Area>(
    alloc: Global,
    area: &mut A,
    kind: Kind,
    items: &mut Vec<Item>,
) -> Result<(), AreaError>
    requires { Good (A.image area.old) }
    ensures items { OnOk result (items.new.items ≡ items.old.items ++ variable_items kind 0 (variables_of (content (A.image area.old)) kind)) }
    ensures area { Reads A.image A.frame A.faults A.edited area.old area.new result }
{
    let places = read_places(alloc, area, kind)?;
    push_items_at(alloc, area, kind, &places, items)
}

/// The variables of a file, of both kinds.
#[derive(Drop)]
pub struct Vars {
    pub(crate) alloc: Global,
    pub(crate) r: VarTable,
    pub(crate) z: VarTable,
}

impl Model for Vars {
    ghost Value = { Known };

    ghost view = { λ vars. record { r = vars.r; z = vars.z } };
}

impl Vars {
    /// The variables of a good image.
    pub fn load<A: Area>(alloc: Global, area: &mut A) -> Result<Vars, AreaError>
        requires { Good (A.image area.old) }
        ensures known { IfOk result (Knows (A.image area.old)) }
        ensures area { Reads A.image A.frame A.faults A.edited area.old area.new result }
    {
        let r = VarTable::load(alloc, area, Kind::R)?;
        let z = VarTable::load(alloc, area, Kind::Z)?;
        Ok(Vars { alloc, r, z })
    }

    /// The variable of a name: an r variable, or else a z variable.
    pub fn find(&self, name: &[u8]) -> Option<VarId>
        ensures found { result ≡ found_among self.now name.now }
        ensures exact { is_some result ≡ is_among name.now (names_of self.now) }
        ensures named { (b : List ℕ) → Knows b self.now → result ≡ option_map id_of (variable_named (content b) name.now) }
    {
        match self.r.find(Kind::R, name) {
            Some(id) => Some(id),
            None => self.z.find(Kind::Z, name),
        }
    }

    /// Where the descriptor of a variable stands.
    pub(crate) fn place_of(&self, id: VarId) -> u64
        requires { id.num < length (known_of self.now id.kind).places }
        ensures { result ≡ slice_index (known_of self.now id.kind).places id.num }
    {
        match id.kind {
            Kind::R => self.r.places.as_slice()[id.num as usize],
            Kind::Z => self.z.places.as_slice()[id.num as usize],
        }
    }

    /// Adds the variables as `list` shows them: the r variables, then the z variables, each with its number and its name.
    pub fn push_items<A: Area>(&self, area: &mut A, items: &mut Vec<Item>) -> Result<(), AreaError>
        requires good { Good (A.image area.old) }
        ensures items { OnOk result (items.new.items ≡ items.old.items ++ variable_items kinds.R 0 (content (A.image area.old)).r_variables ++ variable_items kinds.Z 0 (content (A.image area.old)).z_variables) }
        ensures area { Reads A.image A.frame A.faults A.edited area.old area.new result }
    {
        push_kind(self.alloc, area, Kind::R, items)?;
        push_kind(self.alloc, area, Kind::Z, items)
    }
}
