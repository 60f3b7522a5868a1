//! The attributes of a file as a command meets them.

ghost use Rattle.std.specs.Prelude.{◌≡◌, IfOk, None, []};
ghost use Rattle.cdf_area.specs.Calls.{Reads};
ghost use Rattle.cdf_attrs.specs.Known.{Known, Knows};
ghost use Rattle.cdf_format.specs.Content.{content};
ghost use Rattle.cdf_format.specs.WellFormed.{Good};
ghost use Rattle.cdf_model.specs.Listing.{attribute_items};

use crate::entry_chain::EntryChain;
use crate::entry_order::EntryOrder;
use crate::reading::{read_items, read_names};
use cdf_area::{Area, AreaError};
use cdf_model::Item;
use cdf_names::NameTable;
use cdf_space::{Chain, read_chain};
use std::alloc::Global;
use std::marker::Model;

/// The attributes of a file: their names in a table, and where their descriptors stand, in the same order; the entries of the
/// chains that were used last; and those of the chain that was shown last in the order of their numbers, if they are known.
#[derive(Drop)]
pub struct Attrs {
    pub(crate) alloc: Global,
    pub(crate) names: NameTable,
    pub(crate) places: Vec<u64>,
    pub(crate) entries: Vec<EntryChain>,
    pub(crate) order: Option<EntryOrder>,
}

impl Model for Attrs {
    ghost Value = { Known };

    ghost view = { λ attrs. record { names = attrs.names; places = attrs.places.items; entries = attrs.entries.items; order = attrs.order } };
}

impl Attrs {
    /// The attributes of a good image.
    pub fn load<A: Area>(alloc: Global, area: &mut A) -> Result<Attrs, AreaError>
        requires { Good (A.image area.old) }
        ensures known { IfOk result (Knows (A.image area.old)) }
        ensures area { Reads A.image A.frame A.faults A.edited area.old area.new result }
    {
        let places = read_chain(alloc, area, Chain::Attrs)?;
        let names = read_names(alloc, area, &places)?;
        Ok(Attrs {
            alloc,
            names,
            places,
            entries: Vec::new(alloc),
            order: None,
        })
    }

    /// Lets go the entries that are kept, so that what is left is right of each image with the same attributes in the same places.
    pub fn forget_entries(&mut self)
        ensures { self.new ≡ record self.old { entries = []; order = None } }
    {
        self.entries.clear();
        self.order = None;
    }

    /// The attributes as `list` shows them, each with its number, its name and its scope.
    pub fn items<A: Area>(&self, area: &mut A) -> Result<Vec<Item>, AreaError>
        requires good { Good (A.image area.old) }
        ensures items { IfOk result (λ items. items.items ≡ attribute_items 0 (content (A.image area.old)).attributes) }
        ensures area { Reads A.image A.frame A.faults A.edited area.old area.new result }
    {
        let places = read_chain(self.alloc, area, Chain::Attrs)?;
        read_items(self.alloc, area, &places)
    }
}
