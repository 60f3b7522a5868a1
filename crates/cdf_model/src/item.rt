//! The lines of a listing.

use crate::{Bytes, Kind, Scope};
use std::marker::Model;

/// One line of a listing.
#[derive(Drop)]
pub enum Item {
    Attr { num: u32, name: Bytes, scope: Scope },
    Var { kind: Kind, num: u32, name: Bytes },
}

/// A list of such lines.
#[derive(Drop)]
pub struct Items {
    items: Vec<Item>,
}

impl Model for Items {
    ghost use Rattle.std.specs.Prelude.{List};
    ghost use Rattle.cdf_model.specs.declared.item.Item.{Item};

    ghost Value = { List Item };

    ghost view = { λ items. items.items.items };
}

impl Items {
    ghost use Rattle.std.specs.Prelude.{◌≡◌};

    pub fn new(items: Vec<Item>) -> Self
        ensures { result ≡ items.items }
    {
        Items { items }
    }

    pub fn as_slice(&self) -> &[Item]
        ensures { result.now ≡ self.now }
    {
        &self.items
    }

    pub fn into_vec(self) -> Vec<Item>
        ensures { result.items ≡ self }
    {
        self.items
    }
}
