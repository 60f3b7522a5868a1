//! Lists of bytes, numbers and variances that contracts see as lists.

use std::marker::Model;

/// A list of bytes, as a name, a line or a value.
#[derive(Drop)]
pub struct Bytes {
    items: Vec<u8>,
}

impl Model for Bytes {
    ghost use Rattle.std.specs.Prelude.{ℕ, List};

    ghost Value = { List ℕ };

    ghost view = { λ bytes. bytes.items.items };
}

impl Bytes {
    ghost use Rattle.std.specs.Prelude.{◌≡◌};

    pub fn new(items: Vec<u8>) -> Self
        ensures { result ≡ items.items }
    {
        Bytes { items }
    }

    pub fn as_slice(&self) -> &[u8]
        ensures { result.now ≡ self.now }
    {
        &self.items
    }

    pub fn into_vec(self) -> Vec<u8>
        ensures { result.items ≡ self }
    {
        self.items
    }
}

/// A list of numbers, as the sizes of dimensions.
#[derive(Drop)]
pub struct Nums {
    items: Vec<u32>,
}

impl Model for Nums {
    ghost use Rattle.std.specs.Prelude.{ℕ, List};

    ghost Value = { List ℕ };

    ghost view = { λ numbers. numbers.items.items };
}

impl Nums {
    ghost use Rattle.std.specs.Prelude.{◌≡◌};

    pub fn new(items: Vec<u32>) -> Self
        ensures { result ≡ items.items }
    {
        Nums { items }
    }

    pub fn as_slice(&self) -> &[u32]
        ensures { result.now ≡ self.now }
    {
        &self.items
    }

    pub fn into_vec(self) -> Vec<u32>
        ensures { result.items ≡ self }
    {
        self.items
    }
}

/// Whether each dimension varies.
#[derive(Drop)]
pub struct Varys {
    items: Vec<bool>,
}

impl Model for Varys {
    ghost use Rattle.std.specs.Prelude.{Bool, List};

    ghost Value = { List Bool };

    ghost view = { λ varys. varys.items.items };
}

impl Varys {
    ghost use Rattle.std.specs.Prelude.{◌≡◌};

    pub fn new(items: Vec<bool>) -> Self
        ensures { result ≡ items.items }
    {
        Varys { items }
    }

    pub fn as_slice(&self) -> &[bool]
        ensures { result.now ≡ self.now }
    {
        &self.items
    }

    pub fn into_vec(self) -> Vec<bool>
        ensures { result.items ≡ self }
    {
        self.items
    }
}
