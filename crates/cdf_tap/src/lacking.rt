//! Where the tap stands that looks for a z variable without a VAR_TYPE.

ghost use Rattle.std.specs.Prelude.{◌≡◌, ◌∷◌};
ghost use Rattle.cdf_model.specs.ShippedTaps.{lacking, lacking_text};

/// A z variable without a VAR_TYPE.
#[derive(Drop)]
pub struct Lacking {
    pub name: Vec<u8>,
    /// What the tap says of it.
    pub text: Vec<u8>,
    pub ghost says: { text.items ≡ lacking_text (lacking ∷ name.items) },
}

/// What the events before lead to.
#[derive(Drop)]
pub enum Found {
    /// The attribute shown last is VAR_TYPE.
    Inside,
    Outside,
    Lacking(Lacking),
}
