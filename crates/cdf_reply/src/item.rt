//! The lines of a listing, as texts.

ghost use Rattle.std.specs.Prelude.{◌≡◌, IfOk, codes};
ghost use Rattle.std.specs.Fmt.{decimal};
ghost use Rattle.cdf_model.specs.Texts.{◌⧺◌, item_text, kind_text, scope_text};
ghost use Rattle.cdf_model.specs.Values.{quoted};

use cdf_model::{Item, Kind, Scope};
use cdf_values::quoted_text;
use std::alloc::{AllocError, Global};

pub fn scope_name(scope: Scope) -> &'static str
    ensures { result.now ≡ scope_text scope }
{
    match scope {
        Scope::Global => "global",
        Scope::Variable => "variable",
        Scope::GlobalAssumed => "global-assumed",
        Scope::VariableAssumed => "variable-assumed",
    }
}

pub fn kind_name(kind: Kind) -> &'static str
    ensures { result.now ≡ kind_text kind }
{
    match kind {
        Kind::R => "rvar",
        Kind::Z => "zvar",
    }
}

/// A word, a number and a quoted name.
fn numbered_name(alloc: Global, word: &str, num: u32, name: &[u8]) -> Result<Vec<u8>, AllocError>
    ensures { IfOk result (λ t. t.items ≡ word.now ⧺ codes " " ⧺ decimal num ⧺ codes " " ⧺ quoted name.now) }
{
    let start = format!(in alloc; "{word} {num} ")?;
    let quoted = quoted_text(alloc, name)?;
    let mut text = start.into_bytes();
    text.extend_from_slice(quoted.as_slice())?;
    Ok(text)
}

fn attribute_line(alloc: Global, num: u32, name: &[u8], scope: Scope) -> Result<Vec<u8>, AllocError>
    ensures { IfOk result (λ t. t.items ≡ item_text (Item.Attr num name.now scope)) }
{
    let scope = scope_name(scope);
    let mut text = numbered_name(alloc, "attribute", num, name)?;
    text.push(b' ')?;
    text.extend_from_slice(scope.as_bytes())?;
    text.push(b'\n')?;
    Ok(text)
}

fn variable_line(alloc: Global, kind: Kind, num: u32, name: &[u8]) -> Result<Vec<u8>, AllocError>
    ensures { IfOk result (λ t. t.items ≡ item_text (Item.Var kind num name.now)) }
{
    let kind = kind_name(kind);
    let mut text = numbered_name(alloc, kind, num, name)?;
    text.push(b'\n')?;
    Ok(text)
}

/// The line of an attribute or a variable.
pub fn item_line(alloc: Global, item: &Item) -> Result<Vec<u8>, AllocError>
    ensures { IfOk result (λ t. t.items ≡ item_text item.now) }
{
    match item {
        Item::Attr { num, name, scope } => attribute_line(alloc, *num, name.as_slice(), *scope),
        Item::Var { kind, num, name } => variable_line(alloc, *kind, *num, name.as_slice()),
    }
}
