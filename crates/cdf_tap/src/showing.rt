//! Events are shown to the taps of a name.

ghost use Rattle.std.specs.Prelude.{◌≡◌, false, map, length, OnOk, IfOk};
ghost use Rattle.std.specs.List.{zip};
ghost use Rattle.cdf_tap.specs.Meanings.{has_name, is_final, kinds_of, moved, others_of, shown, shown_one};

use crate::list::is_named;
use crate::{Go, Tap};
use cdf_model::Event;
use std::alloc::AllocError;

/// Shows an event to a tap, and says whether it came to its end.
fn show_tap(tap: &mut Box<dyn Tap>, event: &Event) -> Result<bool, AllocError>
    ensures tap { OnOk result (meaning tap.new ≡ moved (meaning tap.old) event.now) }
    ensures ended { IfOk result (λ ended. ended ≡ is_final (moved (meaning tap.old) event.now)) }
    ensures own { (meaning tap.new).own ≡ (meaning tap.old).own }
{
    let go = tap.on(event)?;
    Ok(go == Go::Done)
}

/// Shows an event to a tap of a name that has not come to its end, and says whether it has then.
fn show_one(
    tap: &mut Box<dyn Tap>,
    name: &[u8],
    ended: bool,
    event: &Event,
) -> Result<bool, AllocError>
    ensures shown { IfOk result (λ after. (meaning tap.new, after) ≡ shown_one name.now event.now (meaning tap.old, ended)) }
    ensures own { (meaning tap.new).own ≡ (meaning tap.old).own }
    ensures other { has_name name.now (meaning tap.old) ≡ false → meaning tap.new ≡ meaning tap.old }
{
    if ended || !is_named(tap, name) {
        return Ok(ended);
    }
    show_tap(tap, event)
}

/// Shows an event to each tap of a name that has not come to its end, and says which have then. Where memory is refused, only some of
/// them have seen it; the list keeps its taps, and those of other names stay as they are.
pub fn show(
    taps: &mut Vec<Box<dyn Tap>>,
    name: &[u8],
    ended: &mut [bool],
    event: &Event,
) -> Result<(), AllocError>
    requires { length ended.old ≡ length taps.old.items }
    ensures shown { OnOk result (zip (map (λ tap. meaning tap) taps.new.items) ended.new
        ≡ shown name.now event.now (zip (map (λ tap. meaning tap) taps.old.items) ended.old)) }
    ensures count { length taps.new.items ≡ length taps.old.items }
    ensures kinds { kinds_of (map (λ tap. meaning tap) taps.new.items) ≡ kinds_of (map (λ tap. meaning tap) taps.old.items) }
    ensures others { others_of name.now (map (λ tap. meaning tap) taps.new.items) ≡ others_of name.now (map (λ tap. meaning tap) taps.old.items) }
{
    for i in 0..taps.len() {
        let before = ended[i];
        let after = show_one(&mut taps[i], name, before, event)?;
        ended[i] = after;
    }
    Ok(())
}
