//! Taps in a list, by their names.

ghost use Rattle.std.specs.Prelude.{◌≡◌, false, map, length, if◌then◌else◌};
ghost use Rattle.cdf_model.specs.Taps.{has_tap};
ghost use Rattle.cdf_tap.specs.Meanings.{cleared, cleared_named, has_name, kinds_of, others_of};

use crate::Tap;

/// Whether a tap has a name.
pub fn is_named(tap: &Box<dyn Tap>, name: &[u8]) -> bool
    ensures { result ≡ has_name name.now (meaning tap.now) }
{
    tap.name() == name
}

/// Whether a list has a tap of a name.
pub fn has_tap(taps: &[Box<dyn Tap>], name: &[u8]) -> bool
    ensures { result ≡ has_tap (kinds_of (map (λ tap. meaning tap) taps.now)) name.now }
{
    for tap in taps {
        if is_named(tap, name) {
            return true;
        }
    }
    false
}

/// Clears a tap.
fn clear(tap: &mut Box<dyn Tap>)
    ensures { meaning tap.new ≡ cleared (meaning tap.old) }
{
    tap.clear();
}

/// Clears a tap if it has a name.
fn clear_if_named(tap: &mut Box<dyn Tap>, name: &[u8])
    ensures { meaning tap.new ≡ (if has_name name.now (meaning tap.old) then cleared (meaning tap.old) else meaning tap.old) }
{
    if is_named(tap, name) {
        clear(tap);
    }
}

/// Clears each tap of a name, and no other.
pub fn clear_named(taps: &mut Vec<Box<dyn Tap>>, name: &[u8])
    ensures taps { map (λ tap. meaning tap) taps.new.items ≡ cleared_named name.now (map (λ tap. meaning tap) taps.old.items) }
    ensures count { length taps.new.items ≡ length taps.old.items }
{
    for i in 0..taps.len() {
        clear_if_named(&mut taps[i], name);
    }
}
