//! Taps that came to their end are dropped.

ghost use Rattle.std.specs.Prelude.{◌≡◌, ◌<◌, map, length, remove};
ghost use Rattle.std.specs.List.{zip};
ghost use Rattle.cdf_tap.specs.Meanings.{left_of};

use crate::Tap;

/// Drops the tap at an index.
fn drop_at(taps: &mut Vec<Box<dyn Tap>>, i: usize)
    requires { i < length taps.old.items }
    ensures { map (λ tap. meaning tap) taps.new.items ≡ remove (map (λ tap. meaning tap) taps.old.items) i }
{
    taps.remove(i);
}

/// Drops the taps that came to their end; the others stay as they are, in their order.
pub fn drop_ended(taps: &mut Vec<Box<dyn Tap>>, ended: &[bool])
    requires { length ended.now ≡ length taps.old.items }
    ensures { map (λ tap. meaning tap) taps.new.items ≡ left_of (zip (map (λ tap. meaning tap) taps.old.items) ended.now) }
{
    let mut i = taps.len();
    while i > 0 {
        i -= 1;
        if ended[i] {
            drop_at(taps, i);
        }
    }
}
