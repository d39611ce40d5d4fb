// Whether the elements of two lists pair off.
ghost use Rattle.std.specs.Prelude.{◌≡◌, ◌<◌, ◌≤◌, true, ◌↔◌, length, MatchResult};
ghost use Rattle.kept.specs.Pairing.{Paired, paired};

use crate::equality::Equality;
use crate::list::{Full, Kept};

/// Whether the elements of the two lists pair off one to one, each with an equal one. Refused where `room` has fewer
/// places than `xs` has elements.
pub fn pair_off<T: Copy, E: Equality<T>>(
    eq: &E,
    xs: &[T],
    ys: &[T],
    room: &mut [T],
) -> Result<bool, Full>
    ensures { MatchResult result
        (λ b. (length xs.now ≤ length room.old) × ((b ≡ true) ↔ Paired (E.same eq.now) xs.now ys.now))
        (λ _. length room.old < length xs.now) }
{
    let mut left = Kept::new(room);
    left.extend_from_slice(xs)?;
    Ok(take_all_off(&mut left, eq, ys))
}

// Takes an equal of each element of `ys` off, and says whether each had one and nothing is left.
fn take_all_off<T: Copy, E: Equality<T>>(left: &mut Kept<'_, T>, eq: &E, ys: &[T]) -> bool
    ensures { result ≡ paired (E.same eq.now) ys.now left.old.elements }
{
    // A loop and not `all`: nothing is known afterwards of a list that its closure changed, so that proof did not close.
    for y in ys {
        if !left.take_off(eq, y) {
            return false;
        }
    }
    left.is_empty()
}
