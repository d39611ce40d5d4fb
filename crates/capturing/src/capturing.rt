// Capturing one node.
ghost use Rattle.std.specs.Prelude.{◌≡◌, ◌-◌, ◌≤◌, length};
ghost use Rattle.capturing.specs.Capturing.{Captures, limits_of};

use crate::captured::Captured;
use crate::deferring::{DeferralGuard, Deferring};
use crate::filling::FillGuard;
use crate::path::{MAX_OPEN, Path};
use crate::storing::store_event;
use events::source::Events;
use records::record::Record;
use records::refusal::Refusal;

/// How many containers may be opened within so many.
fn depth_left(opened: usize) -> usize
    ensures { result ≡ 64 - opened }
{
    MAX_OPEN.saturating_sub(opened)
}

/// Captures the next node, each recursive alias as it stands, behind the first `fill` slots, where `opened` containers
/// are open around it. The source's deferral is as it was on every way out, and so is the fill on every way out but
/// acceptance.
// By a rule of the project a rack is a lent slice with its fill beside it; the rack itself is not built yet.
pub fn capture_node<S: Events>(
    source: &mut S,
    text_len: usize,
    slots: &mut [Record],
    fill: &mut usize,
    opened: usize,
) -> Result<Captured, Refusal>
    requires { fill.old ≤ length slots.old }
    ensures { Captures (limits_of slots.old fill.old text_len opened (S.meaning source.old)) (S.meaning source.old) slots.old fill.old result (S.meaning source.new) slots.new fill.new }
{
    let deferral = DeferralGuard::over(source);
    let mut deferring = Deferring {
        source: deferral.source,
    };
    let mut filling = FillGuard::behind(fill, slots, text_len);
    let deep = depth_left(opened);
    let mut path = Path::new();
    loop {
        let low = path.around.len() < deep;
        let event = store_event(&mut deferring, &mut filling, path.spot, low)?;
        if path.step(event) {
            return Ok(filling.keep());
        }
    }
}
