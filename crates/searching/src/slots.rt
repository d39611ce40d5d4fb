// The slots from one on.
ghost use Rattle.std.specs.Prelude.{◌≡◌, drop};

use records::record::Record;

/// The slots from `at` on; none, where `at` is not among them.
pub(crate) fn slots_from(slots: &[Record], at: usize) -> &[Record]
    ensures { result.now ≡ drop at slots.now }
{
    slots.get(at..).unwrap_or_default()
}
