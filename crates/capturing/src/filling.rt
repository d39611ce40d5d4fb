// What a capture fills.
ghost use Rattle.std.specs.Prelude.{◌≡◌, ◌+◌, ◌-◌, ◌<◌, ◌≤◌, length, nat_lt, slice_set};

use crate::captured::Captured;
use records::record::Record;

/// The slots that a capture fills, over a text of so many bytes. The fill is put back when it is let go, unless the
/// capture was kept.
// Slots and a fill, and no `Vec`: both are lent, and there is no heap.
pub(crate) struct FillGuard<'f> {
    fill: &'f mut usize,
    slots: &'f mut [Record],
    first: usize,
    pub(crate) text_len: usize,
    ghost filled: { fill.now ≤ length slots.now },
    ghost begun: { first ≤ fill.now },
}

impl Drop for FillGuard<'_> {
    fn drop(self)
        ensures fill { self.exit.0.now ≡ self.entry.first }
        ensures slots { self.exit.1.0.now ≡ self.entry.slots.now }
    {
        let FillGuard {
            fill,
            slots: _,
            first,
            text_len: _,
        } = self;
        *fill = first;
    }
}

impl<'f> FillGuard<'f> {
    ghost use Rattle.capturing.specs.Filling.{GoesOn};

    /// Begins behind the slots that are filled.
    pub(crate) fn behind(
        fill: &'f mut usize,
        slots: &'f mut [Record],
        text_len: usize,
    ) -> FillGuard<'f>
        requires { fill.old ≤ length slots.old }
        ensures same_fill { result.fill.ghost_name ≡ fill.entry.ghost_name }
        ensures same_slots { result.slots.ghost_name ≡ slots.entry.ghost_name }
        ensures fill { result.fill.now ≡ fill.old }
        ensures slots { result.slots.now ≡ slots.old }
        ensures first { result.first ≡ fill.old }
        ensures text { result.text_len ≡ text_len }
    {
        let first = *fill;
        FillGuard {
            fill,
            slots,
            first,
            text_len,
        }
    }

    /// Whether a slot is free.
    pub(crate) fn has_room(&self) -> bool
        ensures { result ≡ nat_lt self.now.fill.now (length self.now.slots.now) }
    {
        *self.fill < self.slots.len()
    }

    /// Fills the next slot.
    pub(crate) fn store(&mut self, record: Record)
        requires { self.old.fill.now < length self.old.slots.now }
        ensures fill { self.new.fill.now ≡ self.old.fill.now + 1 }
        ensures slots { self.new.slots.now ≡ slice_set self.old.slots.now self.old.fill.now «record» }
        ensures goes_on { GoesOn self.old self.new }
    {
        let at = *self.fill;
        self.slots[at] = record;
        *self.fill = at + 1;
    }

    /// Keeps what was filled.
    pub(crate) fn keep(self) -> Captured
        ensures fill { self.exit.0.now ≡ self.entry.fill.now }
        ensures slots { self.exit.1.0.now ≡ self.entry.slots.now }
        ensures first { result.first ≡ self.entry.first }
        ensures count { result.count ≡ self.entry.fill.now - self.entry.first }
    {
        let FillGuard {
            fill,
            slots: _,
            first,
            text_len: _,
        } = self;
        Captured {
            first,
            count: *fill - first,
        }
    }
}
