// What a kept list is.
ghost use Rattle.std.specs.Prelude.{Some, codes};

use std::error::Error;
use std::fmt;
use std::marker::Model;

mod holding;

/// A kept list: elements held in the order in which they came, in the first places of a slice that the caller lends.
/// It finds the first element that equals a given one, and takes it off; how elements are compared is passed to each
/// call.
// A slice and a length, and no `Vec`: the places are lent, and there is no heap.
#[derive(Drop)]
pub struct Kept<'a, T> {
    items: &'a mut [T],
    len: usize,
}

// A clause sees the elements and how many more there are places for, and no field.
impl<'a, T> Model for Kept<'a, T> {
    ghost use Rattle.std.specs.Prelude.{◌-◌, ◌≤◌, length, take};
    ghost use Rattle.kept.specs.Held.{Held};

    ghost Value = { Held T };

    ghost view = { λ k. record { elements = take k.len k.items.now; spare = length k.items.now - k.len } };

    ghost invariant = { λ k. k.len ≤ length k.items.now };
}

/// Every place of the lent slice is taken.
#[derive(Clone, Copy, PartialEq, Eq, Debug)]
pub struct Full;

impl fmt::Display for Full {
    ghost output = { λ _. Some (codes "every place is taken") };

    fn fmt<W: fmt::Write>(&self, f: &mut fmt::Formatter<W>) -> fmt::Result {
        f.write_str("every place is taken")
    }
}

impl Error for Full {}
