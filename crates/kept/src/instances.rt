// The equality of every type that has `==`.
ghost use Rattle.std.specs.Prelude.{◌≡◌, ℕ};
ghost use Rattle.kept.specs.Instances.{same_number, same_parts};

use crate::equality::Equality;

/// Elements are equal where `==` says so.
#[derive(Clone, Copy, PartialEq, Eq, Debug)]
pub struct ByEq;

impl<T: Eq> Equality<T> for ByEq {
    ghost same = { λ _. T.eq };

    ghost lawful = { λ _. T.Eq.laws };

    fn equal(&self, a: &T, b: &T) -> bool {
        a == b
    }
}

/// By `==` numbers are equal where they are the same number, and pairs of numbers where both parts are.
pub fn numbers_are_equal_by_value(eq: &ByEq)
    ensures numbers { (a b : ℕ) → ⟦<ByEq as Equality<u32>>⟧.same eq.now a b ≡ same_number a b }
    ensures pairs { (a b : ℕ × ℕ) → ⟦<ByEq as Equality<(u32, u32)>>⟧.same eq.now a b ≡ same_parts a b }
{}
