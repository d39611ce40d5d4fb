// Laws of every kept list, on functions that only carry them.
ghost use Rattle.kept.specs.Searching.{FindsFirst};
ghost use Rattle.kept.specs.Pairing.{PairingIsEquivalence, TestIsRelation, PairingByCounts};

use crate::equality::Equality;

/// What `find` finds is equal, nothing before it is, and `take_off` leaves all the rest in order.
pub fn finding_is_first<T, E: Equality<T>>(eq: &E)
    ensures { FindsFirst (E.same eq.now) }
{}

/// Pairing off is reflexive, symmetric and transitive.
pub fn pairing_is_equivalence<T, E: Equality<T>>(eq: &E)
    ensures { PairingIsEquivalence (E.same eq.now) }
{}

/// Lists pair off exactly where the test says so that takes one equal element off after another.
pub fn pairing_is_tested<T, E: Equality<T>>(eq: &E)
    ensures { TestIsRelation (E.same eq.now) }
{}

/// Lists pair off exactly where each value has as many equal elements in the one as in the other.
pub fn pairing_is_counted<T, E: Equality<T>>(eq: &E)
    ensures { PairingByCounts (E.same eq.now) }
{}
