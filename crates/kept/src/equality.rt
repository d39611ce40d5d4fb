// Equality as a value, so that one list serves every kind of element.
ghost use Rattle.std.specs.Prelude.{◌≡◌, Bool};
ghost use Rattle.kept.specs.Equivalence.{Equivalence};

/// A way to compare two elements: reflexive, symmetric and transitive.
// By a rule of the project an equality is a value of a small trait that is passed to each call; it brings its laws.
pub trait Equality<T> {
    ghost same: { Self → T → T → Bool };

    /// Whether the two are equal.
    fn equal(&self, a: &T, b: &T) -> bool
        ensures { result ≡ same self.now a.now b.now };

    ghost lawful: { Equivalence same };
}
