// What a kept list does.
ghost use Rattle.std.specs.Prelude.{◌≡◌, ◌+◌, ◌<◌, ◌≤◌, [], ◌∷◌, ◌++◌, length, position, MatchResult, ◌==◌};
ghost use Rattle.std.specs.List.{list_any};
ghost use Rattle.kept.specs.Held.{room_of};
ghost use Rattle.kept.specs.Searching.{without, Finds};

use super::{Full, Kept};
use crate::equality::Equality;

impl<'a, T> Kept<'a, T> {
    /// An empty list with as many places as the slice has.
    pub fn new(items: &'a mut [T]) -> Kept<'a, T>
        ensures room { room_of result ≡ length items.old }
        ensures list { result.elements ≡ [] }
    {
        Kept { items, len: 0 }
    }

    /// How many elements the list holds.
    pub fn len(&self) -> usize
        ensures { result ≡ length self.now.elements }
    {
        self.len
    }

    /// Whether the list holds nothing.
    pub fn is_empty(&self) -> bool
        ensures { result ≡ (length self.now.elements == 0) }
    {
        self.len == 0
    }

    /// The place of the first element that equals `x`, or `None` where there is none.
    pub fn find<E: Equality<T>>(&self, eq: &E, x: &T) -> Option<usize>
        ensures place { result ≡ position (E.same eq.now x.now) self.now.elements }
        ensures finds { Finds (E.same eq.now x.now) self.now.elements result }
    {
        self.items[..self.len].iter().position(|y| eq.equal(x, y))
    }
}

impl<'a, T: Copy> Kept<'a, T> {
    /// Puts `x` at the end, unless every place is taken.
    pub fn push(&mut self, x: T) -> Result<(), Full>
        ensures room { room_of self.new ≡ room_of self.old }
        ensures list { MatchResult result
            (λ _. (length self.old.elements < room_of self.old) × (self.new.elements ≡ self.old.elements ++ x ∷ []))
            (λ _. (length self.old.elements ≡ room_of self.old) × (self.new.elements ≡ self.old.elements)) }
    {
        if self.len == self.items.len() {
            return Err(Full);
        }
        self.items[self.len] = x;
        self.len += 1;
        Ok(())
    }

    /// Puts every element of `xs` at the end, or none where there are too few places.
    pub fn extend_from_slice(&mut self, xs: &[T]) -> Result<(), Full>
        ensures room { room_of self.new ≡ room_of self.old }
        ensures list { MatchResult result
            (λ _. (length self.old.elements + length xs.now ≤ room_of self.old)
            × (self.new.elements ≡ self.old.elements ++ xs.now))
            (λ _. (room_of self.old < length self.old.elements + length xs.now)
            × (self.new.elements ≡ self.old.elements)) }
    {
        if self.items.len() - self.len < xs.len() {
            return Err(Full);
        }
        let end = self.len + xs.len();
        self.items[self.len..end].copy_from_slice(xs);
        self.len = end;
        Ok(())
    }

    /// Takes the first element that equals `x` off, and says whether there was one. The others stay in order.
    pub fn take_off<E: Equality<T>>(&mut self, eq: &E, x: &T) -> bool
        ensures room { room_of self.new ≡ room_of self.old }
        ensures found { result ≡ list_any (E.same eq.now x.now) self.old.elements }
        ensures list { self.new.elements ≡ without (E.same eq.now x.now) self.old.elements }
    {
        let Some(place) = self.find(eq, x) else {
            return false;
        };
        self.items.copy_within(place + 1..self.len, place);
        self.len -= 1;
        true
    }
}
