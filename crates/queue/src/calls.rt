//! The calls of a queue, apart from the struct, whose ghost field may not see the definitions that name it.

ghost use Rattle.std.specs.Prelude.{◌≡◌, ◌<◌, ◌≤◌, ◌==◌, [], length, drop, position, IfSome, Some};
ghost use Rattle.std.specs.List.{remove, slice_get};
ghost use Rattle.queue.specs.Entries.{add_answer, entries_after_add, queue_contents, entries, first_with, free_places, place_count, without_first_with};

use crate::{Keyed, Queue};
use refusal::Refusal;

impl<'a, T: Keyed + Copy> Queue<'a, T> {
    /// A queue without entries.
    pub fn new(places: &'a mut [T]) -> Queue<'a, T>
        ensures { queue_contents result ≡ record { entries = []; places = length places.old; lender = places.entry.ghost_name } }
    {
        Queue { places, len: 0 }
    }

    // The places in use.
    fn in_use(&self) -> &[T]
        ensures { result.now ≡ entries self.now }
    {
        let len = self.len;
        &self.places[..len]
    }

    /// The number of entries.
    pub fn len(&self) -> usize
        ensures value { result ≡ length (entries self.now) }
        ensures within { result ≤ place_count self.now }
    {
        self.in_use().len()
    }

    /// Is no place in use?
    pub fn is_empty(&self) -> bool
        ensures { result ≡ (length (entries self.now) == 0) }
    {
        self.len == 0
    }

    /// The number of places not in use.
    pub fn free(&self) -> usize
        ensures { result ≡ free_places self.now }
    {
        self.places.len() - self.len()
    }

    /// The entry at an index, from 0 for the first.
    pub fn get(&self, index: usize) -> Option<T>
        ensures { result ≡ slice_get (entries self.now) index }
    {
        self.in_use().get(index).copied()
    }

    /// The first entry that has the key, which stays where it is.
    #[tactic(auto, using(crate::proofs::Found::first_none, crate::proofs::Found::first_found))]
    pub fn first_with(&self, key: u16) -> Option<T>
        ensures { result ≡ first_with T.Keyed.key_of key (entries self.now) }
    {
        let index = self.find(key)?;
        self.get(index)
    }

    /// Adds an entry at the end, or refuses it where no place is free.
    pub fn add(&mut self, entry: T) -> Result<(), Refusal>
        ensures answer { result ≡ add_answer (free_places self.old) }
        ensures contents { queue_contents self.new ≡ record (queue_contents self.old) { entries = entries_after_add result (entries self.old) entry } }
    {
        let len = self.len;
        if len == self.places.len() {
            return Err(Refusal::NoFreePlace);
        }
        self.places[len] = entry;
        self.len = len + 1;
        Ok(())
    }

    /// Removes the first entry.
    pub fn remove_first(&mut self) -> Option<T>
        ensures first { result ≡ slice_get (entries self.old) 0 }
        ensures contents { queue_contents self.new ≡ record (queue_contents self.old) { entries = drop 1 (entries self.old) } }
    {
        if self.len == 0 {
            return None;
        }
        Some(self.remove(0))
    }

    /// Removes the first entry that has the key, or none where no entry has it.
    #[tactic(auto, using(crate::proofs::Found::first_none, crate::proofs::Found::rest_none, crate::proofs::Found::first_found, crate::proofs::Found::rest_found))]
    pub fn remove_first_with(&mut self, key: u16) -> Option<T>
        ensures first { result ≡ first_with T.Keyed.key_of key (entries self.old) }
        ensures contents { queue_contents self.new ≡ record (queue_contents self.old) { entries = without_first_with T.Keyed.key_of key (entries self.old) } }
    {
        let index = self.find(key)?;
        Some(self.remove(index))
    }

    // The index of the first entry that has the key.
    fn find(&self, key: u16) -> Option<usize>
        ensures value { result ≡ position (λ x. T.Keyed.key_of x == key) (entries self.now) }
        ensures within { IfSome result (λ i. i < length (entries self.now)) }
    {
        self.in_use().iter().position(|entry| entry.key() == key)
    }

    // Removes the entry at an index; those behind it move up.
    fn remove(&mut self, index: usize) -> T
        requires { index < length (entries self.old) }
        ensures value { Some result ≡ slice_get (entries self.old) index }
        ensures contents { queue_contents self.new ≡ record (queue_contents self.old) { entries = remove (entries self.old) index } }
    {
        let len = self.len;
        let entry = self.places[index];
        self.places.copy_within(index + 1..len, index);
        self.len = len - 1;
        entry
    }
}
