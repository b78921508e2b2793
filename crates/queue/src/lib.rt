//! A first-in first-out list in lent memory, generic over its entries. `Keyed` says of a type of entries which number an entry is found by,
//! so that one can also be taken out of turn; those behind it move up.
//! Main promise: each call's answer and the list of entries after it are those of the definitions in `Entries`.
#![tactic(auto)]

ghost use Rattle.std.specs.Prelude.{◌≡◌, ℕ, ◌≤◌, length};

mod calls;

/// A kind of entry, with the key by which entries are looked for.
pub trait Keyed {
    ghost key_of: { Self → ℕ };

    /// The key by which the entry is looked for; several entries may have the same.
    fn key(&self) -> u16
        ensures { result ≡ key_of self.now };
}

/// Entries in lent places, of which the first `len` are in use.
// a slice with a length beside it and no `Vec`: the memory is the caller's, and a store on it works where there is no heap
// no `impl Model`: it hides the places, and what the lender's memory holds after the loan was then not proved
#[derive(Drop)]
pub struct Queue<'a, T> {
    places: &'a mut [T],
    len: usize,
    ghost within: { len ≤ length places.now },
}
