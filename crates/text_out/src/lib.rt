//! A text written piece by piece to the front of lent memory: as much of it as fits, and the places behind it stay as they were.
//! No call can fail, and pieces in a row write what their join would; whoever must know that all of it fits counts its bytes.
#![tactic(auto)]

ghost use Rattle.std.specs.Prelude.{◌≤◌, length};

mod calls;

/// The text so far, as the first `len` bytes of the places. Clauses name the fields, since through them the lender learns what its
/// memory holds afterwards.
#[derive(Drop)]
pub struct TextOut<'a> {
    places: &'a mut [u8],
    len: usize,
    ghost within: { len ≤ length places.now },
}
