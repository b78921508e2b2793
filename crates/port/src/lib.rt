//! Inlets and outlets: the places where clients' blocks come from and go to, as two traits; a store, which is both, is a third.
//! The meaning of each is a list of blocks for each client, which its calls change and its makers show.
//! Main promise: no call for one client changes another client's list, and what several puts add is just the pairs accepted.
#![tactic(auto)]

ghost use Rattle.std.specs.Prelude.{◌≡◌};
ghost use Rattle.port.specs.Model.{Lists, Holding, Put, first_of, lists_after_next, put_answer};

mod chain;
mod runs;

use block::{Block, Pair};
pub use chain::{chain_laws, put_offers};
use numbers::ClientNumber;
use refusal::Refusal;
pub use runs::{move_pair, move_pairs, next_pair, take_blocks};

/// Where a client's blocks wait.
pub trait Inlet {
    // the blocks that wait, for each client
    ghost waiting: { Self → Lists };

    /// The client's first block, which is removed, or none where no block waits.
    fn next(&mut self, client: ClientNumber) -> Option<Block>
        ensures first { result ≡ first_of (waiting self.old client) }
        ensures rest { waiting self.new ≡ lists_after_next client (waiting self.old) };
}

/// Where a client's blocks are put, two at a time.
pub trait Outlet {
    // the blocks held and the places free, for each client
    ghost holding: { Self → Holding };

    /// The client's free places, in blocks.
    fn free(&self, client: ClientNumber) -> usize
        ensures { result ≡ (holding self.now).free client };

    /// Appends the pair to the client's list, or refuses it with `NoFreePlace` where two places are not free.
    fn put(&mut self, client: ClientNumber, pair: Pair) -> Result<(), Refusal>
        ensures answer { result ≡ put_answer ((holding self.old).free client) }
        ensures put { Put client pair result (holding self.old) (holding self.new) };
}

/// An inlet and an outlet in one.
pub trait Store: Inlet + Outlet {
    /// The client's first block, which stays where it is, or none where no block waits.
    fn first(&self, client: ClientNumber) -> Option<Block>
        ensures { result ≡ first_of (Self.Inlet.waiting self.now client) };

    // what it holds for a client is what waits for it
    // a law: it holds of every value and not of those that a call is given alone, which asks more of a maker than a clause of
    // `first` would
    ghost one_list: { (store : Self) → Self.Inlet.waiting store ≡ (Self.Outlet.holding store).held };
}

/// A pair for a client, to be put into an outlet.
#[derive(Clone, Copy, Debug, PartialEq, Eq)]
pub struct Offer {
    /// Whose list it is for.
    pub client: ClientNumber,
    /// The two blocks.
    pub pair: Pair,
}
