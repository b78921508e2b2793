//! Several blocks or pairs of one client: taken out of an inlet, and moved from an inlet to an outlet.

ghost use Rattle.std.specs.Prelude.{◌≡◌, length};
ghost use Rattle.port.specs.Model.{Put};
ghost use Rattle.port.specs.Pairs.{first_pair, lists_after_pair, lists_left_by};
ghost use Rattle.port.specs.Runs.{FillsBehind, MovesPairs, padded_blocks, without_first};

use crate::{Inlet, Outlet};
use block::{Block, Pair};
use numbers::ClientNumber;
use refusal::Refusal;

// Every call names its client, as the traits fix it: a struct of a store and a client would be made for each call.
/// The client's first two blocks, which are removed, with the filler for one that is missing.
pub fn next_pair<I: Inlet>(inlet: &mut I, client: ClientNumber, filler: Block) -> Pair
    ensures pair { result ≡ first_pair filler (I.waiting inlet.old client) }
    ensures rest { I.waiting inlet.new ≡ lists_after_pair client (I.waiting inlet.old) }
{
    let first = inlet.next(client).unwrap_or(filler);
    let second = inlet.next(client).unwrap_or(filler);
    Pair { first, second }
}

/// Moves the client's first two blocks from the inlet to the outlet, with the filler for one that is missing.
/// Where two places are not free it is refused with `NoFreePlace`, and takes nothing.
pub fn move_pair<I: Inlet, O: Outlet>(
    inlet: &mut I,
    outlet: &mut O,
    client: ClientNumber,
    filler: Block,
) -> Result<(), Refusal>
    ensures from { I.waiting inlet.new ≡ lists_left_by result client (I.waiting inlet.old) }
    ensures to { Put client (first_pair filler (I.waiting inlet.old client)) result (O.holding outlet.old) (O.holding outlet.new) }
{
    if outlet.free(client) < 2 {
        return Err(Refusal::NoFreePlace);
    }
    outlet.put(client, next_pair(inlet, client, filler))
}

/// Moves so many pairs of the client's blocks from the inlet to the outlet, or none, with `NoFreePlace`, where their places
/// are not free.
pub fn move_pairs<I: Inlet, O: Outlet>(
    inlet: &mut I,
    outlet: &mut O,
    client: ClientNumber,
    pairs: usize,
    filler: Block,
) -> Result<(), Refusal>
    ensures moved { MovesPairs client pairs filler result (I.waiting inlet.old) (I.waiting inlet.new) (O.holding outlet.old) (O.holding outlet.new) }
    ensures filled { FillsBehind }
{
    if outlet.free(client) / 2 < pairs {
        return Err(Refusal::NoFreePlace);
    }
    for _ in 0..pairs {
        move_pair(inlet, outlet, client, filler)?;
    }
    Ok(())
}

/// Takes blocks of the client out of the inlet until the output is full, with the filler for those that are missing.
pub fn take_blocks<I: Inlet>(inlet: &mut I, client: ClientNumber, filler: Block, out: &mut [Block])
    ensures blocks { out.new ≡ padded_blocks filler (length out.old) (I.waiting inlet.old client) }
    ensures left { I.waiting inlet.new ≡ without_first (length out.old) client (I.waiting inlet.old) }
{
    for i in 0..out.len() {
        // by parts: copied whole, a block that a call returned takes twice the time
        let Block { sync, bytes } = inlet.next(client).unwrap_or(filler);
        out[i] = Block { sync, bytes };
    }
}
