//! What is laid into the slots of a frame.

ghost use Rattle.std.specs.Prelude.{◌≡◌, [], true};
ghost use Rattle.calendar.specs.Entries.{entries_of};
ghost use Rattle.numbers.specs.Entries.{entry_of, is_entry};
ghost use Rattle.sending.specs.Laid.{lawful_pair, lists_after_frame, lists_after_slot, pair_for, pairs_for};

use block::{Block, Pair};
use calendar::Calendar;
use numbers::{ClientNumber, SlotNumber};
use port::{Inlet, next_pair};
use under_way::outgoing::Outgoing;

// Fills the slots of the next frame, slot 1 to slot 480.
pub(crate) fn lay<I: Inlet>(calendar: &Calendar, inlet: &mut I, frame: &mut Outgoing)
    requires { frame.old.rest ≡ [] }
    ensures laid { frame.new ≡ record { pairs = pairs_for (entries_of calendar.now) (I.waiting inlet.old); rest = [] } }
    ensures left { I.waiting inlet.new ≡ lists_after_frame (entries_of calendar.now) (I.waiting inlet.old) }
{
    for slot in SlotNumber::all() {
        let pair = pair_for(calendar.client(slot), inlet);
        // never refused: no frame is being sent
        let _ = frame.write_pair(slot, pair);
    }
}

// The pair for a slot, by its client: two error blocks for an empty slot, else the client's first two blocks.
fn pair_for<I: Inlet>(client: Option<ClientNumber>, inlet: &mut I) -> Pair
    requires { is_entry client ≡ true }
    ensures pair { result ≡ pair_for (entry_of client) (I.waiting inlet.old) }
    ensures left { I.waiting inlet.new ≡ lists_after_slot (entry_of client) (I.waiting inlet.old) }
{
    let Some(client) = client else {
        return Pair {
            first: Block::error(),
            second: Block::error(),
        };
    };
    lawful_pair(next_pair(inlet, client, Block::idle()))
}

// The pair, with the error block in the place of an unlawful one.
fn lawful_pair(pair: Pair) -> Pair
    ensures { result ≡ lawful_pair pair }
{
    Pair {
        first: pair.first.lawful_or_error(),
        second: pair.second.lawful_or_error(),
    }
}
