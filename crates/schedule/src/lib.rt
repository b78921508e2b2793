//! What a sender sends when, apart from what frames and messages hold. A cycle is 33 frames with a gap block behind each of the first
//! 32 (ITU-T G.8312): behind frame 1 a basic message, behind frame 18 the cycle's opportunity, and idles behind the others.
//! Main promise: `Position::item` answers the item that the definition `item_at` gives this place of a sender's life.
#![tactic(auto)]

ghost use Rattle.schedule.specs.Laws.{Schedule};

use message::Mark;

mod position;

pub use position::Position;

/// What stands at a place of a cycle.
#[derive(Clone, Copy, Debug, PartialEq, Eq)]
pub enum Item {
    /// A frame.
    Frame,
    /// A gap block that is always an idle.
    Idle,
    /// The basic message, with the mark that says which opportunity the cycle has.
    Basic(Mark),
    /// A protection opportunity: the next block of a waiting APS message, or an idle.
    Protection,
    /// A low priority opportunity for a block of the CV message, 0 to 16.
    Verification(u8),
    /// The low priority opportunity for the CS message.
    ClientSignal,
    /// A low priority opportunity for a block of a waiting delay message, 0 to 12, or an idle.
    Delay(u8),
    /// A low priority opportunity that is not used: an idle.
    Spare,
}

/// Which items a sender's life has: a frame at every even place of a cycle, the opportunities in turn, and how many there are of each.
#[tactic(auto, using(crate::proofs::Counts::schedule))]
pub fn schedule_holds()
    ensures { Schedule }
{}
