//! The frame that a sender is sending. In contracts it is the pairs in its slots and the blocks that are still to send.
ghost use Rattle.std.specs.Prelude.{◌≡◌, [], drop, replicate, length, slice_get, IsSome, ◌↔◌, IfSome};
ghost use Rattle.block.specs.Whole.{Bytes, WholePair};
ghost use Rattle.numbers.specs.Range.{IsOneTo480, slots};
ghost use Rattle.overhead.specs.Format.{fields_of};
ghost use Rattle.overhead.specs.Laws.{IsOverhead};
ghost use Rattle.payload.specs.Payloads.{pairs_of};
ghost use Rattle.std.specs.Borrow.{sem};
ghost use Rattle.under_way.specs.Leaving.{slots_answer, with_pair};
ghost use Rattle.under_way.specs.Lending.{LendsPayload};
ghost use Rattle.whole_frame.specs.Meaning.{frame_written};

use block::{Block, Pair};
use frame::place::FramePlace;
use frame::{OverheadBytes, block_at};
use numbers::SlotNumber;
use overhead::Overhead;
use payload::{Payload, write_pair};
use std::marker::Model;

/// A frame that leaves block by block; between frames its slots are filled.
#[derive(Drop)]
pub struct Outgoing {
    // how many of the frame's blocks are gone, 992 where none is under way
    gone: usize,
    overhead: OverheadBytes,
    payload: Payload,
}

/// Why a slot is not written.
#[derive(Clone, Copy, Debug, PartialEq, Eq)]
pub enum SlotsRefusal {
    /// Blocks of the frame are still to be sent, which hold what the slots hold.
    StillSending,
}

impl Model for Outgoing {
    ghost use Rattle.std.specs.Prelude.{◌≤◌, ◌++◌, drop};
    ghost use Rattle.frame.specs.Frames.{frame_of};
    ghost use Rattle.payload.specs.Payloads.{pairs_of};
    ghost use Rattle.under_way.specs.Departure.{Departure};

    ghost Value = { Departure };

    ghost view = { λ o. record { pairs = pairs_of o.payload; rest = drop o.gone (frame_of (o.overhead ++ o.payload)) } };

    ghost invariant = { λ o. o.gone ≤ 992 };
}

impl Outgoing {
    /// No frame is under way, and all bits of the slots are zeros.
    pub fn new() -> Outgoing
        ensures { result ≡ (record { pairs = pairs_of (replicate 7920 0); rest = [] }) }
    {
        Outgoing {
            gone: 992,
            overhead: [0; 7],
            payload: [0; 7920],
        }
    }

    /// Writes a pair into a slot of the next frame; refused while a frame is being sent.
    #[tactic(auto, using(crate::proofs::Leavings::sending_answer, crate::proofs::Leavings::sending_kept, crate::proofs::Leavings::free_answer, crate::proofs::Leavings::pair_written, crate::proofs::Leavings::slots_there, payload::proofs::Slots::pairs_length))]
    pub fn write_pair(&mut self, slot: SlotNumber, pair: Pair) -> Result<(), SlotsRefusal>
        ensures answer { result ≡ slots_answer self.old.rest }
        ensures written { self.new ≡ with_pair (slots_answer self.old.rest) slot pair self.old }
        ensures slots { length self.new.pairs ≡ slots }
    {
        if self.gone < 992 {
            return Err(SlotsRefusal::StillSending);
        }
        write_pair(&mut self.payload, slot, pair);
        Ok(())
    }

    /// The payload of the next frame, to be filled; none while a frame is being sent.
    #[tactic(auto, using(crate::proofs::Leavings::lent, crate::proofs::Leavings::none_while, crate::proofs::Leavings::between))]
    pub fn payload_mut(&mut self) -> Option<&mut Payload>
        ensures* writes_back { sem 𝓛 (LendsPayload self.entry result) }
        ensures between { IsSome result ↔ (self.old.rest ≡ []) }
        ensures value { IfSome result (λ p. pairs_of p.now ≡ self.old.pairs) }
    {
        if self.gone != 992 {
            return None;
        }
        Some(&mut self.payload)
    }

    /// Begins the frame that says this and carries what the slots hold; one that is still being sent is given up.
    #[tactic(auto, using(crate::proofs::Leavings::begun))]
    pub fn begin(&mut self, overhead: Overhead)
        ensures begun { self.new ≡ record self.old { rest = frame_written (fields_of overhead) self.old.pairs } }
        ensures range { IsOverhead overhead }
    {
        hold_bytes(&self.payload);
        self.overhead = overhead.write();
        self.gone = 0;
    }

    /// The next block, none where no frame is under way.
    #[tactic(auto, using(crate::proofs::Leavings::none_behind, crate::proofs::Leavings::none_next, crate::proofs::Leavings::none_less))]
    pub fn next(&mut self) -> Option<Block>
        ensures first { result ≡ slice_get self.old.rest 0 }
        ensures rest { self.new ≡ record self.old { rest = drop 1 self.old.rest } }
    {
        let place = FramePlace::behind(self.gone)?;
        self.gone += 1;
        Some(block_at(&self.overhead, &self.payload, place))
    }
}

// Says of a payload what its type says, that each entry is a byte.
fn hold_bytes(payload: &Payload)
    ensures { Bytes payload.now }
{
    let _ = payload[0];
}
