//! A receiver's frame that is whole, read where it lies. In contracts it is the list of its 992 blocks.
ghost use Rattle.std.specs.Prelude.{◌≡◌, ◌-◌, ◌++◌, Some, drop, slice_get, IfOk};
ghost use Rattle.frame.specs.Frames.{carried_by, frame_of};
ghost use Rattle.overhead.specs.Format.{fields_answer};
ghost use Rattle.overhead.specs.Laws.{IsOverhead};
ghost use Rattle.numbers.specs.Range.{IsOneTo480};
ghost use Rattle.whole_frame.specs.Meaning.{overhead_read, pairs_read};

use block::Pair;
use frame::OverheadBytes;
use numbers::SlotNumber;
use overhead::{Overhead, OverheadFault};
use payload::{Payload, read_pair};
use std::marker::Model;

/// A whole frame, borrowed from the one that came.
#[derive(Drop)]
pub struct WholeFrame<'a> {
    overhead: &'a OverheadBytes,
    payload: &'a Payload,
}

impl<'a> Model for WholeFrame<'a> {
    ghost use Rattle.std.specs.Prelude.{◌≡◌, ◌++◌, List, length};
    ghost use Rattle.block.specs.declared.Block.{Block};
    ghost use Rattle.frame.specs.Frames.{frame_of};

    ghost Value = { List Block };

    ghost view = { λ w. frame_of (w.overhead.now ++ w.payload.now) };

    ghost invariant = { λ w. length w.overhead.now ≡ 7 };
}

impl<'a> WholeFrame<'a> {
    // The frame that carries these.
    pub(crate) fn over(overhead: &'a OverheadBytes, payload: &'a Payload) -> WholeFrame<'a>
        ensures { result ≡ frame_of (overhead.now ++ payload.now) }
    {
        WholeFrame { overhead, payload }
    }

    /// What its overhead says, or the first fault in it.
    pub fn overhead(&self) -> Result<Overhead, OverheadFault>
        ensures read { fields_answer result ≡ overhead_read self.now }
        ensures range { IfOk result IsOverhead }
    {
        Overhead::read(self.overhead)
    }

    /// The pair in a slot.
    pub fn pair(&self, slot: SlotNumber) -> Pair
        ensures read { slice_get (pairs_read self.now) (slot - 1) ≡ Some result }
        ensures range { IsOneTo480 slot }
    {
        read_pair(self.payload, slot)
    }

    /// The payload that it carries.
    pub fn payload(&self) -> &'a Payload
        ensures { result.now ≡ drop 7 (carried_by self.now) }
    {
        self.payload
    }
}
