//! The frame that a receiver is taking. In contracts it is the list of its blocks so far.
ghost use Rattle.std.specs.Prelude.{◌≡◌, ◌≤◌, ◌∷◌, [], length};
ghost use Rattle.block.specs.Classes.{class_of};
ghost use Rattle.block.specs.Fixed.{start_block};
ghost use Rattle.under_way.specs.Coming.{blocks_after, finish_answer, grow_answer, is_data, is_full_end, frame_if_whole};

use crate::whole::WholeFrame;
use block::{Block, Class, Sync};
use frame::place::FramePlace;
use frame::{OverheadBytes, store_block, store_data};
use payload::Payload;
use std::marker::Model;

/// A frame that comes block by block. Of its start block nothing is kept: it counts as the start block that opens each frame.
#[derive(Drop)]
pub struct Incoming {
    // how many of the frame's blocks are here, none outside a frame; a whole word, since a u16 takes 1.2 times as long
    count: usize,
    overhead: OverheadBytes,
    payload: Payload,
}

/// Why a block does not go on with a frame; of both the first.
#[derive(Clone, Copy, Debug, PartialEq, Eq)]
pub enum Misfit {
    /// It is of another class.
    OtherClass,
    /// A block of its class does not stand next.
    OtherPlace,
}

impl Model for Incoming {
    ghost use Rattle.std.specs.Prelude.{◌≤◌, ◌++◌, List, take};
    ghost use Rattle.block.specs.declared.Block.{Block};
    ghost use Rattle.frame.specs.Frames.{frame_of};

    ghost Value = { List Block };

    ghost view = { λ i. take i.count (frame_of (i.overhead ++ i.payload)) };

    ghost invariant = { λ i. i.count ≤ 992 };
}

impl Incoming {
    /// No frame is under way.
    pub fn new() -> Incoming
        ensures { result ≡ [] }
    {
        Incoming {
            count: 0,
            overhead: [0; 7],
            payload: [0; 7920],
        }
    }

    /// How many of the frame's blocks are here, 0 outside a frame and 992 where it is whole.
    #[tactic(auto, using(crate::proofs::Comings::count_is))]
    pub fn count(&self) -> usize
        ensures value { result ≡ length self.now }
        ensures range { result ≤ 992 }
    {
        self.count
    }

    /// Forgets the frame.
    pub fn clear(&mut self)
        ensures { self.new ≡ [] }
    {
        self.count = 0;
    }

    /// Begins a frame with its start block; one that is under way is given up.
    #[tactic(auto, using(crate::proofs::Comings::begun))]
    pub fn begin(&mut self)
        ensures { self.new ≡ start_block ∷ [] }
    {
        self.count = 1;
    }

    /// Takes a data block behind 1 to 990 blocks; refused, all stays.
    #[tactic(auto, using(crate::proofs::Comings::counted, crate::proofs::Comings::other_class, crate::proofs::Comings::other_place, crate::proofs::Comings::fits_next, crate::proofs::Comings::not_grown))]
    pub fn grow(&mut self, block: &Block) -> Result<(), Misfit>
        ensures answer { result ≡ grow_answer self.old block.now }
        ensures blocks { self.new ≡ blocks_after (grow_answer self.old block.now) self.old block.now }
    {
        if !is_data(block) {
            return Err(Misfit::OtherClass);
        }
        let place = self.count + 1;
        if !store_data(block, place, &mut self.overhead, &mut self.payload) {
            return Err(Misfit::OtherPlace);
        }
        self.count = place;
        Ok(())
    }

    /// Takes an end that carries seven bytes behind 991 blocks, which makes the frame whole; refused, all stays.
    #[tactic(auto, using(crate::proofs::Comings::counted, crate::proofs::Comings::no_end, crate::proofs::Comings::too_early, crate::proofs::Comings::ends_next, crate::proofs::Comings::after_refusal))]
    pub fn finish(&mut self, block: &Block) -> Result<(), Misfit>
        ensures answer { result ≡ finish_answer self.old block.now }
        ensures blocks { self.new ≡ blocks_after (finish_answer self.old block.now) self.old block.now }
    {
        if !is_full_end(block) {
            return Err(Misfit::OtherClass);
        }
        if self.count != 991 {
            return Err(Misfit::OtherPlace);
        }
        self.count = 992;
        store_block(
            block,
            FramePlace::last(),
            &mut self.overhead,
            &mut self.payload,
        );
        Ok(())
    }

    /// The frame, if it is whole, to be read where it lies.
    #[tactic(auto, using(crate::proofs::Comings::not_whole))]
    pub fn whole(&self) -> Option<WholeFrame<'_>>
        ensures { result ≡ frame_if_whole self.now }
    {
        if self.count < 992 {
            return None;
        }
        Some(WholeFrame::over(&self.overhead, &self.payload))
    }
}

// Is it a data block? By the sync bits alone, since most blocks are, and a class asks for the type too.
#[tactic(auto, using(crate::proofs::Comings::data_by_sync))]
fn is_data(block: &Block) -> bool
    ensures { result ≡ is_data (class_of block.now) }
{
    matches!(block.sync, Sync::Data)
}

// Is it an end that carries seven bytes?
fn is_full_end(block: &Block) -> bool
    ensures { result ≡ is_full_end (class_of block.now) }
{
    matches!(block.class(), Class::End(7))
}
