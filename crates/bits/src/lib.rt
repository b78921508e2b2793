//! Bits in the order of sending, and bytes and numbers written in bits: definitions and their laws, and no code.
//! Main promise: bits and bytes are each made from the other, and the lowest bit of byte 0 is sent first.
#![tactic(auto)]

ghost use Rattle.bits.specs.Bits.{BitsAreNumbered};
ghost use Rattle.bits.specs.ReadBack.{ReadBack};

/// How the bits of bytes are numbered: bit 8 q + r is digit r of byte q.
#[tactic(auto, using(crate::proofs::Places::numbered))]
pub fn numbering_holds()
    ensures { BitsAreNumbered }
{}

/// A number is read back from its bits, and bits are written again by their number, whichever digit stands first.
#[tactic(auto, using(crate::proofs::Values::read_back))]
pub fn numbers_read_back()
    ensures { ReadBack }
{}
