//! A path message as it is put together from its blocks, one after the other.
//! The end mark must stand on the last block of the kind and on no other, and the whole message must leave the remainder 0.
//! Main promise: `next` answers exactly what the definition `next_outcome` makes of the message so far and the block.
ghost use Rattle.std.specs.Prelude.{◌≡◌, ◌*◌, [], ◌∷◌, IfSome, length, take};
ghost use Rattle.message.specs.Kinds.{block_count_of};
ghost use Rattle.message.specs.declared.Kind.TheVariants.{Basic, TwoDmm};
ghost use Rattle.collector.specs.Content.{IsPart};
ghost use Rattle.collector.specs.Outcomes.{IsSized, empty_message, extended_outcome, next_outcome, tested_outcome, unfinished_of};

use crc::Generator;
use message::{Kind, MessageBlock};
use std::marker::Model;

/// A message of which not all blocks have come. In contracts it is its kind and the value bytes that have come.
#[derive(Clone, Copy, Debug, PartialEq, Eq)]
pub(crate) struct Unfinished {
    kind: Kind,
    // how many blocks have come
    blocks: usize,
    // their values, and zeros; an array of the longest message's size, since there is no heap here
    values: [u8; 34],
}

impl Model for Unfinished {
    ghost use Rattle.std.specs.Prelude.{◌≡◌, ◌*◌, ◌/◌, ◌<◌, length, take};
    ghost use Rattle.message.specs.Kinds.{block_count_of};
    ghost use Rattle.collector.specs.Content.{MessageContent, zero_padded};

    ghost Value = { MessageContent };

    ghost view = { λ u. record { kind = u.kind; values = take (2 * u.blocks) u.values } };

    ghost invariant = { λ u. (u.blocks < block_count_of u.kind) × (u.values ≡ zero_padded (take (2 * u.blocks) u.values)) × (length (take (2 * u.blocks) u.values) ≡ 2 * u.blocks) };

    ghost inverse = { λ c. record { kind = c.kind; blocks = length c.values / 2; values = zero_padded c.values } };

    ghost use Rattle.std.proofs.Common.{sym, ap, ap₂, ◌∙◌, lit<};
    ghost use Rattle.std.proofs.Math.Nat.{mul-div_cancel_left};
    ghost use Rattle.collector.specs.declared.assembly.Unfinished.TheInside.{Inside};

    ghost inverse_ok = { λ u h. ap₂ {C = Inside} (λ b vs. record { kind = u.kind; blocks = b; values = vs }) (ap (λ n. n / 2) h.2 ∙ mul-div_cancel_left u.blocks (lit< tt)) (sym h.1) };
}

/// A whole message. In contracts it is its kind and all its value bytes, the remainder's included.
#[derive(Clone, Copy, Debug, PartialEq, Eq)]
pub struct Message {
    kind: Kind,
    // its values, and zeros; an array of the longest message's size, since there is no heap here
    values: [u8; 34],
}

impl Model for Message {
    ghost use Rattle.std.specs.Prelude.{◌≡◌, ◌*◌, take};
    ghost use Rattle.message.specs.Kinds.{block_count_of};
    ghost use Rattle.collector.specs.Content.{MessageContent, zero_padded};

    ghost Value = { MessageContent };

    ghost view = { λ m. record { kind = m.kind; values = take (2 * block_count_of m.kind) m.values } };

    ghost invariant = { λ m. m.values ≡ zero_padded (take (2 * block_count_of m.kind) m.values) };

    ghost inverse = { λ c. record { kind = c.kind; values = zero_padded c.values } };
}

// What becomes of a message at a block.
#[derive(Clone, Copy, Debug, PartialEq, Eq)]
pub(crate) enum Outcome {
    // The block does not follow what has come, or the end mark does not stand on the last block alone.
    Broken,
    // More blocks are to come.
    Incomplete(Unfinished),
    // All blocks have come, and their bits do not leave the remainder 0.
    Corrupt,
    // All blocks have come, and their bits leave the remainder 0.
    Whole(Message),
}

impl Outcome {
    // What is collected further.
    pub(crate) fn unfinished(&self) -> Option<Unfinished>
        requires { IsSized self.now }
        ensures unfinished { result ≡ unfinished_of self.now }
        ensures part { IfSome result IsPart }
    {
        match self {
            Outcome::Incomplete(unfinished) => Some(*unfinished),
            _ => None,
        }
    }
}

impl Unfinished {
    // A message of which no block has come.
    fn begin(kind: Kind) -> Unfinished
        ensures { result ≡ empty_message kind }
    {
        Unfinished {
            kind,
            blocks: 0,
            values: [0; 34],
        }
    }

    // The message with one more block; the end mark must stand on its last block and on no other.
    #[tactic(auto, using(crate::proofs::Extends::extending))]
    fn extend(self, block: MessageBlock) -> Outcome
        ensures outcome { result ≡ extended_outcome self block }
        ensures sized { IsSized result }
    {
        let kind = self.kind;
        let blocks = self.blocks + 1;
        let mut values = self.values;
        values[2 * self.blocks] = block.first;
        values[2 * self.blocks + 1] = block.second;
        let last = blocks == kind.blocks();
        if block.ends != last {
            return Outcome::Broken;
        }
        if last {
            return Message { kind, values }.test();
        }
        Outcome::Incomplete(Unfinished {
            kind,
            blocks,
            values,
        })
    }
}

impl Message {
    /// A basic message, which has one block.
    pub(crate) fn basic(first: u8, second: u8) -> Message
        ensures { result ≡ record { kind = Basic; values = first ∷ second ∷ [] } }
    {
        let mut values = [0; 34];
        values[0] = first;
        values[1] = second;
        Message {
            kind: Kind::Basic,
            values,
        }
    }

    /// Its kind.
    pub fn kind(&self) -> Kind
        ensures { result ≡ self.now.kind }
    {
        self.kind
    }

    /// Its value bytes, two for each block.
    pub fn values(&self) -> &[u8]
        ensures values { result.now ≡ self.now.values }
        ensures two_a_block { length self.now.values ≡ 2 * block_count_of self.now.kind }
    {
        let count = 2 * self.kind.blocks();
        &self.values[0..count]
    }

    // A message all of whose blocks have come is whole if its bits leave the remainder 0.
    fn test(self) -> Outcome
        ensures { result ≡ tested_outcome self }
    {
        let bits = 16 * self.kind.blocks();
        if Generator::degree_twelve().remainder(&self.values, 0, bits) == 0 {
            Outcome::Whole(self)
        } else {
            Outcome::Corrupt
        }
    }

    // The first eight value bytes of a question of two-way delay: the time at which it was sent.
    pub(crate) fn time(&self) -> [u8; 8]
        requires { self.now.kind ≡ TwoDmm }
        ensures { result ≡ take 8 self.now.values }
    {
        let mut time = [0; 8];
        time.copy_from_slice(&self.values[0..8]);
        time
    }
}

// Takes a block into its collection: it begins a message, or goes on with the one that is collected, if that is of its kind.
pub(crate) fn next(collection: Option<Unfinished>, kind: Kind, block: MessageBlock) -> Outcome
    ensures outcome { result ≡ next_outcome kind collection block }
    ensures sized { IsSized result }
{
    if block.starts {
        return Unfinished::begin(kind).extend(block);
    }
    // by one match, where the kind is tested: with `filter` the test would stand in a closure that borrows the kind
    match collection {
        Some(unfinished) if unfinished.kind == kind => unfinished.extend(block),
        _ => Outcome::Broken,
    }
}
