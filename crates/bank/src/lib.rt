//! A bank: a store of blocks in lent memory that is cut into areas of equal width, one for each of the first clients.
//! Each area is a ring, so that a call costs the same however full the bank is; a removed block frees its place.
//! Main promise: the bank is an inlet and an outlet, and the list it holds for a client is the list that waits for it.
#![tactic(auto)]

ghost use Rattle.std.specs.Prelude.{◌≡◌, ◌≤◌, length, MatchOption};
ghost use Rattle.port.specs.Model.{Put, empty_with, first_of, lists_after_next, put_answer};
ghost use Rattle.bank.specs.Ring.{place_at};
ghost use Rattle.bank.specs.Lists.{AreaAt, area_count, bank_areas, bank_contents, bank_holding, bank_holding_after_next, bank_holding_after_put, bank_lists, ring_of, width_of};
ghost use Rattle.bank.specs.Whole.{bank_after_next, bank_after_put, new_bank};

use block::{Block, Pair};
use numbers::{ClientNumber, SLOTS};
use port::{Inlet, Outlet, Store};
use refusal::Refusal;

// The blocks of an area: the place of the first, and how many there are.
// no invariant that it fits its area: each write of the array of rings would owe it for all 480
#[derive(Clone, Copy)]
struct Ring {
    first: usize,
    count: usize,
}

impl Ring {
    // The place of the block at an index, in an area of so many places.
    fn place(self, width: usize, index: usize) -> usize
        ensures { result ≡ place_at self.first width index }
    {
        let start = if self.first < width { self.first } else { 0 };
        let behind = width - start;
        if index < behind {
            start + index
        } else {
            index - behind
        }
    }
}

/// Lent memory in areas of `width` places, with the ring of each client's blocks in its area.
#[derive(Drop)]
pub struct Bank<'a> {
    memory: &'a mut [Block],
    width: usize,
    rings: [Ring; SLOTS],
}

impl<'a> Bank<'a> {
    /// A bank that holds nothing, with areas of `width` places.
    pub fn new(memory: &'a mut [Block], width: usize) -> Bank<'a>
        ensures whole { result ≡ new_bank memory.entry width }
        ensures contents { bank_contents result ≡ record { holding = empty_with (width_of width (length memory.old)); areas = area_count width (length memory.old); lender = memory.entry.ghost_name } }
    {
        Bank {
            memory,
            width,
            rings: [Ring { first: 0, count: 0 }; SLOTS],
        }
    }

    /// The number of areas: clients 1 to this number have one.
    pub fn areas(&self) -> usize
        ensures { result ≡ bank_areas self.now }
    {
        self.memory
            .len()
            .checked_div(self.width)
            .unwrap_or(0)
            .min(SLOTS)
    }

    // Where the client's area begins, or none where it has none.
    fn area(&self, client: ClientNumber) -> Option<usize>
        ensures { MatchOption result (width_of self.now.width (length self.now.memory.now) client ≡ 0) (λ start. AreaAt self.now.width (length self.now.memory.now) client start) }
    {
        let places = self.memory.len();
        // in u128: with `checked_mul` a read took six times as long; by `if`, since a closure for `then` reads no plainer
        let end = client.number() as u128 * self.width as u128;
        if end <= places as u128 {
            Some(end as usize - self.width)
        } else {
            None
        }
    }

    // The client's ring.
    fn ring(&self, client: ClientNumber) -> Ring
        ensures value { result ≡ ring_of self.now.rings client }
        ensures range { 1 ≤ client }
    {
        self.rings[client.index()]
    }
}

impl<'a> Inlet for Bank<'a> {
    ghost waiting = { bank_lists };

    fn next(&mut self, client: ClientNumber) -> Option<Block>
        ensures first { result ≡ first_of (bank_lists self.old client) }
        ensures rest { bank_lists self.new ≡ lists_after_next client (bank_lists self.old) }
        ensures contents { bank_contents self.new ≡ record (bank_contents self.old) { holding = bank_holding_after_next client (bank_holding self.old) } }
        ensures whole { self.new ≡ bank_after_next result client self.old }
    {
        let start = self.area(client)?;
        let ring = self.ring(client);
        let count = ring.count.min(self.width);
        if count == 0 {
            return None;
        }
        let block = self.memory[start + ring.place(self.width, 0)];
        self.rings[client.index()] = Ring {
            first: ring.place(self.width, 1),
            count: count - 1,
        };
        Some(block)
    }
}

impl<'a> Outlet for Bank<'a> {
    ghost holding = { bank_holding };

    fn free(&self, client: ClientNumber) -> usize {
        // not by `map_or`, which was tried: a goal of its closure was left open
        let Some(_) = self.area(client) else {
            return 0;
        };
        self.width.saturating_sub(self.ring(client).count)
    }

    fn put(&mut self, client: ClientNumber, pair: Pair) -> Result<(), Refusal>
        ensures answer { result ≡ put_answer ((bank_holding self.old).free client) }
        ensures put { Put client pair result (bank_holding self.old) (bank_holding self.new) }
        ensures contents { bank_contents self.new ≡ record (bank_contents self.old) { holding = bank_holding_after_put result client pair (bank_holding self.old) } }
        ensures whole { self.new ≡ bank_after_put result client pair self.old }
    {
        let start = self.area(client).ok_or(Refusal::NoFreePlace)?;
        let ring = self.ring(client);
        if self.width.saturating_sub(ring.count) < 2 {
            return Err(Refusal::NoFreePlace);
        }
        let p = ring.place(self.width, ring.count);
        let q = ring.place(self.width, ring.count + 1);
        self.memory[start + p] = pair.first;
        self.memory[start + q] = pair.second;
        self.rings[client.index()] = Ring {
            first: ring.first,
            count: ring.count + 2,
        };
        Ok(())
    }
}

impl<'a> Store for Bank<'a> {
    ghost use Rattle.std.proofs.Common.{refl};

    ghost one_list = { λ bank. refl };

    // not one function with `next`, which needs the ring and its count too and would read them a second time
    fn first(&self, client: ClientNumber) -> Option<Block> {
        let start = self.area(client)?;
        let ring = self.ring(client);
        if ring.count.min(self.width) == 0 {
            return None;
        }
        Some(self.memory[start + ring.place(self.width, 0)])
    }
}
