//! Client numbers: a client named by an entry of a calendar, and all clients by rising number.

ghost use Rattle.std.specs.Prelude.{◌≡◌, ◌+◌, ◌<◌, IfOk, IfSome, true};
ghost use Rattle.std.specs.Iterator.{YieldsFirst, item_count};
ghost use Rattle.numbers.specs.Entries.{checked_entry, entry_of, is_entry};
ghost use Rattle.numbers.specs.Range.{IsOneTo480, checked_number, number_at, slots};
ghost use Rattle.numbers.specs.Walk.{numbers_between};

use crate::{LAST, SLOTS};
use refusal::Refusal;
use std::marker::Model;

/// A client's number, 1 to 480.
#[derive(Clone, Copy, Debug, PartialEq, Eq)]
pub struct ClientNumber {
    number: u16,
}

impl Model for ClientNumber {
    ghost use Rattle.std.specs.Prelude.{ℕ};
    ghost use Rattle.numbers.specs.Range.{IsOneTo480};

    ghost Value = { ℕ };

    ghost view = { λ c. c.number };

    ghost invariant = { λ c. IsOneTo480 c.number };

    ghost inverse = { λ n. record { number = n } };
}

impl TryFrom<u16> for ClientNumber {
    type Error = Refusal;

    ghost try_from_gives = { λ n r. r ≡ checked_number n };

    /// Refuses with `OutOfRange` what is no client number.
    fn try_from(number: u16) -> Result<ClientNumber, Refusal>
        ensures value { result ≡ checked_number number }
        ensures range { IfOk result IsOneTo480 }
    {
        match number {
            1..=LAST => Ok(ClientNumber { number }),
            _ => Err(Refusal::OutOfRange),
        }
    }
}

impl ClientNumber {
    /// The number, 1 to 480.
    pub fn number(self) -> u16
        ensures value { result ≡ self }
        ensures range { IsOneTo480 self }
    {
        self.number
    }

    /// All clients, by rising number.
    pub fn all() -> Clients
        ensures { result ≡ numbers_between 1 slots }
    {
        Clients { next: 1 }
    }

    /// The client's place in a table of all clients, from 0.
    pub fn index(self) -> usize
        ensures value { result + 1 ≡ self }
        ensures high { result < slots }
        ensures range { IsOneTo480 self }
    {
        self.number as usize - 1
    }

    /// The client at a place of such a table; none at place 480 and behind.
    pub fn from_index(index: usize) -> Option<ClientNumber>
        ensures value { result ≡ number_at index }
        ensures range { IfSome result IsOneTo480 }
    {
        if index < SLOTS {
            Some(ClientNumber {
                number: index as u16 + 1,
            })
        } else {
            None
        }
    }

    // This and `from_entry` are no `From`, since an `Option` is not a type of this crate.
    /// An entry of a calendar or an overhead as a number: the client's, 0 for none.
    pub fn entry(client: Option<ClientNumber>) -> u16
        ensures value { result ≡ entry_of client }
        ensures range { is_entry client ≡ true }
    {
        client.map_or(0, ClientNumber::number)
    }

    /// The client that such a number names, if any; a number above 480 is refused with `OutOfRange`.
    pub fn from_entry(entry: u16) -> Result<Option<ClientNumber>, Refusal>
        ensures value { result ≡ checked_entry entry }
        ensures range { IfOk result (λ client. is_entry client ≡ true) }
    {
        match entry {
            0 => Ok(None),
            number => ClientNumber::try_from(number).map(Some),
        }
    }
}

/// Clients by rising number, up to the last one.
#[derive(Clone, Debug, Drop)]
pub struct Clients {
    next: u16,
}

impl Model for Clients {
    ghost use Rattle.std.specs.Prelude.{ℕ, ◌≤◌, List};
    ghost use Rattle.numbers.specs.Range.{slots};
    ghost use Rattle.numbers.specs.Walk.{numbers_between};

    ghost Value = { List ℕ };

    ghost view = { λ c. numbers_between c.next slots };

    ghost invariant = { λ c. 1 ≤ c.next };
}

impl Iterator for Clients {
    type Item = ClientNumber;

    ghost next_gives = { YieldsFirst (λ c. c) };

    ghost remaining = { item_count (λ c. c) };

    #[tactic(auto, using(crate::proofs::Walks::numbers_between_next, crate::proofs::Walks::numbers_between_end))]
    fn next(&mut self) -> Option<ClientNumber> {
        if self.next > LAST {
            return None;
        }
        let client = ClientNumber { number: self.next };
        self.next += 1;
        Some(client)
    }
}
