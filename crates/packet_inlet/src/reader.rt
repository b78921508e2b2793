//! A reader of one client's packets: it takes the client's blocks out of an inlet and keeps in lent places those not yet read.

ghost use Rattle.std.specs.Prelude.{◌≡◌, ◌-◌, ◌≤◌, [], ◌++◌, length, drop};
ghost use Rattle.packet.specs.Answers.{bytes_of, leaves, read_answer};
ghost use Rattle.packet.specs.Reading.{packet_at};
ghost use Rattle.port.specs.Model.{first_of, rest_of};
ghost use Rattle.port.specs.Runs.{without_first};

use block::Block;
use numbers::ClientNumber;
use port::Inlet;
use refusal::Refusal;

/// Blocks of one client in lent places, of which the first `held` are taken out of an inlet and not yet read.
// no `impl Model`: it would hide the places, as in `queue`
#[derive(Drop)]
pub struct PacketReader<'a> {
    client: ClientNumber,
    places: &'a mut [Block],
    held: usize,
    ghost within: { held ≤ length places.now },
}

impl<'a> PacketReader<'a> {
    ghost use Rattle.packet_inlet.specs.Reader.{ComesBack, blocks_in_reach, blocks_to_read, blocks_used, held_blocks, reader_contents, reader_places};

    /// A reader that holds no block. It reads no packet of more blocks, from the start to the end, than it has places: 252 are
    /// enough for all.
    pub fn new(client: ClientNumber, places: &'a mut [Block]) -> PacketReader<'a>
        ensures { reader_contents result ≡ record { client = client; blocks = []; places = length places.old; lender = places.entry.ghost_name } }
    {
        PacketReader {
            client,
            places,
            held: 0,
        }
    }

    /// The blocks held, which come before all that wait at the inlet.
    pub fn blocks(&self) -> &[Block]
        ensures { result.now ≡ held_blocks self.now }
    {
        let held = self.held;
        &self.places[..held]
    }

    /// Removes the first block held, such as an idle between packets.
    pub fn remove_first(&mut self) -> Option<Block>
        ensures first { result ≡ first_of (held_blocks self.old) }
        ensures contents { reader_contents self.new ≡ record (reader_contents self.old) { blocks = rest_of (held_blocks self.old) } }
    {
        if self.held == 0 {
            return None;
        }
        let first = self.places[0];
        self.remove(1);
        Some(first)
    }

    /// Reads the packet at the front of the client's blocks into the front of the output, and answers its length and the blocks
    /// from its start to its end, which are removed. The client's waiting blocks are taken out of the inlet first, as many as
    /// there are places for; what is not read is held, so that a refusal loses none, and a later call goes on with them.
    pub fn take_packet<I: Inlet>(
        &mut self,
        inlet: &mut I,
        out: &mut [u8],
    ) -> Result<(usize, usize), Refusal>
        ensures answer { result ≡ read_answer (packet_at (blocks_in_reach self.old (I.waiting inlet.old))) (length out.old) }
        ensures output { out.new ≡ leaves result (bytes_of (packet_at (blocks_in_reach self.old (I.waiting inlet.old)))) out.old }
        ensures contents { reader_contents self.new ≡ record (reader_contents self.old) { blocks = drop (blocks_used result) (blocks_in_reach self.old (I.waiting inlet.old)) } }
        ensures left { I.waiting inlet.new ≡ without_first (reader_places self.old - length (held_blocks self.old)) self.old.client (I.waiting inlet.old) }
        ensures none_lost { blocks_to_read self.new (I.waiting inlet.new) ≡ drop (blocks_used result) (blocks_to_read self.old (I.waiting inlet.old)) }
        ensures back { ComesBack (blocks_to_read self.old (I.waiting inlet.old)) (reader_places self.old) out.old result out.new }
    {
        self.fill(inlet);
        let (bytes, used) = packet::read(self.blocks(), out)?;
        self.remove(used);
        Ok((bytes, used))
    }

    // Takes the client's blocks out of the inlet until there is no place for another, or none waits.
    fn fill<I: Inlet>(&mut self, inlet: &mut I)
        ensures contents { reader_contents self.new ≡ record (reader_contents self.old) { blocks = blocks_in_reach self.old (I.waiting inlet.old) } }
        ensures left { I.waiting inlet.new ≡ without_first (reader_places self.old - length (held_blocks self.old)) self.old.client (I.waiting inlet.old) }
    {
        for place in self.held..self.places.len() {
            let Some(block) = inlet.next(self.client) else {
                return;
            };
            // by parts, as in `port::take_blocks`
            let Block { sync, bytes } = block;
            self.places[place] = Block { sync, bytes };
            self.held = place + 1;
        }
    }

    // Removes so many blocks from the front; those behind them move up.
    fn remove(&mut self, count: usize)
        requires { count ≤ length (held_blocks self.old) }
        ensures { reader_contents self.new ≡ record (reader_contents self.old) { blocks = drop count (held_blocks self.old) } }
    {
        let held = self.held;
        self.places.copy_within(count..held, 0);
        self.held = held - count;
    }
}
