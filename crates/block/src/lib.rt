//! 66-bit blocks as a 64B/66B coded line carries them (IEEE 802.3 clause 82): two sync bits and eight bytes.
//! A block's class is told by its sync bits and its type, which is byte 0; only an idle is told by all its bytes.
//! Main promise: `class` answers exactly the class that the definition `class_of` gives the block.
#![tactic(auto)]

ghost use Rattle.std.specs.Prelude.{◌≡◌, ◌%◌, ◌<◌, ◌==◌, ◌↔◌, IfSome, IsTrue, position, true};
ghost use Rattle.block.specs.Classes.{class_of, control_class, end_class, end_types, is_end, is_lawful, is_start, lawful_or_error};
ghost use Rattle.block.specs.Fixed.{error_block, idle_block, start_block};
ghost use Rattle.block.specs.Same.{SameDecides, is_same};
ghost use Rattle.block.specs.Syncs.{FirstBitLowest, sync_number, sync_of};
ghost use Rattle.block.specs.Told.{ClassesTold};
ghost use Rattle.std.specs.Cmp.Rules.{comparing};
ghost use Rattle.std.proofs.Common.{rules};

/// The types of the ends, by how many bytes each carries.
pub const END_TYPES: [u8; 8] = [0x87, 0x99, 0xAA, 0xB4, 0xCC, 0xD2, 0xE1, 0xFF];

/// The two sync bits, named by what they say; the first bit sent stands first.
#[repr(u8)]
#[derive(Clone, Copy, Debug, PartialEq, Eq)]
pub enum Sync {
    /// 00
    Zeros,
    /// 10
    Control,
    /// 01
    Data,
    /// 11
    Ones,
}

/// A block as it is sent: its sync bits, then its bytes, byte 0 first.
#[derive(Clone, Copy, Debug, Eq)]
pub struct Block {
    /// The two bits before the bytes.
    pub sync: Sync,
    /// Byte 0 is a control block's type.
    pub bytes: [u8; 8],
}

// Written out, since a derived `==` has no clause by which it decides whether two blocks are the same.
impl PartialEq for Block {
    ghost eq = { is_same };

    ghost laws = { Prim.search (comparing, rules) };

    fn eq(&self, other: &Block) -> bool
        ensures eq { result ≡ is_same self.now other.now }
        ensures exact { IsTrue result ↔ (self.now ≡ other.now) }
        ensures law { SameDecides }
    {
        self.sync == other.sync && self.bytes == other.bytes
    }
}

// That its blocks are whole, which their types say, is a clause of what reads or writes a pair and no ghost field: that would be owed
// wherever a byte of a block is written.
/// Two blocks, which a slot of a frame holds, and which stores take together; the first is sent first.
#[derive(Clone, Copy, Debug, PartialEq, Eq)]
pub struct Pair {
    /// The block that is sent first.
    pub first: Block,
    /// The block that is sent second.
    pub second: Block,
}

/// What a block is; an end says how many bytes it carries.
#[derive(Clone, Copy, Debug, PartialEq, Eq)]
pub enum Class {
    Data,
    Idle,
    /// Control characters other than an idle's.
    Characters,
    OrderedSet,
    Start,
    End(u8),
    Unlawful,
}

impl Sync {
    // Not `From<Sync> for u8`, since a caller would not say which end of the number comes first.
    /// The sync bits as a number, the first bit sent the lowest.
    pub fn bits(self) -> u8
        ensures number { result ≡ sync_number self }
        ensures values { FirstBitLowest }
    {
        match self {
            Sync::Zeros => 0,
            Sync::Control => 1,
            Sync::Data => 2,
            Sync::Ones => 3,
        }
    }

    // Not `From<u8>`, since six of the eight bits are dropped.
    /// The sync bits that the two lowest bits of a number are.
    pub fn from_bits(bits: u8) -> Sync
        ensures sync { result ≡ sync_of bits }
        ensures number { sync_number result ≡ bits % 4 }
    {
        match bits % 4 {
            0 => Sync::Zeros,
            1 => Sync::Control,
            2 => Sync::Data,
            _ => Sync::Ones,
        }
    }
}

impl Block {
    /// The idle block, which carries nothing.
    pub fn idle() -> Block
        ensures { result ≡ idle_block }
    {
        Block {
            sync: Sync::Control,
            bytes: [0x1E, 0, 0, 0, 0, 0, 0, 0],
        }
    }

    /// The block of eight error characters.
    pub fn error() -> Block
        ensures { result ≡ error_block }
    {
        Block {
            sync: Sync::Control,
            bytes: [0x1E, 0x1E, 0x8F, 0xC7, 0xE3, 0xF1, 0x78, 0x3C],
        }
    }

    /// The start block that opens a frame.
    pub fn start() -> Block
        ensures { result ≡ start_block }
    {
        Block {
            sync: Sync::Control,
            bytes: [0x78, 0, 0, 0, 0, 0, 0, 0],
        }
    }

    // Inlined in each caller, so that no call stands between a data block and its sync bits.
    /// What the block is, by its sync bits and its type.
    #[inline(always)]
    pub fn class(&self) -> Class
        ensures { result ≡ class_of self.now }
    {
        match self.sync {
            Sync::Data => Class::Data,
            Sync::Control => control_class(&self.bytes),
            _ => Class::Unlawful,
        }
    }

    /// Is its class another than `Unlawful`?
    pub fn lawful(&self) -> bool
        ensures { result ≡ is_lawful (class_of self.now) }
    {
        !matches!(self.class(), Class::Unlawful)
    }

    /// The block itself, or the error block in place of an unlawful one.
    pub fn lawful_or_error(self) -> Block
        ensures block { result ≡ lawful_or_error self }
        ensures lawful { is_lawful (class_of result) ≡ true }
    {
        if self.lawful() { self } else { Block::error() }
    }

    /// Is it a start?
    pub fn is_start(&self) -> bool
        ensures { result ≡ is_start (class_of self.now) }
    {
        matches!(self.class(), Class::Start)
    }

    /// Is it an end?
    pub fn is_end(&self) -> bool
        ensures { result ≡ is_end (class_of self.now) }
    {
        matches!(self.class(), Class::End(_))
    }
}

// The class of a control block, by its type.
fn control_class(bytes: &[u8; 8]) -> Class
    ensures { result ≡ control_class bytes.now }
{
    match bytes[0] {
        0x1E if *bytes == Block::idle().bytes => Class::Idle,
        0x1E => Class::Characters,
        0x4B => Class::OrderedSet,
        0x78 => Class::Start,
        kind => end_class(kind),
    }
}

// The class of a control block whose type is that of no characters, ordered set or start.
fn end_class(kind: u8) -> Class
    ensures { result ≡ end_class kind }
{
    match end_place(kind) {
        Some(bytes) => Class::End(bytes as u8),
        None => Class::Unlawful,
    }
}

// The place of a type among those of the ends.
fn end_place(kind: u8) -> Option<usize>
    ensures value { result ≡ position (λ end. end == kind) end_types }
    ensures within { IfSome result (λ place. place < 8) }
{
    END_TYPES.iter().position(|end| *end == kind)
}

/// A block has a class exactly if its sync bits and its bytes are those of the class.
pub fn classes_are_told()
    ensures { ClassesTold }
{}

#[cfg(test)]
mod tests {
    use super::*;

    #[test]
    fn classes(rt: HostRuntime) {
        let table = [
            (0x1E, Class::Characters),
            (0x4B, Class::OrderedSet),
            (0x78, Class::Start),
            (0x87, Class::End(0)),
            (0x99, Class::End(1)),
            (0xAA, Class::End(2)),
            (0xB4, Class::End(3)),
            (0xCC, Class::End(4)),
            (0xD2, Class::End(5)),
            (0xE1, Class::End(6)),
            (0xFF, Class::End(7)),
            (0x00, Class::Unlawful),
            (0x33, Class::Unlawful),
        ];
        for (kind, class) in table {
            let bytes = [kind, 1, 2, 3, 4, 5, 6, 7];
            assert_eq!(rt;
                Block {
                    sync: Sync::Control,
                    bytes,
                }
                .class(),
                class
            );
            assert_eq!(rt;
                Block {
                    sync: Sync::Data,
                    bytes,
                }
                .class(),
                Class::Data
            );
            assert!(rt;
                !Block {
                    sync: Sync::Ones,
                    bytes,
                }
                .lawful()
            );
        }
        assert_eq!(rt; Block::idle().class(), Class::Idle);
        assert_eq!(rt; Block::error().class(), Class::Characters);
        assert!(rt; Block::start().is_start());
    }

    #[test]
    fn unlawful_replaced(rt: HostRuntime) {
        let mut block = Block::start();
        assert_eq!(rt; block.lawful_or_error(), block);
        block.bytes[0] = 0x33;
        assert_eq!(rt; block.lawful_or_error(), Block::error());
        block.sync = Sync::Data;
        assert_eq!(rt; block.lawful_or_error(), block);
        block.sync = Sync::Ones;
        assert_eq!(rt; block.lawful_or_error(), Block::error());
    }

    #[test]
    fn sync_bits(rt: HostRuntime) {
        for (sync, bits) in [
            (Sync::Zeros, 0),
            (Sync::Control, 1),
            (Sync::Data, 2),
            (Sync::Ones, 3),
        ] {
            assert_eq!(rt; sync.bits(), bits);
            assert_eq!(rt; Sync::from_bits(bits), sync);
            assert_eq!(rt; Sync::from_bits(bits + 4), sync);
        }
    }
}
