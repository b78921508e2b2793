//! Cyclic remainders (CRC) over a field of bits, once for every degree and generator; those of degree 7 and 12 are made here.
//! Main promise: `remainder` is the remainder that the division of the field by the generator over GF(2) leaves (`laws_hold`),
//! and two words of at most 63 bits (degree 7) or 2,047 bits (degree 12) that leave 0 do not differ in just one, two or three bits
//! (`degree_seven`, `degree_twelve`).
#![tactic(auto)]

ghost use Rattle.std.specs.Prelude.{◌≡◌, ℕ, ◌/◌, ◌^◌, ◌<◌};
ghost use Rattle.bits.specs.Bits.{field};
ghost use Rattle.crc.specs.Laws.{Detects, DivisionLaws, IsDetecting, KnownRemainders};
ghost use Rattle.crc.specs.Remainder.{remainder as rest, step};

/// A generator by its terms: the digit of weight 2^k is the coefficient of x^k, and the highest is that of x^degree.
#[derive(Clone, Copy, Debug, PartialEq, Eq)]
pub struct Generator {
    /// Bits of a remainder.
    pub degree: u32,
    /// Bit k is the coefficient of x^k.
    pub terms: u16,
    ghost fits: { degree < 16 },
    ghost highest: { terms / 2 ^ degree ≡ 1 },
}

impl Generator {
    // Two functions, not one over constants: the order of x, which `detects` rests on, is computed for each generator.
    /// x^7 + x^5 + x^4 + x^2 + x + 1: the CRC-7 of the frame overhead; the generator is that of ITU-T G.8312.
    pub fn degree_seven() -> Generator
        ensures degree { result.degree ≡ 7 }
        ensures terms { result.terms ≡ 0xB7 }
        ensures detects { Detects 7 0xB7 63 }
    {
        Generator {
            degree: 7,
            terms: 0xB7,
        }
    }

    /// x^12 + x^11 + x^3 + x^2 + x + 1: the CRC-12 of the path's maintenance messages (ITU-T G.8312, clause 9.3).
    pub fn degree_twelve() -> Generator
        ensures degree { result.degree ≡ 12 }
        ensures terms { result.terms ≡ 0x180F }
        ensures detects { Detects 12 0x180F 2047 }
    {
        Generator {
            degree: 12,
            terms: 0x180F,
        }
    }

    /// The remainder of the field from bit `from` up to bit `to`, without it, of bytes in the order of sending: byte by byte, the
    /// lowest bit of a byte first. What lies behind the last byte is no part of the field, and an empty field leaves 0.
    pub fn remainder(&self, bytes: &[u8], from: usize, to: usize) -> u16
        ensures value { result ≡ rest self.now.degree self.now.terms (field bytes.now from to) }
        ensures below { result < 2 ^ self.now.degree }
    {
        let end = to.min(bytes.len().saturating_mul(8));
        let mut register = 0;
        // `i` numbers bits, which no slice holds: a chain over bytes would have to skip bits within the first and the last byte.
        for i in from..end {
            let bit = (bytes[i / 8] >> (i % 8)) & 1 == 1;
            register = self.advance(register, bit);
        }
        register
    }

    // The remainder of a field, once one more bit stands behind it.
    fn advance(&self, register: u16, bit: bool) -> u16
        requires { register < 2 ^ self.now.degree }
        ensures below { result < 2 ^ self.now.degree }
        ensures value { result ≡ step self.now.degree self.now.terms register bit }
    {
        let high = u16::from(bit) << self.degree;
        let sum = (register << 1) ^ high;
        if sum >> self.degree == 1 {
            sum ^ self.terms
        } else {
            sum
        }
    }
}

/// The remainder is that of the division, and its laws, for every generator.
#[tactic(auto, using(crate::proofs::Division::laws, crate::proofs::Generators::known))]
pub fn laws_hold()
    ensures laws { (w G : ℕ) → G / 2 ^ w ≡ 1 → DivisionLaws w G }
    ensures known { KnownRemainders }
{}

/// Which changes no word hides, for every generator with an even number of terms and constant term 1: up to three bits in words that are
/// not longer than the order of x, and any within as many neighbouring bits as the degree.
pub fn detection_holds()
    ensures { (w G n : ℕ) → IsDetecting w G n → Detects w G n }
{}

#[cfg(test)]
mod tests {
    use super::*;

    // Worked by hand: 101 and 36 zeros; zeros alone; 1100; one bit, in a field that ends behind the last byte; an empty field.
    #[test]
    fn worked_remainders(rt: HostRuntime) {
        let bytes = [0x05, 0, 0, 0, 0];
        assert_eq!(rt; Generator::degree_seven().remainder(&bytes, 0, 39), 0x2B);
        assert_eq!(rt; Generator::degree_seven().remainder(&bytes, 3, 39), 0);
        assert_eq!(rt; Generator::degree_twelve().remainder(&[0x03], 0, 4), 0x78);
        assert_eq!(rt;
            Generator::degree_twelve().remainder(&[0x80], 7, 100),
            0x80F
        );
        assert_eq!(rt; Generator::degree_seven().remainder(&[0x80], 8, 4), 0);
    }
}
