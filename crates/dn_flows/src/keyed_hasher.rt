ghost use Rattle.std.specs.Prelude.{◌≡◌, length};
ghost use Rattle.std.specs.Int.{w64, from_le_bytes};
ghost use Rattle.dn_flows.specs.Hashing.{folded, hash_of, with_word, written};

use crate::factors::Factors;
use std::hash::Hasher;

/// A hash of four words, by products of their halves with secret factors.
///
/// It is a secret number plus these products, modulo 2^64, folded by a last factor.
#[derive(Clone, Copy)]
pub struct KeyedHasher {
    pub sum: u64,
    /// The factors of the next word.
    pub first: Factors,
    pub second: Factors,
    pub third: Factors,
    pub fourth: Factors,
    pub last: u64,
}

impl KeyedHasher {
    fn with_word(self, word: u64) -> KeyedHasher
        ensures { result ≡ with_word self word }
    {
        KeyedHasher {
            sum: self.sum.wrapping_add(self.first.product(word)),
            first: self.second,
            second: self.third,
            third: self.fourth,
            fourth: self.first,
            last: self.last,
        }
    }
}

impl Hasher for KeyedHasher {
    ghost write = { written };

    ghost finish = { hash_of };

    fn finish(&self) -> u64 {
        folded(self.sum, self.last)
    }

    /// Takes in a word. Other bytes than those of a word are passed over, and a key writes none.
    #[tactic(auto, unfolding(crate::specs::Hashing::written))]
    fn write(&mut self, bytes: &[u8]) {
        if bytes.len() == 8 {
            *self = self.with_word(word_of(bytes));
        }
    }
}

/// The two halves of the product, joined by xor.
#[tactic(auto, unfolding(crate::specs::Hashing::folded))]
fn folded(a: u64, b: u64) -> u64
    ensures { result ≡ folded a b }
{
    let product = u128::from(a) * u128::from(b);
    (product % (1 << 64)) as u64 ^ (product >> 64) as u64
}

/// Eight bytes as a number, the lowest first.
fn word_of(bytes: &[u8]) -> u64
    requires { length bytes.now ≡ 8 }
    ensures { result ≡ from_le_bytes w64 bytes.now }
{
    u64::from_le_bytes([
        bytes[0], bytes[1], bytes[2], bytes[3], bytes[4], bytes[5], bytes[6], bytes[7],
    ])
}
