use crate::factors::Factors;
use crate::hash_key::HashKey;
use crate::keyed_hasher::KeyedHasher;
use std::hash::{BuildHasher, DefaultHasher, Hasher};

/// Makes the hashers of a table, all with the same secret numbers.
#[derive(Clone, Copy)]
pub struct KeyedHash {
    before_words: KeyedHasher,
}

/// The key's secret number of that place, by SipHash-1-3, so that each tells nothing of the others.
fn secret(key: HashKey, place: u64) -> u64 {
    let mut hasher = DefaultHasher::new();
    hasher.write_u128(key.0);
    hasher.write_u64(place);
    hasher.finish()
}

fn factors(key: HashKey, word: u64) -> Factors {
    Factors {
        lower: secret(key, word.wrapping_mul(2)),
        upper: secret(key, word.wrapping_mul(2).wrapping_add(1)),
    }
}

impl KeyedHash {
    /// The hash with this secret.
    pub fn new(key: HashKey) -> KeyedHash {
        KeyedHash {
            before_words: KeyedHasher {
                sum: secret(key, 0),
                first: factors(key, 1),
                second: factors(key, 2),
                third: factors(key, 3),
                fourth: factors(key, 4),
                last: secret(key, 1),
            },
        }
    }
}

impl BuildHasher for KeyedHash {
    type Hasher = KeyedHasher;

    ghost build_hasher = { λ state. state.before_words };

    fn build_hasher(&self) -> KeyedHasher {
        self.before_words
    }
}
