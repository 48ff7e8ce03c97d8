ghost use Rattle.std.specs.Prelude.{IfSome, ◌<◌, ◌+◌, ◌^◌, ◌≡◌, length, ◌≤◌};
ghost use Rattle.std.specs.List.{prefix_len, position_or_len};
ghost use Rattle.dn_config.specs.Tokens.Words.{is_separator, BeginsWords};

fn is_separator(byte: u8) -> bool
    ensures { result ≡ is_separator byte }
{
    byte == b' ' || byte == b'\t' || byte == b'\r'
}

/// How many separators a text begins with.
#[tactic(auto, using(std::proofs::lemmas::List::Sums::prefix_len_is))]
fn gap_len(text: &[u8]) -> usize
    ensures value { result ≡ prefix_len is_separator text.now }
    ensures within { result ≤ length text.now }
{
    for (i, byte) in text.iter().enumerate() {
        if !is_separator(*byte) {
            return i;
        }
    }
    text.len()
}

/// Where the first separator of a text is, or its end.
#[tactic(auto, using(std::proofs::lemmas::List::Sums::position_or_len_is))]
fn word_len(text: &[u8]) -> usize
    ensures value { result ≡ position_or_len is_separator text.now }
    ensures within { result ≤ length text.now }
{
    for (i, byte) in text.iter().enumerate() {
        if is_separator(*byte) {
            return i;
        }
    }
    text.len()
}

/// The first word of a text, and what follows it.
fn next_word(text: &[u8]) -> Option<(&[u8], &[u8])>
    ensures words { BeginsWords text.now result }
    ensures shorter { IfSome result (λ p. length p.1.now < length text.now) }
{
    let (_, text) = text.split_at(gap_len(text));
    if text.is_empty() {
        return None;
    }
    Some(text.split_at(word_len(text)))
}

/// The words of a text that are left.
///
/// Words are separated by spaces, tabs and carriage returns. `position` is the position of the next one. The first word of
/// a line has position 1.
#[derive(Clone, Copy, Debug)]
pub struct Words<'a> {
    pub position: usize,
    pub rest: &'a [u8],
}

impl<'a> Words<'a> {
    ghost use Rattle.dn_config.specs.Tokens.Taking.{TakesWord};

    /// The words of a text from its first one on.
    pub fn new(text: &'a [u8]) -> Words<'a>
        ensures position { result.position ≡ 1 }
        ensures rest { result.rest.now ≡ text.now }
    {
        Words {
            position: 1,
            rest: text,
        }
    }

    /// The word at this position and the words behind it, or None where no word is left.
    pub fn next(&self) -> Option<(&'a [u8], Words<'a>)>
        requires { self.now.position + length self.now.rest.now < 2 ^ 64 }
        ensures { TakesWord self.now result }
    {
        let (word, rest) = next_word(self.rest)?;
        Some((
            word,
            Words {
                position: self.position + 1,
                rest,
            },
        ))
    }
}
