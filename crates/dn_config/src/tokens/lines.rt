ghost use Rattle.std.specs.Prelude.{◌≡◌, ◌≤◌, ◌<◌, ◌+◌, ◌^◌, length, drop};
ghost use Rattle.std.specs.List.{position_or_len};
ghost use Rattle.dn_config.specs.Tokens.Lines.{is_line_feed};

/// Where the first line feed of a text is, or its end.
#[tactic(auto, using(std::proofs::lemmas::List::Sums::position_or_len_is))]
fn line_len(text: &[u8]) -> usize
    ensures value { result ≡ position_or_len is_line_feed text.now }
    ensures within { result ≤ length text.now }
{
    for (i, byte) in text.iter().enumerate() {
        if *byte == b'\n' {
            return i;
        }
    }
    text.len()
}

/// A text without its first byte, if it has one.
fn without_first(text: &[u8]) -> &[u8]
    ensures { result.now ≡ drop 1 text.now }
{
    match text {
        [] => text,
        [_, rest @ ..] => rest,
    }
}

/// The lines of a text that are left.
///
/// Each ends at a line feed; what follows the last line feed is a line too, if it isn't empty. `number` is the number of
/// the next one. The first line of a text has number 1.
#[derive(Clone, Copy, Debug)]
pub struct Lines<'a> {
    pub number: usize,
    pub rest: &'a [u8],
}

impl<'a> Lines<'a> {
    ghost use Rattle.dn_config.specs.Tokens.Taking.{TakesLine};

    /// The lines of a text from its first one on.
    pub fn new(text: &'a [u8]) -> Lines<'a>
        ensures number { result.number ≡ 1 }
        ensures rest { result.rest.now ≡ text.now }
    {
        Lines {
            number: 1,
            rest: text,
        }
    }

    /// The line of this number, without its line feed, and the lines behind it, or None if no line is left.
    pub fn next(&self) -> Option<(&'a [u8], Lines<'a>)>
        requires { self.now.number + length self.now.rest.now < 2 ^ 64 }
        ensures { TakesLine self.now result }
    {
        if self.rest.is_empty() {
            return None;
        }
        let (line, behind) = self.rest.split_at(line_len(self.rest));
        Some((
            line,
            Lines {
                number: self.number + 1,
                rest: without_first(behind),
            },
        ))
    }
}
