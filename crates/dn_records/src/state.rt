ghost use Rattle.std.specs.Prelude.{◌≡◌, ℕ, true, false, MatchOption};
ghost use Rattle.csv.specs.Machine.{ends_at_end, ends_with, in_field, is_end, start_field, step};
ghost use Rattle.csv.specs.Reading.{default_config};
ghost use Rattle.csv.specs.declared.parser.Terminator.TheVariants as term;
ghost use Rattle.dn_records.specs.Steps.{csv_state, csv_step};

/// Where the bytes of a record have led, as in csv's definition.
#[derive(Clone, Copy)]
pub(crate) enum State {
    StartRecord,
    StartField,
    InField,
    InQuoted,
    AfterQuote,
}

/// What a byte of a record does. It belongs to the field, or not, or ends it or the whole record.
#[derive(Clone, Copy)]
pub(crate) enum Step {
    Skip(State),
    Copy(State),
    EndField,
    EndRecord,
}

/// Whether a byte ends a line.
pub(crate) fn is_line_end(byte: u8) -> bool
    ensures { result ≡ ends_with term.CRLF byte }
{
    byte == b'\r' || byte == b'\n'
}

/// What a byte does within a field without quotes, or behind the quote that ends one.
#[tactic(auto, using(crate::proofs::Steps::comma_step, crate::proofs::Steps::end_step, crate::proofs::Steps::copy_step))]
fn in_field(byte: u8) -> Step
    ensures { in_field default_config byte ≡ csv_step byte result }
{
    if byte == b',' {
        Step::EndField
    } else if is_line_end(byte) {
        Step::EndRecord
    } else {
        Step::Copy(State::InField)
    }
}

/// What the first byte of a field does.
fn start_field(byte: u8) -> Step
    ensures { start_field default_config byte ≡ csv_step byte result }
{
    if byte == b'"' {
        Step::Skip(State::InQuoted)
    } else {
        in_field(byte)
    }
}

impl State {
    /// What a byte does.
    pub(crate) fn step(self, byte: u8) -> Step
        ensures { step default_config (csv_state self) byte ≡ csv_step byte result }
    {
        match self {
            State::StartRecord => {
                if is_line_end(byte) {
                    Step::Skip(State::StartRecord)
                } else {
                    start_field(byte)
                }
            }
            State::StartField => start_field(byte),
            State::InField => in_field(byte),
            State::InQuoted => {
                if byte == b'"' {
                    Step::Skip(State::AfterQuote)
                } else {
                    Step::Copy(State::InQuoted)
                }
            }
            State::AfterQuote => {
                if byte == b'"' {
                    Step::Copy(State::InQuoted)
                } else {
                    in_field(byte)
                }
            }
        }
    }

    /// Whether the end of the text ends a record.
    pub(crate) fn ends_at_end(self) -> bool
        ensures { result ≡ ends_at_end (csv_state self) }
    {
        !matches!(self, State::StartRecord)
    }
}

impl Step {
    /// Where the step leads, unless it ends the record.
    pub(crate) fn leads(self) -> Option<State>
        ensures { (byte : ℕ) → MatchOption result (is_end (csv_step byte self).1 ≡ true)
            (λ state. (is_end (csv_step byte self).1 ≡ false) × (csv_state state ≡ (csv_step byte self).0)) }
    {
        match self {
            Step::Skip(state) | Step::Copy(state) => Some(state),
            Step::EndField => Some(State::StartField),
            Step::EndRecord => None,
        }
    }
}
