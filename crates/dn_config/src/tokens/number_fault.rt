/// Why a text is not the number that is asked for. A text with both faults has the first.
#[derive(Clone, Copy, Debug, PartialEq, Eq)]
pub enum NumberFault {
    /// The text is no number.
    Shape,
    /// It is a number outside its range.
    Range,
}
