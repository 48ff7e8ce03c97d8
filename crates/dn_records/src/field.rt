/// A field of a record to be written.
#[derive(Clone, Copy, Debug)]
pub enum Field<'a> {
    /// No byte.
    Empty,
    /// A text. It is put in quotes where it has a comma, a quote or an end of line in it.
    Text(&'a str),
    /// A number in decimal digits.
    Number(u128),
    /// An IPv4 address in dotted form, as `10.0.0.1`.
    Address(u32),
}
