//! Configuration lines in the manner of ipfw(8): from a line to a command, and back to its text.
#![tactic(auto)]

mod bandwidth;
mod delay;
mod fault;
mod keywords;
mod kind;
mod limit;
mod line;
mod loss;
mod mask;
mod mask_field;
mod numbers;
mod option_group;
mod options;
mod pieces;
mod print;
mod print_options;
mod read_back;
mod tokens;

pub use fault::LineFault;
pub use line::parse_line;
pub use print::print_command;
pub use read_back::{each_text_reads_back, print_and_parse};
pub use tokens::{
    Lines, NumberFault, Words, address_until, number_until, read_address, read_number,
    read_numeral, split_digits, split_joined,
};
