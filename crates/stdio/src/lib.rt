// What the programs share: reading their input, bytes in a room of their own, hexadecimal digits, and the counts of their cases.
#![tactic(auto)]

mod buffer;
mod digits;
mod read;
mod tally;

pub use buffer::Buffer;
pub use digits::hex_digit;
pub use read::read_full;
pub use tally::Tally;
