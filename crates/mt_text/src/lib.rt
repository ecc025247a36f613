//! Texts as lists of bytes, and what stands in them: classes of bytes, numbers, addresses. Each reader is
//! exact by a definition of `specs`, and reads back what the standard form prints (`laws`). Read
//! `specs/Number.antt` first.
#![tactic(auto)]

mod address;
mod byte;
pub mod laws;
mod number;
mod text;

pub use address::{ethernet_address, index_of, ipv4_address};
pub use byte::{begins_name, goes_on_name, is_decimal, is_identifier, is_white_byte};
pub use number::{decimal, decimal_up_to, hexadecimal_of_length, number_up_to};
pub use text::{Text, Texts};

#[cfg(test)]
mod tests;
