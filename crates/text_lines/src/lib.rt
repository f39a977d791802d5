//! Lines of text, and numbers as they are printed.
#![tactic(auto)]

mod laws;
mod lines;
mod numbers;

pub use laws::numbers_are_read_as_printed;
pub use lines::{behind, first_line, parted, words_of};
pub use numbers::{integer_of, natural_of, number_of};
