//! Texts as lines, lines as words, and words as numbers, names, labels and the bytes of blocks. No
//! kind of line stands here.
#![tactic(auto)]

mod cut;
mod data;
mod lines;
mod number;
mod print_data;
mod text;
mod words;

pub use data::read_data;
pub use lines::{Line, Lines};
pub use text::{Text, Word};
pub use words::Words;
