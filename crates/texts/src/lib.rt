//! Texts: the pieces of which they are made, and the numbers, words and lines that are read of them.
#![tactic(auto)]

mod cursor;
mod line_error;
mod lines;
mod number;
mod numbers;
mod rows;
mod words;
mod writing;

pub use cursor::Cursor;
pub use line_error::LineError;
pub use lines::{ReadLines, read_lines};
pub use number::{Number, decimal};
pub use numbers::{digits, put_aligned, put_number, put_spaces, put_text, put_text_and_number};
pub use rows::{NumberText, put_numbers, put_row, texts_up_to};
pub use words::space_in;
pub use writing::Grow;
