//! Tables of cases: texts, the rows that ask of each, and how many rows get the answer that is wanted.
//!
//! A line of a table that begins with `|` is a line of a text, told behind the next blank; a text ends at its first
//! row. Behind it stand its rows, a line each: what is asked, ` => ` and the answer that is wanted. Empty lines and
//! lines that begin with `#` are remarks. A line without ` => ` is a row for which no answer is wanted, so that none is
//! right.
//!
//! Where tables stand one behind the other, the line `== NAME` stands in front of each. A program tells the answer to a
//! row (`Answers`), and `check_tables` does the rest: a table passes where each of its rows does, and rows are told by
//! their lines in the whole input.
//!
//! Where a row spells bytes, `\n`, `\r`, `\t` and `\0` stand for those of their names, `\d`, `\8`, `\e` and `\f` for
//! the bytes 127, 128, 254 and 255, and a `\` before any other sign for that sign.
#![tactic(auto)]

mod answers;
mod escapes;
mod table;
mod tables;
mod tally;
mod words;

pub use answers::{Answers, check_tables};
pub use escapes::{escaped, unescaped};
pub use table::{Case, read_cases, read_table};
pub use words::{number, numbers, split_word};
