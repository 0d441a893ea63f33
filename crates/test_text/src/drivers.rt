//! Drivers: the blocks or faults of C texts, blocks that fit a design or do not, what drivers answer, and the texts
//! that drivers are printed as.
//!
//! Above the rows stands a specification. A row asks of a source, and is answered by how many blocks it tells, or by
//! why it tells none. Behind `at VALUES goal GOAL:` it is answered by the driver's move at the state with these
//! values, with the processes at 4 and 9, and with process 1 as the last one that moved; and behind `print` by the C
//! text of the blocks, spelled as `case_rows` tells. The sources are:
//!
//! - `text TEXT`, a C text, spelled as `case_rows` tells;
//! - `body TEXT`, the same between the braces of a driver, from line 5 on, and `write TEXT`, the same as the argument
//!   of `t1_write` in a driver that calls it;
//! - `nested N`, a C text whose test opens N parentheses, and `blanks N`, a text of N blanks;
//! - `blocks BLOCK; BLOCK`, the blocks that are spelled (`blocks` alone: none): `if FIRST SECOND TRUTH`, `call TASK
//!   NUMBER, NUMBER`, `leave PROCESS` and `idle`, where a truth is `v0`, `p1`, `!v0` or `!p1`, and a number `v0`,
//!   `p1`, `v0 << 1` or `v0 >> 1`, for variables and locations by their numbers;
//! - `negated N`, a test with a truth that is negated N times, and an idle block;
//! - `wrapping`, a test of a sum that wraps, and `mixed`, a test with an operator of each other sort.

pub mod answers;
mod blocks;
pub mod source;
mod text;
mod worked;

pub use answers::answer_to;
