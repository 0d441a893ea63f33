//! Structured drivers: the functions or faults of their texts, the shapes of blocks, what structured drivers answer,
//! and the texts that they are printed as.
//!
//! Above the rows stands a specification. A row asks of a source, and is answered by how many functions the structured
//! driver has and how many blocks are made of it, or by why there is none. Behind `at VALUES goal GOAL:` it is answered
//! by the driver's move at the state with these values, as in the table `drivers`; and behind `print` by the driver's
//! text, spelled as `case_rows` tells. The sources are:
//!
//! - `text TEXT`, a structured text, spelled as `case_rows` tells;
//! - `turn TEXT`, the same between the braces of `driver_turn`, from line 5 on;
//! - `nested N`, a text with N tests one inside the other, and `open N`, one whose test opens N parentheses;
//! - `blanks N`, a text of N blanks;
//! - `chain N`, the shape of N tests one behind the other, of which each leads to a call, too, and `doubled N`, of N
//!   tests that lead to the next one by both branches;
//! - any other, the shape of the blocks of this source of the table `drivers`.

mod answers;
mod source;
mod text;

pub use answers::answer_to;
