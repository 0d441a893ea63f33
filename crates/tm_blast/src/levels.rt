//! The levels of the inputs' bits.
ghost use Rattle.std.specs.Prelude.{◌≡◌, ◌↔◌, ◌<◌, All, IsTrue, length};
ghost use Rattle.tm_blast.specs.Bits.{AreLevels};
ghost use Rattle.tm_blast.specs.Numbers.{level_lists};

use tm_term::Terms;

/// Whether each input has one level for each of its bits, and each level is below the number of levels: the test of the
/// condition of `bits`.
pub fn are_levels(terms: &Terms, levels: &[Vec<u32>], count: u32) -> bool
    ensures { IsTrue result ↔ AreLevels terms.now count (level_lists levels.now) }
{
    let inputs = terms.inputs();
    if levels.len() != inputs.len() {
        return false;
    }
    for i in 0..levels.len() {
        let fits = are_of_input(&levels[i], inputs[i], count);
        if !fits {
            return false;
        }
    }
    true
}

// Whether there is one level for each bit of an input, and each is below the number of levels.
fn are_of_input(levels: &[u32], width: u8, count: u32) -> bool
    ensures { IsTrue result ↔ ((length levels.now ≡ width) × All (λ level. level < count) levels.now) }
{
    levels.len() == width as usize && levels.iter().all(|level| *level < count)
}
