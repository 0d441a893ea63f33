//! Numbers among the words of a command line.
ghost use Rattle.std.specs.Prelude.{◌≡◌};
ghost use Rattle.tm_commands.specs.Words.{number_of};

use tm_play::read_digits;

/// The number that a word tells: decimal digits, of at most so much in value.
pub fn read_number(word: &str, most: u32) -> Option<u32>
    ensures { result ≡ number_of most word.now }
{
    if word.is_empty() {
        return None;
    }
    match read_digits(word.as_bytes()) {
        Some(number) if number <= u64::from(most) => Some(number as u32),
        _ => None,
    }
}
