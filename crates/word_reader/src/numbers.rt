//! The numbers in words.
ghost use Rattle.std.specs.Prelude.{◌≡◌, ◌≤◌, IfSome};
ghost use Rattle.gr_text.specs.Numbers.{all_digits, natural_in};
ghost use Rattle.word_reader.specs.Numbers.{most_digits, most_number, number_in};

/// The most digits of a number in words.
pub(crate) const MOST_DIGITS: usize = 20;

/// The number that a word writes, if it is from `least` to `most`.
pub(crate) fn number_in(least: u64, most: u64, word: &str) -> Option<u64>
    ensures number { result ≡ number_in least most word.now }
    ensures range { IfSome result (λ number. (least ≤ number) × (number ≤ most)) }
{
    let number = number_of_word(word)?;
    if least <= number && number <= most {
        Some(number)
    } else {
        None
    }
}

/// The number that a word writes, if it is below 2^64.
pub(crate) fn number_of_word(word: &str) -> Option<u64>
    ensures { result ≡ natural_in most_digits most_number word.now }
{
    if word.len() > MOST_DIGITS {
        return None;
    }
    if !are_digits(word) {
        return None;
    }
    word.parse().ok()
}

fn are_digits(word: &str) -> bool
    ensures { result ≡ all_digits word.now }
{
    word.as_bytes().iter().all(|byte| byte.is_ascii_digit())
}
