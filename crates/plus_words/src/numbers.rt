//! Numbers in the words of the command line.

ghost use Rattle.std.specs.Prelude.{◌≡◌, ◌≤◌, ◌<◌, ◌^◌, IfSome};
ghost use Rattle.std.specs.Char.{is_ascii_digit};
ghost use Rattle.std.specs.List.{list_all};
ghost use Rattle.plus_words.specs.Numbers.{number_of};

// The word has digits alone.
fn is_digits(word: &str) -> bool
    ensures { result ≡ list_all is_ascii_digit word.now }
{
    word.bytes().all(|byte| byte.is_ascii_digit())
}

/// The number that a word of at most so many digits names, if it lies between these two.
#[tactic(auto, using(crate::proofs::NumberLemmas::no_number))]
pub fn number_of(word: &str, digits: usize, least: u64, most: u64) -> Option<u64>
    requires { 10 ^ digits < 2 ^ 64 }
    ensures number { result ≡ number_of digits least most word.now }
    ensures bounds { IfSome result (λ number. (least ≤ number) × (number ≤ most)) }
{
    // std's `parse` takes a plus sign too.
    if word.len() > digits || !is_digits(word) {
        return None;
    }
    match word.parse::<u64>() {
        Ok(number) if least <= number && number <= most => Some(number),
        _ => None,
    }
}
