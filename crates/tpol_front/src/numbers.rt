//! Numbers as words.

ghost use Rattle.std.specs.Prelude.{◌≡◌, None, Some, if◌then◌else◌};
ghost use Rattle.tpol_front.specs.Numbers.{goes_on, is_numeral, number_from, number_of_word, with_digit};

/// The decimal number below 2^32 that a word is; zeros in front are not allowed.
#[tactic(auto, unfolding(crate::specs::Numbers::number_of_word))]
pub fn number_of_word(word: &str) -> Option<u32>
    ensures { result ≡ number_of_word word.now }
{
    let digits = word.as_bytes();
    if is_numeral(digits) {
        number_of_digits(digits)
    } else {
        None
    }
}

// Whether there is a digit, and no zero in front of another.
fn is_numeral(digits: &[u8]) -> bool
    ensures { result ≡ is_numeral digits.now }
{
    match digits {
        [] => false,
        [_] => true,
        [first, _, ..] => *first != b'0',
    }
}

#[tactic(auto, unfolding(crate::specs::Numbers::number_from))]
fn number_of_digits(digits: &[u8]) -> Option<u32>
    ensures { result ≡ number_from 0 digits.now }
{
    let mut number = 0;
    for digit in digits {
        number = with_digit(number, *digit)?;
    }
    Some(number)
}

// A number with one more digit behind it, where it is one and the number stays below 2^32.
fn with_digit(number: u32, digit: u8) -> Option<u32>
    ensures { result ≡ (if goes_on number digit then Some (with_digit number digit) else None) }
{
    if !digit.is_ascii_digit() {
        return None;
    }
    let longer = u64::from(number) * 10 + u64::from(digit - b'0');
    if longer < 1 << 32 {
        Some(longer as u32)
    } else {
        None
    }
}
