//! Digits as numbers.
ghost use Rattle.std.specs.Prelude.{◌≡◌, ◌≤◌, ◌<◌, true, IfSome, length};
ghost use Rattle.std.specs.List.{list_all};
ghost use Rattle.std.specs.Char.{is_ascii_digit};
ghost use Rattle.std.specs.Str.Parse.{digits_value};
ghost use Rattle.text_lines.specs.Numerals.{numeral, is_numeral};

/// The number that the bytes write in decimal, if they are 1 to `most` digits; none for any other bytes.
pub fn numeral(most: usize, digits: &[u8]) -> Option<u32>
    requires { most ≤ 6 }
    ensures value { result ≡ numeral most digits.now }
    ensures small { IfSome result (λ n. n < 1_000_000) }
{
    if is_numeral(most, digits) {
        Some(value(digits))
    } else {
        None
    }
}

/// Whether the bytes are 1 to `most` digits.
#[tactic(auto, using(std::proofs::lemmas::Bool::Decides::nat_tests))]
fn is_numeral(most: usize, digits: &[u8]) -> bool
    ensures { result ≡ is_numeral most digits.now }
{
    1 <= digits.len() && digits.len() <= most && are_digits(digits)
}

/// Whether each byte is a digit.
fn are_digits(bytes: &[u8]) -> bool
    ensures { result ≡ list_all is_ascii_digit bytes.now }
{
    bytes.iter().all(|byte| byte.is_ascii_digit())
}

/// The number that at most 6 digits write in decimal.
fn value(digits: &[u8]) -> u32
    requires len { length digits.now ≤ 6 }
    requires digits { list_all is_ascii_digit digits.now ≡ true }
    ensures value { result ≡ digits_value 10 digits.now }
    ensures small { result < 1_000_000 }
{
    let mut value = 0;
    for digit in digits {
        value = value * 10 + (*digit - b'0') as u32;
    }
    value
}
