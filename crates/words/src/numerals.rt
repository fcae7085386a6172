// The number that a word says.
ghost use Rattle.std.specs.Prelude.{◌≡◌, ◌^◌, ◌<◌, length, IfSome};
ghost use Rattle.words.specs.Numerals.{value_of, natural_of, digits_from};

// The value of a numeral: an optional minus and then one to ten digits, with no needless 0 and no minus before 0.
pub(crate) fn value_of(word: &[u8]) -> Option<i64>
    ensures { result ≡ value_of word.now }
{
    match word {
        [b'0'] => Some(0),
        [b'-', digits @ ..] => natural_of(digits).map(|n| -(n as i64)),
        digits => natural_of(digits).map(|n| n as i64),
    }
}

// The value of one to ten digits that do not begin with 0.
fn natural_of(digits: &[u8]) -> Option<u64>
    ensures value { result ≡ natural_of digits.now }
    ensures bound { IfSome result (λ n. n < 10 ^ 10) }
{
    match digits {
        [first @ b'1'..=b'9', rest @ ..] if rest.len() < 10 => digits_after(
            u64::from(*first - b'0'),
            rest,
        ),
        _ => None,
    }
}

// The number that a leading digit and up to nine more write.
fn digits_after(first: u64, digits: &[u8]) -> Option<u64>
    requires digit { first < 10 }
    requires few { length digits.now < 10 }
    ensures value { result ≡ digits_from first digits.now }
    ensures bound { IfSome result (λ n. n < 10 ^ 10) }
{
    let mut n = first;
    for digit in digits {
        match *digit as char {
            '0'..='9' => n = n * 10 + u64::from(*digit - b'0'),
            _ => return None,
        }
    }
    Some(n)
}
