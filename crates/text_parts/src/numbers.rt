//! Number words.
ghost use Rattle.std.specs.Prelude.{◌≡◌, ◌≤◌, ◌^◌, MatchOption};
ghost use Rattle.std.specs.List.{list_all};
ghost use Rattle.scan_model.specs.Words.{number_of, is_digit, is_numeral, digits_number};

pub(crate) fn is_digit(b: u8) -> bool
    ensures { result ≡ is_digit b }
{
    b >= b'0' && b <= b'9'
}

fn are_digits(bytes: &[u8]) -> bool
    ensures { result ≡ list_all is_digit bytes.now }
{
    bytes.iter().all(|b| is_digit(*b))
}

fn is_numeral(word: &[u8]) -> bool
    ensures { result ≡ is_numeral word.now }
{
    let [first, rest @ ..] = word else {
        return false;
    };
    if !is_digit(*first) {
        return false;
    }
    if !are_digits(rest) {
        return false;
    }
    *first != b'0' || rest.is_empty()
}

// The number that digits stand for, where it is below 2^32.
fn digits_number(word: &[u8]) -> Option<u32>
    ensures { MatchOption result (2 ^ 32 ≤ digits_number word.now) (λ n. n ≡ digits_number word.now) }
{
    let mut n: u64 = 0;
    for b in word {
        let digit = b.saturating_sub(b'0');
        let next = n * 10 + digit as u64;
        if next > 0xffff_ffff {
            return None;
        }
        n = next;
    }
    Some(n as u32)
}

/// The number that a word stands for, where it is a number word: `0`, or a digit 1 to 9 and further digits, below 2^32.
pub fn number_of(word: &[u8]) -> Option<u32>
    ensures { result ≡ number_of word.now }
{
    if !is_numeral(word) {
        return None;
    }
    digits_number(word)
}
