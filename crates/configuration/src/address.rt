//! IP addresses as they are written.

ghost use Rattle.std.specs.Prelude.{◌≡◌, ◌∷◌, [], length, nat_le, MatchOption};
ghost use Rattle.std.specs.Char.{is_ascii_digit};
ghost use Rattle.std.specs.List.{list_all};
ghost use Rattle.configuration.specs.Addresses.{octet_of, four, HasNoDot, SplitsAtDot, HasFewParts, SplitsAtDots, ip_of};

/// The most digits of a number of an address.
const MOST_DIGITS: usize = 3;

/// Whether each byte is a decimal digit.
fn all_digits(word: &[u8]) -> bool
    ensures { result ≡ list_all is_ascii_digit word.now }
{
    word.iter().all(|byte| byte.is_ascii_digit())
}

/// Whether it is no longer than the numbers of an address.
fn is_short(word: &str) -> bool
    ensures { result ≡ nat_le (length word.now) 3 }
{
    word.len() <= MOST_DIGITS
}

/// A number of one to three decimal digits, up to 255.
fn octet_of(word: &str) -> Option<u8>
    ensures { result ≡ octet_of word.now }
{
    if !is_short(word) || !all_digits(word.as_bytes()) {
        return None;
    }
    match word.parse::<u8>() {
        Ok(number) => Some(number),
        Err(_) => None,
    }
}

/// The text before the first dot, and the text behind it.
fn split_dot(text: &str) -> Option<(&str, &str)>
    ensures { MatchOption result (HasNoDot text.now) (λ parts. SplitsAtDot text.now parts.0.now parts.1.now) }
{
    text.split_once('.')
}

/// The text before the first dot, that before the second, that before the third, and all behind it.
fn parts_of(text: &str) -> Option<(&str, &str, &str, &str)>
    ensures { MatchOption result (HasFewParts text.now) (λ parts. SplitsAtDots text.now parts.0.now parts.1.now parts.2.now parts.3.now) }
{
    let (first, rest) = split_dot(text)?;
    let (second, rest) = split_dot(rest)?;
    let (third, rest) = split_dot(rest)?;
    Some((first, second, third, rest))
}

/// Four octets, where each is one.
fn octets_of(first: &str, second: &str, third: &str, fourth: &str) -> Option<[u8; 4]>
    ensures { result ≡ four (octet_of first.now ∷ octet_of second.now ∷ octet_of third.now ∷ octet_of fourth.now ∷ []) }
{
    Some([
        octet_of(first)?,
        octet_of(second)?,
        octet_of(third)?,
        octet_of(fourth)?,
    ])
}

/// The four parts of an IP address: decimal numbers of one to three digits, 0 to 255, with dots between.
#[tactic(auto, using(crate::proofs::Octets::ip_few, crate::proofs::Octets::ip_parts))]
pub fn ip_of(text: &str) -> Option<[u8; 4]>
    ensures { result ≡ ip_of text.now }
{
    let (first, second, third, fourth) = parts_of(text)?;
    octets_of(first, second, third, fourth)
}
