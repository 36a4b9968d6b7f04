ghost use Rattle.std.specs.Prelude.{◌≡◌, ◌≤◌, ◌<◌, pos, neg_ℤ, drop, MatchOption};
ghost use Rattle.std.specs.Char.{is_ascii_digit};
ghost use Rattle.std.specs.List.{AllPass};
ghost use Rattle.lrc_lex.specs.Decimal.{natural_value, IsNatural, IsNegative};

/// The greatest value of a natural.
pub const NATURAL_LIMIT: u64 = 9_223_372_036_854_775_807;

/// The greatest value behind the `-` of a negative number.
pub const NEGATIVE_LIMIT: u64 = 9_223_372_036_854_775_808;

/// The value of decimal digits; None where it is above the limit.
#[tactic(auto, using(crate::proofs::DecimalLemmas::digit_range, crate::proofs::DecimalLemmas::natural_value_more, crate::proofs::DecimalLemmas::natural_value_take_le))]
pub fn value_of(digits: &[u8], limit: u64) -> Option<u64>
    requires digits { AllPass is_ascii_digit digits.now }
    requires least { 9 ≤ limit }
    requires most { limit ≤ NEGATIVE_LIMIT }
    ensures { MatchOption result (limit < natural_value digits.now) (λ value. (value ≡ natural_value digits.now) × (value ≤ limit)) }
{
    let mut value = 0;
    for byte in digits {
        let digit = u64::from(*byte - b'0');
        if value > (limit - digit) / 10 {
            return None;
        }
        value = 10 * value + digit;
    }
    Some(value)
}

/// The value of a natural's text.
pub fn natural(text: &[u8]) -> i64
    requires { IsNatural text.now }
    ensures { result ≡ pos (natural_value text.now) }
{
    value_of(text, NATURAL_LIMIT).unwrap() as i64
}

/// The value of a negative number's text.
#[tactic(auto, using(crate::proofs::DecimalLemmas::negative_some))]
pub fn negative(text: &[u8]) -> i64
    requires { IsNegative text.now }
    ensures { result ≡ neg_ℤ (pos (natural_value (drop 1 text.now))) }
{
    let magnitude = value_of(&text[1..], NEGATIVE_LIMIT).unwrap();
    if magnitude == 0 {
        0
    } else {
        -1 - (magnitude - 1) as i64
    }
}
