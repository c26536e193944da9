//! Turns the bytes of a token into whole numbers within a given range; it reads nothing itself.
ghost use Rattle.std.specs.Prelude.{◌≡◌, ◌-◌, ◌^◌, min, is_some, IsTrue, option_map, pos, neg_ℤ, IfSome, ◌≤ℤ◌};
ghost use Rattle.gr_text.specs.Numbers.{is_digit, all_digits, digits_value, decimal_value, up_to, natural_in, whole_value, clamped, within, number_in};

use crate::tokens::Token;

fn is_digit(byte: u8) -> bool
    ensures { result ≡ is_digit byte }
{
    b'0' <= byte && byte <= b'9'
}

fn all_digits(bytes: &[u8]) -> bool
    ensures { result ≡ all_digits bytes.now }
{
    bytes.iter().all(|byte| is_digit(*byte))
}

/// The number that the digits write, or the greatest `u64` where it is greater.
fn value_of(digits: &[u8]) -> u64
    requires { IsTrue (all_digits digits.now) }
    ensures { result ≡ min (digits_value digits.now) (2 ^ 64 - 1) }
{
    let mut value: u64 = 0;
    for digit in digits {
        value = value
            .saturating_mul(10)
            .saturating_add((*digit - b'0') as u64);
    }
    value
}

#[tactic(auto, unfolding(crate::specs::Numbers::decimal_value))]
fn decimal(bytes: &[u8]) -> Option<u64>
    ensures { result ≡ option_map (λ n. min n (2 ^ 64 - 1)) (decimal_value bytes.now) }
{
    if bytes.is_empty() {
        return None;
    }
    if !all_digits(bytes) {
        return None;
    }
    Some(value_of(bytes))
}

fn up_to(n: u64, most: u32) -> Option<u32>
    ensures { result ≡ up_to most n }
{
    if n <= u64::from(most) {
        Some(n as u32)
    } else {
        None
    }
}

/// The number that the bytes write in decimal digits, at least one and at most `most_digits`, if it
/// is at most `most`.
#[tactic(auto, unfolding(crate::specs::Numbers::natural_in))]
pub fn natural_of(bytes: &[u8], most_digits: usize, most: u32) -> Option<u32>
    ensures { result ≡ natural_in most_digits most bytes.now }
{
    if bytes.len() > most_digits {
        return None;
    }
    let n = decimal(bytes)?;
    up_to(n, most)
}

fn positive(digits: &[u8]) -> Option<i128>
    ensures { result ≡ option_map (λ n. pos (min n (2 ^ 64 - 1))) (decimal_value digits.now) }
{
    let n = decimal(digits)?;
    Some(n as i128)
}

fn negative(digits: &[u8]) -> Option<i128>
    ensures { result ≡ option_map (λ n. neg_ℤ (pos (min n (2 ^ 64 - 1)))) (decimal_value digits.now) }
{
    let n = decimal(digits)?;
    Some(-(n as i128))
}

/// The value of a whole number, or the nearest that a `u64` or its negative can hold.
fn signed(bytes: &[u8]) -> Option<i128>
    ensures { result ≡ option_map clamped (whole_value bytes.now) }
{
    let Some((first, rest)) = bytes.split_first() else {
        return None;
    };
    if *first == b'-' {
        return negative(rest);
    }
    positive(bytes)
}

/// Whether the bytes write a whole number, of any size.
pub fn is_whole(bytes: &[u8]) -> bool
    ensures { result ≡ is_some (whole_value bytes.now) }
{
    signed(bytes).is_some()
}

fn within(n: i128, low: i64, high: i64) -> Option<i64>
    ensures value { result ≡ within low high n }
    ensures low { IfSome result (λ value. low ≤ℤ value) }
    ensures high { IfSome result (λ value. value ≤ℤ high) }
{
    if low as i128 <= n && n <= high as i128 {
        Some(n as i64)
    } else {
        None
    }
}

/// The whole number that the bytes write, if it lies from `low` to `high`: an optional `-` and one
/// or more decimal digits. Leading zeros are fine, a `+` isn't.
pub fn whole_of(bytes: &[u8], low: i64, high: i64) -> Option<i64>
    ensures value { result ≡ number_in low high bytes.now }
    ensures low { IfSome result (λ value. low ≤ℤ value) }
    ensures high { IfSome result (λ value. value ≤ℤ high) }
{
    let n = signed(bytes)?;
    within(n, low, high)
}

/// The whole number that the token writes, if it lies from `low` to `high`.
pub fn whole(token: &Token, low: i64, high: i64) -> Option<i64>
    ensures { result ≡ number_in low high token.now.text }
{
    whole_of(token.text.bytes(), low, high)
}
