//! Numbers in canonical decimal: `0`, or an optional `-`, a digit `1` to `9`, and digits.
ghost use Rattle.std.specs.Prelude.{◌≡◌, ◌+◌, ◌-◌, ◌*◌, ◌^◌, ◌<◌, true, option_and_then, neg_ℤ, pos};
ghost use Rattle.std.specs.Option.{SomeIff};
ghost use Rattle.std.specs.List.{list_all};
ghost use Rattle.std.specs.Char.{is_ascii_digit};
ghost use Rattle.cl_types.specs.Decimal.{value_of_digits, natural_64, positive, natural, in_signed_64, number, PrintedIsRead, ReadIsPrinted, PrintedIsValue, NaturalPrintedIsRead, NaturalReadIsPrinted};
ghost use Rattle.cl_types.specs.Decimal as decimal;

use crate::Value;

// Whether each byte is a digit.
fn are_digits(bytes: &[u8]) -> bool
    ensures { result ≡ list_all is_ascii_digit bytes.now }
{
    bytes.iter().all(|byte| byte.is_ascii_digit())
}

// Whether the bytes are a digit 1 to 9, and digits.
fn is_positive(bytes: &[u8]) -> bool
    ensures { result ≡ decimal.is_positive bytes.now }
{
    match bytes {
        [] => false,
        [first, rest @ ..] => matches!(first, b'1'..=b'9') && are_digits(rest),
    }
}

// Whether the bytes are `0`, or a digit 1 to 9, and digits.
fn is_canonical(bytes: &[u8]) -> bool
    ensures { result ≡ decimal.is_canonical bytes.now }
{
    bytes == b"0".as_slice() || is_positive(bytes)
}

// The number with one more digit at its end, or `None` where it is not below 2^64.
fn with_digit(number: u64, digit: u8) -> Option<u64>
    requires { is_ascii_digit digit ≡ true }
    ensures { let longer = 10 * number + (digit - 48) in SomeIff result (longer < 2 ^ 64) longer }
{
    number.checked_mul(10)?.checked_add(u64::from(digit - b'0'))
}

// The number that digits write, or `None` where it is not below 2^64.
fn value_of(digits: &[u8]) -> Option<u64>
    requires { list_all is_ascii_digit digits.now ≡ true }
    ensures { let number = value_of_digits digits.now in SomeIff result (number < 2 ^ 64) number }
{
    let mut number: u64 = 0;
    for digit in digits {
        number = with_digit(number, *digit)?;
    }
    Some(number)
}

/// Reads a number without a sign in canonical decimal: `0`, or a digit `1` to `9` and more digits.
/// `None` where the text is not canonical, or the number is not below 2^64.
pub fn natural_of(bytes: &[u8]) -> Option<u64>
    ensures { result ≡ natural_64 bytes.now }
{
    if is_canonical(bytes) {
        value_of(bytes)
    } else {
        None
    }
}

// The number that a digit 1 to 9, and digits write after a `-`.
fn negative_of(bytes: &[u8]) -> Option<i64>
    ensures { result ≡ option_and_then (λ n. in_signed_64 (neg_ℤ (pos n))) (positive bytes.now) }
{
    if is_positive(bytes) {
        0i64.checked_sub_unsigned(value_of(bytes)?)
    } else {
        None
    }
}

// The number that a text without `-` writes.
fn nonnegative_of(bytes: &[u8]) -> Option<i64>
    ensures { result ≡ option_and_then (λ n. in_signed_64 (pos n)) (natural bytes.now) }
{
    if is_canonical(bytes) {
        0i64.checked_add_unsigned(value_of(bytes)?)
    } else {
        None
    }
}

/// Reads a number in canonical decimal. `None` where the text is not canonical, or the number is
/// outside signed 64 bits.
pub fn number_of_text(bytes: &[u8]) -> Option<i64>
    ensures { result ≡ number bytes.now }
{
    let (first, rest) = bytes.split_first()?;
    if *first == b'-' {
        negative_of(rest)
    } else {
        nonnegative_of(bytes)
    }
}

/// Reads the bytes of a value as a number in canonical decimal.
pub fn number_of(value: &Value) -> Option<i64>
    ensures { result ≡ number value.now }
{
    number_of_text(value.bytes())
}

/// A printed number is read as that number, and may stand as a value. A text that is read as a
/// number is that number printed.
pub fn number_and_text_law()
    ensures printed { PrintedIsRead }
    ensures read { ReadIsPrinted }
    ensures value { PrintedIsValue }
{}

/// A printed number below 2^64 is read as that number. A text that is read as a number is that
/// number printed.
pub fn natural_and_text_law()
    ensures printed { NaturalPrintedIsRead }
    ensures read { NaturalReadIsPrinted }
{}
