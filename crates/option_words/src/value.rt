// The values of options.
ghost use Rattle.std.specs.Prelude.{◌≡◌, ◌<◌, ◌≤◌, ◌+◌, ◌-◌, ◌*◌, ◌&&◌, true, length, nat_le, min};
ghost use Rattle.std.specs.List.{list_all};
ghost use Rattle.option_words.specs.Values.{are_decimals, are_digits, has_decimal_form, hundredths_by, hundredths_of, is_digit, is_no, is_up_to_ten, is_within, is_yes, number_of, whole_of, decimals_of};

/// Whether a value says yes.
pub fn is_yes(value: &str) -> bool
    ensures { result ≡ is_yes value.now }
{
    value == "y" || value == "yes" || value == "true"
}

/// Whether a value says no.
pub fn is_no(value: &str) -> bool
    ensures { result ≡ is_no value.now }
{
    value == "n" || value == "no" || value == "false"
}

fn is_digit(c: u8) -> bool
    ensures { result ≡ is_digit c }
{
    b'0' <= c && c <= b'9'
}

fn all_digits(value: &[u8]) -> bool
    ensures { result ≡ list_all is_digit value.now }
{
    value.iter().all(|c| is_digit(*c))
}

fn are_digits(value: &[u8]) -> bool
    ensures { result ≡ are_digits value.now }
{
    1 <= value.len() && value.len() <= 9 && all_digits(value)
}

/// Whether a value is a whole number of at most nine digits, from `low` to `high`.
pub fn is_within(value: &str, low: u64, high: u64) -> bool
    requires { high < 10_000_000 }
    ensures { result ≡ is_within low high value.now }
{
    let digits = value.as_bytes();
    are_digits(digits) && is_between(number_up_to_bound(digits), low, high)
}

fn is_between(number: u64, low: u64, high: u64) -> bool
    ensures { result ≡ (nat_le low number && nat_le number high) }
{
    low <= number && number <= high
}

/// The number that decimal digits write.
pub fn number(digits: &str) -> u32
    requires { number_of digits.now < 10_000_000 }
    ensures { result ≡ number_of digits.now }
{
    number_up_to_bound(digits.as_bytes()) as u32
}

// The number that decimal digits write, or ten millions where it is larger.
fn number_up_to_bound(digits: &[u8]) -> u64
    ensures { result ≡ min (number_of digits.now) 10_000_000 }
{
    let mut number = 0u64;
    for c in digits {
        number = add_digit(number, *c);
    }
    number
}

fn add_digit(number: u64, c: u8) -> u64
    requires { number ≤ 10_000_000 }
    ensures { result ≡ min (10 * number + (c - 48)) 10_000_000 }
{
    (10 * number + u64::from(c.saturating_sub(b'0'))).min(10_000_000)
}

fn are_decimals(digits: &[u8]) -> bool
    ensures { result ≡ are_decimals digits.now }
{
    1 <= digits.len() && digits.len() <= 2 && all_digits(digits)
}

// What stands before the first dot and behind it.
fn around_dot(value: &str) -> (&str, &str)
    ensures whole { result.0.now ≡ whole_of value.now }
    ensures decimals { result.1.now ≡ decimals_of value.now }
{
    match value.split_once('.') {
        Some((whole, decimals)) => (whole, decimals),
        None => (value, ""),
    }
}

fn has_decimal_form(value: &str) -> bool
    ensures { result ≡ has_decimal_form value.now }
{
    let (whole, decimals) = around_dot(value);
    are_digits(whole.as_bytes())
        && (whole.len() == value.len() || are_decimals(decimals.as_bytes()))
}

// The hundredths of a whole number and its decimals, of which one digit counts tenths.
fn hundredths_by(whole: u64, decimals: &str) -> u64
    requires whole { whole ≤ 10_000_000 }
    requires decimals { length decimals.now ≤ 2 }
    ensures { result ≡ hundredths_by whole decimals.now }
{
    let digits = number_up_to_bound(decimals.as_bytes());
    if decimals.len() == 1 {
        100 * whole + 10 * digits
    } else {
        100 * whole + digits
    }
}

// The hundredths of a number, of whose whole part no more than ten millions count.
fn hundredths_up_to_bound(value: &str) -> u64
    requires { has_decimal_form value.now ≡ true }
    ensures { result ≡ hundredths_by (min (number_of (whole_of value.now)) 10_000_000) (decimals_of value.now) }
{
    let (whole, decimals) = around_dot(value);
    hundredths_by(number_up_to_bound(whole.as_bytes()), decimals)
}

/// Whether a value is a number from 0 to 10 of at most two decimals.
pub fn is_up_to_ten(value: &str) -> bool
    ensures { result ≡ is_up_to_ten value.now }
{
    has_decimal_form(value) && hundredths_up_to_bound(value) <= 1000
}

/// The hundredths of such a number.
pub fn hundredths(value: &str) -> u32
    requires { is_up_to_ten value.now ≡ true }
    ensures value { result ≡ hundredths_of value.now }
    ensures bound { result ≤ 1000 }
{
    hundredths_up_to_bound(value) as u32
}
