// Numbers.
ghost use Rattle.std.specs.Prelude.{◌≡◌, ◌+◌, ◌<◌, ◌≤◌, length};
ghost use Rattle.py_lexeme.specs.Faults.{begins_number};
ghost use Rattle.py_lexeme.specs.Characters.{is_digit};
ghost use Rattle.py_lexeme.specs.Numbers.{has_leading_zero};
ghost use Rattle.py_lexeme.specs.Scan as spec;

use crate::characters::{Class, all_in, behind, char_at, further, is_either, is_in};

/// How many characters at the front are digits of the class with a single `_` between any two.
fn digits(class: Class, cs: &[char]) -> usize
    ensures value { result ≡ spec.digits (spec.is_in class) cs.now }
    ensures within { result ≤ length cs.now }
{
    let mut len = 0;
    let mut rest = cs;
    while let [c, tail @ ..] = rest {
        if !is_in(class, *c) {
            break;
        }
        match tail {
            ['_', after @ ..] if is_in(class, char_at(after, 0)) => {
                len += 2;
                rest = after;
            }
            _ => {
                len += 1;
                rest = tail;
            }
        }
    }
    len
}

#[tactic(auto, using(crate::proofs::Lengths::further_behind))]
fn led(class: Class, cs: &[char]) -> usize
    ensures value { result ≡ spec.led (spec.is_in class) cs.now }
    ensures within { result ≤ length cs.now }
{
    if char_at(cs, 0) == '_' {
        further(1, digits(class, behind(cs, 1)))
    } else {
        digits(class, cs)
    }
}

/// The length of the integer at the front that is written with the letter of its base, or 0.
#[tactic(auto, using(crate::proofs::Lengths::further_behind))]
fn based(letter: char, class: Class, cs: &[char]) -> usize
    requires { letter < 128 }
    ensures value { result ≡ spec.based letter (spec.is_in class) cs.now }
    ensures within { result ≤ length cs.now }
{
    if char_at(cs, 0) == '0' && is_either(letter, char_at(cs, 1)) {
        further(2, led(class, behind(cs, 2)))
    } else {
        0
    }
}

fn suffix(cs: &[char]) -> usize
    ensures value { result ≡ spec.suffix cs.now }
    ensures within { result ≤ length cs.now }
{
    if is_either('j', char_at(cs, 0)) { 1 } else { 0 }
}

#[tactic(auto, using(crate::proofs::Lengths::further_behind))]
fn signed(cs: &[char]) -> usize
    ensures value { result ≡ spec.signed cs.now }
    ensures within { result ≤ length cs.now }
{
    let c = char_at(cs, 0);
    if c == '+' || c == '-' {
        further(1, digits(Class::Digit, behind(cs, 1)))
    } else {
        digits(Class::Digit, cs)
    }
}

#[tactic(auto, using(crate::proofs::Lengths::further_behind))]
fn exponent(cs: &[char]) -> usize
    ensures value { result ≡ spec.exponent cs.now }
    ensures within { result ≤ length cs.now }
{
    if is_either('e', char_at(cs, 0)) {
        further(1, signed(behind(cs, 1)))
    } else {
        0
    }
}

fn fraction(cs: &[char]) -> usize
    ensures value { result ≡ spec.fraction cs.now }
    ensures within { result ≤ length cs.now }
{
    if char_at(cs, 0) == '.' {
        1 + digits(Class::Digit, behind(cs, 1))
    } else {
        0
    }
}

fn after_fraction(cs: &[char]) -> usize
    ensures value { result ≡ spec.after_fraction cs.now }
    ensures within { result ≤ length cs.now }
{
    let power = exponent(cs);
    power + suffix(behind(cs, power))
}

fn after_whole(cs: &[char]) -> usize
    ensures value { result ≡ spec.after_whole cs.now }
    ensures within { result ≤ length cs.now }
{
    let point = fraction(cs);
    point + after_fraction(behind(cs, point))
}

/// The length of the decimal number at the front, or 0.
fn decimal(cs: &[char]) -> usize
    ensures value { result ≡ spec.decimal cs.now }
    ensures within { result ≤ length cs.now }
{
    let whole = digits(Class::Digit, cs);
    let rest = behind(cs, whole);
    if whole == 0 && fraction(rest) < 2 {
        0
    } else {
        whole + after_whole(rest)
    }
}

/// The length of the number at the front, or 0.
pub fn number(cs: &[char]) -> usize
    ensures value { result ≡ spec.number cs.now }
    ensures within { result ≤ length cs.now }
{
    let hexadecimal = based('x', Class::Hexadecimal, cs);
    let octal = based('o', Class::Octal, cs);
    let binary = based('b', Class::Binary, cs);
    let two = hexadecimal.max(octal);
    two.max(binary.max(decimal(cs)))
}

pub fn begins_number(cs: &[char]) -> bool
    ensures { result ≡ begins_number cs.now }
{
    let c = char_at(cs, 0);
    is_in(Class::Digit, c) || (c == '.' && is_in(Class::Digit, char_at(cs, 1)))
}

pub fn has_leading_zero(text: &[char]) -> bool
    ensures { result ≡ has_leading_zero text.now }
{
    char_at(text, 0) == '0' && (all_in(Class::DigitOrBar, text) && !all_in(Class::ZeroOrBar, text))
}
