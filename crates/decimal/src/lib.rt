// Numbers in decimal, digit by digit: by comparing with powers of ten and subtracting them, and with no division or remainder by ten,
// by which std's own printing and itoa find theirs.

#![tactic(auto)]

ghost use Rattle.std.specs.Prelude.{◌≡◌, List, ℕ, ◌+◌, ◌*◌, ◌^◌, ◌<◌, ◌≤◌, length, take};
ghost use Rattle.model.specs.Definitions.Decimal.{DecimalText, DecimalWritten};
ghost use Rattle.decimal.specs.Digits.{most_digits, Width, Share, WritesDecimal};

use std::marker::Model;
use writing::copy;

// The most digits that a number of 64 bits has.
pub const MOST_DIGITS: usize = 20;

// The byte of the digit 0; those of 1 to 9 follow it.
const ZERO: u8 = b'0';

// What a digit counts: at the last place 1, and at each place before it ten times as much.
const POWERS: [u64; MOST_DIGITS] = [
    1,
    10,
    100,
    1000,
    10000,
    100000,
    1000000,
    10000000,
    100000000,
    1000000000,
    10000000000,
    100000000000,
    1000000000000,
    10000000000000,
    100000000000000,
    1000000000000000,
    10000000000000000,
    100000000000000000,
    1000000000000000000,
    10000000000000000000,
];

// A number in decimal: its digits as text, the highest first, in an array that has room for those of any number, since there is no heap.
#[derive(Drop)]
pub struct Text {
    bytes: [u8; MOST_DIGITS],
    count: usize,
}

impl Model for Text {
    ghost Value = { List ℕ };

    ghost view = { λ t. take t.count t.bytes };

    ghost invariant = { λ t. t.count ≤ most_digits };
}

impl Text {
    // The bytes of the digits.
    pub fn digits(&self) -> &[u8]
        ensures { result.now ≡ self.now }
    {
        &self.bytes[..self.count]
    }
}

// A digit, and what is left of a number without what the digit counts.
#[derive(Drop)]
struct Found {
    digit: u8,
    left: u64,
}

// Ten to the power of k.
fn power(k: usize) -> u64
    requires { k < most_digits }
    ensures { result ≡ 10 ^ k }
{
    POWERS[k]
}

// How many digits a number has: one, and one more for each power of ten, 1 aside, that isn't greater.
fn width(n: u64) -> usize
    ensures { Width n result }
{
    for w in 1..MOST_DIGITS {
        if n < power(w) {
            return w;
        }
    }
    MOST_DIGITS
}

// The digit that counts `unit`: how often that can be subtracted, which is less than ten times.
fn find(n: u64, unit: u64) -> Found
    requires { n < 10 * unit }
    ensures { Share n unit result.digit result.left }
{
    let mut digit = 0;
    let mut left = n;
    while let Some(rest) = left.checked_sub(unit) {
        left = rest;
        digit += 1;
    }
    Found { digit, left }
}

// A number in decimal.
pub fn decimal(n: u64) -> Text
    ensures form { DecimalText n result }
    ensures bounded { length result ≤ most_digits }
{
    let count = width(n);
    let mut bytes = [0u8; MOST_DIGITS];
    let mut left = n;
    for i in 0..count {
        let found = find(left, power(count - 1 - i));
        bytes[i] = ZERO + found.digit;
        left = found.left;
    }
    Text { bytes, count }
}

// Writes a number in decimal at an offset of lent bytes.
pub fn put_decimal(out: &mut [u8], at: usize, n: u64) -> usize
    requires { at + most_digits ≤ length out.old }
    ensures { WritesDecimal n out.old out.new at result }
{
    let text = decimal(n);
    let digits = text.digits();
    copy(digits, 0, digits.len(), out, at)
}

// Writes a number in decimal at the start of lent bytes, or nothing where they are too few, and answers how many were written.
pub fn write_decimal(n: u64, out: &mut [u8]) -> usize
    ensures { DecimalWritten n out.old out.new result }
{
    let text = decimal(n);
    let digits = text.digits();
    if out.len() < digits.len() {
        return 0;
    }
    copy(digits, 0, digits.len(), out, 0)
}
