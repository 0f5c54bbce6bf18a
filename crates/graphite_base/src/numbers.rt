//! Numbers as they are written: canonical decimals.
ghost use Rattle.std.specs.Prelude.{◌≡◌, ◌≤◌, ◌++◌, length, OnOk, OnErr, decimal};
ghost use Rattle.graphite_base.specs.Numbers.{number_in, has_leading_zero, digits_after};

use graphite_time::NoMemory;
use itoa::Buffer;

/// The number that a canonical decimal writes: digits only, at least one, and no leading zero but in
/// `0` itself. `None` exactly where the field is no canonical decimal, or its value is above `max`.
/// It takes no memory.
pub fn number_of(field: &[u8], max: u64) -> Option<u64>
    ensures { result ≡ number_in max field.now }
{
    if field.is_empty() || has_leading_zero(field) {
        return None;
    }
    value_of_digits(field, max)
}

fn has_leading_zero(field: &[u8]) -> bool
    ensures { result ≡ has_leading_zero field.now }
{
    matches!(field, [b'0', _, ..])
}

// The most digits whose value always fits in 64 bits.
const DIGITS_THAT_FIT: usize = 19;

// The value of digits that may begin with zeros.
fn value_of_digits(field: &[u8], max: u64) -> Option<u64>
    ensures { result ≡ digits_after max 0 field.now }
{
    if field.len() > DIGITS_THAT_FIT {
        return value_of_many_digits(field, max);
    }
    value_of_few_digits(field, max)
}

// Few digits always fit, so no step has to be checked.
fn value_of_few_digits(field: &[u8], max: u64) -> Option<u64>
    requires { length field.now ≤ DIGITS_THAT_FIT }
    ensures { result ≡ digits_after max 0 field.now }
{
    let mut value: u64 = 0;
    for byte in field {
        if !byte.is_ascii_digit() {
            return None;
        }
        value = value * 10 + u64::from(*byte - b'0');
    }
    if value <= max { Some(value) } else { None }
}

fn value_of_many_digits(field: &[u8], max: u64) -> Option<u64>
    ensures { result ≡ digits_after max 0 field.now }
{
    let mut value: u64 = 0;
    for byte in field {
        if !byte.is_ascii_digit() {
            return None;
        }
        let shifted = value.checked_mul(10)?;
        value = shifted.checked_add(u64::from(*byte - b'0'))?;
    }
    if value <= max { Some(value) } else { None }
}

/// Appends the decimal text of a number. After `NoMemory` nothing was appended.
pub fn push_number(into: &mut Vec<u8>, value: u128) -> Result<(), NoMemory>
    ensures ok { OnOk result (into.new.items ≡ into.old.items ++ decimal value) }
    ensures err { OnErr result (into.new.items ≡ into.old.items) }
{
    let mut buffer = Buffer::new();
    into.extend_from_slice(buffer.format(value).as_bytes())?;
    Ok(())
}
