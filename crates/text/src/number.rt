// Numbers in decimal digits: one read from a field of a text, and how many digits one has.
ghost use Rattle.std.specs.Prelude.{◌≡◌, length};
ghost use Rattle.stores.specs.Options.{option_of};
ghost use Rattle.text.specs.Number.{number, with_digit, decimal};

// The most digits of a number.
const MOST_DIGITS: usize = 20;

pub(crate) const ZERO: u8 = b'0';

// The number that `value` and one digit behind it spell.
fn with_digit(value: u64, byte: u8) -> Option<u64>
    ensures { option_of result ≡ with_digit value byte }
{
    let digit = char::from(byte).to_digit(10)?;
    value.checked_mul(10)?.checked_add(u64::from(digit))
}

// Reads a field as a number.
pub fn read_number(field: &[u8]) -> Option<u64>
    ensures { option_of result ≡ number field.now }
{
    if field.is_empty() || MOST_DIGITS < field.len() {
        return None;
    }
    let mut value = 0;
    for byte in field {
        value = with_digit(value, *byte)?;
    }
    Some(value)
}

// The number of n's decimal digits, counted by fours.
pub fn decimal_length(n: u64) -> usize
    ensures { result ≡ length (decimal n) }
{
    match n {
        0..10 => 1,
        10..100 => 2,
        100..1000 => 3,
        1000..10000 => 4,
        _ => 4 + decimal_length(n / 10000),
    }
}
