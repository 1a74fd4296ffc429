// Decimal numbers, read digit by digit with a limit.
ghost use Rattle.std.specs.Prelude.{◌≡◌, ◌-◌, length};
ghost use Rattle.text.specs.Texts.{decimal};
ghost use Rattle.text.specs.Inner.Numbers.{is_digit, grown_of, number_of};

// Whether a byte is a digit.
pub fn is_digit(byte: u8) -> bool
    ensures { result ≡ is_digit byte }
{
    matches!(byte, b'0'..=b'9')
}

// What a digit stands for; 0 for a byte below the digits.
pub fn digit_of(byte: u8) -> u32
    ensures { result ≡ byte - 48 }
{
    u32::from(byte.saturating_sub(b'0'))
}

// One digit more. `begun`: a digit stands before it, so value 0 is a leading zero.
// Nothing behind a leading zero, or over the limit.
pub fn grown(begun: bool, value: u32, digit: u32, most: u32) -> Option<u32>
    ensures { result ≡ grown_of begun value digit most }
{
    if begun && value == 0 {
        return None;
    }
    let next = u64::from(value) * 10 + u64::from(digit);
    if next > u64::from(most) {
        return None;
    }
    Some(next as u32)
}

// The number that bytes are in decimal: nothing where they are none, or one over its limit.
pub fn number_of(bytes: &[u8], most: u32) -> Option<u32>
    ensures { result ≡ number_of most bytes.now }
{
    if bytes.is_empty() {
        return None;
    }
    let mut value: u32 = 0;
    for (i, byte) in bytes.iter().enumerate() {
        if !is_digit(*byte) {
            return None;
        }
        value = grown(0 < i, value, digit_of(*byte), most)?;
    }
    Some(value)
}

// How many digits a number has: one, and one more for each power of ten that it reaches. (No turn ends early, so no branch is guessed.)
pub fn width(number: u32) -> usize
    ensures { result ≡ length (decimal number) }
{
    let mut digits = 1;
    let mut power: u64 = 10;
    for i in 1..10usize {
        if power <= u64::from(number) {
            digits += 1;
        }
        power *= 10;
    }
    digits
}
