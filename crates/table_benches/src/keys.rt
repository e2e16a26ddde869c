// Keys of twelve bytes that rise with their numbers.
ghost use Rattle.std.specs.Prelude.{◌≤◌, length};

fn digit(number: u32) -> u8 {
    let digit = (number % 16) as u8;
    if digit < 10 { 48 + digit } else { 87 + digit }
}

/// The key of a number: `term`, and eight hexadecimal digits.
pub fn key_of(number: u32) -> [u8; 12] {
    [
        b't',
        b'e',
        b'r',
        b'm',
        digit(number >> 28),
        digit(number >> 24),
        digit(number >> 20),
        digit(number >> 16),
        digit(number >> 12),
        digit(number >> 8),
        digit(number >> 4),
        digit(number),
    ]
}

/// How many bytes two keys have in common at their front.
pub fn shared(left: &[u8], right: &[u8]) -> usize
    ensures { result ≤ length right.now }
{
    let most = left.len().min(right.len());
    for i in 0..most {
        if left[i] != right[i] {
            return i;
        }
    }
    most
}
