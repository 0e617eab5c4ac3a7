// Capital hexadecimal digits, and octets as pairs of them.
ghost use Rattle.std.specs.Prelude.{◌≡◌, true, ◌≤◌, length};
ghost use Rattle.octets.specs.Octets.{splice};
ghost use Rattle.ascii.specs.Digits.{digit_of, digit_value, is_hex, octets_in};

// The capital hexadecimal digit of a number's low four bits.
#[tactic(auto, unfolding(crate::specs::Digits::digit_of))]
pub fn digit(n: u8) -> u8
    ensures { result ≡ digit_of n }
{
    match n % 16 {
        low @ 0..=9 => b'0' + low,
        low => b'A' - 10 + low,
    }
}

// The value of a capital hexadecimal digit: none of any other character.
#[tactic(auto, unfolding(crate::specs::Digits::value_of))]
pub fn value(c: u8) -> Option<u8>
    ensures { result ≡ digit_value c }
{
    match c {
        b'0'..=b'9' => Some(c - b'0'),
        b'A'..=b'F' => Some(c - b'A' + 10),
        _ => None,
    }
}

// Whether a text is pairs of digits.
pub fn is_hex(text: &[u8]) -> bool
    ensures { result ≡ is_hex text.now }
{
    text.len() % 2 == 0 && text.iter().all(|c| value(*c).is_some())
}

// Writes the octets that the pairs of digits are over the front of a buffer.
pub fn decode(text: &[u8], buffer: &mut [u8])
    requires { (is_hex text.now ≡ true) × (length (octets_in text.now) ≤ length buffer.old) }
    ensures { buffer.new ≡ splice buffer.old 0 (octets_in text.now) }
{
    for i in 0..text.len() / 2 {
        // each is a digit, so the 0 is never taken: with `unwrap`, which branches at each, `vectors` took up to 1.8 times as long
        let high = value(text[2 * i]).unwrap_or(0);
        let low = value(text[2 * i + 1]).unwrap_or(0);
        buffer[i] = high * 16 + low;
    }
}
