ghost use Rattle.std.specs.Prelude.{◌≡◌, ◌<◌, ◌↔◌, false, IsTrue, EachIndex, slice_index};
ghost use Rattle.std.specs.Char.{digit_char};
ghost use Rattle.text.specs.Texts.{Reads, IsDigit, Unhexed, UnhexedArray};

// The value of a lower-case hexadecimal digit. The library's `to_digit` takes upper case too.
fn nibble(b: u8) -> Option<u8>
    ensures { Reads (λ d. d < 16) digit_char b result }
{
    match b {
        b'0'..=b'9' => Some(b - b'0'),
        b'a'..=b'f' => Some(b - b'a' + 10),
        _ => None,
    }
}

// Whether the bytes are lower-case hexadecimal digits and no others.
fn are_digits(text: &[u8]) -> bool
    ensures { IsTrue result ↔ EachIndex text.now (λ k. IsDigit (slice_index text.now k)) }
{
    text.iter().all(|b| nibble(*b).is_some())
}

// Reads bytes in hexadecimal digits, as many as there is room for. False where the text is not just those, and the buffer is then
// as it was.
pub fn bytes_of(text: &[u8], out: &mut [u8]) -> bool
    ensures reads { Unhexed text.now out.new result }
    ensures kept { result ≡ false → out.new ≡ out.old }
{
    if text.len() != 2 * out.len() || !are_digits(text) {
        return false;
    }
    for (i, b) in out.iter_mut().enumerate() {
        let high = nibble(text[2 * i]).unwrap();
        let low = nibble(text[2 * i + 1]).unwrap();
        *b = high * 16 + low;
    }
    true
}

// The N bytes that a text writes in hexadecimal digits, where it is just those.
pub fn array_of<const N: usize>(text: &[u8]) -> Option<[u8; N]>
    ensures { UnhexedArray N text.now result }
{
    let mut out = [0; N];
    bytes_of(text, &mut out).then_some(out)
}
