ghost use Rattle.std.specs.Prelude.{◌≡◌, ℕ, ◌+◌, ◌*◌, ◌<◌, ◌≤◌, List, [], ◌∷◌, ◌++◌, length, take, decimal};
ghost use Rattle.std.specs.Char.{digit_char};
ghost use Rattle.text.specs.Texts.{listed, hex};
ghost use Rattle.writer.specs.Writes.{Written};

use std::marker::Model;

// Writes bytes as they are.
pub fn word(out: &mut [u8], at: usize, text: &[u8]) -> usize
    requires { at + length text.now ≤ length out.old }
    ensures { Written out.old at text.now out.new result }
{
    let end = at + text.len();
    out[at..end].copy_from_slice(text);
    end
}

// Writes a number in decimal digits, with no needless zero in front. Printing by `{n}` answers a `Result`, which here cannot fail.
fn number(out: &mut [u8], at: usize, n: u32) -> usize
    requires { at + length (decimal n) ≤ length out.old }
    ensures { Written out.old at (decimal n) out.new result }
{
    if n < 10 {
        out[at] = b'0' + n as u8;
        return at + 1;
    }
    let last = number(out, at, n / 10);
    out[last] = b'0' + (n % 10) as u8;
    last + 1
}

// Writes numbers with commas between them, where the text just fits.
fn list(out: &mut [u8], at: usize, ns: &[u32]) -> usize
    requires { at + length (listed ns.now) ≤ length out.old }
    ensures { Written out.old at (listed ns.now) out.new result }
{
    match ns {
        [] => at,
        [n] => number(out, at, *n),
        [n, more @ ..] => {
            let end = number(out, at, *n);
            out[end] = b',';
            list(out, end + 1, more)
        }
    }
}

// Writes numbers with commas between them, where there is room for ten digits and a comma each.
pub fn numbers(out: &mut [u8], at: usize, ns: &[u32]) -> usize
    requires { at + 11 * length ns.now ≤ length out.old }
    ensures { Written out.old at (listed ns.now) out.new result }
{
    list(out, at, ns)
}

// A lower-case hexadecimal digit. The library's `from_digit` answers an `Option`, which here is never `None`.
fn digit(n: u8) -> u8
    requires { n < 16 }
    ensures { result ≡ digit_char n }
{
    if n < 10 { b'0' + n } else { b'a' + (n - 10) }
}

// Writes bytes in hexadecimal digits, two to a byte. It stays a function of its own in the program, since the compiler turns
// its loop into one on vectors only where it doesn't see that the buffer and the bytes are parts of one struct.
#[inline(never)]
pub fn hexadecimal(out: &mut [u8], at: usize, bytes: &[u8]) -> usize
    requires { at + 2 * length bytes.now ≤ length out.old }
    ensures { Written out.old at (hex bytes.now) out.new result }
{
    for (i, b) in bytes.iter().enumerate() {
        out[at + 2 * i] = digit(*b / 16);
        out[at + 2 * i + 1] = digit(*b % 16);
    }
    at + 2 * bytes.len()
}

// A text that is being written, of at most N bytes: an array and a length, since the library has no heap and stands on no
// other library.
#[derive(Drop)]
pub struct Text<const N: usize> {
    bytes: [u8; N],
    len: usize,
}

// Clauses see its bytes.
impl<const N: usize> Model for Text<N> {
    ghost Value = { List ℕ };

    ghost view = { λ t. take t.len t.bytes };

    ghost invariant = { λ t. t.len ≤ N };
}

impl<const N: usize> Text<N> {
    // No byte yet.
    pub fn new() -> Text<N>
        ensures { result ≡ [] }
    {
        Text {
            bytes: [0; N],
            len: 0,
        }
    }

    // Begins another text.
    pub fn clear(&mut self)
        ensures { self.new ≡ [] }
    {
        self.len = 0;
    }

    // The bytes so far.
    pub fn as_bytes(&self) -> &[u8]
        ensures bytes { result.now ≡ self.now }
        ensures within { length self.now ≤ N }
    {
        // A part of an array of N bytes is taken from the slice of the whole.
        let bytes = &self.bytes[..];
        &bytes[0..self.len]
    }

    // Adds one byte.
    pub fn push(&mut self, b: u8)
        requires { length self.old < N }
        ensures { self.new ≡ self.old ++ (b ∷ []) }
    {
        self.bytes[self.len] = b;
        self.len += 1;
    }

    // Adds bytes as they are.
    pub fn word(&mut self, bytes: &[u8])
        requires { length self.old + length bytes.now ≤ N }
        ensures { self.new ≡ self.old ++ bytes.now }
    {
        self.len = word(&mut self.bytes[..], self.len, bytes);
    }

    // Adds numbers with commas between them, where there is room for ten digits and a comma each.
    pub fn numbers(&mut self, ns: &[u32])
        requires { length self.old + 11 * length ns.now ≤ N }
        ensures { self.new ≡ self.old ++ listed ns.now }
    {
        self.len = numbers(&mut self.bytes[..], self.len, ns);
    }

    // Adds bytes in hexadecimal digits, two to a byte.
    pub fn hexadecimal(&mut self, bytes: &[u8])
        requires { length self.old + 2 * length bytes.now ≤ N }
        ensures { self.new ≡ self.old ++ hex bytes.now }
    {
        self.len = hexadecimal(&mut self.bytes[..], self.len, bytes);
    }
}
