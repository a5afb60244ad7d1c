ghost use Rattle.std.specs.Prelude.{◌≡◌, ℕ, ◌<◌, ◌==◌, ◌∷◌, ◌++◌, decimal, position};
ghost use Rattle.text.specs.Texts.{Reads, Filled, Small, Free, Cut, Seven, listed};
ghost use Rattle.std.specs.Option.{option_map};

// The most digits of a numeral.
const MOST_DIGITS: usize = 5;

// The number that the bytes write: one to five digits, with no needless zero in front, which the library's `parse` would take.
pub fn number(bytes: &[u8]) -> Option<u32>
    ensures { Reads Small decimal bytes.now result }
{
    if bytes.is_empty() || bytes.len() > MOST_DIGITS {
        return None;
    }
    if bytes[0] == b'0' && bytes.len() > 1 {
        return None;
    }
    let mut n: u32 = 0;
    for b in bytes {
        if !b.is_ascii_digit() {
            return None;
        }
        n = n * 10 + (*b - b'0') as u32;
    }
    Some(n)
}

// The place of the first comma.
fn comma(bytes: &[u8]) -> Option<usize>
    ensures { result ≡ position (λ b. b == 44) bytes.now }
{
    bytes.iter().position(|b| *b == b',')
}

// What stands before the first comma, and what stands after it.
pub fn cut<'a>(bytes: &'a [u8]) -> Option<(&'a [u8], &'a [u8])>
    ensures { elim result [ None ↦ Free bytes.now | Some p ↦ Free p.0.now × (bytes.now ≡ p.0.now ++ (44 ∷ p.1.now)) ] }
{
    let at = comma(bytes)?;
    Some((&bytes[0..at], &bytes[at + 1..]))
}

// What stands before the first comma, or all where there is none; and what stands after it.
fn first<'a>(bytes: &'a [u8]) -> (&'a [u8], Option<&'a [u8]>)
    ensures { Free result.0.now × Cut bytes.now result.0.now (option_map (λ x. x.now) result.1) }
{
    match cut(bytes) {
        Some((piece, more)) => (piece, Some(more)),
        None => (bytes, None),
    }
}

// The N numbers that the bytes write with commas between them, where the bytes are just those.
fn numbers<const N: usize>(bytes: &[u8]) -> Option<[u32; N]>
    requires { 0 < N }
    ensures { Filled N bytes.now result }
{
    // Longer than N numbers of five digits and their commas: refused before it is looked through.
    if bytes.len() / (MOST_DIGITS + 1) > N {
        return None;
    }
    let mut out = [0; N];
    let mut rest = Some(bytes);
    for n in out.iter_mut() {
        let (piece, more) = first(rest?);
        *n = number(piece)?;
        rest = more;
    }
    match rest {
        Some(_) => None,
        None => Some(out),
    }
}

// The seven numbers of a line, where the line is the text of seven numbers and of nothing else.
pub fn seven(bytes: &[u8]) -> Option<[u32; 7]>
    ensures { Reads Seven listed bytes.now result }
{
    numbers(bytes)
}
