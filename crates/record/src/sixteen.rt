// Numbers of 16 bits in bytes, high byte first.
ghost use Rattle.std.specs.Prelude.{◌≡◌, ℕ, ◌+◌, ◌*◌, ◌^◌, ◌<◌, ◌≤◌, ◌++◌, length, take, drop};
ghost use Rattle.block.specs.Blocks.{bytes as bytes_of};
ghost use Rattle.record.specs.Sixteens.{sixteens, field as field_of, twos, signed};

// The number at place k, from 0.
pub fn read_sixteen(bytes: &[u8], k: usize) -> u32
    requires { 2 * k + 2 ≤ length bytes.now }
    ensures value { result ≡ field_of k bytes.now }
    ensures below { result < 2 ^ 16 }
{
    u32::from(u16::from_be_bytes([bytes[2 * k], bytes[2 * k + 1]]))
}

// Writes the number at place k, from 0.
fn write_sixteen(out: &mut [u8], k: usize, n: u32)
    requires { 2 * k + 2 ≤ length out.old }
    ensures { out.new ≡ take (2 * k) out.old ++ (bytes_of 2 n ++ drop (2 * k + 2) out.old) }
{
    let [high, low] = ((n % 65536) as u16).to_be_bytes();
    out[2 * k] = high;
    out[2 * k + 1] = low;
}

// Writes numbers one after another, from the front on.
pub fn write_sixteens(out: &mut [u8], numbers: &[u32])
    requires { 2 * length numbers.now ≤ length out.old }
    ensures { out.new ≡ sixteens numbers.now ++ drop (2 * length numbers.now) out.old }
{
    for (k, n) in numbers.iter().enumerate() {
        write_sixteen(out, k, *n);
    }
}

// Two's complement in 16 bits, of every number: a cast would have to be shown to lose nothing.
pub fn to_twos(n: i32) -> u32
    ensures { result ≡ twos n }
{
    n.rem_euclid(65536) as u32
}

// The signed number that has this two's complement, by the two cases of its definition.
pub fn from_twos(n: u32) -> i32
    requires { n < 2 ^ 16 }
    ensures { result ≡ signed n }
{
    if n < 32768 {
        n as i32
    } else {
        n as i32 - 65536
    }
}
