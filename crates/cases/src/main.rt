#![tactic(auto)]
// Executes the mode on messages of many lengths under the bench cipher, and the cases beside the proved ones.
mod table;

use cipher::bench::BenchCipher;
use record::fields::SheetFields;
use record::sheet::Sheet;
use std::io;
use table::cases_stand;
use zcz::{decipher, encipher};

const LENGTHS: [usize; 13] = [
    31, 32, 33, 47, 48, 63, 64, 95, 4128, 4159, 4160, 65536, 65537,
];

// Byte i of the message is 1 + 7 i + 13 (i / 256), modulo 256.
fn fill(m: &mut [u8]) {
    for (i, b) in m.iter_mut().enumerate() {
        *b = ((i % 256 * 7 + i / 256 % 256 * 13 + 1) % 256) as u8;
    }
}

// A sum that tells byte strings apart: FNV-1a of 64 bits.
fn digest(m: &[u8]) -> u64 {
    m.iter().fold(0xcbf2_9ce4_8422_2325, |h: u64, b| {
        (h ^ u64::from(*b)).wrapping_mul(0x100_0000_01b3)
    })
}

fn print_first(rt: &HostRuntime, m: &[u8]) -> io::Result<()> {
    for b in m.iter().take(16) {
        print!(rt; "{b:02x}")?;
    }
    print!(rt; " ")
}

// Enciphers a message and deciphers it again, and prints what each step left.
fn run(rt: &HostRuntime, m: &mut [u8]) -> io::Result<()> {
    let n = m.len();
    fill(m);
    let plain = digest(m);
    let accepted = encipher(&BenchCipher, m).is_ok();
    let sealed = digest(m);
    print!(rt;
        "{n} bytes: {} ",
        if accepted { "accepted" } else { "refused 1" }
    )?;
    print_first(rt, m)?;
    let opened = decipher(&BenchCipher, m).is_ok();
    let same = digest(m) == plain && opened == accepted;
    println!(rt;
        "{sealed:016x} {}",
        if same { "and back" } else { "NOT BACK" }
    )
}

fn run_all(rt: &HostRuntime, m: &mut [u8]) -> io::Result<()> {
    for n in LENGTHS {
        if let Some(first) = m.get_mut(..n) {
            run(rt, first)?;
        }
    }
    Ok(())
}

fn make(rt: &HostRuntime, title: &str, fields: SheetFields) -> io::Result<()> {
    match Sheet::new(fields) {
        Ok(_) => println!(rt; "{title}: made"),
        Err(fault) => {
            let field = fault.field;
            println!(rt; "{title}: refused 8, field {field}")
        }
    }
}

fn sheets(rt: &HostRuntime) -> io::Result<()> {
    let good = SheetFields {
        sensor1: 17,
        sensor2: 18,
        flow: 350,
        returned: 300,
        water: 480,
        room: 210,
        brine: 55,
    };
    make(rt, "a sheet in range", good)?;
    make(
        rt,
        "equal sensors",
        SheetFields {
            sensor2: 17,
            ..good
        },
    )?;
    make(rt, "sensor 0", SheetFields { sensor1: 0, ..good })?;
    make(
        rt,
        "sensor 9999",
        SheetFields {
            sensor1: 9999,
            ..good
        },
    )?;
    make(
        rt,
        "sensor 10000",
        SheetFields {
            sensor1: 10000,
            ..good
        },
    )?;
    make(
        rt,
        "brine 1000",
        SheetFields {
            brine: 1000,
            ..good
        },
    )?;
    make(
        rt,
        "brine 1001",
        SheetFields {
            brine: 1001,
            ..good
        },
    )?;
    make(
        rt,
        "two wrong fields",
        SheetFields {
            room: 1001,
            water: 99999,
            ..good
        },
    )
}

fn main(rt: HostRuntime) -> io::Result<()> {
    let proved = cases_stand();
    println!(rt; "{proved} cases are proved from the definitions")?;
    let mut m = [0u8; 65537];
    run_all(&rt, &mut m)?;
    sheets(&rt)
}
