#![tactic(auto)]
// Takes a commissioning sheet from a line of seven numbers, puts it into a store, gets it again, and reports.
mod intake;
mod refusal;

use block::diblock::Block;
use calls::geometry::Geometry;
use intake::sheet_of;
use page::plain::lay_record;
use record::sheet::Sheet;
use refusal::Refusal;
use skinny::Skinny;
use std::io;
use std::io::{BufRead, BufReader};
use store::store::Store;

const SLOTS: usize = 2;

const PAGE: usize = 64;

const SLOT: usize = 1;

// Sixteen zero bytes.
const KEY: Block = 0;

fn print_numbers(rt: &HostRuntime, title: &str, sheet: &Sheet) -> io::Result<()> {
    let [a, b, c, d, e, f, g] = <[u32; 7]>::from(sheet.fields());
    println!(rt; "{title}{a},{b},{c},{d},{e},{f},{g}")
}

// Prints bytes in hexadecimal, sixteen to a row.
fn print_bytes(rt: &HostRuntime, title: &str, bytes: &[u8]) -> io::Result<()> {
    print!(rt; "{title}")?;
    for (i, b) in bytes.iter().enumerate() {
        if i % 16 == 0 {
            print!(rt; "\n  ")?;
        }
        print!(rt; "{b:02x}")?;
    }
    println!(rt; "")
}

// Puts the sheet into a fresh memory and gets it again; the memory is left for a look at its page.
fn keep(store: &Store<Skinny>, memory: &mut [u8], sheet: &Sheet) -> Option<Sheet> {
    let mut working = [0u8; PAGE];
    store.form::<Sheet>(memory).ok()?;
    store.put(memory, SLOT, sheet).ok()?;
    store.get(memory, SLOT, &mut working).ok()?
}

fn print_kept(rt: &HostRuntime, sheet: &Sheet, kept: Option<Sheet>) -> io::Result<()> {
    match kept {
        Some(kept) => {
            print_numbers(rt, "read back: ", &kept)?;
            let same = kept == *sheet;
            println!(rt;
                "{}",
                if same {
                    "the numbers are the same"
                } else {
                    "THE NUMBERS DIFFER"
                }
            )
        }
        None => println!(rt; "THE SHEET IS NOT THERE"),
    }
}

// Puts the sheet into a store, gets it again, and prints each step.
fn report(rt: &HostRuntime, sheet: &Sheet, geometry: Geometry) -> io::Result<()> {
    let store = Store::new(Skinny::new(KEY), geometry);
    let mut memory = [0u8; SLOTS * PAGE];
    let mut page = [0u8; PAGE];
    print_numbers(rt, "taken: ", sheet)?;
    lay_record(&mut page, SLOT as u8, sheet);
    print_bytes(rt, "plain page of slot 1:", &page)?;
    let kept = keep(&store, &mut memory, sheet);
    print_bytes(
        rt,
        "page sealed with SKINNY under a key of zeros:",
        &memory[SLOT * PAGE..SLOTS * PAGE],
    )?;
    print_kept(rt, sheet, kept)
}

fn commission(rt: &HostRuntime, line: &[u8]) -> io::Result<()> {
    match sheet_of(line) {
        Ok(sheet) => match Geometry::new(SLOTS, PAGE) {
            Ok(geometry) => report(rt, &sheet, geometry),
            Err(_) => println!(rt; "THERE IS NO SUCH GEOMETRY"),
        },
        Err(refusal) => println!(rt; "refused {refusal}"),
    }
}

fn main(rt: HostRuntime) -> io::Result<()> {
    let mut lines = BufReader::new(rt.alloc(), rt.stdin())?.split(rt.alloc(), b'\n');
    match lines.next() {
        Some(line) => commission(&rt, line?.as_slice()),
        None => println!(rt; "refused {}", Refusal::Line),
    }
}
