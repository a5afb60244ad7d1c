#![tactic(auto)]
// Runs the calls of the store under every cipher, and checks what each answers and leaves.
mod board;
mod check;
mod flips;
mod histories;
mod keyed;
mod noise;
mod refusals;
mod sample;
mod shapes;
mod technician;

use anyhow::anyhow;
use cascade::Cascade;
use check::Step;
use cipher::bench::BenchCipher;
use cipher::tweakable::TweakableCipher;
use flips::flips;
use histories::histories;
use keyed::Keyed;
use noise::noise;
use refusals::refusals;
use shapes::shapes;
use skinny::Skinny;
use std::io;
use technician::technician;

// How many checks were made, and how many of them came out right.
#[derive(Clone, Copy)]
struct Tally {
    made: u32,
    right: u32,
}

impl Tally {
    fn count(&mut self, right: bool) {
        self.made = self.made.saturating_add(1);
        if right {
            self.right = self.right.saturating_add(1);
        }
    }

    // Counts a check, and prints its line.
    fn tell(
        &mut self,
        rt: &HostRuntime,
        cipher: &str,
        title: &str,
        outcome: Step,
    ) -> io::Result<()> {
        self.count(outcome.is_ok());
        match outcome {
            Ok(()) => println!(rt; "{cipher} {title}: ok"),
            Err(wrong) => {
                let step = wrong.step;
                println!(rt; "{cipher} {title}: WRONG at {step}")
            }
        }
    }
}

fn run<C: TweakableCipher + Keyed + Drop>(
    rt: &HostRuntime,
    tally: &mut Tally,
    cipher: &str,
) -> io::Result<()> {
    tally.tell(rt, cipher, "round of a technician", technician::<C>())?;
    tally.tell(rt, cipher, "geometries", shapes::<C>())?;
    tally.tell(rt, cipher, "memory of any bytes", noise::<C>())?;
    tally.tell(rt, cipher, "flipped bytes", flips::<C>())?;
    tally.tell(rt, cipher, "refusals", refusals::<C>())?;
    tally.tell(rt, cipher, "two histories", histories::<C>())
}

fn main(rt: HostRuntime) -> anyhow::Result<()> {
    let mut tally = Tally { made: 0, right: 0 };
    run::<Skinny>(&rt, &mut tally, "skinny")?;
    run::<Cascade>(&rt, &mut tally, "cascade")?;
    run::<BenchCipher>(&rt, &mut tally, "bench")?;
    let Tally { made, right } = tally;
    println!(rt; "{right} of {made} as they must be")?;
    if right == made {
        Ok(())
    } else {
        Err(anyhow!("a check is wrong"))
    }
}
