//! Jobs that a user of recline waits for, on inputs that a seed determines. Of each job a digest of
//! all that was answered is printed, the same in each run.
//!
//! Words: the job, the seed, how many inputs, and about how many records or steps each has.
#![tactic(auto)]

mod crews;
mod dice;
mod digests;
mod lineages;
mod scripts;
mod texts;
mod worlds;

use crate::dice::Dice;
use crate::digests::Digest;
use crate::lineages::generations;
use crate::scripts::{dominoes, ring, rounds, unordered};
use crate::texts::Text;
use crate::worlds::{Driver, add_plan};
use anyhow::Result;
use line_claims::write_check_text;
use line_devices::{MemSink, MemSource};
use line_text::{check_text, run_text};
use line_world::Mode;
use std::alloc::Global;
use std::env;

/// The most bytes that a device moves at a time.
const PART: usize = 1_048_576;

/// Runs a script.
fn run(alloc: Global, digest: &mut Digest, text: Text) {
    let mut source = MemSource::new(text.into_bytes(), PART, None);
    let mut sink = MemSink::new(alloc, PART, None);
    match run_text(alloc, &mut source, &mut sink) {
        Ok(done) => digest.number(done.refused),
        Err(fault) => {
            digest.number(fault.record_number);
            digest.number(u64::from(fault.code));
        }
    }
    digest.bytes(sink.bytes());
}

/// Judges a check text.
fn check(alloc: Global, digest: &mut Digest, text: Vec<u8>) {
    let mut source = MemSource::new(text, PART, None);
    let mut sink = MemSink::new(alloc, PART, None);
    match check_text(alloc, &mut source, &mut sink) {
        Ok(fault) => digest.number(u64::from(fault.is_some())),
        Err(fault) => {
            digest.number(fault.record_number);
            digest.number(u64::from(fault.code));
        }
    }
    digest.bytes(sink.bytes());
}

/// A machine works, and some checks are damaged; a plan is made, and its claim written and judged.
fn claim(
    alloc: Global,
    digest: &mut Digest,
    dice: &mut Dice,
    n: u32,
    mode: Mode,
    steps: u32,
) -> Result<()> {
    let mut driver = Driver::new(alloc, n, mode)?;
    driver.work(digest, dice, steps)?;
    for _check in 0..20u32 {
        driver.damage(digest, dice)?;
    }
    let failed = driver.failed(dice)?;
    let plan = driver.world().plan_for(alloc, &failed)?;
    add_plan(digest, &plan);
    let text = write_check_text(
        alloc,
        driver.world().history(),
        driver.world().marks(),
        &failed,
        &plan.line,
        plan.certificate.as_slice(),
    )?;
    digest.bytes(&text);
    check(alloc, digest, text);
    Ok(())
}

/// A machine works, and a plan is made of what it did after each thousand steps; after each ten
/// thousand it goes on from one.
fn plans(
    alloc: Global,
    digest: &mut Digest,
    dice: &mut Dice,
    mode: Mode,
    steps: u32,
) -> Result<()> {
    let mut driver = Driver::new(alloc, 32, mode)?;
    for turn in 0..steps / 1_000 {
        driver.work(digest, dice, 1_000)?;
        let failed = driver.failed(dice)?;
        let plan = driver.world().plan_for(alloc, &failed)?;
        add_plan(digest, &plan);
        if turn % 10 == 9 {
            driver.recover(digest, failed);
        }
    }
    Ok(())
}

/// The mode of an input: every second one has links without an order.
fn mode_of(input: u64) -> Mode {
    if input % 2 == 0 {
        Mode::Fifo
    } else {
        Mode::Unordered
    }
}

/// Does a job on one input; answers whether there is such a job.
fn is_done(
    alloc: Global,
    digest: &mut Digest,
    job: &str,
    seed: u64,
    input: u64,
    size: u32,
) -> Result<bool> {
    let mut dice = Dice::new(seed, input);
    let mut text = Text::new(alloc);
    match job {
        "ring" => ring(&mut text, &mut dice, size)?,
        "unordered" => unordered(alloc, &mut text, &mut dice, size)?,
        "rounds" => rounds(&mut text, &mut dice, size)?,
        "dominoes" => dominoes(&mut text, &mut dice, size)?,
        "claims" => {
            // Fewer processes where links keep their order.
            let n = if input % 2 == 0 { 12u32 } else { 64 };
            claim(alloc, digest, &mut dice, n, mode_of(input), size)?;
            return Ok(true);
        }
        "plans" => {
            plans(alloc, digest, &mut dice, mode_of(input), size)?;
            return Ok(true);
        }
        "generations" => {
            generations(alloc, digest, &mut dice, size)?;
            return Ok(true);
        }
        _ => return Ok(false),
    }
    run(alloc, digest, text);
    Ok(true)
}

/// Does a job on so many inputs, and prints the digest.
fn do_job<R: Print>(rt: &R, alloc: Global, job: &str, numbers: [u64; 3]) -> Result<()> {
    let [seed, inputs, size] = numbers;
    let steps = u32::try_from(size)?;
    let mut digest = Digest::new();
    for input in 0..inputs {
        if !is_done(alloc, &mut digest, job, seed, input, steps)? {
            println!(rt;
                "Usage: line_bench JOB SEED INPUTS SIZE; a job is ring, unordered, rounds, \
                 dominoes, claims, plans or generations"
            )?;
            return Ok(());
        }
    }
    let (sum, count) = (digest.sum(), digest.count());
    println!(rt; "{job} {seed} {inputs} {size}: {count} bytes and numbers, digest {sum:016x}")?;
    Ok(())
}

fn main(rt: HostRuntime) -> Result<()> {
    let mut job = String::new(rt.alloc());
    let mut numbers = [1u64, 1, 1_000];
    for (place, word) in env::args(&rt)?.skip(1).take(4).enumerate() {
        if place == 0 {
            job = word;
        } else if let Some(number) = numbers.get_mut(place - 1) {
            *number = word.parse::<u64>()?;
        }
    }
    do_job(&rt, rt.alloc(), job.as_str(), numbers)
}
