//! `zr_digest BYTES COUNT` takes the SHA-256 of so many blocks, with the digest that `zr` takes of its own, and prints the
//! last sum. Each block begins with the first byte of the sum before it and is zero behind, so that no sum can be left out.
//! It is the bound beside which the benchmark holds work that has to take sums.
#![tactic(auto)]

ghost use Rattle.std.specs.Prelude.{◌<◌, length};

use anyhow::Context;
use sha2::{Digest, Sha256};
use std::env;

/// The most bytes of a block.
const MOST: u64 = 1 << 30;

// The last sum of a chain of so many blocks.
fn last_sum(block: &mut [u8], count: u64) -> [u8; 32]
    requires { 0 < length block.old }
{
    let mut sum = [0; 32];
    for _ in 0..count {
        block[0] = sum[0];
        sum = Sha256::digest(&*block);
    }
    sum
}

fn main(rt: HostRuntime) -> anyhow::Result<()> {
    let alloc = rt.alloc();
    let mut numbers: Vec<u64> = Vec::new(alloc);
    for word in env::args(&rt)?.skip(1) {
        numbers.push(word.parse::<u64>()?)?;
    }
    match numbers.as_slice() {
        [bytes, count] if 0 < *bytes && *bytes <= MOST => {
            let mut block = vec![in alloc; 0; *bytes as usize]?;
            let sum = last_sum(&mut block, *count);
            println!(rt; "{}", hex::encode(alloc, sum.as_slice())?)?;
        }
        _ => println!(rt; "zr_digest BYTES COUNT, of 1 to 1,073,741,824 bytes")?,
    }
    Ok(())
}
