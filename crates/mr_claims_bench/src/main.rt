//! How long claims of one session take: holds, tests by another session, a commit, and forgetting it: `mr_claims_bench 10000 100000`.
//! Any other word stands for 1,000,000 claims.
#![tactic(auto)]

ghost use Rattle.std.specs.Prelude.{◌≡◌, ◌≤◌, ℕ, List, None, OnOk};
ghost use Rattle.mr_claims.specs.Claims.{state};

use mr_base::Memory;
use mr_claims::{Claimed, Claims};
use std::time::Instant;
use std::{env, io};

/// The claim with this number: an index number and a BIGINT, in random order.
fn claim_of(number: u32) -> [u8; 12] {
    let x = (number as u64)
        .wrapping_mul(6364136223846793005)
        .to_be_bytes();
    [0, 0, 1, 0, x[0], x[1], x[2], x[3], x[4], x[5], x[6], x[7]]
}

/// Session 1 holds so many claims.
fn hold_many(claims: &mut Claims, count: u32) -> Result<(), Memory>
    requires before { (state claims.old).before ≡ 0 }
    requires changed { (c : List ℕ) → (state claims.old).changed c ≡ None }
    ensures before { (state claims.new).before ≡ 0 }
    ensures changed { (c : List ℕ) → (state claims.new).changed c ≡ None }
{
    'holding: for number in 0..count {
        let claim = claim_of(number);
        match claims.test(1, 0, &claim) {
            Claimed::Free => claims.hold(1, &claim)?,
            _ => {}
        }
    }
    Ok(())
}

/// How many of so many claims another session holds.
fn count_held(claims: &Claims, count: u32) -> u32
    requires { (state claims.now).before ≤ 0 }
{
    let mut held = 0u32;
    for number in 0..count {
        match claims.test(2, 0, &claim_of(number)) {
            Claimed::Held(_) => held = held.saturating_add(1),
            _ => {}
        }
    }
    held
}

fn main(rt: HostRuntime) -> io::Result<()> {
    for word in env::args(&rt)?.skip(1) {
        let count = match word.as_str() {
            "10000" => 10000,
            "100000" => 100000,
            _ => 1000000,
        };
        let mut claims = Claims::new(rt.alloc());
        let start = Instant::now(&rt)?;
        if hold_many(&mut claims, count).is_err() {
            return Ok(());
        }
        let took = start.elapsed(&rt)?.as_micros();
        println!(rt; "{count} holds, {took} us")?;
        let start = Instant::now(&rt)?;
        let held = count_held(&claims, count);
        let took = start.elapsed(&rt)?.as_micros();
        println!(rt; "{held} tests of held claims, {took} us")?;
        let start = Instant::now(&rt)?;
        claims.commit(1, 1);
        let took = start.elapsed(&rt)?.as_micros();
        println!(rt; "a commit of them, {took} us")?;
        let start = Instant::now(&rt)?;
        claims.forget(1);
        let took = start.elapsed(&rt)?.as_micros();
        println!(rt; "forgetting it, {took} us")?;
    }
    Ok(())
}
