//! Worked cases of claims.
ghost use Rattle.std.specs.Prelude.{◌≡◌, ◌≤◌, ℕ, List, None};
ghost use Rattle.mr_claims.specs.Claims.{state};

use mr_base::Memory;
use mr_claims::{Claimed, Claims};
use std::alloc::Global;
use std::test::Fail;

/// What a claim of session 1 is: to itself, to another session, and once commit 5 has it, to snapshots before and behind it.
fn one_claim(alloc: Global) -> Result<[Claimed; 4], Memory> {
    let mut claims = Claims::new(alloc);
    claims.hold(1, b"a")?;
    let own = claims.test(1, 0, b"a");
    let other = claims.test(2, 0, b"a");
    claims.commit(1, 5);
    let before = claims.test(2, 4, b"a");
    let behind = claims.test(2, 5, b"a");
    Ok([own, other, before, behind])
}

#[test]
fn a_claim_is_held_and_then_changed(rt: HostRuntime) -> Result<(), Fail> {
    assert_eq!(rt;
        one_claim(rt.alloc()),
        Ok([
            Claimed::Free,
            Claimed::Held(1),
            Claimed::Changed(5),
            Claimed::Free
        ])
    );
    Ok(())
}

/// Holds a claim where no other session does.
fn hold_free(claims: &mut Claims, session: u8, claim: &[u8]) -> Result<bool, Memory>
    requires before { (state claims.old).before ≡ 0 }
    requires changed { (c : List ℕ) → (state claims.old).changed c ≡ None }
    ensures before { (state claims.new).before ≡ 0 }
    ensures changed { (c : List ℕ) → (state claims.new).changed c ≡ None }
{
    match claims.test(session, 0, claim) {
        Claimed::Free => {
            claims.hold(session, claim)?;
            Ok(true)
        }
        _ => Ok(false),
    }
}

/// What the first claim of session 1 is to session 2, where it holds it twice with another one between, and keeps this many.
fn kept_of_three(alloc: Global, count: usize) -> Result<Claimed, Memory> {
    let mut claims = Claims::new(alloc);
    hold_free(&mut claims, 1, b"a")?;
    hold_free(&mut claims, 1, b"b")?;
    hold_free(&mut claims, 1, b"a")?;
    claims.keep_first(1, count);
    Ok(claims.test(2, 0, b"a"))
}

#[test]
fn a_repeat_is_let_go_alone(rt: HostRuntime) -> Result<(), Fail> {
    for (count, claimed) in [
        (3usize, Claimed::Held(1)),
        (2, Claimed::Held(1)),
        (1, Claimed::Held(1)),
        (0, Claimed::Free),
    ] {
        assert_eq!(rt; kept_of_three(rt.alloc(), count), Ok(claimed));
    }
    Ok(())
}

/// Session 1 holds so many claims.
fn hold_many(claims: &mut Claims, count: u32) -> Result<u32, Memory>
    requires before { (state claims.old).before ≡ 0 }
    requires changed { (c : List ℕ) → (state claims.old).changed c ≡ None }
    ensures before { (state claims.new).before ≡ 0 }
    ensures changed { (c : List ℕ) → (state claims.new).changed c ≡ None }
{
    let mut held = 0u32;
    'holding: for i in 0..count {
        if hold_free(claims, 1, &i.to_be_bytes())? {
            held = held.saturating_add(1);
        }
    }
    Ok(held)
}

/// How many of so many claims are so to session 2 with this snapshot.
fn count_seen(claims: &Claims, count: u32, since: u64, wanted: Claimed) -> u32
    requires { (state claims.now).before ≤ since }
{
    let mut seen = 0u32;
    for i in 0..count {
        if claims.test(2, since, &i.to_be_bytes()) == wanted {
            seen = seen.saturating_add(1);
        }
    }
    seen
}

/// Of so many claims of session 1: how many it holds, how many are held to session 2, changed once commit 7 has them, and free once
/// that is forgotten.
fn many_claims(alloc: Global, count: u32) -> Result<[u32; 4], Memory> {
    let mut claims = Claims::new(alloc);
    let holds = hold_many(&mut claims, count)?;
    let held = count_seen(&claims, count, 0, Claimed::Held(1));
    claims.commit(1, 7);
    let changed = count_seen(&claims, count, 6, Claimed::Changed(7));
    claims.forget(7);
    let free = count_seen(&claims, count, 7, Claimed::Free);
    Ok([holds, held, changed, free])
}

#[test]
fn a_hundred_thousand_claims(rt: HostRuntime) -> Result<(), Fail> {
    assert_eq!(rt;
        many_claims(rt.alloc(), 100_000),
        Ok([100_000, 100_000, 100_000, 100_000])
    );
    Ok(())
}
