//! Passes that take turns under the lock.
ghost use Rattle.std.specs.Prelude.{◌≡◌, ◌+◌, ◌<◌, ◌≤◌, None, IsSome, false};
ghost use Rattle.std.specs.Thread.{IsSync};
ghost use Rattle.nor_trials_race.specs.Register.{last_of};
ghost use Rattle.nor_turn.specs.Passes.{IsPassOf};

use nor_turn::{Pass, Stands, Tells, Turn, TurnLock};
use std::sync::Wait;
use std::test::Fail;
use std::thread;
use std::thread::{Threads, join};

/// A number that is written over and over.
#[derive(Drop)]
struct Register {
    last: u64,
}

/// That a number was written.
#[derive(Drop)]
struct Wrote {
    number: u64,
}

impl Stands for Register {
    type Entry = u64;

    ghost stands = { λ first front now. now.last ≡ last_of first.last front };
}

impl Tells<Register> for Wrote {
    ghost told = { λ w. w.number };
}

#[test]
#[tactic(auto, using(crate::proofs::Registers::last_of_more))]
fn two_passes_take_turns(rt: HostRuntime) -> Result<(), Fail> {
    let Ok((lock, mut first)) = TurnLock::new(rt.alloc(), Register { last: 7 }) else {
        panic!(rt; "no memory")
    };
    assert!(rt; first.share() == 1 << 20 && first.room() == 1 << 62);
    let mut second = lock.split(&mut first);
    assert!(rt; first.share() == 1 << 19 && second.share() == 1 << 19);
    assert!(rt; first.room() == 1 << 61 && second.room() == 1 << 61);

    lock.draw(&mut first);
    lock.draw(&mut second);
    if let Some(turn) = lock.ask(&mut second) {
        lock.give(&mut second, turn);
        panic!(rt; "the second had the turn before the first")
    }
    let Some(mut turn) = lock.ask(&mut first) else {
        panic!(rt; "the first did not have the turn")
    };
    turn.value().last = 1;
    let place = lock.enter(&mut first, &mut turn, &Wrote { number: 1 });
    assert!(rt; place == 0);
    lock.give(&mut first, turn);

    let Some(mut turn) = lock.ask(&mut second) else {
        panic!(rt; "the second did not have the turn")
    };
    turn.value().last = 2;
    let place = lock.enter(&mut second, &mut turn, &Wrote { number: 2 });
    assert!(rt; place == 1);
    lock.give(&mut second, turn);

    lock.join(&mut first, second);
    assert!(rt; first.share() == 1 << 20 && first.room() == (1 << 62) - 2);
    let (register, count) = lock.close(first);
    assert!(rt; register.last == 2 && count == 2);
    Ok(())
}

// Writes a number in a turn of its own, and gives the place of the entry.
#[tactic(auto, using(crate::proofs::Registers::last_of_more))]
fn write<R: Wait>(rt: &R, lock: &TurnLock<Register>, pass: &mut Pass<Register>, number: u64) -> u64
    requires own { IsPassOf lock.now pass.old }
    requires no_ticket { pass.old.ticket ≡ None }
    requires room { 0 < pass.old.room }
    ensures own { IsPassOf lock.now pass.new }
    ensures no_ticket { pass.new.ticket ≡ None }
    ensures share { pass.new.share ≡ pass.old.share }
    ensures room { pass.new.room + 1 ≡ pass.old.room }
{
    lock.draw(pass);
    for _ in rt.forever() {
        if let Some(mut turn) = lock.ask(pass) {
            turn.value().last = number;
            let place = lock.enter(pass, &mut turn, &Wrote { number });
            lock.give(pass, turn);
            return place;
        }
        thread::yield_now();
    }
    unreachable!()
}

// Writes a number 1,000 times, and gives the places of the entries.
fn write_all<R: Wait>(
    rt: &R,
    lock: &TurnLock<Register>,
    mut pass: Pass<Register>,
    number: u64,
) -> (Pass<Register>, [u64; 1000])
    requires own { IsPassOf lock.now pass }
    requires no_ticket { pass.ticket ≡ None }
    requires room { 1000 ≤ pass.room }
    ensures own { IsPassOf lock.now result.0 }
    ensures no_ticket { result.0.ticket ≡ None }
    ensures share { result.0.share ≡ pass.share }
{
    let mut places = [0; 1000];
    for i in 0..1000 {
        places[i] = write(rt, lock, &mut pass, number);
    }
    (pass, places)
}

// Two threads write 1,000 times each.
fn write_both<R: Threads + Wait + Sync>(
    rt: &R,
    lock: &TurnLock<Register>,
    first: Pass<Register>,
    second: Pass<Register>,
) -> (Pass<Register>, [u64; 1000], Pass<Register>, [u64; 1000])
    requires first { IsPassOf lock.now first × (first.ticket ≡ None) × (1000 ≤ first.room) }
    requires second { IsPassOf lock.now second × (second.ticket ≡ None) × (1000 ≤ second.room) }
    ensures first { IsPassOf lock.now result.0 × (result.0.ticket ≡ None) × (result.0.share ≡ first.share) }
    ensures second { IsPassOf lock.now result.2 × (result.2.ticket ≡ None) × (result.2.share ≡ second.share) }
{
    let (one, two) = join(
        rt,
        || -> (Pass<Register>, [u64; 1000])
            requires { IsSync R.row × IsPassOf lock.now first × (first.ticket ≡ None) × (1000 ≤ first.room) }
            ensures { IsPassOf lock.entry.now result.0 × (result.0.ticket ≡ None) × (result.0.share ≡ first.share) }
        { write_all(rt, lock, first, 1) },
        || -> (Pass<Register>, [u64; 1000])
            requires { IsSync R.row × IsPassOf lock.now second × (second.ticket ≡ None) × (1000 ≤ second.room) }
            ensures { IsPassOf lock.entry.now result.0 × (result.0.ticket ≡ None) × (result.0.share ≡ second.share) }
        { write_all(rt, lock, second, 2) },
    );
    let (first, ones) = one;
    let (second, twos) = two;
    (first, ones, second, twos)
}

#[test]
fn places_of_two_threads_are_each_number_once(rt: HostRuntime) -> Result<(), Fail> {
    let Ok((lock, mut first)) = TurnLock::new(rt.alloc(), Register { last: 7 }) else {
        panic!(rt; "no memory")
    };
    let second = lock.split(&mut first);
    let (mut first, ones, second, twos) = write_both(&rt, &lock, first, second);
    let mut seen = [false; 2000];
    for place in ones.iter().chain(twos.iter()) {
        let at = *place as usize;
        assert!(rt; at < 2000);
        assert!(rt; !seen[at], "two entries have one place");
        seen[at] = true;
    }
    lock.join(&mut first, second);
    let (register, count) = lock.close(first);
    assert!(rt; count == 2000);
    assert!(rt; register.last == if ones[999] == 1999 { 1 } else { 2 });
    Ok(())
}

// A lock, a pass and a turn may go between threads where the value may.
fn ask_both<V: Stands + Send, R: Threads + Sync>(
    rt: &R,
    lock: &TurnLock<V>,
    mut first: Pass<V>,
    mut second: Pass<V>,
) -> (Option<Turn<V>>, Option<Turn<V>>, Pass<V>, Pass<V>)
    requires first { IsPassOf lock.now first × IsSome first.ticket × (first.has_turn ≡ false) }
    requires second { IsPassOf lock.now second × IsSome second.ticket × (second.has_turn ≡ false) }
{
    let (a, b) = join(
        rt,
        || -> Option<Turn<V>>
            requires { IsPassOf lock.now first × IsSome first.ticket × (first.has_turn ≡ false) }
        { lock.ask(&mut first) },
        || -> Option<Turn<V>>
            requires { IsPassOf lock.now second × IsSome second.ticket × (second.has_turn ≡ false) }
        { lock.ask(&mut second) },
    );
    (a, b, first, second)
}

fn sent<T: Send>(value: T) -> T {
    value
}

fn shared<T: Sync>(value: &T) -> &T {
    value
}

// They may be moved to another thread where the value may, and the lock be shared.
fn sent_with_their_value<V: Stands + Send>(
    lock: TurnLock<V>,
    pass: Pass<V>,
    turn: Turn<V>,
) -> (TurnLock<V>, Pass<V>, Turn<V>) {
    shared(&lock);
    (sent(lock), sent(pass), sent(turn))
}
