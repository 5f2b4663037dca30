//! Threads that share an executor, and seats that are split and joined in each order.
ghost use Rattle.std.specs.Prelude.{◌≡◌, ◌+◌, ◌-◌, ◌<◌, ◌≤◌, IfOk};
ghost use Rattle.std.specs.Thread.{IsSync};
ghost use Rattle.turn_lock.specs.Trials.{Stays, HasJoined, IsFresh};

use crate::vacant::Vacant;
use crate::{Seat, TurnLock};
use arc_core::{Act, Answer, Reply, Request, Word};
use std::alloc::Global;
use std::sync::atomic::AtomicU64;
use std::sync::atomic::Ordering::SeqCst;
use std::sync::{Arc, Wait};
use std::test::Fail;
use std::thread::{Threads, join};

// Asks for the version, which takes no memory.
fn ask<R: Wait>(rt: &R, lock: &TurnLock<Vacant>, seat: &mut Seat<Vacant>, now: u32) -> Reply
    requires { seat.old.lock ≡ lock.now }
    ensures { Stays seat.old seat.new }
{
    let request = Request {
        act: Act::Version,
        answer: Answer::Plain,
    };
    lock.execute(rt, seat, 0, now, &request)
}

// Calls, and marks each answer. True where the answers rise.
fn calls<R: Wait>(
    rt: &R,
    lock: &TurnLock<Vacant>,
    mut seat: Seat<Vacant>,
    cells: &[AtomicU64],
    answers: &[AtomicU64],
    times: u32,
    caller: u32,
) -> (Seat<Vacant>, bool)
    requires { seat.lock ≡ lock.now }
    ensures { Stays seat result.0 }
{
    let mut last = 0;
    let mut rises = true;
    for _ in 0..times {
        let reply = ask(rt, lock, &mut seat, caller);
        rises &= matches!(reply, Reply::Word(Word::Version));
        if let Some(cell) = cells.get(caller as usize) {
            let answer = cell.load(SeqCst);
            rises &= answer > last;
            last = answer;
            if let Some(mark) = answers.get(answer as usize) {
                mark.fetch_add(1, SeqCst);
            }
        }
    }
    (seat, rises)
}

// Calls from `more` threads beside this one, whose seats are then joined into this one's. The numbers from `next` on are
// not yet given.
fn team<R: Threads + Wait + Sync>(
    rt: &R,
    lock: &TurnLock<Vacant>,
    mut seat: Seat<Vacant>,
    cells: &[AtomicU64],
    answers: &[AtomicU64],
    times: u32,
    next: u32,
    more: u32,
) -> (Seat<Vacant>, bool)
    requires own { seat.lock ≡ lock.now }
    requires joined { HasJoined seat next 0 }
    requires few { next + more ≤ 4097 }
    ensures own { result.0.lock ≡ seat.lock }
    ensures joined { HasJoined result.0 (next + more) more }
{
    if more == 0 {
        return calls(rt, lock, seat, cells, answers, times, 0);
    }
    let other = lock.split(&mut seat);
    let ((mut seat, mine), (other, its)) = join(
        rt,
        || -> (Seat<Vacant>, bool)
            requires { IsSync R.row × (seat.lock ≡ lock.now) × HasJoined seat (next + 1) 0 × (next + more ≤ 4097) × (0 < more) }
            ensures { (result.0.lock ≡ lock.entry.now) × HasJoined result.0 (next + more) (more - 1) }
        { team(rt, lock, seat, cells, answers, times, next + 1, more - 1) },
        || -> (Seat<Vacant>, bool)
            requires { IsSync R.row × (other.lock ≡ lock.now) × IsFresh other }
            ensures { (result.0.lock ≡ lock.entry.now) × IsFresh result.0 }
        { calls(rt, lock, other, cells, answers, times, next) },
    );
    lock.join(&mut seat, other);
    (seat, mine && its)
}

// Each answer comes once, and each caller's answers rise.
fn share<R: Threads + Wait + Sync>(
    rt: &R,
    alloc: Global,
    threads: u32,
    times: u32,
) -> Result<bool, Fail>
    requires { (0 < threads) × (threads ≤ 64) × (times ≤ 10000) }
{
    let mut cells = Vec::new(alloc);
    for _ in 0..threads {
        cells.push(AtomicU64::new(0))?;
    }
    let mut answers = Vec::new(alloc);
    let calls = threads * times;
    for _ in 0..calls + 1 {
        answers.push(AtomicU64::new(0))?;
    }
    let cells = Arc::new(alloc, cells)?;
    let machine = Vacant {
        latest: 0,
        calls: 0,
        cells: Arc::try_clone(&cells)?,
    };
    let cells = cells.as_slice();
    let answers = answers.as_slice();
    let (lock, seat) = TurnLock::new(alloc, machine)?;
    let (seat, rises) = team(rt, &lock, seat, cells, answers, times, 1, threads - 1);
    let machine = lock.close(seat);
    let once = answers.iter().skip(1).all(|n| n.load(SeqCst) == 1);
    Ok(rises && once && machine.calls == calls as u64)
}

#[test]
fn eight_threads_get_each_answer_once(rt: HostRuntime) -> Result<(), Fail> {
    assert!(rt; share(&rt, rt.alloc(), 8, 10_000)?);
    Ok(())
}

#[test]
fn sixty_four_threads_get_each_answer_once(rt: HostRuntime) -> Result<(), Fail> {
    assert!(rt; share(&rt, rt.alloc(), 64, 10_000)?);
    Ok(())
}

// A lock round a machine with no cells, and its first seat.
fn opened(alloc: Global) -> Result<(TurnLock<Vacant>, Seat<Vacant>), Fail>
    ensures { IfOk result (λ made. (made.1.lock ≡ made.0) × HasJoined made.1 1 0) }
{
    let cells = Arc::new(alloc, Vec::new(alloc))?;
    let machine = Vacant {
        latest: 0,
        calls: 0,
        cells,
    };
    Ok(TurnLock::new(alloc, machine)?)
}

#[test]
fn seats_join_the_first_one_after_another(rt: HostRuntime) -> Result<(), Fail> {
    let (lock, mut first) = opened(rt.alloc())?;
    let mut second = lock.split(&mut first);
    ask(&rt, &lock, &mut second, 0);
    let mut third = lock.split(&mut first);
    ask(&rt, &lock, &mut third, 0);
    lock.join(&mut first, third);
    ask(&rt, &lock, &mut first, 0);
    lock.join(&mut first, second);
    assert!(rt; lock.close(first).calls == 3);
    Ok(())
}

#[test]
fn a_seat_hands_on_what_it_took_in(rt: HostRuntime) -> Result<(), Fail> {
    let (lock, mut first) = opened(rt.alloc())?;
    let mut second = lock.split(&mut first);
    let mut third = lock.split(&mut first);
    ask(&rt, &lock, &mut third, 0);
    lock.join(&mut second, third);
    ask(&rt, &lock, &mut second, 0);
    lock.join(&mut first, second);
    let fourth = lock.split(&mut first);
    lock.join(&mut first, fourth);
    assert!(rt; lock.close(first).calls == 2);
    Ok(())
}

#[test]
fn the_register_goes_along(rt: HostRuntime) -> Result<(), Fail> {
    let (lock, mut first) = opened(rt.alloc())?;
    let mut second = lock.split(&mut first);
    ask(&rt, &lock, &mut first, 0);
    lock.join(&mut second, first);
    let mut third = lock.split(&mut second);
    lock.meet(&mut third, &mut second);
    lock.meet(&mut second, &mut third);
    ask(&rt, &lock, &mut third, 0);
    lock.join(&mut third, second);
    assert!(rt; lock.close(third).calls == 2);
    Ok(())
}

#[test]
fn a_call_is_answered(rt: HostRuntime) -> Result<(), Fail> {
    let (lock, mut seat) = opened(rt.alloc())?;
    let reply = ask(&rt, &lock, &mut seat, 0);
    assert!(rt; matches!(reply, Reply::Word(Word::Version)));
    let machine = lock.close(seat);
    assert!(rt; machine.calls == 1);
    Ok(())
}
