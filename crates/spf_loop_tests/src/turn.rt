//! The turn: passes that take, count and put, alone and in threads.

ghost use Rattle.std.specs.Prelude.{◌≡◌, ◌≤◌, false, map, IfOk};
ghost use Rattle.std.specs.List.{range_with_len};
ghost use Rattle.spf_turn.specs.Passes.{fresh_pass};
ghost use Rattle.std.specs.Thread.{IsSync};
ghost use Rattle.spf_loop_tests.specs.Turns.{AreFree, IsFree};

use spf_turn::{Pass, Turn, TurnRule};
use std::alloc::Global;
use std::process::Abort;
use std::sync::Wait;
use std::test::Fail;
use std::thread::{Threads, join};

/// An addition of this much, by this pass.
#[derive(Clone, Copy)]
struct Addition {
    pass: u32,
    amount: u64,
}

/// A sum, and all that was added to it.
#[derive(Drop)]
struct Account {
    year: u32,
    sum: u64,
    additions: Vec<Addition>,
}

/// The account of a year, and its additions.
struct Additions;

impl TurnRule<Account> for Additions {
    type Key = u32;

    type Entry = Addition;

    ghost key = { λ account. account.year };

    ghost tale = { λ account. account.additions.items };

    ghost who = { λ addition. addition.pass };
}

type AccountTurn = Turn<Account, Additions>;

type AccountPass = Pass<Account, Additions>;

// Takes the turn once for each amount, and adds it.
fn add_all<R: Wait>(
    rt: &R,
    turn: &AccountTurn,
    mut pass: AccountPass,
    amounts: &[u64],
) -> AccountPass
    requires { IsFree turn.now pass }
    ensures { IsFree turn.now result }
{
    for amount in amounts {
        add(rt, turn, &mut pass, *amount);
    }
    pass
}

fn add<R: Wait>(rt: &R, turn: &AccountTurn, pass: &mut AccountPass, amount: u64)
    requires { IsFree turn.now pass.old }
    ensures { IsFree turn.now pass.new }
{
    let addition = Addition {
        pass: pass.number(),
        amount,
    };
    let mut held = turn.take(rt, pass);
    if held.value.additions.len() < 1000 && held.value.additions.push(addition).is_ok() {
        held.value.sum = held.value.sum.wrapping_add(amount);
        turn.put_event(pass, held);
    } else {
        turn.put(pass, held);
    }
}

// Two threads add at one turn.
fn add_in_two<R: Threads + Wait + Sync>(
    rt: &R,
    turn: &AccountTurn,
    pair: (AccountPass, AccountPass),
    ones: &[u64],
    others: &[u64],
) -> (AccountPass, AccountPass)
    requires { AreFree turn.now pair }
    ensures { AreFree turn.now result }
{
    let (first, second) = pair;
    join(
        rt,
        || -> AccountPass
            requires { IsFree turn.now first }
            ensures { IsFree turn.entry.now result }
        { add_all(rt, turn, first, ones) },
        || -> AccountPass
            requires { IsFree turn.now second }
            ensures { IsFree turn.entry.now result }
        { add_all(rt, turn, second, others) },
    )
}

// Four threads add at one turn.
fn add_in_four<R: Threads + Wait + Sync>(
    rt: &R,
    turn: &AccountTurn,
    pair: (AccountPass, AccountPass),
    other: (AccountPass, AccountPass),
) -> ((AccountPass, AccountPass), (AccountPass, AccountPass))
    requires pair { AreFree turn.now pair }
    requires other { AreFree turn.now other }
    ensures pair { AreFree turn.now result.0 }
    ensures other { AreFree turn.now result.1 }
{
    join(
        rt,
        || -> (AccountPass, AccountPass)
            requires { IsSync R.row × AreFree turn.now pair }
            ensures { AreFree turn.entry.now result }
        { add_in_two(rt, turn, pair, &ONES, &TENS) },
        || -> (AccountPass, AccountPass)
            requires { IsSync R.row × AreFree turn.now other }
            ensures { AreFree turn.entry.now result }
        { add_in_two(rt, turn, other, &HUNDREDS, &THOUSANDS) },
    )
}

// The pass that a try names while `holder` has the turn.
fn named_holder(
    turn: &AccountTurn,
    holder: &mut AccountPass,
    other: &mut AccountPass,
) -> Option<u32>
    requires holder { IsFree turn.now holder.old }
    requires other { IsFree turn.now other.old }
    ensures holder { IsFree turn.now holder.new }
    ensures other { IsFree turn.now other.new }
{
    let Ok(held) = turn.try_take(holder) else {
        return None;
    };
    let named = match turn.try_take(other) {
        Ok(second) => {
            turn.put(other, second);
            None
        }
        Err(busy) => Some(busy.holder),
    };
    turn.put(holder, held);
    named
}

// Whether these are the amounts that the pass added, in this order.
fn added(account: &Account, pass: u32, amounts: &[u64]) -> bool {
    let mut next = 0;
    for addition in &account.additions {
        if addition.pass == pass {
            if next >= amounts.len() || amounts[next] != addition.amount {
                return false;
            }
            next += 1;
        }
    }
    next == amounts.len()
}

const ONES: [u64; 6] = [1, 2, 3, 4, 5, 6];

const TENS: [u64; 4] = [10, 20, 30, 40];

const HUNDREDS: [u64; 5] = [100, 200, 300, 400, 500];

const THOUSANDS: [u64; 3] = [1000, 2000, 3000];

fn opened(alloc: Global, passes: u32) -> Result<(AccountTurn, Vec<AccountPass>), Fail>
    requires { (1 ≤ passes) × (passes ≤ 64) }
    ensures turn { IfOk result (λ r. r.0.passes ≡ passes) }
    ensures passes { IfOk result (λ r. r.1.items ≡ map (fresh_pass r.0) (range_with_len 1 passes)) }
{
    let account = Account {
        year: 2003,
        sum: 0,
        additions: Vec::new(alloc),
    };
    Ok(Turn::new(alloc, account, passes)?)
}

#[test]
fn two_threads_add_each_entry_once(rt: HostRuntime) -> Result<(), Fail> {
    let (turn, mut passes) = opened(rt.alloc(), 2)?;
    let second = passes.pop().ok_or("second")?;
    let first = passes.pop().ok_or("first")?;
    let (first, second) = add_in_two(&rt, &turn, (first, second), &ONES, &TENS);
    passes.push(first)?;
    passes.push(second)?;
    let account = turn.close(passes);
    assert_eq!(rt; account.sum, 121);
    assert_eq!(rt; account.additions.len(), 10);
    assert!(rt; added(&account, 1, &ONES) && added(&account, 2, &TENS));
    Ok(())
}

#[test]
fn four_threads_add_each_entry_once(rt: HostRuntime) -> Result<(), Fail> {
    let (turn, mut passes) = opened(rt.alloc(), 4)?;
    let fourth = passes.pop().ok_or("fourth")?;
    let third = passes.pop().ok_or("third")?;
    let second = passes.pop().ok_or("second")?;
    let first = passes.pop().ok_or("first")?;
    let (pair, other) = add_in_four(&rt, &turn, (first, second), (third, fourth));
    passes.push(pair.0)?;
    passes.push(pair.1)?;
    passes.push(other.0)?;
    passes.push(other.1)?;
    let account = turn.close(passes);
    assert_eq!(rt; account.sum, 7621);
    assert_eq!(rt; account.additions.len(), 18);
    assert!(rt; added(&account, 1, &ONES) && added(&account, 2, &TENS));
    assert!(rt; added(&account, 3, &HUNDREDS) && added(&account, 4, &THOUSANDS));
    Ok(())
}

#[test]
fn a_try_names_the_holder(rt: HostRuntime) -> Result<(), Fail> {
    let (turn, mut passes) = opened(rt.alloc(), 3)?;
    let mut third = passes.pop().ok_or("third")?;
    let mut second = passes.pop().ok_or("second")?;
    let mut first = passes.pop().ok_or("first")?;
    assert_eq!(rt; named_holder(&turn, &mut first, &mut second), Some(1));
    assert_eq!(rt; named_holder(&turn, &mut first, &mut third), Some(1));
    assert_eq!(rt; named_holder(&turn, &mut second, &mut first), Some(2));
    assert_eq!(rt; named_holder(&turn, &mut third, &mut first), Some(3));
    assert_eq!(rt;
        (first.number(), second.number(), third.number()),
        (1, 2, 3)
    );
    Ok(())
}

#[test]
fn a_look_counts_what_others_added(rt: HostRuntime) -> Result<(), Fail> {
    let (turn, mut passes) = opened(rt.alloc(), 2)?;
    let mut second = passes.pop().ok_or("second")?;
    let mut first = passes.pop().ok_or("first")?;
    assert_eq!(rt; turn.look(&mut second), 0);
    add(&rt, &turn, &mut first, 7);
    add(&rt, &turn, &mut first, 8);
    assert_eq!(rt; turn.look(&mut second), 2);
    add(&rt, &turn, &mut second, 9);
    assert_eq!(rt; turn.look(&mut first), 3);
    Ok(())
}

#[test]
fn the_only_pass_is_never_refused(rt: HostRuntime) -> Result<(), Fail> {
    let (turn, mut passes) = opened(rt.alloc(), 1)?;
    let mut only = passes.pop().ok_or("only")?;
    let Ok(held) = turn.try_take(&mut only) else {
        return Err("no other pass was made".into());
    };
    turn.put(&mut only, held);
    add(&rt, &turn, &mut only, 5);
    passes.push(only)?;
    let account = turn.close(passes);
    assert_eq!(rt; account.sum, 5);
    assert!(rt; added(&account, 1, &[5]));
    Ok(())
}
