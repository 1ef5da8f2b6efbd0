ghost use Rattle.std.specs.Prelude.{◌≡◌};
ghost use Rattle.turn_board.specs.Passes.{IsPassOf};

use crate::{Board, Object, Pass};
use push_model::{Mail, NoMemory};
use std::alloc::Global;
use std::marker::Model;
use std::process::Abort;
use std::sync::atomic::{AtomicU64, Ordering};
use std::sync::{Arc, Wait};
use std::test::Fail;
use std::thread::{Threads, join};

// A list to which numbers are added. A step is the number that signs it, and what is added; the reply is how many there
// were. Contracts see it as its list.
#[derive(Drop)]
struct Stock {
    items: Vec<u64>,
}

impl Model for Stock {
    ghost use Rattle.std.specs.Prelude.{ℕ, List};

    ghost Value = { List ℕ };

    ghost view = { λ s. s.items.items };
}

#[derive(Clone, Copy)]
struct Supply {
    by: u64,
    item: u64,
}

impl Object for Stock {
    ghost use Rattle.std.specs.Prelude.{◌==◌, ◌++◌, [], ◌∷◌, length, true};

    type Step = Supply;

    type Reply = usize;

    ghost run = { λ items supply. (items ++ supply.item ∷ [], length items) };

    ghost takes_memory = { λ supply. true };

    ghost proper = { λ by supply. supply.by == by };

    fn step(&mut self, _alloc: Global, step: Supply) -> Result<usize, NoMemory> {
        let count = self.items.len();
        match self.items.push(step.item) {
            Ok(()) => Ok(count),
            Err(_) => Err(NoMemory),
        }
    }
}

// An object whose step says that it began, and looks at most ten million times whether another thread answered. It notes
// whether one did. Contracts see it as nothing.
#[derive(Drop)]
struct Watcher {
    signs: Arc<Signs, Global>,
}

#[derive(Drop)]
struct Signs {
    begun: AtomicU64,
    answered: AtomicU64,
    found: AtomicU64,
}

// Whether the sign comes within ten million looks. A look is a write too, which takes long enough for another thread.
fn comes(sign: &AtomicU64) -> bool {
    for _ in 0..10_000_000 {
        if sign.fetch_or(0, Ordering::SeqCst) == 1 {
            return true;
        }
    }
    false
}

impl Model for Watcher {
    ghost Value = { Unit {0} };

    ghost view = { λ w. tt };
}

impl Object for Watcher {
    ghost use Rattle.std.specs.Prelude.{false, true};

    type Step = ();

    type Reply = ();

    ghost run = { λ w step. (w, step) };

    ghost takes_memory = { λ step. false };

    ghost proper = { λ by step. true };

    fn step(&mut self, _alloc: Global, step: ()) -> Result<(), NoMemory> {
        self.signs.begun.store(1, Ordering::SeqCst);
        if comes(&self.signs.answered) {
            self.signs.found.store(1, Ordering::SeqCst);
        }
        Ok(step)
    }
}

fn supply_many<R: Wait>(
    rt: &R,
    alloc: Global,
    board: &Board<Stock>,
    mut pass: Pass<Stock>,
) -> Pass<Stock>
    requires { IsPassOf board.now pass }
    ensures { IsPassOf board.now result }
{
    let by = pass.number();
    for item in 0..1000 {
        let _ = board.call(rt, alloc, &mut pass, Supply { by, item });
    }
    pass
}

fn two_callers<R: Wait + Threads + Abort + Sync>(rt: &R, alloc: Global) -> Result<(), Fail> {
    let stock = Stock {
        items: Vec::new(alloc),
    };
    let (board, mut pass) = Board::new(alloc, stock).ok().ok_or("memory")?;
    let other = board.split(rt, &mut pass);
    let (mut one, two) = join(
        rt,
        || -> Pass<Stock>
            requires { IsPassOf board pass }
            ensures { IsPassOf board result }
        { supply_many(rt, alloc, &board, pass) },
        || -> Pass<Stock>
            requires { IsPassOf board other }
            ensures { IsPassOf board result }
        { supply_many(rt, alloc, &board, other) },
    );
    let early = board.alone(&mut one);
    assert!(rt; !early);
    let mut one = match board.close(rt, one) {
        Ok(_) => return Err(Fail::from("closed while a pass was out")),
        Err(pass) => pass,
    };
    board.join(&mut one, two);
    match board.close(rt, one) {
        Ok(stock) => {
            let mut sum: u64 = 0;
            for item in stock.items.iter() {
                sum = sum.wrapping_add(*item);
            }
            assert!(rt; stock.items.len() == 2000 && sum == 999_000);
        }
        Err(_) => assert!(rt; false),
    }
    Ok(())
}

#[test]
fn two_threads_make_1000_steps_each(rt: HostRuntime) -> Result<(), Fail> {
    two_callers(&rt, rt.alloc())
}

fn watched<R: Wait + Threads + Abort + Sync>(rt: &R, alloc: Global) -> Result<(), Fail> {
    let signs = Arc::new(
        alloc,
        Signs {
            begun: AtomicU64::new(0),
            answered: AtomicU64::new(0),
            found: AtomicU64::new(0),
        },
    )?;
    let watcher = Watcher {
        signs: Arc::try_clone(&signs)?,
    };
    let (board, mut watching) = Board::new(alloc, watcher).ok().ok_or("memory")?;
    let posting = board.split(rt, &mut watching);
    let (_, mail) = join(
        rt,
        || -> Pass<Watcher>
            requires { IsPassOf board watching }
        { watch(rt, alloc, &board, watching) },
        || -> Mail
            requires { IsPassOf board posting }
        { post_and_take(&board, posting, &signs) },
    );
    assert!(rt; mail == Mail::Bits(6));
    assert!(rt; signs.found.load(Ordering::SeqCst) == 1);
    Ok(())
}

// Makes the step, whose turn lasts until the other thread answered.
fn watch<R: Wait>(
    rt: &R,
    alloc: Global,
    board: &Board<Watcher>,
    mut pass: Pass<Watcher>,
) -> Pass<Watcher>
    requires { IsPassOf board.now pass }
{
    let _ = board.call(rt, alloc, &mut pass, ());
    pass
}

// Posts and takes mail in the other's turn, and then answers it.
fn post_and_take(board: &Board<Watcher>, mut pass: Pass<Watcher>, signs: &Signs) -> Mail
    requires { IsPassOf board.now pass }
{
    if !comes(&signs.begun) {
        return Mail::Quiet;
    }
    board.post(&mut pass, 7, 4);
    board.post(&mut pass, 7, 2);
    let mail = board.take_mail(&mut pass, 7);
    signs.answered.store(1, Ordering::SeqCst);
    mail
}

#[test]
fn mail_is_posted_and_taken_while_another_has_the_turn(rt: HostRuntime) -> Result<(), Fail> {
    watched(&rt, rt.alloc())
}

#[test]
fn each_call_answers(rt: HostRuntime) -> Result<(), Fail> {
    let alloc = rt.alloc();
    let stock = Stock {
        items: Vec::new(alloc),
    };
    let (board, mut pass) = Board::new(alloc, stock).ok().ok_or("memory")?;
    assert!(&rt; pass.number() == 0);
    let first = board.call(&rt, alloc, &mut pass, Supply { by: 0, item: 5 });
    assert!(&rt; first.ok() == Some(0));
    let mut other = board.split(&rt, &mut pass);
    assert!(&rt; other.number() == 1);
    let second = board.call(&rt, alloc, &mut other, Supply { by: 1, item: 7 });
    assert!(&rt; second.ok() == Some(1));
    board.post(&mut pass, 3, 9);
    assert!(&rt; board.take_mail(&mut other, 2) == Mail::Quiet);
    assert!(&rt; board.take_mail(&mut other, 3) == Mail::Bits(9));
    assert!(&rt; board.take_mail(&mut pass, 3) == Mail::Quiet);
    assert!(&rt; !board.alone(&mut other));
    board.join(&mut other, pass);
    assert!(&rt; board.alone(&mut other));
    let stock = board.finish(&rt, other);
    assert!(&rt; stock.items.as_slice() == [5, 7].as_slice());
    Ok(())
}
