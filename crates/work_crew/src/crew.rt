//! Pieces of work that a crew of threads shares: each thread takes the next piece that none has taken.
ghost use Rattle.std.specs.Prelude.{◌≡◌, ◌<◌, ℕ, None, All, IfOk, length};
ghost use Rattle.work_crew.specs.Crews.{Makes, AreMade, MakeAll, ArePlaced};

use crate::apart::spread;
use scan_model::NoMemory;
use std::alloc::Global;
use std::sync::atomic::{AtomicUsize, Ordering};
use std::thread::{Threads, join};

/// How many threads a crew has at most.
const MOST_THREADS: usize = 32;

/// What came of the piece of a number.
#[derive(Drop)]
pub struct Piece<T> {
    pub number: usize,
    pub made: T,
}

/// Takes pieces, one after the other, as long as there is one that no thread has taken.
fn take_pieces<T: Drop, F: Fn(usize) -> Result<T, NoMemory>>(
    alloc: Global,
    next: &AtomicUsize,
    count: usize,
    make: &F,
) -> Result<Vec<Piece<T>>, NoMemory>
    requires { (i : ℕ) → i < count → F.pre make.now i }
    ensures { IfOk result (λ pieces. AreMade F.Fn make.now count pieces.items) }
{
    let mut pieces = Vec::new(alloc);
    for _ in 0..count {
        let number = next.fetch_add(1, Ordering::Relaxed);
        if number >= count {
            break;
        }
        let made = make(number)?;
        pieces.push(Piece { number, made })?;
    }
    Ok(pieces)
}

/// Takes pieces in so many threads, this one among them.
#[cycle(crew)]
fn crew<R: Threads + Sync, T: Send + Drop, F: Fn(usize) -> Result<T, NoMemory> + Sync>(
    rt: &R,
    alloc: Global,
    threads: usize,
    next: &AtomicUsize,
    count: usize,
    make: &F,
) -> Result<Vec<Piece<T>>, NoMemory>
    requires { (i : ℕ) → i < count → F.pre make.now i }
    ensures { IfOk result (λ pieces. AreMade F.Fn make.now count pieces.items) }
{
    if threads < 2 {
        return take_pieces(alloc, next, count, make);
    }
    let one = move || -> Result<Vec<Piece<T>>, NoMemory>
        requires { (i : ℕ) → i < count → F.pre make.now i }
        ensures { IfOk result (λ pieces. AreMade F.Fn make.entry.now count pieces.items) }
    { take_pieces(alloc, next, count, make) };
    let others = move || -> Result<Vec<Piece<T>>, NoMemory>
        requires { (1 < threads) × ((i : ℕ) → i < count → F.pre make.now i) }
        ensures { IfOk result (λ pieces. AreMade F.Fn make.entry.now count pieces.items) }
    { crew(rt, alloc, threads - 1, next, count, make) };
    let (first, rest) = join(rt, one, others);
    let mut pieces = first?;
    let mut rest = rest?;
    pieces.append(&mut rest)?;
    Ok(pieces)
}

/// A place for what came of each piece.
fn empty_slots<T: Drop>(alloc: Global, count: usize) -> Result<Vec<Option<T>>, NoMemory>
    ensures len { IfOk result (λ slots. length slots.items ≡ count) }
    ensures empty { IfOk result (λ slots. All (λ slot. slot ≡ None) slots.items) }
{
    let mut slots = Vec::with_capacity(alloc, count)?;
    for _ in 0..count {
        slots.push(None)?;
    }
    Ok(slots)
}

/// What came of each piece in the place of its number, and nothing in that of a piece that isn't there.
fn placed<T: Drop, F: Fn(usize) -> Result<T, NoMemory>>(
    alloc: Global,
    count: usize,
    mut pieces: Vec<Piece<T>>,
    make: &F,
) -> Result<Vec<Option<T>>, NoMemory>
    requires { AreMade F.Fn make.now count pieces.items }
    ensures { IfOk result (λ slots. ArePlaced (Makes F.Fn make.now) count slots.items) }
{
    let _ = make;
    let mut slots = empty_slots(alloc, count)?;
    while let Some(Piece { number, made }) = pieces.pop() {
        slots[number] = Some(made);
    }
    Ok(slots)
}

/// What came of each piece, in the order of their numbers. One that isn't there is made here; the threads have made them all.
fn in_order<T: Drop, F: Fn(usize) -> Result<T, NoMemory>>(
    alloc: Global,
    mut slots: Vec<Option<T>>,
    make: &F,
) -> Result<Vec<T>, NoMemory>
    requires ready { (i : ℕ) → i < length slots.items → F.pre make.now i }
    requires placed { ArePlaced (Makes F.Fn make.now) (length slots.items) slots.items }
    ensures { IfOk result (λ all. MakeAll F.Fn make.now (length slots.items) all.items) }
{
    let mut all = Vec::with_capacity(alloc, slots.len())?;
    for number in 0..slots.len() {
        let made = match slots[number].take() {
            Some(made) => made,
            None => make(number)?,
        };
        all.push(made)?;
    }
    Ok(all)
}

/// What a crew of so many threads makes of the pieces.
fn made_by<R: Threads + Sync, T: Send + Drop, F: Fn(usize) -> Result<T, NoMemory> + Sync>(
    rt: &R,
    alloc: Global,
    threads: usize,
    count: usize,
    make: &F,
) -> Result<Vec<Piece<T>>, NoMemory>
    requires { (i : ℕ) → i < count → F.pre make.now i }
    ensures { IfOk result (λ pieces. AreMade F.Fn make.now count pieces.items) }
{
    let next = AtomicUsize::new(0);
    if threads < 2 {
        return take_pieces(alloc, &next, count, make);
    }
    let counter = &next;
    let work = move || -> Result<Vec<Piece<T>>, NoMemory>
        requires { (i : ℕ) → i < count → F.pre make.now i }
        ensures { IfOk result (λ pieces. AreMade F.Fn make.entry.now count pieces.items) }
    { crew(rt, alloc, threads, counter, count, make) };
    spread(rt, work)
}

/// Makes pieces of work in so many threads, 32 at most, and gives what came of each in the order of their numbers. The threads take
/// the pieces one after the other, so pieces may differ in length and threads in speed. The error is that of a piece, or want of
/// memory.
pub fn made_in_crew<R: Threads + Sync, T: Send + Drop, F: Fn(usize) -> Result<T, NoMemory> + Sync>(
    rt: &R,
    alloc: Global,
    threads: usize,
    count: usize,
    make: &F,
) -> Result<Vec<T>, NoMemory>
    requires ready { (i : ℕ) → i < count → F.pre make.now i }
    ensures { IfOk result (λ all. MakeAll F.Fn make.now count all.items) }
{
    let threads = threads.min(count).min(MOST_THREADS);
    let pieces = made_by(rt, alloc, threads, count, make)?;
    let slots = placed(alloc, count, pieces, make)?;
    in_order(alloc, slots, make)
}
