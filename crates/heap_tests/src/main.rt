// Small heaps, call by call: what each call answers, and what the heap holds after a collection.
#![tactic(auto)]

use heap::Heap;
use refusal::Refusal;
use std::io;

#[derive(Clone, Copy, Debug)]
enum Call {
    Make(u32, u32),
    Load(u32, u32),
    Store(u32, u32, u32),
    // So many of the root words.
    Collect(usize, [u32; 4]),
}

// Prints a call's answer.
fn tell(rt: &HostRuntime, call: Call, answer: Result<u32, Refusal>) -> io::Result<()> {
    match answer {
        Ok(word) => println!(rt; "{call:?}: {word}"),
        Err(reason) => println!(rt; "{call:?}: refused {}, {reason:?}", reason.number()),
    }
}

// Collects, and prints the root words and the used words after it.
fn collect(rt: &HostRuntime, heap: &mut Heap, roots: &mut [u32]) -> io::Result<()> {
    if let Err(reason) = heap.collect(roots) {
        println!(rt; "Collect: refused {}, {reason:?}", reason.number())?;
    }
    println!(rt;
        "Collect: roots {roots:?} used {} words {:?}",
        heap.used(),
        heap.words()
    )
}

fn step(rt: &HostRuntime, heap: &mut Heap, call: Call) -> io::Result<()> {
    match call {
        Call::Make(refs, plain) => tell(rt, call, heap.make(refs, plain)),
        Call::Load(place, field) => tell(rt, call, heap.load(place, field)),
        Call::Store(place, field, word) => {
            tell(rt, call, heap.store(place, field, word).map(|()| word))
        }
        Call::Collect(count, mut roots) => collect(rt, heap, &mut roots[0..count.min(4)]),
    }
}

// The buffers of a heap: its words, the idle ones, and a flag for each word.
fn buffers(
    rt: &HostRuntime,
    first: usize,
    second: usize,
) -> io::Result<(Vec<u32>, Vec<u32>, Vec<bool>)> {
    let words = vec![in rt.alloc(); 0; first]?;
    let idle = vec![in rt.alloc(); 0; second]?;
    let starts = vec![in rt.alloc(); false; first]?;
    Ok((words, idle, starts))
}

// Plays calls on a new heap.
fn play(rt: &HostRuntime, first: usize, second: usize, calls: &[Call]) -> io::Result<()> {
    let (words, idle, starts) = buffers(rt, first, second)?;
    match Heap::new(words, idle, starts) {
        Ok(mut heap) => {
            println!(rt; "heap {first} {second}: capacity {}", heap.capacity())?;
            for call in calls {
                step(rt, &mut heap, *call)?;
            }
            Ok(())
        }
        Err(reason) => println!(rt; "heap {first} {second}: refused {}", reason.number()),
    }
}

// A chain of 8,000 objects, each naming the one before it; then an object of 383 words whose 255 pointer fields name the chain's first, and one of 1 word.
fn chain(heap: &mut Heap) -> Result<u32, Refusal> {
    let mut last = 0;
    for _ in 0..8_000 {
        let place = heap.make(1, 0)?;
        heap.store(place, 0, last)?;
        last = place;
    }
    let place = heap.make(255, 127)?;
    for field in 0..255 {
        heap.store(place, field, 1)?;
    }
    heap.make(0, 0)?;
    Ok(last)
}

// Collects the full heap of the chain from its far end, and then without the chain.
// Answers the root words after the first collection, the used words and the first object's field; then the used words and a field after the second.
fn full(mut heap: Heap) -> Result<[u32; 7], Refusal> {
    let mut roots = [chain(&mut heap)?, 16_384, 16_001];
    heap.collect(&mut roots)?;
    let used = heap.used() as u32;
    let named = heap.load(1, 0)?;
    let mut big = [roots[2]];
    heap.collect(&mut big)?;
    let left = heap.used() as u32;
    let last = heap.load(big[0], 254)?;
    Ok([roots[0], roots[1], roots[2], used, named, left, last])
}

// Objects (1, 1), (0, 2) and (0, 0), the first naming the second, collected from the first and from both the other way round.
fn orders(rt: &HostRuntime) -> io::Result<()> {
    let forth = [
        Call::Make(1, 1),
        Call::Make(0, 2),
        Call::Make(0, 0),
        Call::Store(1, 0, 4),
        Call::Store(1, 1, 7),
        Call::Store(4, 1, 4),
        Call::Collect(1, [1, 0, 0, 0]),
    ];
    play(rt, 16, 16, &forth)?;
    let back = [
        Call::Make(1, 1),
        Call::Make(0, 2),
        Call::Make(0, 0),
        Call::Store(1, 0, 4),
        Call::Collect(2, [4, 1, 0, 0]),
        Call::Collect(4, [0, 4, 4, 1]),
        Call::Collect(2, [0, 0, 0, 0]),
        Call::Make(0, 1),
        Call::Collect(0, [0, 0, 0, 0]),
    ];
    play(rt, 16, 16, &back)
}

// Calls that are refused, among others that are not.
fn refusals(rt: &HostRuntime) -> io::Result<()> {
    let calls = [
        Call::Make(1, 1),
        Call::Make(0, 2),
        Call::Make(0, 0),
        Call::Collect(4, [1, 0, 2, 3]),
        Call::Load(2, 0),
        Call::Load(8, 0),
        Call::Load(0, 0),
        Call::Load(1, 2),
        Call::Load(7, 0),
        Call::Store(5, 0, 0),
        Call::Store(1, 2, 0),
        Call::Store(1, 0, 2),
        Call::Store(1, 1, 2),
        Call::Load(1, 1),
        Call::Make(256, 0),
        Call::Make(0, 256),
        Call::Make(0, 9),
        Call::Make(0, 7),
        Call::Make(0, 1),
        Call::Make(0, 0),
        Call::Make(0, 0),
        Call::Collect(4, [7, 8, 1, 16]),
        Call::Collect(4, [1, 10, 2, 13]),
    ];
    play(rt, 16, 16, &calls)
}

// An object that names itself, and two that name each other.
fn cycles(rt: &HostRuntime) -> io::Result<()> {
    let calls = [
        Call::Make(0, 1),
        Call::Make(1, 0),
        Call::Make(1, 0),
        Call::Make(1, 0),
        Call::Store(3, 0, 3),
        Call::Store(5, 0, 7),
        Call::Store(7, 0, 5),
        Call::Collect(2, [7, 3, 0, 0]),
        Call::Collect(1, [5, 0, 0, 0]),
    ];
    play(rt, 16, 16, &calls)
}

fn main(rt: HostRuntime) -> io::Result<()> {
    orders(&rt)?;
    refusals(&rt)?;
    cycles(&rt)?;
    play(&rt, 15, 16, &[])?;
    play(&rt, 16_385, 1, &[])?;
    play(&rt, 16, 17, &[])?;
    let (words, idle, starts) = buffers(&rt, 16_384, 16_384)?;
    match Heap::new(words, idle, starts).and_then(full) {
        Ok(words) => println!(rt; "full heap: {words:?}"),
        Err(reason) => println!(rt; "full heap: refused {}", reason.number()),
    }
}
