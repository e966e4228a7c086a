// A small heap, before and after a collection: objects that share, a cycle, and garbage.
use crate::failure::Failure;
use heap::Heap;
use refusal::Refusal;
use std::io;

// Words in each of the heap's buffers.
const WORDS: usize = 32;

// Makes the objects and answers the root words: a list and what two objects share.
fn fill(heap: &mut Heap) -> Result<[u32; 3], Refusal> {
    let garbage = heap.make(1, 1)?;
    let first = heap.make(2, 1)?;
    let second = heap.make(2, 0)?;
    let shared = heap.make(0, 2)?;
    // Two objects that name each other, and one that both name.
    heap.store(first, 0, second)?;
    heap.store(first, 1, shared)?;
    heap.store(second, 0, first)?;
    heap.store(second, 1, shared)?;
    // Plain fields: numbers that no collection changes, though one looks like a place.
    heap.store(first, 2, 100)?;
    heap.store(shared, 0, first)?;
    // Garbage may name live objects; nothing names it.
    heap.store(garbage, 0, first)?;
    Ok([second, 0, shared])
}

fn show(rt: &HostRuntime, when: &str, heap: &Heap, roots: &[u32]) -> io::Result<()> {
    let used = heap.used();
    let words = heap.words();
    println!(rt; "{when}: roots {roots:?}")?;
    println!(rt; "{when}: used {used}: {words:?}")
}

pub(crate) fn heap_demo(rt: &HostRuntime) -> Result<(), Failure> {
    let memory = rt.alloc();
    let words = vec![in memory; 0u32; WORDS]?;
    let idle = vec![in memory; 0u32; WORDS]?;
    let starts = vec![in memory; false; WORDS]?;
    let mut heap = Heap::new(words, idle, starts)?;
    let mut roots = fill(&mut heap)?;
    show(rt, "before", &heap, &roots)?;
    heap.collect(&mut roots)?;
    Ok(show(rt, "after", &heap, &roots)?)
}
