// Runs calls whose allocations fail, one after another.

use crate::holds;
use std::alloc::{AllocError, Global};
use std::test::Fail;

// More blocks than a process can have once the larger ones are taken.
const BLOCKS: usize = 100_000;

// The end of a call whose allocations fail.
#[derive(Clone, Copy)]
pub enum CallEnd {
    Done,
    OutOfMemory,
    Otherwise,
}

// The end of a call that returned this.
pub fn ended<T, E: PartialEq + Drop>(answer: &Result<T, E>, out_of_memory: E) -> CallEnd {
    match answer {
        Ok(_) => CallEnd::Done,
        Err(refused) if *refused == out_of_memory => CallEnd::OutOfMemory,
        Err(_) => CallEnd::Otherwise,
    }
}

pub fn done_if(is_so: bool) -> CallEnd {
    if is_so {
        CallEnd::Done
    } else {
        CallEnd::Otherwise
    }
}

// One block of each size, the last size first.
fn take_each(alloc: Global, sizes: &[usize]) -> Result<Vec<Vec<u8>>, AllocError> {
    let mut blocks: Vec<Vec<u8>> = Vec::with_capacity(alloc, sizes.len())?;
    for size in sizes.iter().rev() {
        blocks.push(Vec::with_capacity(alloc, *size)?)?;
    }
    Ok(blocks)
}

// All other memory that the process can have, down to the smallest block.
fn take_all(alloc: Global) -> Result<Vec<Vec<u8>>, AllocError> {
    let mut blocks: Vec<Vec<u8>> = Vec::with_capacity(alloc, BLOCKS)?;
    let mut size: usize = 1 << 46;
    for _ in 0..BLOCKS {
        match Vec::with_capacity(alloc, size) {
            Ok(block) => blocks.push(block)?,
            Err(_) => {
                if size < 2 {
                    break;
                }
                size /= 2;
            }
        }
    }
    Ok(blocks)
}

// The number of allocations of a call with these sizes: it runs out of memory as long as the
// process can allocate fewer of them, and succeeds once it can allocate all. This holds every block
// that the process can have, and then frees only the first ones of these sizes.
pub fn failing_allocations<F: Fn() -> CallEnd>(
    alloc: Global,
    sizes: &[usize],
    call: F,
) -> Result<usize, Fail>
    requires callable { F.IsAlwaysCallable call }
{
    for allowed in 0..=sizes.len() {
        let mut room = take_each(alloc, sizes)?;
        let rest = take_all(alloc)?;
        room.truncate(sizes.len().saturating_sub(allowed));
        let ended = call();
        drop(rest);
        drop(room);
        match ended {
            CallEnd::Done => return Ok(allowed),
            CallEnd::OutOfMemory => {}
            CallEnd::Otherwise => return Err("a failed allocation gave another answer".into()),
        }
    }
    Err("more allocations than sizes".into())
}

// Fails unless a call needs all allocations of these sizes.
pub fn check<F: Fn() -> CallEnd>(alloc: Global, sizes: &[usize], call: F) -> Result<(), Fail>
    requires callable { F.IsAlwaysCallable call }
{
    let needed = failing_allocations(alloc, sizes, call)?;
    holds(needed == sizes.len(), "fewer allocations than sizes")
}
