use sig_io::{Bytes, Sink};
use sig_run::{Open, Words, signals};
use std::alloc::{AllocError, Global};
use std::sync::Wait;
use std::thread::Threads;

/// The most bytes that a read gives.
pub const PIECE: usize = 64;

/// Runs the program with these words on an input of which the read with a number fails, counted from 1,
/// and none for 0.
pub fn run<R: Threads + Wait + Sync, K: Sink>(
    rt: &R,
    alloc: Global,
    words: &[&str],
    input: &[u8],
    failing: u64,
    output: &mut K,
) -> Result<u8, AllocError> {
    let mut line = Words::new(alloc);
    for word in words {
        line.push(word)?;
    }
    let content = Vec::from_slice(alloc, input)?;
    let mut source = Bytes::new(content, PIECE, vec![in alloc; failing]?);
    Ok(signals(rt, alloc, &line, &mut source, output, &Open))
}
