// Answers a trace on standard input by the proved calls, a line for each line. Its pools have at most 64 frames.

#![tactic(auto)]

mod say;
mod store;

use lines::Reader;
use std::io;
use std::io::Read;
use store::Store;

fn main(rt: HostRuntime) -> io::Result<()> {
    let mut store = Store::new();
    let mut line = Reader::Start;
    let mut stdin = rt.reader();
    let mut input = [0; 4096];
    // Not `loop`: a proved loop has to end.
    for _ in 0..u64::MAX {
        let n = stdin.read(&mut input)?;
        if n == 0 {
            break;
        }
        for &byte in &input[..n] {
            if byte == b'\n' {
                store.answer(&rt, line.finish())?;
                line = Reader::Start;
            } else {
                line = line.step(byte);
            }
        }
    }
    // The last line may have no end.
    if line.is_begun() {
        store.answer(&rt, line.finish())?;
    }
    Ok(())
}
