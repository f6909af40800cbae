#![tactic(auto)]

// The desk of a yard: one ledger order a line on standard input, one reply a line.
mod input;
mod lines;
mod memory;
mod orders;

use input::{Failed, Input, Line};
use memory::Storage;
use orders::REPLY;
use std::io::Read;

// Writes a reply and a newline out. Where that fails it is told, with the reason.
// Stays: echo has one alike; each program tells in its own name, and a crate between the two would promise nothing.
fn send(rt: &(impl Print + Eprint), reply: &[u8]) -> Result<(), Failed> {
    match rt.write_all(reply) {
        Ok(()) => Ok(()),
        Err(error) => {
            let _ = eprintln!(rt; "desk: standard output could not be written: {error}");
            Err(Failed)
        }
    }
}

// Answers a line, and lets go of it.
fn answer(
    rt: &(impl Print + Eprint),
    storage: &mut Storage,
    line: &mut Line,
    out: &mut [u8; REPLY],
) -> Result<(), Failed> {
    let count = storage.reply_to(line.as_slice(), out);
    line.clear();
    out[count] = b'\n';
    send(rt, &out[..count + 1])
}

// Answers line by line. At the end of the input a last line that lacks its newline is answered too.
// A proved loop has to end, and nothing says that the input does: no run uses up so many turns.
fn attend(
    rt: &(impl Print + Eprint),
    reader: &mut impl Read,
    storage: &mut Storage,
    out: &mut [u8; REPLY],
) -> Result<(), Failed> {
    let mut input = Input::new();
    let mut line = Line::new();
    for _ in 0..u64::MAX {
        if input.take_line(&mut line) {
            answer(rt, storage, &mut line, out)?;
        } else if !input.read_more(rt, reader, &line)? {
            if line.as_slice().is_empty() {
                return Ok(());
            }
            return answer(rt, storage, &mut line, out);
        }
    }
    Ok(())
}

// The status is 0 also where a read or a write failed.
fn main(rt: HostRuntime) {
    let mut reader = rt.stdin();
    let mut storage = Storage::new();
    let mut out = [0u8; REPLY];
    let _ = attend(&rt, &mut reader, &mut storage, &mut out);
}
