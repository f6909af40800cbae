// The lines of standard input: bytes are read as many as come, and a line is held until its end has come.
ghost use Rattle.std.specs.Prelude.{◌≡◌, ◌+◌, ◌-◌, ◌≤◌, length};

use memchr::memchr;
use std::io::{Error, ErrorKind, Read};

// How many bytes one read brings at most.
const BUFFER: usize = 4096;

// The longest line is a D with the longest house text, 457 bytes; one more shows that a line is too long.
const LINE: usize = 458;

// A read or a write failed, and that was told.
#[derive(Clone, Copy)]
pub struct Failed;

// The line that is held so far: the first `held` bytes. An array of fixed size: no heap.
#[derive(Drop)]
pub struct Line {
    bytes: [u8; LINE],
    held: usize,
    ghost within: { held ≤ length bytes },
}

impl Line {
    // No byte is held.
    pub fn new() -> Self
        ensures { result.held ≡ 0 }
    {
        Line {
            bytes: [0; LINE],
            held: 0,
        }
    }

    pub fn as_slice(&self) -> &[u8] {
        &self.bytes[..self.held]
    }

    // Lets go of the line, for the next.
    pub fn clear(&mut self)
        ensures { self.new.held ≡ 0 }
    {
        self.held = 0;
    }

    // Holds more bytes. What is over the room is not held: such a line is bad, whatever follows.
    fn hold(&mut self, more: &[u8]) {
        let count = more.len().min(LINE - self.held);
        let end = self.held + count;
        self.bytes[self.held..end].copy_from_slice(&more[..count]);
        self.held = end;
    }
}

// What one read brought, of which the bytes from `at` on and before `end` are still to be taken. An array of fixed size: no heap.
#[derive(Drop)]
pub struct Input {
    bytes: [u8; BUFFER],
    at: usize,
    end: usize,
    ghost within: { (at ≤ end) × (end ≤ length bytes) },
}

impl Input {
    // Nothing was read.
    pub fn new() -> Self
        ensures { (result.at ≡ 0) × (result.end ≡ 0) }
    {
        Input {
            bytes: [0; BUFFER],
            at: 0,
            end: 0,
        }
    }

    // Takes what was read up to the end of the line, which holds it: whether that end has come.
    pub fn take_line(&mut self, line: &mut Line) -> bool {
        let rest = &self.bytes[self.at..self.end];
        match memchr(b'\n', rest) {
            Some(count) => {
                line.hold(&rest[..count]);
                self.at += count + 1;
                true
            }
            None => {
                line.hold(rest);
                self.at = self.end;
                false
            }
        }
    }

    // Reads once, where all that was read is taken: whether the input goes on. An interrupted read brings nothing, and the next turn reads again.
    // Stays: echo's reads behind what it holds; this one and `tell` are alike in what they tell alone, each in its program's name.
    pub fn read_more(
        &mut self,
        rt: &impl Eprint,
        reader: &mut impl Read,
        line: &Line,
    ) -> Result<bool, Failed> {
        self.at = 0;
        self.end = 0;
        match reader.read(&mut self.bytes) {
            Ok(count) => {
                self.end = count;
                Ok(0 < count)
            }
            Err(error) => {
                if error.kind() == ErrorKind::Interrupted {
                    Ok(true)
                } else {
                    Err(tell(rt, error, line))
                }
            }
        }
    }
}

// Tells of a read that failed, with the reason, and of an unfinished line: nothing says that it was to end there, so it is no order.
fn tell(rt: &impl Eprint, error: Error, line: &Line) -> Failed {
    let _ = eprintln!(rt; "desk: standard input could not be read: {error}");
    if 0 < line.held {
        let _ = eprintln!(rt; "desk: the unfinished last line is not carried out");
    }
    Failed
}
