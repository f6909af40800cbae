#![tactic(auto)]

// Echoes house text: for each line of standard input A and the line made anew, or R, the refusal's number and its bit.
ghost use Rattle.std.specs.Prelude.{◌≡◌, ◌+◌, ◌≤◌, ◌<◌, length, take, IfOk, IfSome, OnOk};
ghost use Rattle.std.proofs.lemmas.List.Edits.{sets};
ghost use Rattle.echo.specs.Line.{newline_at, unfinished};
ghost use Rattle.echo.specs.Reply.{reply_to};
ghost use Rattle.echo.specs.Room.{longest_reply, most_held, filled_after};

use house::echo_line;
use memchr::memchr;
use std::io::{Error, ErrorKind, Read};
use std::mem;

// How many bytes a read brings at most, and how many of replies go out at once at most. Arrays of fixed size: no heap.
const BUFFER: usize = 65536;

// The longest reply: A, the 432 digits of the longest line, and a newline.
const REPLY: usize = 434;

// What is held of an unfinished line: one byte over the longest line makes it bad, whatever follows.
const HELD: usize = 433;

// A read or a write failed, and that was told.
#[derive(Clone, Copy)]
struct Failed;

// Where the text's first newline is: there its first line ends.
fn line_end(text: &[u8]) -> Option<usize>
    ensures first { result ≡ newline_at text.now }
    ensures within { IfSome result (λ end. end < length text.now) }
{
    // An empty line is told at once: a search by many bytes at a time would make it a quarter dearer.
    if text.first() == Some(&b'\n') {
        return Some(0);
    }
    memchr(b'\n', text)
}

// Puts the reply to a line and a newline at the front of `out`, and answers how many bytes they take.
fn reply(line: &[u8], out: &mut [u8]) -> usize
    requires { longest_reply ≤ length out.old }
    ensures upper_bound { (result ≤ longest_reply) × (result ≡ length (reply_to line.now)) }
    ensures out_after { out.new ≡ sets out.old 0 (reply_to line.now) }
{
    let count = echo_line(line, out);
    out[count] = b'\n';
    count + 1
}

// Writes replies out. Where that fails it is told, with the reason.
fn send(rt: &(impl Print + Eprint), replies: &[u8]) -> Result<(), Failed> {
    match rt.write_all(replies) {
        Ok(()) => Ok(()),
        Err(error) => {
            let _ = eprintln!(rt; "echo: standard output could not be written: {error}");
            Err(Failed)
        }
    }
}

// Tells of a read that failed, with the reason, and of an unfinished line: nothing says that it was to end there, so it gets no reply.
fn tell(rt: &impl Eprint, error: Error, held: usize) -> Failed {
    let _ = eprintln!(rt; "echo: standard input could not be read: {error}");
    if 0 < held {
        let _ = eprintln!(rt; "echo: the unfinished last line is not answered");
    }
    Failed
}

// Replies that are not yet written out: the first `filled` bytes, with room for one more reply behind them.
#[derive(Drop)]
struct Output {
    bytes: [u8; BUFFER],
    filled: usize,
    ghost room: { filled + longest_reply ≤ length bytes },
}

// Stays: the runtime is passed down under the narrowest bounds, and kept in no struct.
impl Output {
    // Answers a line behind what is filled, and writes all out where the next reply might not fit.
    fn answer(&mut self, rt: &(impl Print + Eprint), line: &[u8]) -> Result<(), Failed>
        ensures stored { self.new.bytes ≡ sets self.old.bytes self.old.filled (reply_to line.now) }
        ensures emptied { self.new.filled ≡ filled_after (self.old.filled + length (reply_to line.now)) }
    {
        let count = reply(line, &mut self.bytes[self.filled..]);
        let filled = self.filled + count;
        if filled + REPLY <= BUFFER {
            self.filled = filled;
            return Ok(());
        }
        self.filled = 0;
        send(rt, &self.bytes[..filled])
    }

    // Writes out what is filled: nothing is, then.
    fn flush(&mut self, rt: &(impl Print + Eprint)) -> Result<(), Failed>
        ensures { self.new.filled ≡ 0 }
    {
        let filled = mem::replace(&mut self.filled, 0);
        send(rt, &self.bytes[..filled])
    }
}

// Answers every whole line of the text, writes the replies out, and hands back what follows the last newline.
fn answer_lines<'a>(
    rt: &(impl Print + Eprint),
    text: &'a [u8],
    out: &mut Output,
) -> Result<&'a [u8], Failed>
    ensures left { IfOk result (λ rest. rest.now ≡ unfinished text.now) }
    ensures emptied { OnOk result (out.new.filled ≡ 0) }
{
    let mut rest = text;
    // Stays: no place is counted, and what is left of the text is handed back.
    while let Some(end) = line_end(rest) {
        let (line, behind) = rest.split_at(end);
        out.answer(rt, line)?;
        rest = &behind[1..];
    }
    out.flush(rt)?;
    Ok(rest)
}

// What was read. An unfinished line is held at the front, its first `held` bytes.
#[derive(Drop)]
struct Input {
    bytes: [u8; BUFFER],
    held: usize,
    ghost within: { held ≤ most_held },
}

impl Input {
    // Reads once, behind what is held: how many bytes there are then, or none where the input ended. An interrupted read adds none, and the
    // next turn reads again.
    fn read_more(
        &mut self,
        rt: &impl Eprint,
        reader: &mut impl Read,
    ) -> Result<Option<usize>, Failed>
        ensures { IfOk result (λ end. IfSome end (λ n. n ≤ length self.new.bytes)) }
    {
        let held = self.held;
        match reader.read(&mut self.bytes[held..]) {
            Ok(0) => Ok(None),
            Ok(count) => Ok(Some(held + count)),
            Err(error) => {
                if error.kind() == ErrorKind::Interrupted {
                    Ok(Some(held))
                } else {
                    Err(tell(rt, error, held))
                }
            }
        }
    }

    // Answers the whole lines of the first `end` bytes, and holds the rest.
    fn answer_all(
        &mut self,
        rt: &(impl Print + Eprint),
        end: usize,
        out: &mut Output,
    ) -> Result<(), Failed>
        requires { end ≤ length self.old.bytes }
        ensures kept { OnOk result (take self.new.held self.new.bytes ≡ take most_held (unfinished (take end self.old.bytes))) }
        ensures emptied { OnOk result (out.new.filled ≡ 0) }
    {
        let left = answer_lines(rt, &self.bytes[..end], out)?.len();
        let from = end - left;
        let held = left.min(HELD);
        self.bytes.copy_within(from..from + held, 0);
        self.held = held;
        Ok(())
    }

    // Answers the last line, if it lacks its newline.
    fn finish(&self, rt: &(impl Print + Eprint), out: &mut Output) -> Result<(), Failed>
        requires { out.old.filled ≡ 0 }
    {
        if self.held == 0 {
            return Ok(());
        }
        out.answer(rt, &self.bytes[..self.held])?;
        out.flush(rt)
    }
}

// A proved loop has to end, and nothing says that the input does: no run uses up so many turns.
fn echo_all(
    rt: &(impl Print + Eprint),
    reader: &mut impl Read,
    input: &mut Input,
    out: &mut Output,
) -> Result<(), Failed>
    requires { out.old.filled ≡ 0 }
{
    for _ in 0..u64::MAX {
        let Some(end) = input.read_more(rt, reader)? else {
            return input.finish(rt, out);
        };
        input.answer_all(rt, end, out)?;
    }
    Ok(())
}

// The status is 0 also where a read or a write failed.
fn main(rt: HostRuntime) {
    let mut reader = rt.stdin();
    let mut input = Input {
        bytes: [0u8; BUFFER],
        held: 0,
    };
    let mut out = Output {
        bytes: [0u8; BUFFER],
        filled: 0,
    };
    let _ = echo_all(&rt, &mut reader, &mut input, &mut out);
}
