// The orders: a line is read, given to the ledger, and answered. A line that is no order is refused as bad and changes nothing.
use crate::lines::{
    Failure, ended, read_answer, read_definition, read_deletion, read_handing, read_question,
};
use crate::memory::Storage;
use ledger::{ENTRY_WORDS, ORDER_WORDS, Shown};
use refusal::Refusal;
use text::{put_listed, put_reply, put_shown, refuse};
use words::{room, word};

// The bytes of the longest reply and its newline.
pub const REPLY: usize = 61442;

// The first places of those that are lent, as many as a room has; no room has more.
fn first<T>(places: &mut [T], size: u64) -> &mut [T] {
    let count = places.len().min(size as usize);
    &mut places[..count]
}

impl Storage {
    ghost use Rattle.std.specs.Prelude.{◌≤◌};
    ghost use Rattle.text.specs.Put.{longest};

    // E: an empty ledger.
    fn clear(&mut self, line: &[u8]) -> Result<(), Refusal> {
        if line.len() != 1 {
            return Err(Refusal::BadLine);
        }
        ledger::empty(&mut self.head, &self.groups, &self.pairs)
    }

    // D: defines; the orders that go out.
    fn define(&mut self, line: &[u8]) -> Result<&[[u64; ORDER_WORDS]], Failure> {
        let order = read_definition(line).ok_or(Refusal::BadLine)?;
        let values = order.record()?;
        let count = ledger::define(
            &mut self.head,
            &mut self.groups,
            &mut self.pairs,
            order.asker,
            values,
            first(&mut self.orders, order.size),
        )?;
        Ok(first(&mut self.orders, count as u64))
    }

    // X: deletes; the orders that go out.
    fn delete(&mut self, line: &[u8]) -> Result<&[[u64; ORDER_WORDS]], Refusal> {
        let order = read_deletion(line).ok_or(Refusal::BadLine)?;
        let count = ledger::delete(
            &mut self.head,
            &mut self.groups,
            &mut self.pairs,
            order.asker,
            order.named,
            order.remove,
            order.deassign,
            order.radios,
            order.acknowledgement,
            first(&mut self.orders, order.size),
        )?;
        Ok(first(&mut self.orders, count as u64))
    }

    // A: a radio's answer.
    fn answer(&mut self, line: &[u8]) -> Result<(), Refusal> {
        let order = read_answer(line).ok_or(Refusal::BadLine)?;
        ledger::answer(
            &mut self.head,
            &self.groups,
            &mut self.pairs,
            order.radio,
            order.group,
            order.kind,
            order.result,
        )
    }

    // H: hands a group over.
    fn hand_over(&mut self, line: &[u8]) -> Result<(), Refusal> {
        let order = read_handing(line).ok_or(Refusal::BadLine)?;
        ledger::handover(
            &self.head,
            &mut self.groups,
            &self.pairs,
            order.asker,
            order.group,
            order.owners,
        )
    }

    // T: so many ticks; a refusal ends them.
    fn wait(&mut self, line: &[u8]) -> Result<(), Refusal> {
        let taken = word(line, 1, 4).ok_or(Refusal::BadLine)?;
        let count = ended(line, taken).ok_or(Refusal::BadLine)?;
        for _ in 0..count {
            ledger::tick(&self.head, &self.groups, &mut self.pairs)?;
        }
        Ok(())
    }

    // L: asker, group, room; the radios that are told.
    fn list(&mut self, line: &[u8]) -> Result<&[[u64; ENTRY_WORDS]], Refusal> {
        let question = read_question(line).ok_or(Refusal::BadLine)?;
        let taken = room(line, question.next).ok_or(Refusal::BadLine)?;
        let size = ended(line, taken).ok_or(Refusal::BadLine)?;
        let count = ledger::list(
            &self.head,
            &self.groups,
            &self.pairs,
            question.value.asker,
            question.value.group,
            first(&mut self.radios, size),
        )?;
        Ok(first(&mut self.radios, count as u64))
    }

    // S: asker, group.
    fn show(&self, line: &[u8]) -> Result<Shown, Refusal> {
        let taken = read_question(line).ok_or(Refusal::BadLine)?;
        let question = ended(line, taken).ok_or(Refusal::BadLine)?;
        ledger::show(
            &self.head,
            &self.groups,
            &self.pairs,
            question.asker,
            question.group,
        )
    }

    // The reply to a line, which is an order or a question, at the front of `out`: how many bytes it takes. What an order sends comes as its own
    // rows, so that no other room's are told.
    pub fn reply_to(&mut self, line: &[u8], out: &mut [u8; REPLY]) -> usize
        ensures { result ≤ longest }
    {
        match line.first() {
            Some(b'D') => match self.define(line) {
                Ok(orders) => put_listed(Ok(orders.len()), orders, out),
                Err(Failure::Order(refusal)) => refuse(refusal, out),
                Err(Failure::Frame(refused)) => house::refuse_at(refused.refusal, refused.bit, out),
            },
            Some(b'X') => match self.delete(line) {
                Ok(orders) => put_listed(Ok(orders.len()), orders, out),
                Err(refusal) => refuse(refusal, out),
            },
            Some(b'E') => put_reply(self.clear(line), out),
            Some(b'A') => put_reply(self.answer(line), out),
            Some(b'H') => put_reply(self.hand_over(line), out),
            Some(b'T') => put_reply(self.wait(line), out),
            Some(b'M') => put_reply(self.set_word(line), out),
            Some(b'L') => match self.list(line) {
                Ok(radios) => put_listed(Ok(radios.len()), radios, out),
                Err(refusal) => refuse(refusal, out),
            },
            Some(b'S') => put_shown(self.show(line), out),
            _ => refuse(Refusal::BadLine, out),
        }
    }
}
