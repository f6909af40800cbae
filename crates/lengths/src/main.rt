#![tactic(auto)]

// The worked samples of docs/LENGTHS.md: records of each kind, and what is told of the length of each.
mod held;
mod orders;
mod replies;

use std::io;

fn main(rt: HostRuntime) -> io::Result<()> {
    orders::defines(&rt)?;
    replies::define_acks(&rt)?;
    orders::cancels(&rt)?;
    replies::cancel_acks(&rt)?;
    orders::assigns(&rt)?;
    replies::assigning_acks(&rt)?;
    orders::deassigns(&rt)?;
    replies::deassigning_acks(&rt)?;
    orders::deletes(&rt)?;
    replies::delete_acks(&rt)
}
