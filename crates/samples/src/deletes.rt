// What the desks send and await: DELETE and DELETE-ACK. Of each a shortest frame, a middle one and a longest, laid out by hand from its printed table;
// and a record of a DELETE that has no frame.
use crate::held::{again, three};
use crate::records::Fill;
use crate::records::Identity::{Extended, Sna, Ssi};
use frame::place::{delete, delete_ack, *};
use frame::{Kind, Record};
use std::io;

// Table 21.
pub fn deletes(rt: &impl Print) -> io::Result<()> {
    three(
        rt,
        "DELETE",
        Kind::Delete,
        [
            (shortest_delete(), 27, "52800740"),
            (middle_delete(), 76, "5281000005A0800004C0"),
            (
                longest_delete(),
                1024,
                "52AA000003000004800001C00002200000B00000C800003C0000420000130000\
                14800005C00006200001B00001C800007C000082000023000024800009C0000A\
                0D400005E00006100001980001A400006E00007100001D80001E400007E00008\
                1000021800022400008E000091000025800026400009E0000A100002980002A4",
            ),
        ],
    )?;
    let unlisted = middle_delete().put(delete::RADIOS, 0);
    again(
        rt,
        "DELETE, removed, no list, acknowledgement requested",
        Kind::Delete,
        unlisted,
        unlisted,
    )
}

// SNA 7, deleted, not removed.
fn shortest_delete() -> Record {
    frame::blank()
        .list(delete::GROUPS, &[Sna(7)])
        .put(delete::DELETED, YES)
        .put(delete::REMOVED, NO)
}

// SSI 5, not deleted, removed from SSI 9, acknowledgement requested.
fn middle_delete() -> Record {
    frame::blank()
        .list(delete::GROUPS, &[Ssi(5)])
        .put(delete::DELETED, NO)
        .put(delete::REMOVED, YES)
        .put(delete::O_BIT, 1)
        .list(delete::RADIOS, &[Ssi(9)])
        .option(delete::ACKNOWLEDGEMENT, YES)
}

// Ten groups, deleted, removed from ten radios, acknowledgement requested.
fn longest_delete() -> Record {
    frame::blank()
        .ten(delete::GROUPS)
        .put(delete::DELETED, YES)
        .put(delete::REMOVED, YES)
        .put(delete::O_BIT, 1)
        .ten(delete::RADIOS)
        .option(delete::ACKNOWLEDGEMENT, YES)
}

// Table 22. Shortest: SNA 7, result 0.
// Stays: what the kinds' samples have in common is `three`; what is left is each kind's own records and frames.
pub fn delete_acks(rt: &impl Print) -> io::Result<()> {
    let shortest = frame::blank().list(delete_ack::GROUPS, &[Sna(7)]);
    three(
        rt,
        "DELETE-ACK",
        Kind::DeleteAck,
        [
            (shortest, 29, "52800700"),
            (middle_delete_ack(), 95, "5289000005800001800001C4"),
            (
                longest_delete_ack(),
                519,
                "52AA000003000004800001C00002200000B00000C800003C0000420000130000\
                14800005C00006200001B00001C800007C000082000023000024800009C0000A\
                24",
            ),
        ],
    )
}

// SSI 5, and SSI 6 with extension 7; result 1.
fn middle_delete_ack() -> Record {
    frame::blank()
        .list(delete_ack::GROUPS, &[Ssi(5), Extended(6, 7)])
        .put(delete_ack::RESULT, 1)
}

// Ten groups, result 9.
// Stays: the places are each kind's own, whatever their names have in common.
fn longest_delete_ack() -> Record {
    frame::blank()
        .ten(delete_ack::GROUPS)
        .put(delete_ack::RESULT, 9)
}
