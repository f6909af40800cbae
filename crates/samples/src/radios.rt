// What goes to the radios and comes from them: ASSIGN, ASSIGNING-ACK, DEASSIGN and DEASSIGNING-ACK.
// Of each a shortest frame, a middle one and a longest, laid out by hand from its printed table.
use crate::held::three;
use crate::records::Fill;
use crate::records::Identity::{Extended, Sna, Ssi};
use frame::place::{assign, assigning_ack, deassign, deassigning_ack, *};
use frame::{Kind, Record};
use std::io;

// Table 23. Shortest: SNA 7.
// Stays: what the kinds' samples have in common is `three`; what is left is each kind's own records and frames.
pub fn assigns(rt: &impl Print) -> io::Result<()> {
    let shortest = frame::blank().list(assign::GROUPS, &[Sna(7)]);
    three(
        rt,
        "ASSIGN",
        Kind::Assign,
        [
            (shortest, 25, "50400700"),
            (middle_assign(), 124, "5049000005800001800001F228284E00"),
            (
                longest_assign(),
                691,
                "506A000003000004800001C00002200000B00000C800003C0000420000130000\
                14800005C00006200001B00001C800007C000082000023000024800009C0000A\
                37F303132333435363738393A3B3C3D3E3FBBEEAF37BC0",
            ),
        ],
    )
}

// SSI 5, and SSI 6 with extension 7; acknowledged call, name AB, class 6.
fn middle_assign() -> Record {
    frame::blank()
        .list(assign::GROUPS, &[Ssi(5), Extended(6, 7)])
        .put(assign::O_BIT, 1)
        .option(assign::ACKNOWLEDGED_CALL, YES)
        .option(assign::NAME, 2)
        .put(assign::LETTERS, 0x41)
        .put(assign::LETTERS + 1, 0x42)
        .option(assign::CLASS, 6)
}

// Ten groups, and all that an ASSIGN can carry.
fn longest_assign() -> Record {
    frame::blank()
        .ten(assign::GROUPS)
        .put(assign::O_BIT, 1)
        .option(assign::ACKNOWLEDGED_CALL, YES)
        .option(assign::BROADCAST, NO)
        .name(assign::NAME)
        .option(assign::ACKNOWLEDGEMENT, YES)
        .option(assign::CLASS, 6)
        .option(assign::LIFETIME, 3)
        .option(assign::TEMPORARY, 5)
        .option(assign::VISITED_EXTENSION, 0xABCDEF)
}

// Table 24. Shortest: SNA 7, accepted.
pub fn assigning_acks(rt: &impl Print) -> io::Result<()> {
    let shortest = frame::blank().list(assigning_ack::GROUPS, &[Sna(7)]);
    three(
        rt,
        "ASSIGNING-ACK",
        Kind::AssigningAck,
        [
            (shortest, 27, "50400700"),
            (middle_assigning_ack(), 72, "504500006440001B7E"),
            (
                longest_assigning_ack(),
                520,
                "506A000003000004800001C00002200000B00000C800003C0000420000130000\
                14800005C00006200001B00001C800007C000082000023000024800009C0000A\
                1C",
            ),
        ],
    )
}

// The range SSI 100 to 109, database overflow, detachment.
fn middle_assigning_ack() -> Record {
    frame::blank()
        .range(assigning_ack::GROUPS, Ssi(100), Ssi(109))
        .put(assigning_ack::RESULT, 3)
        .put(assigning_ack::O_BIT, 1)
        .option(assigning_ack::ATTACHMENT, NO)
}

// Ten groups, rejected, attachment.
fn longest_assigning_ack() -> Record {
    frame::blank()
        .ten(assigning_ack::GROUPS)
        .put(assigning_ack::RESULT, 1)
        .put(assigning_ack::O_BIT, 1)
        .option(assigning_ack::ATTACHMENT, YES)
}

// Table 25. Shortest: SNA 7.
pub fn deassigns(rt: &impl Print) -> io::Result<()> {
    let shortest = frame::blank().list(deassign::GROUPS, &[Sna(7)]);
    three(
        rt,
        "DEASSIGN",
        Kind::Deassign,
        [
            (shortest, 25, "50800700"),
            (middle_deassign(), 104, "508C01400000A000003000004C"),
            (
                longest_deassign(),
                518,
                "50AA000003000004800001C00002200000B00000C800003C0000420000130000\
                14800005C00006200001B00001C800007C000082000023000024800009C0000A\
                30",
            ),
        ],
    )
}

// SNA 1, SSI 2, and SSI 3 with extension 4; acknowledgement requested.
fn middle_deassign() -> Record {
    frame::blank()
        .list(deassign::GROUPS, &[Sna(1), Ssi(2), Extended(3, 4)])
        .put(deassign::O_BIT, 1)
        .option(deassign::ACKNOWLEDGEMENT, YES)
}

// Ten groups, acknowledgement requested.
fn longest_deassign() -> Record {
    frame::blank()
        .ten(deassign::GROUPS)
        .put(deassign::O_BIT, 1)
        .option(deassign::ACKNOWLEDGEMENT, YES)
}

// Table 26. Shortest: SNA 7, result 0.
pub fn deassigning_acks(rt: &impl Print) -> io::Result<()> {
    let shortest = frame::blank().list(deassigning_ack::GROUPS, &[Sna(7)]);
    three(
        rt,
        "DEASSIGNING-ACK",
        Kind::DeassigningAck,
        [
            (shortest, 28, "50800700"),
            (middle_deassigning_ack(), 70, "508900000540000194"),
            (
                longest_deassigning_ack(),
                518,
                "50AA000003000004800001C00002200000B00000C800003C0000420000130000\
                14800005C00006200001B00001C800007C000082000023000024800009C0000A\
                24",
            ),
        ],
    )
}

// SSI 5 and SSI 6, result 5.
fn middle_deassigning_ack() -> Record {
    frame::blank()
        .list(deassigning_ack::GROUPS, &[Ssi(5), Ssi(6)])
        .put(deassigning_ack::RESULT, 5)
}

// Ten groups, result 9.
fn longest_deassigning_ack() -> Record {
    frame::blank()
        .ten(deassigning_ack::GROUPS)
        .put(deassigning_ack::RESULT, 9)
}
