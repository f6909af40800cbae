// What comes back: DEFINE-ACK, CANCEL-ACK, ASSIGNING-ACK, DEASSIGNING-ACK and DELETE-ACK, each shortest, in the middle and longest.
use crate::held::{listed, ones, told};
use frame::Kind;
use frame::place::{assigning_ack, cancel_ack, deassigning_ack, define_ack, delete_ack, *};
use std::io;

// Table 20.
pub fn define_acks(rt: &impl Print) -> io::Result<()> {
    let kind = Kind::DefineAck;
    let mut r = ones();
    told(rt, "DEFINE-ACK, its O-bit 1", kind, r)?;
    r.place[define_ack::O_BIT] = 0;
    told(rt, "DEFINE-ACK, a call, an SNA", kind, r)?;
    r.place[define_ack::CALL_RELATED] = NO;
    told(rt, "DEFINE-ACK, an SNA", kind, r)?;
    r = listed(r, define_ack::GROUPS, 1, SSI_FORM);
    told(rt, "DEFINE-ACK, one SSI", kind, r)?;
    r = listed(r, define_ack::GROUPS, 11, EXTENDED_FORM);
    r.place[define_ack::CALL_RELATED] = YES;
    told(rt, "DEFINE-ACK, all there is", kind, r)
}

// Table 34.
pub fn cancel_acks(rt: &impl Print) -> io::Result<()> {
    let kind = Kind::CancelAck;
    let mut r = ones();
    told(rt, "CANCEL-ACK, a call", kind, r)?;
    r.place[cancel_ack::CALL_RELATED] = NO;
    told(rt, "CANCEL-ACK, an SNA", kind, r)?;
    r.place[cancel_ack::DEFINED_GROUP] = EXTENDED_FORM;
    told(rt, "CANCEL-ACK, all there is", kind, r)
}

// Table 24.
pub fn assigning_acks(rt: &impl Print) -> io::Result<()> {
    let kind = Kind::AssigningAck;
    let mut r = ones();
    r.place[assigning_ack::O_BIT] = 0;
    told(rt, "ASSIGNING-ACK, an SNA", kind, r)?;
    r = listed(ones(), assigning_ack::GROUPS, 2, SSI_FORM);
    told(rt, "ASSIGNING-ACK, a range", kind, r)?;
    r = listed(r, assigning_ack::GROUPS, 11, EXTENDED_FORM);
    told(rt, "ASSIGNING-ACK, all there is", kind, r)
}

// Table 26.
pub fn deassigning_acks(rt: &impl Print) -> io::Result<()> {
    let kind = Kind::DeassigningAck;
    let mut r = ones();
    told(rt, "DEASSIGNING-ACK, an SNA", kind, r)?;
    r = listed(r, deassigning_ack::GROUPS, 3, SSI_FORM);
    told(rt, "DEASSIGNING-ACK, two SSIs", kind, r)?;
    r = listed(r, deassigning_ack::GROUPS, 11, EXTENDED_FORM);
    told(rt, "DEASSIGNING-ACK, all there is", kind, r)
}

// Table 22.
pub fn delete_acks(rt: &impl Print) -> io::Result<()> {
    let kind = Kind::DeleteAck;
    let mut r = ones();
    r.place[delete_ack::O_BIT] = 0;
    told(rt, "DELETE-ACK, an SNA", kind, r)?;
    r = listed(r, delete_ack::GROUPS, 3, SSI_FORM);
    r.place[delete_ack::GROUPS + 1 + IDENTITY_PLACES] = EXTENDED_FORM;
    told(rt, "DELETE-ACK, an SSI and one with its extension", kind, r)?;
    r = listed(r, delete_ack::GROUPS, 11, EXTENDED_FORM);
    told(rt, "DELETE-ACK, all there is", kind, r)
}
