// What is asked: DEFINE, CANCEL, ASSIGN, DEASSIGN and DELETE, each shortest, in the middle and longest.
use crate::held::{listed, ones, told};
use frame::place::define::*;
use frame::place::{assign, cancel, deassign, delete, *};
use frame::{Kind, Record};
use std::io;

// Table 19.
pub fn defines(rt: &impl Print) -> io::Result<()> {
    let kind = Kind::Define;
    let mut r = ones();
    r.place[O_BIT] = 0;
    r.place[GIVEN] = NO;
    told(rt, "DEFINE, a call, no group", kind, r)?;
    r.place[CALL_RELATED] = NO;
    told(rt, "DEFINE, no call, no group", kind, r)?;
    r = listed(r, GROUPS, 1, SSI_FORM);
    r.place[GIVEN] = YES;
    told(rt, "DEFINE, one SSI", kind, r)?;
    told(rt, "DEFINE, radios of three forms", kind, middle_define())?;
    let full = listed(ones(), GROUPS, 11, EXTENDED_FORM);
    let full = listed(full, OWNERS, 11, EXTENDED_FORM);
    let mut full = listed(full, RADIOS, 11, EXTENDED_FORM);
    full.place[NAME] = 16;
    told(rt, "DEFINE, all there is", kind, full)
}

// A range of SSIs, owners not included, a name of five letters, assigned to three radios, acknowledgement requested.
fn middle_define() -> Record {
    let mut r = listed(ones(), GROUPS, 2, SSI_FORM);
    r.place[CALL_RELATED] = NO;
    r.place[SET_REFERENCE_GIVEN] = 0;
    r.place[OWNERS_INCLUDED] = NO;
    r.place[ACKNOWLEDGED_CALL_GIVEN] = 0;
    r.place[BROADCAST_GIVEN] = 0;
    r.place[NAME] = 5;
    r.place[RADIOS] = 4;
    r.place[RADIOS + 1 + IDENTITY_PLACES] = SSI_FORM;
    r.place[RADIOS + 1 + 2 * IDENTITY_PLACES] = EXTENDED_FORM;
    r.place[CLASS_GIVEN] = 0;
    r.place[LIFETIME_GIVEN] = 0;
    r.place[TEMPORARY_GIVEN] = 0;
    r
}

// Table 33.
pub fn cancels(rt: &impl Print) -> io::Result<()> {
    let kind = Kind::Cancel;
    let mut r = ones();
    told(rt, "CANCEL, a call, an SNA", kind, r)?;
    r.place[cancel::CALL_RELATED] = NO;
    r.place[cancel::DEFINED_GROUP] = SSI_FORM;
    r.place[cancel::EXISTING_GROUP] = SSI_FORM;
    told(rt, "CANCEL, two SSIs", kind, r)?;
    r.place[cancel::DEFINED_GROUP] = EXTENDED_FORM;
    r.place[cancel::EXISTING_GROUP] = EXTENDED_FORM;
    told(rt, "CANCEL, all there is", kind, r)
}

// Table 23.
pub fn assigns(rt: &impl Print) -> io::Result<()> {
    let kind = Kind::Assign;
    let mut r = ones();
    r.place[assign::O_BIT] = 0;
    told(rt, "ASSIGN, an SNA", kind, r)?;
    told(rt, "ASSIGN, a name and a class", kind, middle_assign())?;
    let mut full = listed(ones(), assign::GROUPS, 11, EXTENDED_FORM);
    full.place[assign::NAME] = 16;
    told(rt, "ASSIGN, all there is", kind, full)
}

// An SSI, and one with its extension; acknowledged call, a name of two letters, class of usage.
fn middle_assign() -> Record {
    let mut r = listed(ones(), assign::GROUPS, 3, SSI_FORM);
    r.place[assign::GROUPS + 1 + IDENTITY_PLACES] = EXTENDED_FORM;
    r.place[assign::BROADCAST_GIVEN] = 0;
    r.place[assign::NAME] = 2;
    r.place[assign::ACKNOWLEDGEMENT_GIVEN] = 0;
    r.place[assign::LIFETIME_GIVEN] = 0;
    r.place[assign::TEMPORARY_GIVEN] = 0;
    r.place[assign::VISITED_EXTENSION_GIVEN] = 0;
    r
}

// Table 25.
pub fn deassigns(rt: &impl Print) -> io::Result<()> {
    let kind = Kind::Deassign;
    let mut r = ones();
    r.place[deassign::O_BIT] = 0;
    told(rt, "DEASSIGN, an SNA", kind, r)?;
    r = listed(ones(), deassign::GROUPS, 4, SNA_FORM);
    r.place[deassign::GROUPS + 1 + IDENTITY_PLACES] = SSI_FORM;
    r.place[deassign::GROUPS + 1 + 2 * IDENTITY_PLACES] = EXTENDED_FORM;
    told(rt, "DEASSIGN, groups of three forms", kind, r)?;
    r = listed(ones(), deassign::GROUPS, 11, EXTENDED_FORM);
    told(rt, "DEASSIGN, all there is", kind, r)
}

// Table 21.
pub fn deletes(rt: &impl Print) -> io::Result<()> {
    let kind = Kind::Delete;
    let mut r = ones();
    r.place[delete::REMOVED] = NO;
    r.place[delete::O_BIT] = 0;
    told(rt, "DELETE, an SNA", kind, r)?;
    r = listed(ones(), delete::GROUPS, 1, SSI_FORM);
    r = listed(r, delete::RADIOS, 1, SSI_FORM);
    told(rt, "DELETE, an SSI from an SSI", kind, r)?;
    r = listed(ones(), delete::GROUPS, 11, EXTENDED_FORM);
    r = listed(r, delete::RADIOS, 11, EXTENDED_FORM);
    told(rt, "DELETE, all there is", kind, r)
}
