// The card's geometry: its limits, a sector's address and the one after it, and the geometry that 91H asks for (document 01, "What is lent" and "Commands").
#![tactic(auto)]

pub mod addresses;
pub mod limits;
pub mod next;
pub mod shape;

// 01, "Commands": the code of a bad head or sector, of a bad cylinder or LBA, and of a geometry that 91H refuses.
pub const BAD_HEAD_OR_SECTOR_CODE: u8 = 0x21;

pub const BAD_CYLINDER_OR_LBA_CODE: u8 = 0x2F;

pub const BAD_GEOMETRY_CODE: u8 = 0x21;

#[derive(Clone, Copy)]
pub struct Geometry {
    pub cylinders: u16,
    pub sectors: u16,
    pub heads: u16,
}

// The address registers: Sector Number, Cylinder Low, Cylinder High, Drive/Head.
#[derive(Clone, Copy)]
pub struct Address {
    pub sector: u8,
    pub low: u8,
    pub high: u8,
    pub head: u8,
}

// Where a sector stands in the store, and how many remain from there to the end of what its way of addressing reaches, that one among them.
#[derive(Clone, Copy)]
pub struct Spot {
    pub index: usize,
    pub remain: usize,
}

// The test of an address that failed.
#[derive(Clone, Copy, Debug, PartialEq, Eq)]
pub enum BadAddress {
    HeadOrSector,
    Cylinder,
    Lba,
}
