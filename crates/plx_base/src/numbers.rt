//! Numbers with names of their own.

/// A block of the device, counted from 0.
#[derive(Clone, Copy, PartialEq, Eq, Default)]
pub struct BlockNo(pub u64);

/// An image slot, counted from 0.
#[derive(Clone, Copy, PartialEq, Eq)]
pub struct SlotNo(pub u32);

/// An extent, counted from 0.
#[derive(Clone, Copy, PartialEq, Eq)]
pub struct ExtentNo(pub u32);

/// An appliance, counted from 0.
#[derive(Clone, Copy, PartialEq, Eq)]
pub struct ApplianceNo(pub u32);

/// The number of one start of an appliance. No two starts have the same.
#[derive(Clone, Copy, PartialEq, Eq)]
pub struct Boot(pub u128);
