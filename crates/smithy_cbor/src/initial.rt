//! Initial bytes: major types, and those that are written and read whole (RFC 8949, section 3).

pub(crate) const UNSIGNED: u8 = 0;

pub(crate) const NEGATIVE: u8 = 1;

pub(crate) const BYTES: u8 = 2;

pub(crate) const TEXT: u8 = 3;

pub(crate) const ARRAY: u8 = 4;

pub(crate) const MAP: u8 = 5;

pub(crate) const TAG: u8 = 6;

pub(crate) const SIMPLE: u8 = 7;

// The initial byte of an array of indefinite length.
pub(crate) const BEGIN_ARRAY: u8 = 0x9f;

// The initial byte of a map of indefinite length.
pub(crate) const BEGIN_MAP: u8 = 0xbf;

pub(crate) const FALSE_BYTE: u8 = 0xf4;

pub(crate) const TRUE_BYTE: u8 = 0xf5;

pub(crate) const NULL_BYTE: u8 = 0xf6;

// What ends an array or a map of indefinite length.
pub(crate) const BREAK: u8 = 0xff;

// The simple values (section 3.3).
pub(crate) const FALSE: u64 = 20;

pub(crate) const TRUE: u64 = 21;

pub(crate) const NULL: u64 = 22;

// The tags (section 3.4).
pub(crate) const EPOCH_SECONDS: u64 = 1;

pub(crate) const UNSIGNED_BIGNUM: u64 = 2;

pub(crate) const NEGATIVE_BIGNUM: u64 = 3;

pub(crate) const DECIMAL_FRACTION: u64 = 4;
