// The sizes of docs/HOST.md, and the numbers that stand for names in a state.

pub const GUESTS: usize = 4;

pub const PHYSICALS: usize = 16;

pub const PAGES: usize = numbers::PAGES as usize;

pub const ADDRESSES: usize = 64;

// Addresses from here on belong to the host.
pub const FIRST_RESERVED: u8 = 48;

pub const STEALTH: u8 = 7;

pub const SETS: usize = 8;

pub const WAYS: usize = 2;

pub const LINES: usize = SETS * WAYS;

pub const STEALTH_SET: usize = STEALTH as usize % SETS;

// Way 0 of that set.
pub const STEALTH_LINE: usize = WAYS * STEALTH_SET;

pub const SLOTS: usize = 8;

// The bytes of a state.
pub const SIZE: usize = 4755;

// The host's pages stand after the guests' first tables.
pub const FIRST_HOST_PAGE: u8 = GUESTS as u8;

pub const FIRST_FREE_PAGE: u8 = FIRST_HOST_PAGE + 4;

pub const OWNER_NONE: u8 = 0;

pub const OWNER_HOST: u8 = 1;

// Guest g is this plus g.
pub const OWNER_GUEST: u8 = 2;

pub const KIND_NONE: u8 = 0;

pub const KIND_DATA: u8 = 1;

pub const KIND_TABLE: u8 = 2;

pub const CACHEABLE: u8 = 1;

// The largest range of a call's first argument, and of its second.
pub const CALL_A_BOUND: u8 = ADDRESSES as u8;

pub const CALL_B_BOUND: u8 = PHYSICALS as u8;

// Marks and histories are below these.
pub const MARKS: u8 = 2;

pub const HISTORIES: u8 = WAYS as u8;

pub const WAITING: u8 = 0;

pub const RUNNING: u8 = 1;

// Write policies, and how many there are.
pub const WRITE_BACK: u8 = 0;

pub const WRITE_THROUGH: u8 = 1;

pub const POLICIES: u8 = 2;
