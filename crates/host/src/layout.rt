// Where each field stands, in the order of docs/STATE.md.
ghost use Rattle.std.specs.Prelude.{◌≡◌, false, IfSome, IfNone};
ghost use Rattle.laws.specs.Cut.{begin, size};
ghost use Rattle.host.specs.View.{sizes, listed};
ghost use Rattle.host.specs.Columns.{number_of};

use super::{ADDRESSES, Field, GUESTS, LINES, PAGES, PHYSICALS, SETS, SLOTS};

pub(crate) const OWNER_AT: usize = 0;

pub(crate) const KIND_AT: usize = OWNER_AT + PAGES;

pub(crate) const CACHEABLE_AT: usize = KIND_AT + PAGES;

pub(crate) const ENTRY_AT: usize = CACHEABLE_AT + PAGES;

pub(crate) const PHYSICAL_AT: usize = ENTRY_AT + PAGES * ADDRESSES;

pub(crate) const FREE_AT: usize = PHYSICAL_AT + GUESTS * PHYSICALS;

pub(crate) const CURRENT_AT: usize = FREE_AT + 8;

pub(crate) const CALL_AT: usize = CURRENT_AT + GUESTS;

pub(crate) const CALL_A_AT: usize = CALL_AT + GUESTS;

pub(crate) const CALL_B_AT: usize = CALL_A_AT + GUESTS;

pub(crate) const ACTIVE_AT: usize = CALL_B_AT + GUESTS;

pub(crate) const MODE_AT: usize = ACTIVE_AT + 1;

pub(crate) const LINE_ADDRESS_AT: usize = MODE_AT + 1;

pub(crate) const LINE_PAGE_AT: usize = LINE_ADDRESS_AT + LINES;

pub(crate) const HISTORY_AT: usize = LINE_PAGE_AT + LINES;

pub(crate) const SLOT_ADDRESS_AT: usize = HISTORY_AT + SETS;

pub(crate) const SLOT_PAGE_AT: usize = SLOT_ADDRESS_AT + SLOTS;

pub(crate) const MEMORY_AT: usize = SLOT_PAGE_AT + SLOTS;

pub(crate) const LINE_AT: usize = MEMORY_AT + 4 * PAGES;

pub(crate) const POLICY_AT: usize = LINE_AT + 4 * LINES;

// The fields that are lists of bytes, by their numbers in docs/STATE.md.
#[derive(Clone, Copy, PartialEq, Eq)]
pub(crate) enum Column {
    Owner = 0,
    Kind = 1,
    Cacheable = 2,
    Entry = 3,
    Physical = 4,
    Current = 6,
    Call = 7,
    CallA = 8,
    CallB = 9,
    LineAddress = 12,
    LinePage = 13,
    History = 14,
    SlotAddress = 15,
    SlotPage = 16,
}

impl Column {
    // Where it begins, and how many bytes it has.
    pub(crate) fn extent(self) -> Field
        ensures { (result.start ≡ begin sizes (number_of self)) × (result.size ≡ size sizes (number_of self)) }
    {
        let (start, size) = match self {
            Column::Owner => (OWNER_AT, PAGES),
            Column::Kind => (KIND_AT, PAGES),
            Column::Cacheable => (CACHEABLE_AT, PAGES),
            Column::Entry => (ENTRY_AT, PAGES * ADDRESSES),
            Column::Physical => (PHYSICAL_AT, GUESTS * PHYSICALS),
            Column::Current => (CURRENT_AT, GUESTS),
            Column::Call => (CALL_AT, GUESTS),
            Column::CallA => (CALL_A_AT, GUESTS),
            Column::CallB => (CALL_B_AT, GUESTS),
            Column::LineAddress => (LINE_ADDRESS_AT, LINES),
            Column::LinePage => (LINE_PAGE_AT, LINES),
            Column::History => (HISTORY_AT, SETS),
            Column::SlotAddress => (SLOT_ADDRESS_AT, SLOTS),
            Column::SlotPage => (SLOT_PAGE_AT, SLOTS),
        };
        Field { start, size }
    }

    // The one with this number, if it is a list of bytes.
    pub(crate) fn numbered(k: usize) -> Option<Column>
        ensures some { IfSome result (λ c. number_of c ≡ k) }
        ensures none { IfNone result (listed k ≡ false) }
    {
        let column = match k {
            0 => Column::Owner,
            1 => Column::Kind,
            2 => Column::Cacheable,
            3 => Column::Entry,
            4 => Column::Physical,
            6 => Column::Current,
            7 => Column::Call,
            8 => Column::CallA,
            9 => Column::CallB,
            12 => Column::LineAddress,
            13 => Column::LinePage,
            14 => Column::History,
            15 => Column::SlotAddress,
            16 => Column::SlotPage,
            _ => return None,
        };
        Some(column)
    }
}
