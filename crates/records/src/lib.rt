// Records: the table of kinds (mode, call needed, limits of a and b), and the action that a record's eight bytes are.
#![tactic(auto)]

ghost use Rattle.std.specs.Prelude.{◌≡◌, ltb, eqb};
ghost use Rattle.laws.specs.Choice.{pick};
ghost use Rattle.model.specs.Sizes.{calls};
ghost use Rattle.model.specs.Records.{row_of, kind_of_call, kind_hcall, limit_kind, has_value, well_formed, within, fields_in, action_of, decode};
ghost use Rattle.records.specs.Table.{row_to};
ghost use Rattle.records.specs.Actions.{fields_from, action_to, decoded_of};

use host::{CALLS, Call, CallBytes, Guest, Pa, PinKind, Va};

// ---- the table

// The mode that a kind needs.
#[derive(Clone, Copy, PartialEq, Eq)]
pub enum Mode {
    Any,
    Waiting,
    Running,
}

// What a kind asks of pending calls: nothing; that the active guest's is exactly this one, with the record's a and b; that the active guest, or the
// guest that a names, has none; that the guest that a names has one.
#[derive(Clone, Copy, PartialEq, Eq)]
pub enum Need {
    Nothing,
    New,
    Del,
    Lswitch,
    Pin,
    Unpin,
    ActiveIdle,
    NamedIdle,
    NamedPending,
}

// What a kind asks: the mode; the call; a from a_from on and below a_below, and b likewise.
#[derive(Clone, Copy)]
pub struct Row {
    pub mode: Mode,
    pub need: Need,
    pub a_from: u8,
    pub a_below: u8,
    pub b_from: u8,
    pub b_below: u8,
}

const KINDS: usize = 16;

const RECORD: usize = reader::RECORD;

const ADDRESSES: u8 = host::ADDRESSES as u8;

const PHYSICALS: u8 = host::PHYSICALS as u8;

const GUESTS: u8 = host::GUESTS as u8;

const STEALTH: u8 = host::STEALTH;

const PIN_KINDS: u8 = 2;

const WRITE: u8 = 3;

const WRITE_HYPER: u8 = 4;

const HCALL: u8 = 10;

// A row that asks nothing, of no arguments.
const BARE: Row = Row {
    mode: Mode::Any,
    need: Need::Nothing,
    a_from: 0,
    a_below: 1,
    b_from: 0,
    b_below: 1,
};

const ROWS: [Row; KINDS] = [
    // silent
    BARE,
    // read
    Row {
        mode: Mode::Running,
        a_below: ADDRESSES,
        ..BARE
    },
    // read_hyper
    Row {
        mode: Mode::Waiting,
        a_below: ADDRESSES,
        ..BARE
    },
    // write
    Row {
        mode: Mode::Running,
        a_below: ADDRESSES,
        ..BARE
    },
    // write_hyper
    Row {
        mode: Mode::Waiting,
        a_below: ADDRESSES,
        ..BARE
    },
    // new
    Row {
        mode: Mode::Waiting,
        need: Need::New,
        a_below: ADDRESSES,
        b_below: PHYSICALS,
        ..BARE
    },
    // new_sm
    Row {
        mode: Mode::Waiting,
        need: Need::New,
        a_from: STEALTH,
        a_below: STEALTH + 1,
        b_below: PHYSICALS,
        ..BARE
    },
    // del
    Row {
        mode: Mode::Waiting,
        need: Need::Del,
        a_below: ADDRESSES,
        ..BARE
    },
    // switch
    Row {
        mode: Mode::Waiting,
        need: Need::NamedIdle,
        a_below: GUESTS,
        ..BARE
    },
    // lswitch
    Row {
        mode: Mode::Waiting,
        need: Need::Lswitch,
        a_below: PHYSICALS,
        ..BARE
    },
    // hcall: a and b as the call
    Row {
        mode: Mode::Running,
        ..BARE
    },
    // ret_ctrl
    Row {
        mode: Mode::Running,
        ..BARE
    },
    // chmod
    Row {
        mode: Mode::Waiting,
        need: Need::ActiveIdle,
        ..BARE
    },
    // pin
    Row {
        mode: Mode::Waiting,
        need: Need::Pin,
        a_below: PHYSICALS,
        b_below: PIN_KINDS,
        ..BARE
    },
    // unpin
    Row {
        mode: Mode::Waiting,
        need: Need::Unpin,
        a_below: PHYSICALS,
        ..BARE
    },
    // drop
    Row {
        mode: Mode::Waiting,
        need: Need::NamedPending,
        a_below: GUESTS,
        ..BARE
    },
];

// The kind whose arguments a call has: of none, those of silent.
const KIND_OF_CALL: [u8; CALLS as usize] = [0, 5, 7, 9, 13, 14];

// The row of a kind; past the last kind that of silent. A kind stays the byte that it is in a record: what is promised holds of every byte.
pub fn row_of(kind: u8) -> Row
    ensures { result ≡ row_to (row_of kind) }
{
    *ROWS.get(usize::from(kind)).unwrap_or(&BARE)
}

// Past the last call it is 0, that of silent.
pub fn kind_of_call(call: u8) -> u8
    ensures { result ≡ kind_of_call call }
{
    *KIND_OF_CALL.get(usize::from(call)).unwrap_or(&0)
}

// a and b are within the limits of a kind.
pub fn within_of(kind: u8, a: u8, b: u8) -> bool
    ensures { result ≡ within (row_of kind) a b }
{
    let row = row_of(kind);
    (row.a_from..row.a_below).contains(&a) && (row.b_from..row.b_below).contains(&b)
}

// ---- actions

#[derive(Clone, Copy)]
pub enum Action {
    Silent,
    Read(Va),
    ReadHyper(Va),
    Write(Va, u32),
    WriteHyper(Va, u32),
    New(Va, Pa),
    NewSm(Pa),
    Del(Va),
    Switch(Guest),
    Lswitch(Pa),
    Hcall(Call),
    RetCtrl,
    Chmod,
    Pin(Pa, PinKind),
    Unpin(Pa),
    Drop(Guest),
}

// ---- the fields of a record

#[derive(Clone, Copy)]
struct Fields {
    kind: u8,
    a: u8,
    b: u8,
    call: u8,
    value: u32,
}

impl Fields {
    // The value is four bytes, low byte first.
    fn of(r: &[u8; RECORD]) -> Fields
        ensures { fields_from result ≡ fields_in r.now }
    {
        let [kind, a, b, call, v0, v1, v2, v3] = *r;
        let value = u32::from_le_bytes([v0, v1, v2, v3]);
        Fields {
            kind,
            a,
            b,
            call,
            value,
        }
    }

    // Only hcall has a call.
    fn call_known(self) -> bool
        ensures { result ≡ pick (eqb self.kind kind_hcall) (ltb self.call calls) (eqb self.call 0) }
    {
        if self.kind == HCALL {
            self.call < CALLS
        } else {
            self.call == 0
        }
    }

    // The kind whose limits the arguments keep: for hcall that of the call's action.
    fn limit_kind(self) -> u8
        ensures { result ≡ limit_kind (fields_from self) }
    {
        if self.kind == HCALL {
            kind_of_call(self.call)
        } else {
            self.kind
        }
    }

    // Only the two writes have a value.
    fn has_value(self) -> bool
        ensures { result ≡ has_value self.kind }
    {
        self.kind == WRITE || self.kind == WRITE_HYPER
    }

    // Known kind and call, arguments in range, unused fields zero.
    fn well_formed(self) -> bool
        ensures { result ≡ well_formed (fields_from self) }
    {
        usize::from(self.kind) < KINDS
            && self.call_known()
            && within_of(self.limit_kind(), self.a, self.b)
            && (self.has_value() || self.value == 0)
    }

    fn action(self) -> Action
        ensures { result ≡ action_to (action_of (fields_from self)) }
    {
        let Fields {
            kind,
            a,
            b,
            call,
            value,
        } = self;
        match kind {
            1 => Action::Read(Va(a)),
            2 => Action::ReadHyper(Va(a)),
            3 => Action::Write(Va(a), value),
            4 => Action::WriteHyper(Va(a), value),
            5 => Action::New(Va(a), Pa(b)),
            6 => Action::NewSm(Pa(b)),
            7 => Action::Del(Va(a)),
            8 => Action::Switch(Guest(a)),
            9 => Action::Lswitch(Pa(a)),
            10 => Action::Hcall(Call::from(CallBytes { number: call, a, b })),
            11 => Action::RetCtrl,
            12 => Action::Chmod,
            13 => Action::Pin(Pa(a), PinKind::from(b)),
            14 => Action::Unpin(Pa(a)),
            15 => Action::Drop(Guest(a)),
            _ => Action::Silent,
        }
    }
}

// The action whose record these bytes are.
pub fn decode(r: &[u8]) -> Option<Action>
    ensures { result ≡ decoded_of (decode r.now) }
{
    let fields = Fields::of(r.as_array()?);
    fields.well_formed().then(|| fields.action())
}
