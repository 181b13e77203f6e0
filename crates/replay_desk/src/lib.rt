// The operations of the oracle's scenario form (`oracle/README.md`) that set a desk up, played on a hub that is lent: new, register, register_archived and
// rename. The head goes in and comes back by value, the arrays are changed in place. Proved: answer and hub are what the operation's row of the table says
// (specs/SetUp.antt), at the hub that head and arrays stand for, for every opcode and payload. By the calls' own contracts: a function here only picks the call
// and reads its numbers off the payload.
#![tactic(auto)]

ghost use Rattle.std.specs.Prelude.{◌≡◌, Bool, List, ℕ, Float};
ghost use Rattle.hub.specs.Lent.{listed, columns, hub_of};
ghost use Rattle.replay_answers.specs.Told.{told};
ghost use Rattle.replay_desk.specs.SetUp.{begun_of, registered_of, by_sheet, renamed_of, sets_up, set_up_of};

use columns::{Marks, QueueBytes, QueueCodes, Times, Values};
use hub::Head;
use replay_answers::{Changed, Told};

// the opcodes, in the order of `oracle/README.md`; no enum, since `set_up_of` of specs/SetUp.antt speaks of their numbers
pub const NEW: u8 = 1;

const REGISTER: u8 = 2;

const RENAME: u8 = 3;

const REGISTER_ARCHIVED: u8 = 43;

// the payload of `new`: pressed 4, released 4, flags 1
const RELEASED_AT: usize = 4;

const FLAGS_AT: usize = 8;

const NEW_SIZE: usize = 9;
// bits of the flags byte
const REVERSED: u8 = 1;

const FILTERS: u8 = 2;

const UPDATES: u8 = 4;

// ---- new

// A fresh hub, whatever the arrays held.
#[tactic(auto, unfolding(crate::specs::SetUp::begun_of))]
fn begin(
    head: Head,
    codes: &mut [u32; 208],
    kinds: &mut [u8; 208],
    names: &mut [u8; 208],
    renames: &mut [u8; 208],
    hasbutton: &mut [bool; 208],
    hasaxis: &mut [bool; 208],
    values: &mut Values,
    times: &mut Times,
    marks: &mut Marks,
    queuebytes: &mut QueueBytes,
    queuecodes: &mut QueueCodes,
    payload: &[u8],
) -> Told
    ensures { told result (listed codes.new kinds.new names.new renames.new)
        (columns hasbutton.new hasaxis.new values.new times.new marks.new
        queuebytes.new queuecodes.new)
        ≡ begun_of (hub_of head (listed codes.old kinds.old names.old renames.old)
        (columns hasbutton.old hasaxis.old values.old times.old marks.old
        queuebytes.old queuecodes.old)) payload.now }
{
    if payload.len() != NEW_SIZE {
        return replay_answers::tell(head, Changed::Nothing);
    }
    let flags = payload[FLAGS_AT];
    let r = desk::new_hub(
        binary32::of_bits(wire::read4(payload, 0)),
        binary32::of_bits(wire::read4(payload, RELEASED_AT)),
        flags / REVERSED % 2 == 1,
        flags / FILTERS % 2 == 1,
        flags / UPDATES % 2 == 1,
        codes,
        kinds,
        names,
        renames,
        hasbutton,
        hasaxis,
        values,
        times,
        marks,
        queuebytes,
        queuecodes,
    );
    replay_answers::tell(r.head, Changed::Begun(r.answer))
}

// ---- by a sheet

// A new sheet, or an archived one.
#[tactic(auto, unfolding(crate::specs::SetUp::registered_of))]
fn register(
    archived: bool,
    head: Head,
    codes: &mut [u32; 208],
    kinds: &mut [u8; 208],
    names: &mut [u8; 208],
    hasbutton: &mut [bool; 208],
    hasaxis: &mut [bool; 208],
    values: &mut Values,
    marks: &mut Marks,
    sheet: &[u8],
) -> Told
    ensures { (renames times queuebytes queuecodes : List ℕ) →
        told result (listed codes.new kinds.new names.new renames)
        (columns hasbutton.new hasaxis.new values.new times marks.new queuebytes queuecodes)
        ≡ registered_of archived (hub_of head (listed codes.old kinds.old names.old renames)
        (columns hasbutton.old hasaxis.old values.old times marks.old queuebytes queuecodes))
        sheet.now }
{
    let r = desk::register(
        archived, head, codes, kinds, names, hasbutton, hasaxis, values, marks, sheet,
    );
    replay_answers::tell(r.head, Changed::Registered(r.answer))
}

// Register or register_archived.
#[tactic(auto, unfolding(crate::specs::SetUp::by_sheet))]
fn by_sheet(
    head: Head,
    codes: &mut [u32; 208],
    kinds: &mut [u8; 208],
    names: &mut [u8; 208],
    hasbutton: &mut [bool; 208],
    hasaxis: &mut [bool; 208],
    values: &mut Values,
    marks: &mut Marks,
    opcode: u8,
    sheet: &[u8],
) -> Told
    ensures { (renames times queuebytes queuecodes : List ℕ) →
        told result (listed codes.new kinds.new names.new renames)
        (columns hasbutton.new hasaxis.new values.new times marks.new queuebytes queuecodes)
        ≡ by_sheet (hub_of head (listed codes.old kinds.old names.old renames)
        (columns hasbutton.old hasaxis.old values.old times marks.old queuebytes queuecodes))
        opcode sheet.now }
{
    match opcode {
        REGISTER => register(
            false, head, codes, kinds, names, hasbutton, hasaxis, values, marks, sheet,
        ),
        REGISTER_ARCHIVED => register(
            true, head, codes, kinds, names, hasbutton, hasaxis, values, marks, sheet,
        ),
        _ => replay_answers::tell(head, Changed::Nothing),
    }
}

// ---- rename

// Pad 1, the names.
#[tactic(auto, unfolding(crate::specs::SetUp::renamed_of))]
fn rename<'s>(
    head: Head,
    codes: &'s [u32; 208],
    kinds: &'s [u8; 208],
    renames: &mut [u8; 208],
    payload: &[u8],
) -> Told
    ensures { (names times queuebytes queuecodes : List ℕ) (hasbutton hasaxis marks : List Bool) (values : List Float) →
        told result (listed codes.now kinds.now names renames.new)
        (columns hasbutton hasaxis values times marks queuebytes queuecodes)
        ≡ renamed_of (hub_of head (listed codes.now kinds.now names renames.old)
        (columns hasbutton hasaxis values times marks queuebytes queuecodes)) payload.now }
{
    let Some((p, list)) = payload.split_first() else {
        return replay_answers::tell(head, Changed::Nothing);
    };
    let r = desk::rename(head, codes, kinds, renames, *p, list);
    replay_answers::tell(r.head, Changed::Renamed(r.answer))
}

// ---- any operation that sets a desk up

// Whether an opcode is new, register, register_archived or rename.
#[tactic(auto, unfolding(crate::specs::SetUp::sets_up))]
pub fn sets_up(opcode: u8) -> bool
    ensures { result ≡ sets_up opcode }
{
    matches!(opcode, NEW | REGISTER | REGISTER_ARCHIVED | RENAME)
}

// Plays one of them.
#[tactic(auto, unfolding(crate::specs::SetUp::set_up_of))]
pub fn set_up(
    head: Head,
    codes: &mut [u32; 208],
    kinds: &mut [u8; 208],
    names: &mut [u8; 208],
    renames: &mut [u8; 208],
    hasbutton: &mut [bool; 208],
    hasaxis: &mut [bool; 208],
    values: &mut Values,
    times: &mut Times,
    marks: &mut Marks,
    queuebytes: &mut QueueBytes,
    queuecodes: &mut QueueCodes,
    opcode: u8,
    payload: &[u8],
) -> Told
    ensures { told result (listed codes.new kinds.new names.new renames.new)
        (columns hasbutton.new hasaxis.new values.new times.new marks.new
        queuebytes.new queuecodes.new)
        ≡ set_up_of (hub_of head (listed codes.old kinds.old names.old renames.old)
        (columns hasbutton.old hasaxis.old values.old times.old marks.old
        queuebytes.old queuecodes.old)) opcode payload.now }
{
    match opcode {
        NEW => begin(
            head, codes, kinds, names, renames, hasbutton, hasaxis, values, times, marks,
            queuebytes, queuecodes, payload,
        ),
        RENAME => rename(head, codes, kinds, renames, payload),
        _ => by_sheet(
            head, codes, kinds, names, hasbutton, hasaxis, values, marks, opcode, payload,
        ),
    }
}
