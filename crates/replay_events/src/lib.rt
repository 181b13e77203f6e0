// The operations of the oracle's scenario form (`oracle/README.md`) that send events or count, played on a hub that is lent: pump, with its report or without,
// update, insert, and the counter. The head goes in and comes back by value, the arrays are changed in place. Proved: answer, hub and every byte of the out
// buffer are what the operation's row of the table says (specs/Sent.antt), at the hub that head and arrays stand for, for every opcode and payload. By the
// calls' own contracts: a function here only picks the call and reads its numbers off the payload.
#![tactic(auto)]

ghost use Rattle.std.specs.Prelude.{◌≡◌, Bool, List, ℕ};
ghost use Rattle.hub.specs.Lent.{Listed, Columns, listed, columns, hub_of};
ghost use Rattle.rules.specs.Calls.{update_of, insert_of};
ghost use Rattle.replay_answers.specs.Told.{told};
ghost use Rattle.replay_events.specs.Sent.{sent, said_of, pumps, pumped_of, updated, inserted, counted, counted_of, sends, sent_of};

use columns::{Marks, QueueBytes, QueueCodes, Times, Values};
use hub::Head;
use numbers::Tilt;
use replay_answers::{Changed, Told};
use rules::PumpAnswer;

// the opcodes, in the order of `oracle/README.md`; no enum, since `sent_of` of specs/Sent.antt speaks of their numbers
const PUMP: u8 = 4;

const UPDATE: u8 = 5;

const INSERT: u8 = 6;

const INC: u8 = 8;

const RESET_COUNTER: u8 = 10;

const REPORT: u8 = 40;

// a pump's payload: place 4, out size 4, allowance 2, the batch
const OUT_SIZE_AT: usize = 4;

const ALLOWANCE_AT: usize = 8;

const BATCH_AT: usize = 10;

// ---- pump, with its report or without

// Whether an opcode is one of the two.
fn pumps(opcode: u8) -> bool
    ensures { result ≡ pumps opcode }
{
    matches!(opcode, PUMP | REPORT)
}

// What a pump answered, with its report where the operation tells it: refusals too.
fn said(reports: bool, answer: PumpAnswer, tilt: Tilt) -> Changed
    ensures { result ≡ said_of reports answer tilt }
{
    if reports {
        Changed::Reported(answer, tilt)
    } else {
        Changed::Pumped(answer)
    }
}

// An out size over the longest buffer is refused whatever it is, so the longest one stands for it.
#[tactic(auto, unfolding(crate::specs::Sent::pumped_of))]
fn pump<'s>(
    head: Head,
    codes: &'s [u32; 208],
    kinds: &'s [u8; 208],
    names: &'s [u8; 208],
    renames: &'s [u8; 208],
    hasbutton: &mut [bool; 208],
    hasaxis: &mut [bool; 208],
    values: &mut Values,
    times: &mut Times,
    marks: &mut Marks,
    queuebytes: &mut QueueBytes,
    queuecodes: &mut QueueCodes,
    reports: bool,
    payload: &[u8],
    out: &mut [u8],
) -> Told
    ensures { sent out.new (told result (listed codes.now kinds.now names.now renames.now)
        (columns hasbutton.new hasaxis.new values.new times.new marks.new
        queuebytes.new queuecodes.new))
        ≡ pumped_of (hub_of head (listed codes.now kinds.now names.now renames.now)
        (columns hasbutton.old hasaxis.old values.old times.old marks.old
        queuebytes.old queuecodes.old)) reports payload.now out.old }
{
    if payload.len() < BATCH_AT {
        return replay_answers::tell(head, Changed::Nothing);
    }
    let place = wire::read4(payload, 0) as usize;
    let size = (wire::read4(payload, OUT_SIZE_AT) as usize).min(out.len());
    let listing = hub::Listing {
        codes,
        kinds,
        names,
        renames,
    };
    let mut store = hub::Store {
        hasbutton,
        hasaxis,
        values,
        times,
        marks,
        queuebytes,
        queuecodes,
    };
    let r = pump::pump(
        head,
        &listing,
        &mut store,
        &payload[BATCH_AT..],
        place,
        &mut out[..size],
        wire::read2(payload, ALLOWANCE_AT),
    );
    replay_answers::tell(r.head, said(reports, r.answer, r.tilt))
}

// ---- update, insert, and the counter

fn update<'s>(
    head: Head,
    codes: &'s [u32; 208],
    kinds: &'s [u8; 208],
    hasbutton: &mut [bool; 208],
    hasaxis: &mut [bool; 208],
    values: &mut Values,
    times: &mut Times,
    marks: &mut Marks,
    event: &[u8],
) -> Told
    ensures { (names renames queuebytes queuecodes : List ℕ) →
        told result (listed codes.now kinds.now names renames)
        (columns hasbutton.new hasaxis.new values.new times.new marks.new queuebytes queuecodes)
        ≡ updated (update_of (hub_of head (listed codes.now kinds.now names renames)
        (columns hasbutton.old hasaxis.old values.old times.old marks.old queuebytes queuecodes))
        event.now) }
{
    let mut state = hub::State {
        hasbutton,
        hasaxis,
        values,
        times,
        marks,
    };
    let r = calls::update(head, codes, kinds, &mut state, event);
    replay_answers::tell(r.head, Changed::Updated(r.answer))
}

fn insert(
    head: Head,
    codes: &[u32; 208],
    values: &mut Values,
    times: &mut Times,
    queuebytes: &mut QueueBytes,
    queuecodes: &mut QueueCodes,
    event: &[u8],
) -> Told
    ensures { (kinds names renames : List ℕ) (hasbutton hasaxis marks : List Bool) →
        told result (listed codes.now kinds names renames)
        (columns hasbutton hasaxis values.new times.new marks queuebytes.new queuecodes.new)
        ≡ inserted (insert_of (hub_of head (listed codes.now kinds names renames)
        (columns hasbutton hasaxis values.old times.old marks queuebytes.old queuecodes.old))
        event.now) }
{
    let r = calls::insert_event(head, codes, values, times, queuebytes, queuecodes, event);
    replay_answers::tell(r.head, Changed::Inserted(r.answer))
}

// The counter that a head has.
fn counted(head: Head) -> Told
    ensures { (s : Listed) (t : Columns) → told result s t ≡ counted (hub_of head s t) }
{
    replay_answers::tell(head, Changed::Counter(clock::counter(head)))
}

#[tactic(auto, unfolding(crate::specs::Sent::counted_of))]
fn count(head: Head, opcode: u8) -> Told
    ensures { (s : Listed) (t : Columns) → told result s t ≡ counted_of (hub_of head s t) opcode }
{
    match opcode {
        INC => counted(clock::inc(head)),
        RESET_COUNTER => counted(clock::reset_counter(head)),
        _ => replay_answers::tell(head, Changed::Nothing),
    }
}

// ---- any operation that sends events or counts

// Whether an opcode is a pump, an update, an insert, or a change of the counter.
#[tactic(auto, unfolding(crate::specs::Sent::sends))]
pub fn sends(opcode: u8) -> bool
    ensures { result ≡ sends opcode }
{
    matches!(
        opcode,
        PUMP | REPORT | UPDATE | INSERT | INC | RESET_COUNTER
    )
}

// Plays one of them.
#[tactic(auto, unfolding(crate::specs::Sent::sent_of))]
pub fn send<'s>(
    head: Head,
    codes: &'s [u32; 208],
    kinds: &'s [u8; 208],
    names: &'s [u8; 208],
    renames: &'s [u8; 208],
    hasbutton: &mut [bool; 208],
    hasaxis: &mut [bool; 208],
    values: &mut Values,
    times: &mut Times,
    marks: &mut Marks,
    queuebytes: &mut QueueBytes,
    queuecodes: &mut QueueCodes,
    opcode: u8,
    payload: &[u8],
    out: &mut [u8],
) -> Told
    ensures { sent out.new (told result (listed codes.now kinds.now names.now renames.now)
        (columns hasbutton.new hasaxis.new values.new times.new marks.new
        queuebytes.new queuecodes.new))
        ≡ sent_of (hub_of head (listed codes.now kinds.now names.now renames.now)
        (columns hasbutton.old hasaxis.old values.old times.old marks.old
        queuebytes.old queuecodes.old)) opcode payload.now out.old }
{
    // if by if: as a `match`, the proof of the last arm did not close
    if pumps(opcode) {
        return pump(
            head,
            codes,
            kinds,
            names,
            renames,
            hasbutton,
            hasaxis,
            values,
            times,
            marks,
            queuebytes,
            queuecodes,
            opcode == REPORT,
            payload,
            out,
        );
    }
    if opcode == UPDATE {
        return update(
            head, codes, kinds, hasbutton, hasaxis, values, times, marks, payload,
        );
    }
    if opcode == INSERT {
        return insert(head, codes, values, times, queuebytes, queuecodes, payload);
    }
    count(head, opcode)
}
