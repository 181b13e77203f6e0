// Judges a stored list of sheets, records and events, each with the pads that it meets, and prints the refusal of each: the list and its answers are
// those of an independent reader (`oracle/reader.py`, whose head says what a case is).
#![tactic(auto)]

use rules::{MALFORMED, PADS, PLACES_PER_PAD, Refusal};
use std::io;
use std::io::Print;

// the kinds of a case, and no enum: the list's own bytes, of which any other is an event that is given to the state
const ARCHIVED_SHEET: u8 = 1;

const RECORD: u8 = 2;

const INSERTED: u8 = 4;

const NEW_SHEET: u8 = 5;

// ---- the pads

// The pads of a case, and their places' codes and kinds.
#[derive(Drop)]
struct Pads {
    count: u8,
    codes: [u32; 208],
    kinds: [u8; 208],
}

impl Pads {
    // One pad more, with the places that its sheet gives it.
    fn register(&mut self, sheet: &[u8]) {
        if self.count >= PADS || sheets::sheet_refusal(true, sheet).is_err() {
            return;
        }
        let start = PLACES_PER_PAD * usize::from(self.count);
        self.count += 1;
        let rows = layout::rows_of(sheet);
        for (k, row) in rows.iter().enumerate() {
            self.codes[start + k] = row.code;
            self.kinds[start + k] = row.kind;
        }
    }
}

// The sheet that comes next, its length in 2 bytes and its bytes, and what stands behind it.
fn next_sheet(case: &[u8]) -> Option<(&[u8], &[u8])> {
    let (size, rest) = case.split_first_chunk::<2>()?;
    rest.split_at_checked(usize::from(u16::from_be_bytes(*size)))
}

// The pads of a case, whose number stands first, and what meets them.
fn pads_of(case: &[u8]) -> Option<(Pads, &[u8])> {
    let (count, mut rest) = case.split_first()?;
    let mut pads = Pads {
        count: 0,
        codes: [0; 208],
        kinds: [0; 208],
    };
    for _ in 0..*count {
        let Some((sheet, behind)) = next_sheet(rest) else {
            break;
        };
        pads.register(sheet);
        rest = behind;
    }
    Some((pads, rest))
}

// ---- what they meet: 8, 6, 9, 10, 11, 12, 13 where they apply

fn record_refusal(pads: &Pads, record: &[u8]) -> Result<(), Refusal> {
    let looked = wire::next_record(record, 0, 0);
    let place = pad::place_of(&pads.codes, looked.raw.pad, looked.raw.code);
    let kind = pad::kind_at(&pads.kinds, place);
    refusals::judge(refusals::record_refusal(looked, pads.count, kind))
}

fn event_refusal(pads: &Pads, event: &[u8], waiting: u8) -> Result<(), Refusal> {
    let Some(form) = wire::read_event(event) else {
        return refusals::judge(MALFORMED);
    };
    let place = pad::place_of(&pads.codes, form.pad, form.code);
    refusals::insert_refusal(form, pads.count, place, waiting)
}

fn met_refusal(kind: u8, case: &[u8]) -> Result<(), Refusal> {
    let Some((pads, met)) = pads_of(case) else {
        return refusals::judge(MALFORMED);
    };
    match kind {
        RECORD => record_refusal(&pads, met),
        // of an event that is inserted, the number of events that wait stands before it
        INSERTED => match met.split_first() {
            Some((waiting, event)) => event_refusal(&pads, event, *waiting),
            None => refusals::judge(MALFORMED),
        },
        _ => event_refusal(&pads, met, 0),
    }
}

// ---- the list

fn say(out: &impl Print, what: &str, answer: Result<(), Refusal>) -> io::Result<()> {
    match answer {
        Ok(()) => println!(out; "{what} ok"),
        Err(Refusal { number }) => println!(out; "{what} {number}"),
    }
}

fn judge(out: &impl Print, kind: u8, case: &[u8]) -> io::Result<()> {
    match kind {
        ARCHIVED_SHEET => say(out, "SHEET", sheets::sheet_refusal(true, case)),
        NEW_SHEET => say(out, "SHEET", sheets::sheet_refusal(false, case)),
        RECORD => say(out, "RECORD", met_refusal(kind, case)),
        _ => say(out, "EVENT", met_refusal(kind, case)),
    }
}

fn main(rt: HostRuntime) -> io::Result<()> {
    let mut input = rt.stdin();
    let out = rt.stdout();
    let mut room = [0u8; 4096];
    for _ in 0..u64::MAX {
        let Some((kind, case)) = reading::next(&mut input, &mut room)? else {
            break;
        };
        judge(&out, kind, case)?;
    }
    Ok(())
}
