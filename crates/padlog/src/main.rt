// Document 01's padlog: "reads standard input, one sheet and then one batch", and prints a line per event and a last line. All its work is `log`, on
// lent slices, which holds the hub's arrays and lends them to each call; `main` reads and writes, and ends with an I/O error where a read or a write fails.
#![tactic(auto)]

ghost use Rattle.std.specs.Prelude.{◌≡◌, ◌+◌, ◌^◌, ◌≤◌, ◌<◌, length, IfOk};
ghost use Rattle.hub.specs.Lent.{hub_of};
ghost use Rattle.hub.specs.Holding.{listed_now, columns_now};
ghost use Rattle.lines.specs.Appending.{Appended};
ghost use Rattle.padlog.specs.Log.{Told, sheet_end, tally_of, last_line, rounds_of, rounds, log_of};

use hub::{Head, Listing, Store};
use lines::NEWLINE;
use rules::PumpAnswer;
use std::io;
use std::io::Read;

// "Allowance 0..65,535 steps"
const ALLOWANCE: u16 = 65535;
// the calls of pump that the text has room for
const ROUNDS: usize = 8;
// how a call ends: Full and Paused go on
const GOES_ON: u8 = 0;

const DRAINED: u8 = 1;

const STOPPED: u8 = 2;

// What a pump call answered. How it ends is a number as `tally_of` has it (`specs/Log.antt`), which the theorems above it rest on.
#[derive(Clone, Copy)]
pub struct Tally {
    pub ends: u8,
    pub refusal: u8,
    pub place: usize,
    pub events: usize,
    pub steps: usize,
}

fn tally_of(answer: PumpAnswer) -> Tally
    ensures { result ≡ tally_of answer }
{
    match answer {
        PumpAnswer::Drained(place, events, steps) => Tally {
            ends: DRAINED,
            refusal: 0,
            place,
            events,
            steps,
        },
        PumpAnswer::Full(place, events, steps) | PumpAnswer::Paused(place, events, steps) => Tally {
            ends: GOES_ON,
            refusal: 0,
            place,
            events,
            steps,
        },
        PumpAnswer::Refused(number, place, events, steps) => Tally {
            ends: STOPPED,
            refusal: number,
            place,
            events,
            steps,
        },
    }
}

// Where the sheet ends: "count, version, ..", and the rest is the batch.
#[tactic(auto, unfolding(crate::specs::Log::sheet_end))]
fn sheet_end(input: &[u8]) -> usize
    ensures { (result ≡ sheet_end input.now) × (result ≤ length input.now) }
{
    let len = input.len();
    if len < 2 {
        return len;
    }
    let end = usize::from(wire::read2(input, 0)) + 2;
    end.min(len)
}

// "The last line is DRAINED and all steps, or STOPPED, refusal and place"
#[tactic(auto, unfolding(crate::specs::Log::last_line, lines::specs::Text::drained_line))]
fn last(text: &mut [u8], at: usize, t: Tally, steps: usize) -> usize
    requires { (at + 50 ≤ length text.old) × (steps + t.steps < 2 ^ 32) }
    ensures { Appended 50 (last_line t steps) text.old at text.new result }
{
    if t.ends == DRAINED {
        lines::labelled(text, at, b"DRAINED ", (steps + t.steps) as u64, NEWLINE)
    } else {
        lines::stopped(text, at, t.refusal, t.place as u64)
    }
}

// The batch is pumped until it is drained or refused, and each call's events are printed behind those before.
#[tactic(auto, unfolding(crate::specs::Log::pump_all))]
fn pump_all(
    head: Head,
    listed: &Listing<'_>,
    lent: &mut Store<'_>,
    batch: &[u8],
    out: &mut [u8; 16384],
    text: &mut [u8; 559538],
) -> usize
    ensures { Told (rounds_of rounds (hub_of head
        (listed_now listed.now) (columns_now lent.old))
        batch.now 0 out.old 0) text.new result }
{
    let mut h = head;
    let mut place: usize = 0;
    let mut steps: usize = 0;
    let mut at: usize = 0;
    for n in 0..ROUNDS {
        let pumped = pump::pump(h, listed, lent, batch, place, out, ALLOWANCE);
        let t = tally_of(pumped.answer);
        at = lines::lines(text, at, out, t.events);
        if t.ends != GOES_ON {
            return last(text, at, t, steps);
        }
        h = pumped.head;
        place = t.place;
        steps += t.steps;
    }
    at
}

// padlog's text, at the start of a buffer, and how long it is.
fn log(input: &[u8], out: &mut [u8; 16384], text: &mut [u8; 559538]) -> usize
    ensures { Told (log_of input.now out.old) text.new result }
{
    let mut codes = [0u32; 208];
    let mut kinds = [0u8; 208];
    let mut names = [0u8; 208];
    let mut renames = [0u8; 208];
    let mut hasbutton = [false; 208];
    let mut hasaxis = [false; 208];
    let mut values = [0.0f32; 1109];
    let mut times = [0u64; 1109];
    let mut marks = [false; 627];
    let mut queuebytes = [0u8; 192];
    let mut queuecodes = [0u32; 64];
    let opened = desk::new_hub(
        0.75,
        0.5,
        false,
        true,
        true,
        &mut codes,
        &mut kinds,
        &mut names,
        &mut renames,
        &mut hasbutton,
        &mut hasaxis,
        &mut values,
        &mut times,
        &mut marks,
        &mut queuebytes,
        &mut queuecodes,
    );
    let fresh = opened.head;
    let end = sheet_end(input);
    let registered = desk::register(
        false,
        fresh,
        &mut codes,
        &mut kinds,
        &mut names,
        &mut hasbutton,
        &mut hasaxis,
        &mut values,
        &mut marks,
        &input[..end],
    );
    match registered.answer {
        Ok(_) => {
            let listed = Listing {
                codes: &codes,
                kinds: &kinds,
                names: &names,
                renames: &renames,
            };
            let mut lent = Store {
                hasbutton: &mut hasbutton,
                hasaxis: &mut hasaxis,
                values: &mut values,
                times: &mut times,
                marks: &mut marks,
                queuebytes: &mut queuebytes,
                queuecodes: &mut queuecodes,
            };
            pump_all(
                registered.head,
                &listed,
                &mut lent,
                &input[end..],
                out,
                text,
            )
        }
        Err(refusal) => { lines::labelled(text, 0, b"SHEET ", refusal.number as u64, NEWLINE) }
    }
}

// Reads until the buffer is full or the input ends, and answers how many bytes stand at its start.
fn read_full(stdin: &mut impl Read, input: &mut [u8]) -> io::Result<usize>
    ensures { IfOk result (λ n. n ≤ length input.new) }
{
    let mut done = 0;
    while done < input.len() {
        let n = stdin.read(&mut input[done..])?;
        if n == 0 {
            break;
        }
        done += n;
    }
    Ok(done)
}

// Reads and forgets, and answers whether something came.
fn skipped(stdin: &mut impl Read) -> io::Result<bool> {
    let mut rest = [0u8; 4096];
    let got = stdin.read(&mut rest)?;
    Ok(got > 0)
}

// What is left of the input changes nothing: where the buffer of `main` is full, the batch is too long already.
fn skip_all(stdin: &mut impl Read) -> io::Result<()> {
    for _ in 0..u64::MAX {
        if !skipped(stdin)? {
            break;
        }
    }
    Ok(())
}

// the longest sheet's 2 + 65,535 bytes, the longest batch's 16,384, and one more
fn input_buffer() -> [u8; 81922]
    ensures { 81922 ≡ length result }
{
    [0; 81922]
}

fn main(rt: HostRuntime) -> io::Result<()> {
    let mut input = input_buffer();
    let mut stdin = rt.stdin();
    let size = read_full(&mut stdin, &mut input)?;
    skip_all(&mut stdin)?;
    let mut out = [0u8; 16384];
    let mut text = [0u8; 559538];
    let n = log(&input[..size], &mut out, &mut text);
    rt.write_all(&text[..n])
}
