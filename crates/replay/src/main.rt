// Plays the oracle's scenario form (`oracle/README.md`) on the hub and prints what the oracle prints. It holds the hub's arrays and lends them to each operation,
// and reads one operation at a time, so its memory is bounded whatever the input's length.
#![tactic(auto)]

use columns::{Marks, QueueBytes, QueueCodes, Times, Values};
use hub::Head;
use replay_turns::Game;
use std::io;
use std::io::{Print, Read};

// the text is written out once so much of it stands; an operation adds at most 744 lines of events
const ENOUGH: usize = 131072;

// ---- writing

// What stands of the text is written out.
fn write(to: &impl Print, text: &[u8], at: usize) -> io::Result<()> {
    if at <= text.len() {
        to.write_all(&text[..at])?;
    }
    Ok(())
}

// The text is written out where it is long enough, and the place for what follows.
fn flushed(to: &impl Print, text: &[u8], at: usize) -> io::Result<usize> {
    if at < ENOUGH {
        Ok(at)
    } else {
        write(to, text, at)?;
        Ok(0)
    }
}

// ---- playing

// The head before the first `new`: no hub stands.
fn no_head() -> Head {
    Head {
        pressed: 0.0,
        released: 0.0,
        reversed: false,
        filters: false,
        updates: false,
        counter: 0,
        down: [0u64; 4],
        pads: 0,
        counts: [0u8; 4],
        connected: [false; 4],
        hats: [0u8; 4],
        converts: [false; 4],
        renamed: [false; 4],
        newhats: [0u8; 4],
        newconverts: [false; 4],
        held: [0u8; 4],
        heldaxes: [0u8; 4],
        flags: [false; 24],
        head: 0,
        waiting: 0,
    }
}

// One operation, whose opcode and payload were read.
fn played(
    g: Game,
    codes: &mut [u32; 208],
    kinds: &mut [u8; 208],
    names: &mut [u8; 208],
    renames: &mut [u8; 208],
    hasbutton: &mut [bool; 208],
    hasaxis: &mut [bool; 208],
    values: &mut Values,
    times: &mut Times,
    marks: &mut Marks,
    queuebytes: &mut QueueBytes,
    queuecodes: &mut QueueCodes,
    opcode: u8,
    payload: &[u8],
    out: &mut [u8],
    text: &mut [u8],
) -> Game {
    if replay_turns::changes(g.stands, opcode) {
        let told = replay_turns::change(
            g.head, codes, kinds, names, renames, hasbutton, hasaxis, values, times, marks,
            queuebytes, queuecodes, opcode, payload, out,
        );
        return replay_turns::after(told, opcode, out, text, g.at);
    }
    replay_turns::query(
        g, codes, kinds, names, renames, hasbutton, hasaxis, values, times, marks, opcode, payload,
        text,
    )
}

// Every operation of the input, and the rest of the text at its end.
fn play_all(
    input: &mut impl Read,
    to: &impl Print,
    payload: &mut [u8],
    out: &mut [u8],
    text: &mut [u8],
) -> io::Result<()> {
    let mut codes = [0u32; 208];
    let mut kinds = [0u8; 208];
    let mut names = [0u8; 208];
    let mut renames = [0u8; 208];
    let mut hasbutton = [false; 208];
    let mut hasaxis = [false; 208];
    let mut values = [0.0f32; 1109];
    let mut times = [0u64; 1109];
    let mut marks = [false; 627];
    let mut queuebytes = [0u8; 192];
    let mut queuecodes = [0u32; 64];
    let mut g = Game {
        stands: false,
        head: no_head(),
        at: 0,
    };
    for _ in 0..u64::MAX {
        let Some((opcode, payload)) = reading::next(input, payload)? else {
            break;
        };
        g = played(
            g,
            &mut codes,
            &mut kinds,
            &mut names,
            &mut renames,
            &mut hasbutton,
            &mut hasaxis,
            &mut values,
            &mut times,
            &mut marks,
            &mut queuebytes,
            &mut queuecodes,
            opcode,
            payload,
            out,
            text,
        );
        g.at = flushed(to, text, g.at)?;
    }
    write(to, text, g.at)
}

fn main(rt: HostRuntime) -> io::Result<()> {
    let mut input = rt.stdin();
    let to = rt.stdout();
    let mut payload = [0u8; 17408];
    let mut out = [0u8; 16385];
    let mut text = [0u8; 262144];
    play_all(&mut input, &to, &mut payload, &mut out, &mut text)
}
