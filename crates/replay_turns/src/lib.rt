// One operation of the oracle's scenario form (`oracle/README.md`) with its lines, by what it does to the hub: one that changes it, and one that leaves it as
// it is. Proved: which operations change the hub, and answer, hub and out buffer after one (specs/Changed.antt), by what `replay_desk` and `replay_events`
// promise; and what either prints, with what stands after it (specs/Shown.antt), by what `replay_lines` and `replay_dump` promise.
#![tactic(auto)]

ghost use Rattle.std.specs.Prelude.{◌≡◌, List, ℕ};
ghost use Rattle.hub.specs.Lent.{listed, columns, hub_of};
ghost use Rattle.replay_answers.specs.Told.{told};
ghost use Rattle.replay_events.specs.Sent.{sent};
ghost use Rattle.replay_words.specs.Pieces.{written};
ghost use Rattle.replay_turns.specs.Changed.{changes_of, changed_of};
ghost use Rattle.replay_turns.specs.Shown.{begun_of, stands_after, shown, after_of, behind_of, queried_of};

use columns::{Marks, QueueBytes, QueueCodes, Times, Values};
use hub::Head;
use replay_answers::{Changed, Told};
use replay_desk::NEW;

// an opcode, and no enum of them, since `changes_of` of specs/Changed.antt speaks of their numbers
const DUMP: u8 = 24;

// Between two operations: whether a hub stands, its head, and the place behind the text so far. No Option: `shown` and `queried_of` of specs/Shown.antt name each.
#[derive(Clone, Copy)]
pub struct Game {
    pub stands: bool,
    pub head: Head,
    pub at: usize,
}

// ---- operations that change the hub

// Whether an operation changes the hub: but for `new` it needs one that stands.
#[tactic(auto, unfolding(crate::specs::Changed::changes_of))]
pub fn changes(stands: bool, opcode: u8) -> bool
    ensures { result ≡ changes_of stands opcode }
{
    opcode == NEW || stands && (replay_desk::sets_up(opcode) || replay_events::sends(opcode))
}

// An operation that changes the hub.
#[tactic(auto, unfolding(crate::specs::Changed::changed_of))]
pub fn change(
    head: Head,
    codes: &mut [u32; 208],
    kinds: &mut [u8; 208],
    names: &mut [u8; 208],
    renames: &mut [u8; 208],
    hasbutton: &mut [bool; 208],
    hasaxis: &mut [bool; 208],
    values: &mut Values,
    times: &mut Times,
    marks: &mut Marks,
    queuebytes: &mut QueueBytes,
    queuecodes: &mut QueueCodes,
    opcode: u8,
    payload: &[u8],
    out: &mut [u8],
) -> Told
    ensures { sent out.new (told result (listed codes.new kinds.new names.new renames.new)
        (columns hasbutton.new hasaxis.new values.new times.new marks.new
        queuebytes.new queuecodes.new))
        ≡ changed_of (hub_of head (listed codes.old kinds.old names.old renames.old)
        (columns hasbutton.old hasaxis.old values.old times.old marks.old
        queuebytes.old queuecodes.old)) opcode payload.now out.old }
{
    if replay_desk::sets_up(opcode) {
        replay_desk::set_up(
            head, codes, kinds, names, renames, hasbutton, hasaxis, values, times, marks,
            queuebytes, queuecodes, opcode, payload,
        )
    } else {
        replay_events::send(
            head, codes, kinds, names, renames, hasbutton, hasaxis, values, times, marks,
            queuebytes, queuecodes, opcode, payload, out,
        )
    }
}

// Whether a hub stands after `new`: it may have been refused, or be no operation of the form.
fn begun(answer: Changed) -> bool
    ensures { result ≡ begun_of answer }
{
    matches!(answer, Changed::Begun(Ok(())))
}

// Whether a hub stands after an operation that changes it.
fn stands_after(opcode: u8, answer: Changed) -> bool
    ensures { result ≡ stands_after opcode answer }
{
    opcode != NEW || begun(answer)
}

// The lines of what an operation that changes the hub told.
pub fn after(told: Told, opcode: u8, out: &[u8], text: &mut [u8], at: usize) -> Game
    ensures { shown result text.new ≡ after_of told opcode out.now (written text.old at) }
{
    Game {
        stands: stands_after(opcode, told.answer),
        head: told.head,
        at: replay_lines::call_lines(text, at, out, told.answer),
    }
}

// ---- operations that leave the hub as it is

// The same game, with more text.
fn behind(g: Game, at: usize) -> Game
    ensures { result ≡ behind_of g at }
{
    Game { at, ..g }
}

// The dump, or a query; without a hub it says so.
pub fn query<'s>(
    g: Game,
    codes: &'s [u32; 208],
    kinds: &[u8; 208],
    names: &'s [u8; 208],
    renames: &'s [u8; 208],
    hasbutton: &[bool; 208],
    hasaxis: &[bool; 208],
    values: &Values,
    times: &Times,
    marks: &Marks,
    opcode: u8,
    payload: &[u8],
    text: &mut [u8],
) -> Game
    ensures { (queuebytes queuecodes : List ℕ) →
        shown result text.new ≡ queried_of g (hub_of g.head (listed codes.now kinds.now names.now renames.now)
        (columns hasbutton.now hasaxis.now values.now times.now marks.now queuebytes queuecodes))
        opcode payload.now text.old }
{
    let head = g.head;
    let at = g.at;
    if !g.stands {
        return behind(g, lines::append(text, at, b"NO HUB\n"));
    }
    if opcode == DUMP {
        return behind(
            g,
            replay_dump::dump(
                head, codes, hasbutton, hasaxis, values, times, marks, text, at,
            ),
        );
    }
    let answer = replay_queries::ask(
        head, codes, kinds, names, renames, hasbutton, hasaxis, values, times, marks, opcode,
        payload,
    );
    behind(g, replay_lines::query_line(text, at, answer))
}
