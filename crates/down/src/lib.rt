// What is down right now (W-213), kept beside the button records: of each pad the bits of its places, how many are set, and how many of those are axis elements'.
// A record that begins or ceases to read pressed moves one bit and one or two counts; nothing here counts records.
#![tactic(auto)]

ghost use Rattle.std.specs.Prelude.{◌≡◌, ◌≤◌, ◌<◌, get_or, set, eqb};
ghost use Rattle.rules.specs.Names.{places_per_pad};
ghost use Rattle.rules.specs.Sheets.{element_axis};
ghost use Rattle.rules.specs.Down.{put_bit, count_after, lowest_of};
ghost use Rattle.down.specs.Down.{change_of, was_of, is_of, Followed, Cleared, Joined};

use rules::{ELEMENT_AXIS, KIND_CONNECTED, PLACES_PER_PAD};

const MOST: u8 = PLACES_PER_PAD as u8;

// ---- how a record reads with an event, beside how it read before: one number, since the pump hands it on, and no enum, since `follow` answers for any (`was_of`, `is_of`)

const CEASES: u8 = 0;

pub const STILL: u8 = 1;

const BEGINS: u8 = 2;

// Whether the record begins or ceases to read pressed, or does neither.
pub fn change(was: bool, is: bool) -> u8
    ensures { result ≡ change_of was is }
{
    choices::chosen(
        was,
        choices::chosen(is, STILL, CEASES),
        choices::chosen(is, BEGINS, STILL),
    )
}

// ---- one number

// The bits with one of them as `v` says.
fn put_bit(bits: u64, place: usize, v: bool) -> u64
    requires { place < places_per_pad }
    ensures { result ≡ put_bit bits place v }
{
    let power = 1u64 << place as u64;
    if v {
        bits | power
    } else {
        bits - (bits & power)
    }
}

// One more is pressed, or one less.
#[tactic(auto, unfolding(rules::specs::Down::count_after))]
fn count_after(n: u8, v: bool) -> u8
    ensures { result ≡ count_after n v }
{
    if !v {
        n.saturating_sub(1)
    } else if n < MOST {
        n + 1
    } else {
        n
    }
}

// ---- a pad's numbers: past the end nothing changes

fn bit_in(numbers: &mut [u64], p: usize, place: usize, v: bool)
    requires { place < places_per_pad }
    ensures { numbers.new ≡ set numbers.old p (put_bit (get_or numbers.old p 0) place v) }
{
    pad::store(numbers, p, put_bit(pad::read(numbers, p, 0), place, v));
}

fn count_in(numbers: &mut [u8], p: usize, v: bool)
    ensures { numbers.new ≡ set numbers.old p (count_after (get_or numbers.old p 0) v) }
{
    pad::store(numbers, p, count_after(pad::read(numbers, p, 0), v));
}

// ---- the summary

// Moves the bit and the counts of place k, where its record begins or ceases to read pressed. The element's kind is asked for only there.
pub fn follow(
    kinds: &[u8; 208],
    down: &mut [u64; 4],
    held: &mut [u8; 4],
    heldaxes: &mut [u8; 4],
    k: usize,
    change: u8,
)
    ensures { Followed down.old held.old heldaxes.old k (was_of change) (is_of change)
        (eqb (get_or kinds.now k 0) element_axis) down.new held.new heldaxes.new }
{
    if change == STILL {
        return;
    }
    let is = change == BEGINS;
    let p = k / PLACES_PER_PAD;
    bit_in(down, p, k % PLACES_PER_PAD, is);
    count_in(held, p, is);
    if pad::kind_at(kinds, k) == ELEMENT_AXIS {
        count_in(heldaxes, p, is);
    }
}

// Nothing of a pad is down.
pub fn clear(down: &mut [u64; 4], held: &mut [u8; 4], heldaxes: &mut [u8; 4], pad: u8)
    ensures { Cleared down.old held.old heldaxes.old pad
        down.new held.new heldaxes.new }
{
    pad::store(down, pad as usize, 0);
    pad::set_pad(held, pad, 0);
    pad::set_pad(heldaxes, pad, 0);
}

// Nothing of a pad is down once it joins.
#[tactic(auto, unfolding(rules::specs::Step::down_cleared))]
pub fn join(down: &mut [u64; 4], held: &mut [u8; 4], heldaxes: &mut [u8; 4], pad: u8, kind: u8)
    ensures { Joined down.old held.old heldaxes.old pad kind
        down.new held.new heldaxes.new }
{
    if kind == KIND_CONNECTED {
        clear(down, held, heldaxes, pad);
    }
}

// The lowest place of a pad that is down, one past the last where none is.
pub fn lowest(down: &[u64; 4], pad: u8) -> usize
    ensures { (result ≡ lowest_of (get_or down.now pad 0)) × (result ≤ places_per_pad) }
{
    let zeros = pad::read(down, pad as usize, 0).trailing_zeros() as usize;
    choices::least(zeros, PLACES_PER_PAD)
}
