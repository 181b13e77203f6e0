// Repeat, which goes by time.
ghost use Rattle.std.specs.Prelude.{◌≡◌, Bool, List, ℕ};
ghost use Rattle.hub.specs.Lent.{listed, columns, hub_of};
ghost use Rattle.replay_queries.specs.Asked.{repeated};

use columns::{Marks, Times, Values};
use hub::{Buttons, Head};
use replay_answers::Asked;

// the payload: after 8, every 8, now 8
const PAYLOAD: usize = 24;

#[tactic(auto, unfolding(crate::specs::Asked::repeated))]
pub fn repeat<'s>(
    head: Head,
    codes: &[u32; 208],
    names: &'s [u8; 208],
    renames: &'s [u8; 208],
    hasbutton: &[bool; 208],
    values: &Values,
    times: &Times,
    marks: &Marks,
    payload: &[u8],
) -> Asked
    ensures { (kinds queuebytes queuecodes : List ℕ) (hasaxis : List Bool) →
        result ≡ repeated (hub_of head (listed codes.now kinds names.now renames.now)
        (columns hasbutton.now hasaxis values.now times.now marks.now queuebytes queuecodes))
        payload.now }
{
    if payload.len() != PAYLOAD {
        return Asked::Nothing;
    }
    let buttons = Buttons {
        hasbutton,
        values,
        times,
        marks,
    };
    Asked::Repeat(clock::repeat(
        head,
        codes,
        names,
        renames,
        &buttons,
        wire::read8(payload, 0),
        wire::read8(payload, 8),
        wire::read8(payload, 16),
    ))
}
