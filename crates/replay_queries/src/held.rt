// Since when a button is held (W-206).
ghost use Rattle.std.specs.Prelude.{◌≡◌, Bool, List, ℕ};
ghost use Rattle.hub.specs.Lent.{listed, columns, hub_of};
ghost use Rattle.replay_queries.specs.Asked.{since};

use columns::{Marks, Times, Values};
use hub::{Buttons, Head};
use replay_answers::Asked;

// the payload: pad 1, code 4
const PAYLOAD: usize = 5;

// Its record by code, of which the line says `since` alone.
#[tactic(auto, unfolding(crate::specs::Asked::since))]
pub fn since(
    head: Head,
    codes: &[u32; 208],
    hasbutton: &[bool; 208],
    values: &Values,
    times: &Times,
    marks: &Marks,
    payload: &[u8],
) -> Asked
    ensures { (kinds names renames queuebytes queuecodes : List ℕ) (hasaxis : List Bool) →
        result ≡ since (hub_of head (listed codes.now kinds names renames)
        (columns hasbutton.now hasaxis values.now times.now marks.now queuebytes queuecodes))
        payload.now }
{
    if payload.len() != PAYLOAD {
        return Asked::Nothing;
    }
    let p = payload[0];
    let code = wire::read4(payload, 1);
    let buttons = Buttons {
        hasbutton,
        values,
        times,
        marks,
    };
    Asked::Since(queries::button_data_by_code(head, codes, &buttons, p, code))
}
