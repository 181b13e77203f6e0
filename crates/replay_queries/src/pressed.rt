// What is down on a pad, and its lowest pressed code (W-213).
ghost use Rattle.std.specs.Prelude.{◌≡◌, List, ℕ};
ghost use Rattle.hub.specs.Lent.{Listed, Columns, listed, hub_of};
ghost use Rattle.replay_queries.specs.Asked.{down, lowest};

use hub::Head;
use replay_answers::Asked;

// The head alone has it.
#[tactic(auto, unfolding(crate::specs::Asked::down))]
pub fn down(head: Head, payload: &[u8]) -> Asked
    ensures { (s : Listed) (t : Columns) → result ≡ down (hub_of head s t) payload.now }
{
    match payload {
        [p] => Asked::Down(queries::down(head, *p)),
        _ => Asked::Nothing,
    }
}

// The head tells its place; its line is that of a name's code.
#[tactic(auto, unfolding(crate::specs::Asked::lowest))]
pub fn lowest(head: Head, codes: &[u32; 208], payload: &[u8]) -> Asked
    ensures { (kinds names renames : List ℕ) (t : Columns) →
        result ≡ lowest (hub_of head (listed codes.now kinds names renames) t) payload.now }
{
    match payload {
        [p] => Asked::Code(queries::lowest_pressed(head, codes, *p)),
        _ => Asked::Nothing,
    }
}
