// Whether a pad is old (W-212).
ghost use Rattle.std.specs.Prelude.{◌≡◌};
ghost use Rattle.hub.specs.Lent.{Listed, Columns, hub_of};
ghost use Rattle.replay_queries.specs.Asked.{old};

use hub::Head;
use replay_answers::Asked;

// The head alone tells it.
#[tactic(auto, unfolding(crate::specs::Asked::old))]
pub fn old(head: Head, payload: &[u8]) -> Asked
    ensures { (s : Listed) (t : Columns) → result ≡ old (hub_of head s t) payload.now }
{
    match payload {
        [p] => Asked::Truth(queries::is_old(head, *p)),
        _ => Asked::Nothing,
    }
}
