// The deadzone calculation on numbers of the payload, and which of the three it was (W-205). It looks at no hub.
ghost use Rattle.std.specs.Prelude.{◌≡◌};
ghost use Rattle.replay_queries.specs.Asked.{calculated, pair};

use replay_answers::Asked;

// the payload: x 4, y 4, threshold 4
const Y_AT: usize = 4;

const THRESHOLD_AT: usize = 8;

const PAYLOAD: usize = 12;

// The calculation, where none of the three is a NaN.
#[tactic(auto, unfolding(crate::specs::Asked::calculated))]
fn calculated(x: f32, y: f32, threshold: f32) -> Asked
    ensures { result ≡ calculated x y threshold }
{
    if x.is_nan() || y.is_nan() || threshold.is_nan() {
        Asked::Nothing
    } else {
        Asked::Pair(scale::apply_deadzone(x, y, threshold))
    }
}

#[tactic(auto, unfolding(crate::specs::Asked::pair))]
pub fn pair(payload: &[u8]) -> Asked
    ensures { result ≡ pair payload.now }
{
    if payload.len() != PAYLOAD {
        return Asked::Nothing;
    }
    calculated(
        binary32::of_bits(wire::read4(payload, 0)),
        binary32::of_bits(wire::read4(payload, Y_AT)),
        binary32::of_bits(wire::read4(payload, THRESHOLD_AT)),
    )
}
