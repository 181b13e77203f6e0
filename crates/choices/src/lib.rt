// And, or, a choice and a minimum as functions. Where a body would branch, its proof would have two cases from there on; a call leaves one.
#![tactic(auto)]

ghost use Rattle.std.specs.Prelude.{◌≡◌, cond, ◌&&◌, ◌||◌, min, ◌<◌};

// And, both sides worked out: a `&&` in a body costs its proof a branch.
pub fn both(a: bool, b: bool) -> bool
    ensures { result ≡ (a && b) }
{
    a & b
}

// Or, both sides worked out.
pub fn either(a: bool, b: bool) -> bool
    ensures { result ≡ (a || b) }
{
    a | b
}

// The first value where the test holds, else the other.
pub fn chosen<T: Copy>(test: bool, this: T, other: T) -> T
    ensures { result ≡ cond test this other }
{
    if test { this } else { other }
}

// The lesser of two lengths.
pub fn least(a: usize, b: usize) -> usize
    ensures { result ≡ min a b }
{
    a.min(b)
}

// A byte as an index, with its bound, which the conversion alone does not tell a caller's proof.
pub fn wide(x: u8) -> usize
    ensures { (result ≡ x) × (result < 256) }
{
    usize::from(x)
}
