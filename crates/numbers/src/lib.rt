// What several crates ask of numbers: how many slots count, and a number of 16 bits among those of 32.
#![tactic(auto)]

ghost use Rattle.std.specs.Prelude.{◌≡◌, ◌≤◌, min};

// How many slots count: the count, or all of them where the count is too large.
pub fn live(n: usize, room: usize) -> usize
    ensures { (result ≡ min n room) × (result ≤ room) }
{
    if n < room {
        return n;
    }
    room
}

// A number of 16 bits among those of 32.
pub fn wide(x: u16) -> u32
    ensures { result ≡ x }
{
    x as u32
}
