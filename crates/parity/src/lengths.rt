// The lengths that a message and its buffers may have.
ghost use Rattle.std.specs.Prelude.{◌≡◌};
ghost use Rattle.parity_rules.specs.Messages.{seven_or_fourteen};
ghost use Rattle.parity_rules.specs.Correction.{sized};

// Whether a number of bytes is that of a message.
pub fn seven_or_fourteen(n: usize) -> bool
    ensures { result ≡ seven_or_fourteen n }
{
    if n == 7 {
        return true;
    }
    n == 14
}

// Whether a message has one of the two lengths and its mark buffer and the two lent buffers have it too.
pub fn sized(n: usize, marks: usize, out: usize, places: usize) -> bool
    ensures { result ≡ sized n marks out places }
{
    if marks != n {
        return false;
    }
    if out != n {
        return false;
    }
    let is_other = places != n;
    if is_other {
        return false;
    }
    seven_or_fourteen(n)
}
