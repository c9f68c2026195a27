// The address found again from an uplink remainder.
ghost use Rattle.std.specs.Prelude.{◌≡◌, ◌<◌};
ghost use Rattle.frames_rules.specs.Answers.{address_said};
ghost use Rattle.frames_rules.specs.Addresses.{quotient_of, address_told};

// The quotient of a remainder times x^24 by the generator.
fn quotient(remainder: u32) -> u32
    requires { remainder < 16777216 }
    ensures { result ≡ quotient_of remainder }
{
    let mut q: u32 = 0;
    let mut r = remainder;
    for _ in 0..24u32 {
        let b = r / 0x80_0000;
        q = q * 2 + b;
        r = (r * 2) ^ (b * 0x1FF_F409);
    }
    q
}

// The number of 24 bits whose uplink overlay this is; nobody above 24 bits.
pub fn address_of(remainder: u32) -> Option<u32>
    ensures { address_said result ≡ address_told remainder }
{
    if 0x100_0000 <= remainder {
        return None;
    }
    Some(quotient(remainder))
}
