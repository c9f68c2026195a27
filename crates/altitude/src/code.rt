// What the 13 bits of AC say of the altitude.
ghost use Rattle.std.specs.Prelude.{◌≡◌, ◌+◌, ◌*◌, ◌≤◌, ◌<◌};
ghost use Rattle.std.proofs.Math.IntN.{sub_ℕ};
ghost use Rattle.altitude_rules.specs.Code.{bit_at, eleven, eight, gray_value, five_hundreds, group, hundreds, altitude_said, altitude_told};

use altitude_rules::Altitude;
use refusals::Refusal;

// The places of AC's bits, the last being 0. Q's place is that of D1, which the 100 ft code leaves unused.
const C1: u32 = 12;

const A1: u32 = 11;

const C2: u32 = 10;

const A2: u32 = 9;

const C4: u32 = 8;

const A4: u32 = 7;

const M: u32 = 6;

const B1: u32 = 5;

const Q: u32 = 4;

const B2: u32 = 3;

const D2: u32 = 2;

const B4: u32 = 1;

const D4: u32 = 0;

// The number of hundreds that each C1 C2 C4 stands for, from 1 to 5, and 0 where it is no pattern of the code.
const PATTERNS: [u32; 8] = [0, 1, 3, 2, 5, 0, 4, 0];

// AC is a number of 13 bits.
const MOST: u32 = 8191;

// A bit of AC.
fn bit(ac: u32, place: u32) -> u32
    requires { place < 32 }
    ensures { (result ≡ bit_at place ac) × (result < 2) }
{
    (ac >> place) % 2
}

// The eleven bits besides M and Q: C1 to A4, B1, and B2 to D4.
fn eleven_bits(ac: u32) -> u32
    requires { ac < 8192 }
    ensures { (result ≡ eleven ac) × (result < 2048) }
{
    (ac >> A4) * 32 + (ac >> B1) % 2 * 16 + ac % 16
}

// D2 D4 A1 A2 A4 B1 B2 B4, as a number.
fn eight_bits(ac: u32) -> u32
    ensures { (result ≡ eight ac) × (result < 256) }
{
    let d = (ac >> D2) % 2 * 2 + (ac >> D4) % 2;
    let a = (ac >> A1) % 2 * 4 + (ac >> A2) % 2 * 2 + (ac >> A4) % 2;
    let b = (ac >> B1) % 2 * 4 + (ac >> B2) % 2 * 2 + (ac >> B4) % 2;
    d * 64 + a * 8 + b
}

// The value of eight bits in Gray code.
fn from_gray(g: u32) -> u32
    requires { g < 256 }
    ensures { (result ≡ gray_value 8 g) × (result < 256) }
{
    let by4 = g ^ (g >> 4);
    let by2 = by4 ^ (by4 >> 2);
    by2 ^ (by2 >> 1)
}

// The five hundreds.
fn five_hundreds(ac: u32) -> u32
    ensures { (result ≡ five_hundreds ac) × (result < 256) }
{
    from_gray(eight_bits(ac))
}

// The hundreds of C1 C2 C4, or 0 where they are no pattern of the code.
fn pattern(ac: u32) -> u32
    ensures { (result ≡ group ac) × (result ≤ 5) }
{
    let c = (ac >> C1) % 2 * 4 + (ac >> C2) % 2 * 2 + (ac >> C4) % 2;
    let at = c as usize;
    PATTERNS[at]
}

// The hundreds within five hundreds: they run back where the five hundreds are odd.
pub(crate) fn hundreds_in(n: u32, c: u32) -> u32
    requires { c ≤ 5 }
    ensures { (result ≡ hundreds n c) × (result ≤ 6) }
{
    if n % 2 == 1 {
        return 6 - c;
    }
    c
}

// up − down, with its sign.
fn signed(up: u32, down: u32) -> i32
    requires { (up < 1000000) × (down < 1000000) }
    ensures { result ≡ sub_ℕ up down }
{
    up as i32 - down as i32
}

// The altitude that AC says: refused where it has more than 13 bits, or a pattern that the 100 ft code does not have.
pub fn read(ac: u32) -> Result<Altitude, Refusal>
    ensures { altitude_said result ≡ altitude_told ac }
{
    if MOST < ac {
        return Err(Refusal::Range);
    }
    if ac == 0 {
        return Ok(Altitude::None);
    }
    if bit(ac, M) == 1 {
        return Ok(Altitude::Metric);
    }
    if bit(ac, Q) == 1 {
        return Ok(Altitude::Feet(signed(25 * eleven_bits(ac), 1000)));
    }
    let c = pattern(ac);
    if c == 0 {
        return Err(Refusal::Illegal);
    }
    let n = five_hundreds(ac);
    Ok(Altitude::Feet(signed(500 * n + 100 * hundreds_in(n, c), 1300)))
}
