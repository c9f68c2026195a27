// The way back: the code of an altitude in feet.
ghost use Rattle.std.specs.Prelude.{◌≡◌, ◌<◌};
ghost use Rattle.altitude_rules.specs.WayBack.{raised, reaches, code_by_25, code_of_bits, code_by_100, written_said, way_back};

use crate::code::hundreds_in;
use refusals::Refusal;

// How far below 0 ft the 100 ft code begins to count.
const FLOOR: u32 = 1300;

// C1 C2 C4 of 1 to 5.
const GROUPS: [u32; 6] = [0b000, 0b001, 0b011, 0b010, 0b110, 0b100];

// Feet counted from −1300 ft up; 0 for −1300 ft and every altitude below.
fn raise(feet: i32) -> u32
    ensures { result ≡ raised feet }
{
    if feet < 0 {
        let less = 0 - (feet + 1);
        let n = less as u32;
        if FLOOR <= n {
            return 0;
        }
        return FLOOR - 1 - n;
    }
    feet as u32 + FLOOR
}

// A multiple of step from low to high.
fn is_reached(step: u32, low: u32, high: u32, up: u32) -> bool
    requires { 0 < step }
    ensures { result ≡ reaches step low high up }
{
    if up % step != 0 {
        return false;
    }
    if up < low {
        return false;
    }
    up <= high
}

// M 0, Q 1, and the bits of N at the eleven other places.
fn code_by_25(n: u32) -> u32
    requires { n < 2048 }
    ensures { result ≡ code_by_25 n }
{
    (n >> 5) * 128 + (n >> 4) % 2 * 32 + 16 + n % 16
}

// Eight bits at D2 D4 A1 A2 A4 B1 B2 B4.
fn eight_placed(g: u32) -> u32
    ensures { (result ≡ code_of_bits g 0) × (result < 8192) }
{
    let a = (g >> 5) % 2 * 2048 + (g >> 4) % 2 * 512 + (g >> 3) % 2 * 128;
    let b = (g >> 2) % 2 * 32 + (g >> 1) % 2 * 8 + g % 2 * 2;
    a + b + (g >> 7) % 2 * 4 + (g >> 6) % 2
}

// Three bits at C1 C2 C4.
fn three_placed(p: u32) -> u32
    ensures { (result ≡ code_of_bits 0 p) × (result < 8192) }
{
    (p >> 2) % 2 * 4096 + (p >> 1) % 2 * 1024 + p % 2 * 256
}

// The code of −1200 ft and k hundreds.
fn code_by_100(k: u32) -> u32
    requires { k < 1280 }
    ensures { result ≡ code_by_100 k }
{
    let n = k / 5;
    let at = hundreds_in(n, k % 5 + 1) as usize;
    eight_placed(n ^ (n >> 1)) + three_placed(GROUPS[at])
}

// The code of an altitude: the 25 ft form where it reaches, else the 100 ft code, else it is refused. Nothing is rounded.
pub fn write(feet: i32) -> Result<u32, Refusal>
    ensures { written_said result ≡ way_back feet }
{
    let up = raise(feet);
    if is_reached(25, FLOOR - 1000, FLOOR + 50175, up) {
        return Ok(code_by_25((up - (FLOOR - 1000)) / 25));
    }
    if is_reached(100, FLOOR - 1200, FLOOR + 126700, up) {
        return Ok(code_by_100((up - (FLOOR - 1200)) / 100));
    }
    Err(Refusal::NoCode)
}
