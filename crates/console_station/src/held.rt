// What a call of the station is handed, read of a line: a word says up to 32 bits, and what is wider than its field is not read, and never cut.
ghost use Rattle.std.specs.Prelude.{◌≤◌, ◌≡◌};
ghost use Rattle.text_rules.specs.Line.{words_of};
ghost use Rattle.console_station.specs.Held.{narrow, eight_from, edges_in, setup_in, request_in};

use console_plain::number_at;
use planner_rules::{Request, Setup};

// A number of 8 bits.
fn byte(n: u32) -> Option<u8>
    ensures { result ≡ narrow 8 n }
{
    u8::try_from(n).ok()
}

// A number of 16 bits.
fn short(n: u32) -> Option<u16>
    ensures { result ≡ narrow 16 n }
{
    u16::try_from(n).ok()
}

// The eight numbers from the k-th word on.
fn eight_at(line: &[u8], k: usize) -> Option<[u8; 8]>
    requires { k ≤ 12 }
    ensures { result ≡ eight_from k (words_of line.now) }
{
    let mut out = [0u8; 8];
    for i in 0..8 {
        out[i] = byte(number_at(line, k + i))?;
    }
    Some(out)
}

// Near and far of a target.
pub(crate) fn edges_in(line: &[u8]) -> Option<(u16, u16)>
    ensures { result ≡ edges_in (words_of line.now) }
{
    let near = short(number_at(line, 2))?;
    let far = short(number_at(line, 3))?;
    Some((near, far))
}

// A setup.
pub(crate) fn setup_in(line: &[u8]) -> Option<Setup>
    ensures { result ≡ setup_in (words_of line.now) }
{
    let period = short(number_at(line, 1))?;
    let reach = short(number_at(line, 2))?;
    let limit = byte(number_at(line, 3))?;
    let guarantee = eight_at(line, 4)?;
    let ceiling = eight_at(line, 12)?;
    Some(Setup {
        period,
        reach,
        limit,
        guarantee,
        ceiling,
    })
}

// A request with this MA, which is read as bytes; the type of its address holds all that a word says.
pub(crate) fn request_in(line: &[u8], ma: u64) -> Option<Request>
    ensures { result ≡ request_in ma (words_of line.now) }
{
    let unit = byte(number_at(line, 1))?;
    let uf = byte(number_at(line, 3))?;
    let pc = byte(number_at(line, 4))?;
    let rr = byte(number_at(line, 5))?;
    let di = byte(number_at(line, 6))?;
    let sd = short(number_at(line, 7))?;
    Some(Request {
        unit,
        address: number_at(line, 2),
        uf,
        pc,
        rr,
        di,
        sd,
        ma,
    })
}
