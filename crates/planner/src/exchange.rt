// An exchange with an aircraft: the numbers of Annex 10, and its intervals.
ghost use Rattle.std.specs.Prelude.{◌≡◌, ◌≤◌};
ghost use Rattle.planner_rules.specs.Exchange.{constants, sent_short, sent_long, reply_for, course_of, exchange_of};
ghost use Rattle.planner.specs.Promises.{held, Small};

use numbers::wide;
use planner_rules::Ask;

// In ticks from its start: it transmits in [0, sent), listens in [from, to), and ends with its window.
#[derive(Clone, Copy)]
pub struct Exchange {
    pub sent: u32,
    pub from: u32,
    pub to: u32,
}

impl Exchange {
    pub const REVERSAL: u32 = 19;

    pub const TURNAROUND: u32 = 512;

    pub const TOLERANCE: u32 = 1;

    pub const SENT_SHORT: u32 = 79;

    pub const SENT_LONG: u32 = 135;

    pub const REPLY_SHORT: u32 = 256;

    pub const REPLY_LONG: u32 = 480;

    // From the start to the start of a reply from no distance: at the earliest, by the clock, at the latest.
    pub const EARLIEST: u32 = Self::REVERSAL + Self::TURNAROUND - Self::TOLERANCE;

    pub const DELAY: u32 = Self::REVERSAL + Self::TURNAROUND;

    pub const LATEST: u32 = Self::REVERSAL + Self::TURNAROUND + Self::TOLERANCE;

    // The longest exchange, but for the distance.
    pub const LONGEST: u32 = Self::LATEST + Self::REPLY_LONG;

    // The seven numbers from Annex 10 and the four that follow from them, each by itself.
    pub fn constants() -> [u32; 11]
        ensures { result ≡ constants }
    {
        [
            Self::REVERSAL,
            Self::TURNAROUND,
            Self::TOLERANCE,
            Self::SENT_SHORT,
            Self::SENT_LONG,
            Self::REPLY_SHORT,
            Self::REPLY_LONG,
            Self::EARLIEST,
            Self::DELAY,
            Self::LATEST,
            Self::LONGEST,
        ]
    }

    // The exchange of a short interrogation.
    pub fn short(near: u16, far: u16, rr: u8) -> Exchange
        ensures { (result ≡ held (course_of sent_short near far (reply_for rr))) × Small result }
    {
        Exchange::lasting(Self::SENT_SHORT, near, far, rr)
    }

    // The exchange of a long interrogation.
    pub fn long(near: u16, far: u16, rr: u8) -> Exchange
        ensures { (result ≡ held (course_of sent_long near far (reply_for rr))) × Small result }
    {
        Exchange::lasting(Self::SENT_LONG, near, far, rr)
    }

    // The exchange of a request: UF 20 and above is long.
    pub fn of(a: Ask) -> Exchange
        ensures { (result ≡ held (exchange_of a)) × Small result }
    {
        if 20 <= a.request.uf {
            return Exchange::long(a.near, a.far, a.request.rr);
        }
        Exchange::short(a.near, a.far, a.request.rr)
    }

    fn lasting(sent: u32, near: u16, far: u16, rr: u8) -> Exchange
        requires { sent ≤ 135 }
        ensures { (result ≡ held (course_of sent near far (reply_for rr))) × Small result }
    {
        let open = Self::EARLIEST + wide(near);
        let end = Self::LATEST + wide(far) + Exchange::reply(rr);
        Exchange {
            sent,
            from: open,
            to: end,
        }
    }

    // How long a reply lasts: RR 16 and above draws the long form.
    fn reply(rr: u8) -> u32
        ensures { (result ≡ reply_for rr) × (result ≤ 480) }
    {
        if 16 <= rr {
            return Self::REPLY_LONG;
        }
        Self::REPLY_SHORT
    }
}
