// The ranges of a target and of a request.
ghost use Rattle.std.specs.Prelude.{◌≡◌};
ghost use Rattle.station_rules.specs.Calls.{target_ranged, request_ranged};

use numbers::wide;
use planner_rules::Request;

// Whether address, near and far of a target are in their ranges: near ≤ far ≤ R.
pub(crate) fn target_ranged(address: u32, near: u16, far: u16, reach: u16) -> bool
    ensures { result ≡ target_ranged address near far reach }
{
    if !frames::is_address(address) {
        return false;
    }
    near <= far && far <= reach
}

// A number of 8 bits among those of 32.
pub(crate) fn byte(x: u8) -> u32
    ensures { result ≡ x }
{
    x as u32
}

// Whether the numbers of a request are in their ranges.
pub(crate) fn request_ranged(q: Request) -> bool
    ensures { result ≡ request_ranged q }
{
    q.unit <= 7
        && frames::selective_ranged(
            byte(q.uf),
            byte(q.pc),
            byte(q.rr),
            byte(q.di),
            wide(q.sd),
            q.ma,
            q.address,
        )
}
