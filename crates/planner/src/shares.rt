// The shares of a setup, and whether they fit.
ghost use Rattle.std.specs.Prelude.{◌≡◌, ◌≤◌};
ghost use Rattle.lists.specs.Lists.{total, every};
ghost use Rattle.refusals.specs.Refusals.{number_given};
ghost use Rattle.planner_rules.specs.Shares.{share, in_range, ordered, shares_fit, setup_ranged, shares_good, setup_number};

use crate::exchange::Exchange;
use numbers::wide;
use planner_rules::Setup;
use refusals::Refusal;

// A unit's share; a unit above 7 has none.
pub(crate) fn share(shares: [u8; 8], unit: u8) -> u32
    ensures { (result ≡ share shares unit) × (result ≤ 255) }
{
    if 8 <= unit {
        return 0;
    }
    u32::from(shares[unit as usize])
}

fn sum(shares: [u8; 8]) -> u32
    ensures { (result ≡ total (share shares) 8) × (result ≤ 2040) }
{
    shares.iter().map(|&x| u32::from(x)).sum()
}

// Whether every share is at most 16.
fn in_range(shares: [u8; 8]) -> bool
    ensures { result ≡ every (in_range shares) 8 }
{
    shares.iter().all(|&x| x <= 16)
}

// Whether no guarantee is above its ceiling.
fn in_order(guarantee: [u8; 8], ceiling: [u8; 8]) -> bool
    ensures { result ≡ every (ordered guarantee ceiling) 8 }
{
    guarantee.iter().zip(ceiling.iter()).all(|(g, c)| g <= c)
}

// Whether every guarantee has room for the longest exchange in reach.
fn fit(s: Setup) -> bool
    ensures { result ≡ shares_fit s }
{
    sum(s.guarantee) * (Exchange::LONGEST + wide(s.reach)) <= wide(s.period)
}

// Whether the numbers of a setup are in their ranges.
fn setup_ranged(s: Setup) -> bool
    ensures { result ≡ setup_ranged s }
{
    s.reach <= 13000 && s.limit <= 12 && in_range(s.guarantee) && in_range(s.ceiling)
}

// Whether no guarantee is above its ceiling, and the shares fit.
fn shares_good(s: Setup) -> bool
    ensures { result ≡ shares_good s }
{
    in_order(s.guarantee, s.ceiling) && fit(s)
}

// Why a setup is refused: numbers outside their ranges, or shares that are not good.
pub fn judge(s: Setup) -> Result<(), Refusal>
    ensures { number_given result ≡ setup_number s }
{
    if !setup_ranged(s) {
        return Err(Refusal::Range);
    }
    if !shares_good(s) {
        return Err(Refusal::Shares);
    }
    Ok(())
}
