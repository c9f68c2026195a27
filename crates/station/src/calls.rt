// The calls on targets and requests: new target, removal, move, request, report.
ghost use Rattle.std.specs.Prelude.{◌≡◌};
ghost use Rattle.station_rules.specs.Answers.{outcome, reported_as};
ghost use Rattle.station_rules.specs.Calls.{new_target, removed, moved, requested, reported};

use crate::entries::withdraw_all;
use crate::ranges::{request_ranged, target_ranged};
use crate::{targets, waiting};
use planner_rules::Request;
use refusals::Refusal;
use station_rules::{Reported, Station};

// A new target is the last in the list, and nothing was heard of it.
pub fn add_target(s: &mut Station, address: u32, near: u16, far: u16) -> Result<(), Refusal>
    ensures { outcome result s.new ≡ new_target s.old address near far }
{
    if !target_ranged(address, near, far, s.setup.reach) {
        return Err(Refusal::Range);
    }
    if targets::in_list(&s.targets, address) {
        return Err(Refusal::Present);
    }
    if targets::is_full(&s.targets) {
        return Err(Refusal::Full);
    }
    targets::push(&mut s.targets, targets::fresh(address, near, far));
    Ok(())
}

// A removal drops the target's requests and withdraws its open entries.
pub fn remove_target(s: &mut Station, address: u32) -> Result<(), Refusal>
    ensures { outcome result s.new ≡ removed s.old address }
{
    if !frames::is_address(address) {
        return Err(Refusal::Range);
    }
    if !targets::in_list(&s.targets, address) {
        return Err(Refusal::NoTarget);
    }
    targets::drop_all(&mut s.targets, address);
    waiting::drop_all(&mut s.waiting, address);
    withdraw_all(&mut s.plan, address);
    Ok(())
}

// A move changes near and far, not the present plan.
pub fn move_target(s: &mut Station, address: u32, near: u16, far: u16) -> Result<(), Refusal>
    ensures { outcome result s.new ≡ moved s.old address near far }
{
    if !target_ranged(address, near, far, s.setup.reach) {
        return Err(Refusal::Range);
    }
    if !targets::in_list(&s.targets, address) {
        return Err(Refusal::NoTarget);
    }
    let mut x = targets::target_at(&s.targets, address);
    x.near = near;
    x.far = far;
    targets::put(&mut s.targets, address, x);
    Ok(())
}

// A request waits as the youngest.
pub fn take_request(s: &mut Station, q: Request) -> Result<(), Refusal>
    ensures { outcome result s.new ≡ requested s.old q }
{
    if !request_ranged(q) {
        return Err(Refusal::Range);
    }
    if !targets::in_list(&s.targets, q.address) {
        return Err(Refusal::NoTarget);
    }
    if waiting::unit_full(&s.waiting, q.unit) {
        return Err(Refusal::Full);
    }
    waiting::push(&mut s.waiting, q);
    Ok(())
}

// What the target said, AC and ID each with its age or never heard.
pub fn report_on(s: &Station, address: u32) -> Result<Reported, Refusal>
    ensures { reported_as result ≡ reported s.now address }
{
    if !frames::is_address(address) {
        return Err(Refusal::Range);
    }
    if !targets::in_list(&s.targets, address) {
        return Err(Refusal::NoTarget);
    }
    let x = targets::target_at(&s.targets, address);
    Ok(Reported { ac: x.ac, id: x.id })
}
