// The station before a setup, and the setup, which empties everything.
ghost use Rattle.std.specs.Prelude.{◌≡◌, replicate};
ghost use Rattle.station_rules.specs.State.{fresh, emptied, before_setup};
ghost use Rattle.station_rules.specs.Calls.{set_up};
ghost use Rattle.station_rules.specs.Answers.{outcome};

use crate::entries::no_entry;
use crate::targets::fresh;
use crate::waiting::no_request;
use planner_rules::Setup;
use refusals::Refusal;
use station_rules::{Plan, Station, Target, Targets, Waiting};

// The slots of an empty target list. The loop writes what stands there already: it keeps the list whole in memory, where 64 stores at
// known places would let the compiler take it apart and copy it slot by slot in every call (docs/PERFORMANCE.md).
fn no_targets() -> [Target; 64]
    ensures { result ≡ replicate 64 (fresh 0 0 0) }
{
    let x = fresh(0, 0, 0);
    let mut list = [x; 64];
    for i in 0..128 {
        list[i / 2] = x;
    }
    list
}

// The station before any setup: L, R, limit, guarantees and ceilings are 0, and every slot of a list is the same.
pub fn before_setup() -> Station
    ensures { result ≡ before_setup }
{
    let held = no_targets();
    let waiting = [no_request(); 128];
    let entries = [no_entry(); 128];
    let targets = Targets { list: held, n: 0 };
    let waiting = Waiting {
        list: waiting,
        n: 0,
    };
    let plan = Plan {
        list: entries,
        n: 0,
        tag: 0,
    };
    let setup = Setup {
        period: 0,
        reach: 0,
        limit: 0,
        guarantee: [0; 8],
        ceiling: [0; 8],
    };
    Station {
        targets,
        waiting,
        plan,
        setup,
    }
}

// Nothing held, nothing waiting, no plan, and this setup.
fn empty(s: &mut Station, setup: Setup)
    ensures { s.new ≡ emptied setup s.old }
{
    s.targets.n = 0;
    s.waiting.n = 0;
    s.plan.n = 0;
    s.plan.tag = 0;
    s.setup = setup;
}

// A setup that is judged good empties everything; a refused one changes nothing.
pub fn set_up(s: &mut Station, setup: Setup) -> Result<(), Refusal>
    ensures { outcome result s.new ≡ set_up s.old setup }
{
    match planner::judge(setup) {
        Ok(()) => {
            empty(s, setup);
            Ok(())
        }
        Err(refusal) => Err(refusal),
    }
}
