// The state of a station, in parts, and what its calls tell.
use planner_rules::{Entry, Request, Setup};

// What an aircraft said: AC or ID, with its age in plans.
#[derive(Clone, Copy, Debug, PartialEq, Eq)]
pub struct Heard {
    pub value: u16,
    pub age: u16,
}

// A target: what it said, if it did, and its near and far edges in round-trip ticks.
#[derive(Clone, Copy, Debug, PartialEq, Eq)]
pub struct Target {
    pub ac: Option<Heard>,
    pub id: Option<Heard>,
    pub address: u32,
    pub near: u16,
    pub far: u16,
}

// The target list: the first n of the slots.
#[derive(Clone, Copy)]
pub struct Targets {
    pub list: [Target; 64],
    pub n: usize,
}

// The waiting list, the oldest request first: the first n of the slots.
#[derive(Clone, Copy)]
pub struct Waiting {
    pub list: [Request; 128],
    pub n: usize,
}

// The plan in force: its entries by their numbers, and its tag.
#[derive(Clone, Copy)]
pub struct Plan {
    pub list: [Entry; 128],
    pub n: usize,
    pub tag: u32,
}

#[derive(Clone, Copy)]
pub struct Station {
    pub targets: Targets,
    pub waiting: Waiting,
    pub plan: Plan,
    pub setup: Setup,
}

// What a report tells of a target: AC and ID, each with its age or never heard.
#[derive(Clone, Copy, Debug, PartialEq, Eq)]
pub struct Reported {
    pub ac: Option<Heard>,
    pub id: Option<Heard>,
}

// What a reply that is taken tells: the flips, and the measured delay.
#[derive(Clone, Copy, Debug, PartialEq, Eq)]
pub struct Taken {
    pub flips: u32,
    pub delay: i32,
}
