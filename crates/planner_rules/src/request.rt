// What units ask of aircraft, and the list in which it waits.

// What a unit asks of one aircraft.
#[repr(C)]
#[derive(Clone, Copy)]
pub struct Request {
    pub unit: u8,
    pub address: u32,
    pub uf: u8,
    pub pc: u8,
    pub rr: u8,
    pub di: u8,
    pub sd: u16,
    pub ma: u64,
}

// A request with near and far of its target, as they are when the plan is made.
#[repr(C)]
#[derive(Clone, Copy)]
pub struct Ask {
    pub request: Request,
    pub near: u16,
    pub far: u16,
}

// The waiting list, the oldest first: the first n of the slots.
#[repr(C)]
#[derive(Clone, Copy)]
pub struct Asks {
    pub list: [Ask; 128],
    pub n: usize,
}
