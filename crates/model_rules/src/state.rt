// A transponder, by value, and what it sends.

// The timers, each with the time of its last command: II 0 to 15 at places 0 to 15, SI 1 to 63 at places 16 to 78.
#[derive(Clone, Copy)]
pub struct Timers {
    pub list: [Option<u32>; 79],
}

// Who has reserved the first message, and since when.
#[derive(Clone, Copy)]
pub struct Holder {
    pub ii: u8,
    pub since: u32,
}

// The messages of 56 bits that wait, the oldest first.
#[derive(Clone, Copy)]
pub struct Messages {
    pub list: [u64; 8],
    pub n: usize,
}

// A transponder: what it was made with, its last time, and what it keeps.
#[derive(Clone, Copy)]
pub struct Transponder {
    pub address: u32,
    pub ac: u16,
    pub id: u16,
    pub fs: u8,
    pub ca: u8,
    pub time: u32,
    pub timers: Timers,
    pub holder: Option<Holder>,
    pub messages: Messages,
}

// A reply that is sent.
#[derive(Clone, Copy)]
pub enum Sent {
    Short([u8; 7]),
    Long([u8; 14]),
}
