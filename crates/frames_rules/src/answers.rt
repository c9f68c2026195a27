// What the calls on frames find; specs/Answers.antt has the values for each case. A call that is refused answers a Refusal instead.

// An interrogation read alone.
#[derive(Clone, Copy, Debug, PartialEq, Eq)]
pub enum Up {
    // UF 4, 5, 20 or 21; MA is zero for a short one.
    Selective {
        uf: u8,
        pc: u8,
        rr: u8,
        di: u8,
        sd: u16,
        ma: u64,
        remainder: u32,
    },
    // UF 11.
    AllCall {
        pr: u8,
        ic: u8,
        cl: u8,
        remainder: u32,
    },
}

// A reply read alone.
#[derive(Clone, Copy, Debug, PartialEq, Eq)]
pub enum Down {
    // DF 4, 5, 20 or 21; the value is AC or ID, and MB is zero for a short one.
    Surveillance {
        df: u8,
        fs: u8,
        dr: u8,
        um: u8,
        value: u16,
        mb: u64,
        remainder: u32,
    },
    // DF 11.
    AllCall {
        ca: u8,
        address: u32,
        remainder: u32,
    },
}

// Whose code a DF 11 carries.
#[derive(Clone, Copy, Debug, PartialEq, Eq)]
pub enum Code {
    // The station's own.
    Own,
    // The matching II of an SI station.
    Matching,
    // Anybody else's.
    Other,
}

// The code that CL and IC stand for.
#[derive(Clone, Copy, Debug, PartialEq, Eq)]
pub enum Interrogator {
    II(u8),
    SI(u8),
}
