// A setup.

// Period L, reach R, correction limit, and each unit's guarantee and ceiling.
#[repr(C)]
#[derive(Clone, Copy)]
pub struct Setup {
    pub period: u16,
    pub reach: u16,
    pub limit: u8,
    pub guarantee: [u8; 8],
    pub ceiling: [u8; 8],
}
