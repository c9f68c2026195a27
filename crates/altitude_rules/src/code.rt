// What the 13 bits of AC say of the altitude.

// What AC says.
#[derive(Clone, Copy, Debug, PartialEq, Eq)]
pub enum Altitude {
    Feet(i32),
    // No altitude.
    None,
    // M is set: the code is metric and is not read.
    Metric,
}
