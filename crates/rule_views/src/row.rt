//! The rows of the table.

/// A row of the table of rules, by its name there.
#[derive(Clone, Copy, Debug, PartialEq, Eq)]
pub enum Row {
    F1,
    F2,
    A1,
    A2,
    A3,
    A4,
    A5,
    A6,
    A7,
    A8,
    S1,
    S2,
    Z1,
    Z2,
    Z3,
    Z4,
    Z5,
    Z6,
    B1,
    B2,
    C1,
    C2,
    C3,
    C4,
    C5,
    C6,
    C7,
    C8,
}
