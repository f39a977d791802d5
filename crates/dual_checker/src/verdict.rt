//! What the check of a certificate says.

/// What the check of a certificate says: the first of these that applies, in this order but for `Proves`.
#[derive(Clone, Copy, Debug, PartialEq, Eq)]
pub enum Verdict {
    /// No point of the programme gains more than best over scale.
    Proves,
    /// The price of this row is below 0, and none before it is.
    Negative(u32),
    /// The prices of the cells of this column sum to less than the scale times its gain, and no column before it is at fault.
    Column(u32),
    /// The prices of the right-hand sides sum to more than the best.
    Value,
    /// A product or a partial sum of this column exceeds 2^127 - 1 in size, and no column before it is at fault; the number of the columns
    /// stands for the right-hand sides.
    Overflow(u32),
}
