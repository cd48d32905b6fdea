//! The forms in which instructions are written.

/// How the assembler writes instructions.
#[derive(Clone, Copy, Debug, PartialEq, Eq)]
pub enum Form {
    /// The count and the instructions in decimal, on one line.
    Decimal,
    /// One line of C for each instruction.
    C,
}
