//! The classes of tokens.

/// A class of tokens. A form is a list of classes.
#[derive(Clone, Copy)]
pub enum Class {
    /// The word of these bytes.
    Word(&'static [u8]),
    /// The mark.
    Mark(u8),
    /// A number, which is the instruction's literal.
    Literal,
    /// A number after a `-`, which is the literal's absolute value.
    Negated,
    /// A number of this value, in any spelling.
    Exactly(u32),
    /// An extension's name.
    Extension,
    /// A word that isn't reserved: a label.
    Name,
}
