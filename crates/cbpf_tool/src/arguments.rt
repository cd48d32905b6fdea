//! The words after a command's first one.

ghost use Rattle.cbpf_tool.specs.LineWords.{words_of};
ghost use Rattle.cbpf_tool.specs.Arguments.{AreArguments};

use crate::line_words::next_word;

/// The arguments of a command; none has four.
#[derive(Clone, Copy)]
pub enum Arguments<'a> {
    Zero,
    One(&'a [u8]),
    Two(&'a [u8], &'a [u8]),
    Three(&'a [u8], &'a [u8], &'a [u8]),
    More,
}

/// The words of a text.
pub(crate) fn arguments_in(text: &[u8]) -> Arguments<'_>
    ensures { AreArguments (words_of text.now) result }
{
    let Some((first, text)) = next_word(text) else {
        return Arguments::Zero;
    };
    let Some((second, text)) = next_word(text) else {
        return Arguments::One(first);
    };
    let Some((third, text)) = next_word(text) else {
        return Arguments::Two(first, second);
    };
    match next_word(text) {
        None => Arguments::Three(first, second, third),
        Some(_) => Arguments::More,
    }
}
