//! What a fault says.

ghost use Rattle.std.specs.Prelude.{◌≡◌};

use std::fmt;

/// What a fault says: a text, and the numbers in it. It has neither `error: ` nor a newline.
///
/// Faults of many kinds give it as data, so that each text stands once.
#[derive(Clone, Copy, Debug)]
pub enum Message {
    /// A text.
    Text(&'static str),
    /// A text, a number in decimal, and a text.
    Number(&'static str, u64, &'static str),
    /// Three texts with numbers between them.
    Numbers(&'static str, u64, &'static str, u64, &'static str),
}

impl fmt::Display for Message {
    ghost use Rattle.std.specs.Prelude.{Some};
    ghost use Rattle.cbpf_code.specs.Messages.{message_text};

    ghost output = { λ m. Some (message_text m) };

    fn fmt<W: fmt::Write>(&self, f: &mut fmt::Formatter<W>) -> fmt::Result {
        match *self {
            Message::Text(text) => write!(f, "{text}"),
            Message::Number(before, n, after) => write!(f, "{before}{n}{after}"),
            Message::Numbers(before, m, between, n, after) => {
                write!(f, "{before}{m}{between}{n}{after}")
            }
        }
    }
}
