//! The syntax of the assembler: cuts a source text into tokens, and finds which of them are instructions.
//!
//! Words, numbers, marks and the forms of instructions are those of the kernel's filter language (Documentation/networking/filter,
//! sections on `bpf_asm` and on the table of instructions and addressing modes), but for those that specs/Table.antt calls this
//! project's own, with all options written out as data; comments, the spellings of numbers and the refusals are this project's
//! own. A form is a list of token classes; the reader takes, item by item, the form of which most tokens fit.
#![tactic(auto)]

mod bytes;
mod choice;
mod class;
mod cut_law;
mod equality;
mod item;
mod law;
mod lexeme;
mod lexer;
mod mode;
mod number;
mod piece;
mod range;
mod reader;
mod reserved;
mod table;
mod token;

pub use class::Class;
pub use cut_law::{one_cut, one_outcome};
pub use equality::equal_where_same;
pub use item::Row;
pub use law::{one_item_list, one_refusal};
pub use lexeme::{Lexeme, Symbol};
pub use lexer::{Lexer, line_of, tokens};
pub use reader::{Reader, Step, SyntaxFault};
pub use table::Fields;
pub use token::{BadPiece, Kind, LexFault, Token};
