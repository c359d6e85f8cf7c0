//! The tokens of Event-B texts, after Métayer and Voisin, "The Event-B Mathematical Language" (2009).
#![tactic(auto)]

mod laws;
mod lexer;
mod pieces;
mod symbols;
mod token;

pub use laws::{a_text_is_read_in_one_way, tokens_name_slices};
pub use lexer::tokens;
pub use token::{LexFault, Token, TokenKind, Tokens};
