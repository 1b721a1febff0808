//! From the octets of a module text to its tokens (X.680 clauses 11 and 12), or to its first fault.
//!
//! | question | code | definition |
//! |---|---|---|
//! | Which tokens has a text? | `lexer.rt` (`tokens`) | `specs/Lexing.antt` |
//! | What is a token, and how is it spelled? | `token.rt`, `spelling.rt` | `specs/Spans.antt`, `specs/Spelling.antt` |
//! | Why has a text no tokens? | `fault.rt`, `item_faults.rt` | `specs/Lexing.antt` |
//! | Which item begins here? | `item.rt`, and a file for each kind | `specs/Items.antt`, `specs/Words.antt` |
//! | Which octets are letters, digits, white space? | `octet.rt` | `specs/Octets.antt` |
//! | In which line and column does it begin? | `site.rt` (`site_behind`) | `specs/Sites.antt` |
//! | Which number do digits write? | `number.rt` (`magnitude`) | `specs/Items.antt` (`number_value`) |
//! | What holds for every text? | `laws.rt` | `specs/Laws.antt` |
#![tactic(auto)]

mod comment;
mod fault;
mod item;
mod item_faults;
pub mod laws;
mod lexer;
mod mark;
mod number;
mod octet;
mod site;
mod spelling;
mod strings;
mod token;
mod word;

pub use fault::LexFault;
pub use lexer::{LONGEST_TEXT, tokens};
pub use number::magnitude;
pub use site::site_behind;
pub use token::{Mark, Reserved, Token, TokenKind};
