//! The script language: the lines of a script and the replies to them, as values and as text.
//!
//! A line has one text and a text has at most one line, which is the grammar's relation `IsLine`.
//! Reading a text gives its line exactly where there is one, and writing a line or a reply gives its
//! one text. Nothing is refused but for want of memory.
#![tactic(auto)]

mod bytes;
mod keyword;
mod laws;
mod line_reader;
mod number;
mod reader;
mod reading;
mod reply;
mod unread;
mod writer;
mod writing;

pub use laws::one_spelling;
pub use reading::line_of;
pub use reply::reply_text;
pub use writing::text_of;
