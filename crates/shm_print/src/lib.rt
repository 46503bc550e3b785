//! The printed text of values: the line of an event, the lines of a listing, and the counts.
#![tactic(auto)]

mod counts;
mod digits;
mod event;
mod lines;
mod words;

pub use counts::usage_text;
pub use event::{event_text, push_asked, push_event, push_fields, push_reply, reply_text};
pub use lines::{header_line, segment_line};
