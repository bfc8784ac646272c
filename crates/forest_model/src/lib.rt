//! The sequential store, which is what every other crate's contracts speak of.
//!
//! It has five things, and no file, thread or host among them:
//!
//! * the plain data of the store's calls, replies and refusals, and of a script's lines and what is told of them;
//! * the definitions, in `specs`: a state and its rules, the step that answers a call and leaves a state, a
//!   lane's session, and the run of a script over the blocks of the files that lie under it;
//! * documents by store and key, as an ordered map;
//! * the plain data of what a file keeps: records, headers with their stores, and entries in memory;
//! * what a value shows that threads take in turns, the notes of those who took it, and one history that all of them
//!   agree on: data and definitions that clauses alone read.
//!
//! It promises that bytes, sequences and documents are what contracts see of them: bytes and sequences a list,
//! documents a finite map. Each call answers exactly what the list or the map says. The one refusal is want of
//! memory, and it leaves the value as it was.
#![tactic(auto)]

mod bytes;
mod call;
mod documents;
mod held;
mod line;
mod refusal;
mod sequence;
mod state;
mod stored;

pub use bytes::Bytes;
pub use call::{Call, Event, Found, Info, Item, Items, Limits, Numbers, Placed, Reply, StoreRef};
pub use documents::{Doc, DocKey, Documents};
pub use held::{Deed, Held, Notes, Point, Section};
pub use line::{Line, Row, Rows, Said, Told, Verb};
pub use refusal::Refusal;
pub use sequence::Sequence;
pub use state::{Commit, Copying, State, Store, StoreList};
pub use stored::{Entries, Entry, Header, KeyEntry, Rec, Recs, Roots, Stores};
