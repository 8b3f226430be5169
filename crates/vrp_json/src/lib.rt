//! Payload lists in JSON, as validators write them (rpki-client, Routinator, StayRTR), read whole or refused.
//!
//! Such a list is an object whose member `roas` is an array. Each entry is an object: `asn` is a number or a text, as
//! 64496 or "AS64496", `prefix` a text, `maxLength` a number. Entries of IPv6 are skipped and counted. Other members, as
//! `ta` and, but for `read_list_at`, `expires`, are passed over, and of members of an entry that share a name the last one
//! counts. `read_list` answers the set of the payloads of all entries, how many entries there are and how many of them are
//! skipped, or the first fault with its place. What is the value of a text is said by the kit's `json`; this crate says what
//! the value means. Nothing of a list is kept where one entry is refused.
//!
//! The text is gone over twice: first whether it is one value of JSON, then entry by entry, so that only one entry at a
//! time stands in memory beside the text and the set. `json` keeps room as long as the text for unescaped strings.
//!
//! `read_written` answers when such a list says that it was written, by its member `metadata` (`specs/WrittenTimes.antt`).
//!
//! `format_of` tells such a list from one of comma-separated values (crate `vrp_csv`) by its first octet.
#![tactic(auto)]

mod entry;
mod fault;
mod format;
mod list;
mod meaning;
mod walk;
mod written;

pub use fault::{EntryFault, JsonFault};
pub use format::{ListFormat, format_of};
pub use list::{read_list, read_list_at};
pub use meaning::lists_mean_one_thing;
pub use written::{Written, read_written};
