//! Figures in Prometheus' text format, version 0.0.4, and the requests that ask for them.
//!
//! `write_metrics` writes metrics behind what a text has: of each its help, its kind and its samples, names made lawful and
//! what stands in labels and help escaped, just as `specs/MetricText.antt` spells them. Where memory is refused the text is
//! of no use. `judge_request` says of the first octets of a connection what they ask for (`specs/Requests.antt`), by
//! httparse: a whole head of a request (RFC 9112) is answered, one that isn't whole yet is waited for, up to 4,096 octets,
//! and anything else is refused. `write_answer` writes what is answered, with its head (`specs/Answers.antt`).
#![tactic(auto)]

mod answer;
mod escaping;
mod metric;
mod request;
mod writing;

pub use answer::write_answer;
pub use metric::{Label, Metric, MetricKind, Sample};
pub use request::{Asked, MOST_HEADERS, MOST_OCTETS, judge_request};
pub use writing::{write_metric, write_metrics, write_sample};
