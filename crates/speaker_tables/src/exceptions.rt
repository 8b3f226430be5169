//! The local exceptions in force.

use crate::pieces::{MAX_ROWS, Place, is_full};
use bgp_conf::Conf;
use local_exceptions::Filter;
use net_prefix::Vrp;
use std::alloc::Global;
use std::collections::{BTreeSet, btree_set};
use std::io::{self, Write};
use std::ops::Bound;

/// Writes the next exceptions as their lines say them: the filters, and behind them the assertions, of each the least first.
pub(crate) fn write_exceptions(
    conf: &Conf<Global>,
    behind: Place,
    page: &mut Vec<u8>,
) -> io::Result<Option<Place>> {
    if let Place::Payload(last) = behind {
        return write_assertions(conf, Some(last), page);
    }
    let last = match behind {
        Place::Filter(last) => Some(last),
        _ => None,
    };
    let stopped = write_filters(conf, last, page)?;
    match stopped {
        Some(behind) => Ok(Some(behind)),
        None => write_assertions(conf, None, page),
    }
}

fn write_filters(
    conf: &Conf<Global>,
    last: Option<Filter>,
    page: &mut Vec<u8>,
) -> io::Result<Option<Place>> {
    for filter in filters_after(conf.exceptions().filters(), last).take(MAX_ROWS) {
        write_filter(filter, page)?;
        if is_full(page.as_slice()) {
            return Ok(Some(Place::Filter(*filter)));
        }
    }
    Ok(None)
}

fn write_filter(filter: &Filter, page: &mut Vec<u8>) -> io::Result<()> {
    match filter {
        Filter::Prefix(prefix) => writeln!(page, "filter prefix {prefix}"),
        Filter::As(asn) => writeln!(page, "filter as {}", asn.0),
        Filter::Both(prefix, asn) => writeln!(page, "filter both {prefix} {}", asn.0),
    }
}

fn write_assertions(
    conf: &Conf<Global>,
    last: Option<Vrp>,
    page: &mut Vec<u8>,
) -> io::Result<Option<Place>> {
    for payload in assertions_after(conf.exceptions().assertions(), last).take(MAX_ROWS) {
        writeln!(
            page,
            "assert {} {} {}",
            payload.prefix, payload.max_len, payload.asn.0
        )?;
        if is_full(page.as_slice()) {
            return Ok(Some(Place::Payload(*payload)));
        }
    }
    Ok(None)
}

// The filters above the given one, or all.
fn filters_after(filters: &BTreeSet<Filter>, last: Option<Filter>) -> btree_set::Range<'_, Filter> {
    match last {
        Some(last) => filters.range((Bound::Excluded(last), Bound::Unbounded)),
        None => {
            let all: (Bound<Filter>, Bound<Filter>) = (Bound::Unbounded, Bound::Unbounded);
            filters.range(all)
        }
    }
}

// The assertions above the given one, or all.
fn assertions_after(payloads: &BTreeSet<Vrp>, last: Option<Vrp>) -> btree_set::Range<'_, Vrp> {
    match last {
        Some(last) => payloads.range((Bound::Excluded(last), Bound::Unbounded)),
        None => {
            let all: (Bound<Vrp>, Bound<Vrp>) = (Bound::Unbounded, Bound::Unbounded);
            payloads.range(all)
        }
    }
}
