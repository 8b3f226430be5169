//! A list that isn't read again while its file is unchanged.

use crate::changing::File;
use crate::rereads::{FIRST, serving_none};
use cache_desk::Reading;
use cache_program::{Interval, Reread, ServedList};
use cache_settings::CacheSettings;
use cache_watch::FileAge;
use file_paths::Stamp;
use list_guards::Guards;
use net_wires::NetWire;
use program_stages::lend;
use std::alloc::Global;
use std::test::Fail;
use wires::Wire;

const SETTINGS: &[u8] = b"listen = \"127.0.0.1:0\"\nsession = 7\ncsv = \"list\"\n";

// As large as the first list.
const SECOND: &str = "ASN,IP Prefix,Max Length,Trust Anchor\nAS65002,10.1.0.0/16,24,ta\n";

const STAMP: Stamp = Stamp {
    device: 1,
    node: 2,
    octets: 64,
    written: 1_767_225_000,
    written_nanoseconds: 0,
    changed: 1_767_225_000,
    changed_nanoseconds: 0,
};

// Of another file that was written in the same tick and has the same size, as a list is replaced by `mv`.
const REPLACED: Stamp = Stamp { node: 3, ..STAMP };

// Of that one once it was touched.
const TOUCHED: Stamp = Stamp {
    written: 1_767_225_060,
    changed: 1_767_225_060,
    ..REPLACED
};

// Of that one once it was written to, and its time was set back.
const SET_BACK: Stamp = Stamp {
    changed: 1_767_225_120,
    ..TOUCHED
};

// What an operator asks for, what the file holds and its stamp, and what looking at it leads to.
#[rattlefmt::skip]
const LOOKS: [(Option<Reading>, &str, Option<Stamp>, Reread); 10] = [
    (None,                  FIRST,  Some(STAMP),    Reread::Published(1)),
    (None,                  SECOND, Some(STAMP),    Reread::Unchanged),
    (Some(Reading::Reread), SECOND, Some(STAMP),    Reread::Published(2)),
    (None,                  FIRST,  Some(REPLACED), Reread::Published(3)),
    (None,                  FIRST,  Some(TOUCHED),  Reread::Same),
    (None,                  FIRST,  Some(TOUCHED),  Reread::Unchanged),
    (None,                  SECOND, Some(SET_BACK), Reread::Published(4)),
    (None,                  FIRST,  None,           Reread::Published(5)),
    (None,                  FIRST,  None,           Reread::Same),
    (None,                  FIRST,  Some(STAMP),    Reread::Same),
];

// Whether looking at a file leads to this.
fn leads_to<W: Wire + Drop>(
    alloc: Global,
    served: &mut ServedList<W>,
    settings: &CacheSettings,
    look: (Option<Reading>, &str, Option<Stamp>, Reread),
) -> bool {
    let (asked, text, stamp, wanted) = look;
    let mut due = Interval::new(Some(1));
    let opens = |_path: &str| {
        Ok(File {
            rest: text.as_bytes(),
            changes: false,
            stamp,
        })
    };
    let (led, turned) = served.serve(alloc, 1, FileAge::NEW, asked, &mut due, settings, 0, &opens);
    turned.is_ok() && led == Some(wanted)
}

// Whether each does, one after another.
fn lead_there<W: Wire + Drop>(
    alloc: Global,
    served: &mut ServedList<W>,
    settings: &CacheSettings,
) -> bool {
    for look in &LOOKS {
        if !leads_to(alloc, served, settings, *look) {
            return false;
        }
    }
    true
}

#[test]
fn an_unchanged_file_is_not_read(rt: HostRuntime) -> Result<(), Fail> {
    let settings = match CacheSettings::read(rt.alloc(), SETTINGS) {
        Ok(settings) => settings,
        Err(_) => return Err(Fail::new("no settings")),
    };
    let served = serving_none(rt.alloc(), NetWire::new(&rt)?, Guards::NONE)?;
    assert!(rt; lend(served, |served| lead_there(rt.alloc(), served, &settings)));
    Ok(())
}
