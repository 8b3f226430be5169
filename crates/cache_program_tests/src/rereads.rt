//! The list is read again while routers are served.

use cache_program::{ListFault, Reread, ServedList};
use cache_turns::CacheLoop;
use cache_watch::FileAge;
use list_guards::Guards;
use net_wires::NetWire;
use payload_sources::{SourceFault, SourceFile, Sources, Unopened};
use program_stages::lend;
use rtr_cache::Cache;
use rtr_codec::Intervals;
use std::alloc::{AllocGlobal, Global};
use std::collections::BTreeSet;
use std::io::{self, ErrorKind, Read, Write};
use std::net::{Net, SocketAddr, TcpListener, TcpStream};
use std::test::Fail;
use vrp_json::Written;
use wires::Wire;

const RESET_QUERY: [u8; 8] = [1, 2, 0, 0, 0, 0, 0, 8];

pub(crate) const FIRST: &str = "ASN,IP Prefix,Max Length,Trust Anchor\nAS65002,10.0.0.0/16,24,ta\n";

const SECOND: &str = "ASN,IP Prefix,Max Length,Trust Anchor\nAS65002,10.1.0.0/16,24,ta\n";

// The second one with its row twice: the same set.
const EQUAL: &str =
    "ASN,IP Prefix,Max Length,Trust Anchor\nAS65002,10.1.0.0/16,24,ta\nAS65002,10.1.0.0/16,24,tb\n";

// Its second row has a host bit.
const FAULTY: &str =
    "ASN,IP Prefix,Max Length,Trust Anchor\nAS65002,10.2.0.0/16,24,ta\nAS65002,10.3.0.1/16,24,ta\n";

// What a Reset Query gets where 10.SECOND.0.0/16 up to length 24 of AS65002 is served under the serial.
#[rattlefmt::skip]
pub(crate) const fn list(second: u8, serial: u8) -> [u8; 52] {
    [
        1, 3, 0, 7, 0, 0, 0, 8,
        1, 4, 0, 0, 0, 0, 0, 20, 1, 16, 24, 0, 10, second, 0, 0, 0, 0, 0xFD, 0xEA,
        1, 7, 0, 7, 0, 0, 0, 24, 0, 0, 0, serial, 0, 0, 0x0E, 0x10, 0, 0, 2, 0x58, 0, 0, 0x1C, 0x20,
    ]
}

const fn notify(serial: u8) -> [u8; 12] {
    [1, 0, 0, 7, 0, 0, 0, 12, 0, 0, 0, serial]
}

// A router that has asked for the list.
pub(crate) fn asking<R>(rt: &R, address: SocketAddr) -> io::Result<TcpStream>
where
    R: Net<Listener = TcpListener, Stream = TcpStream>,
{
    let mut router = TcpStream::connect(rt, address)?;
    router.set_nonblocking(true)?;
    router.write_all(&RESET_QUERY)?;
    Ok(router)
}

// Takes what has come, if anything has: whether it went well.
fn takes<S: Read>(router: &mut S, heard: &mut Vec<u8>) -> bool {
    let mut buf = [0; 500];
    match router.read(&mut buf) {
        Ok(count) => heard.extend_from_slice(&buf[..count]).is_ok(),
        Err(error) => error.kind() == ErrorKind::WouldBlock,
    }
}

// Whether just these octets come to a router in so many turns.
pub(crate) fn hears<W: Wire + Drop, S: Read>(
    alloc: Global,
    served: &mut ServedList<W>,
    router: &mut S,
    octets: &[u8],
) -> bool {
    let mut heard = Vec::new(alloc);
    for _ in 0..100 {
        if served.turn(0).is_err() || !takes(router, &mut heard) {
            return false;
        }
    }
    heard.as_slice() == octets
}

// Reads a list again.
pub(crate) fn reread<W: Wire + Drop>(
    alloc: Global,
    served: &mut ServedList<W>,
    text: &str,
) -> Reread {
    let list = text.as_bytes();
    served.reread(
        alloc,
        0,
        FileAge::NEW,
        None,
        Ok(Sources {
            list,
            slurm: None,
            second: None,
        }),
    )
}

// Whether the list is published under the serial when it is read again.
pub(crate) fn is_published<W: Wire + Drop>(
    alloc: Global,
    served: &mut ServedList<W>,
    text: &str,
    serial: u32,
) -> bool {
    matches!(reread(alloc, served, text), Reread::Published(told) if told == serial)
}

// Whether it is the set that is served.
pub(crate) fn is_same<W: Wire + Drop>(
    alloc: Global,
    served: &mut ServedList<W>,
    text: &str,
) -> bool {
    matches!(reread(alloc, served, text), Reread::Same)
}

// Whether it is refused as a list.
pub(crate) fn is_refused<W: Wire + Drop>(
    alloc: Global,
    served: &mut ServedList<W>,
    text: &str,
) -> bool {
    matches!(
        reread(alloc, served, text),
        Reread::Refused(ListFault::Source(SourceFault::List(_)))
    )
}

// Whether a list that isn't there is refused.
fn is_missing<W: Wire + Drop>(alloc: Global, served: &mut ServedList<W>) -> bool {
    let missing: Result<Sources<&[u8]>, Unopened> = Err(Unopened {
        file: SourceFile::List,
        error: io::Error::from(ErrorKind::NotFound),
    });
    matches!(
        served.reread(alloc, 0, FileAge::NEW, None, missing),
        Reread::Refused(ListFault::NoFile(SourceFile::List))
    )
}

// The router that stays hears the first list, and then of the second one.
fn hears_of_both<W: Wire + Drop, S: Read>(
    alloc: Global,
    served: &mut ServedList<W>,
    staying: &mut S,
) -> bool {
    hears(alloc, served, staying, &list(0, 1))
        && is_published(alloc, served, SECOND, 2)
        && hears(alloc, served, staying, &notify(2))
}

// What is read again then publishes nothing.
fn hears_no_more<W: Wire + Drop, S: Read>(
    alloc: Global,
    served: &mut ServedList<W>,
    staying: &mut S,
) -> bool {
    is_same(alloc, served, EQUAL)
        && is_refused(alloc, served, FAULTY)
        && is_missing(alloc, served)
        && hears(alloc, served, staying, &[])
}

// Whether a router that comes anew hears the second list, which is served.
fn hears_anew<W: Wire + Drop, S: Read + Drop>(
    alloc: Global,
    served: &mut ServedList<W>,
    router: io::Result<S>,
) -> bool {
    match router {
        Ok(mut router) => {
            hears(alloc, served, &mut router, &list(1, 2))
                && served.serial() == 2
                && served.payloads() == 1
        }
        Err(_) => false,
    }
}

// The first list is served, and a router stays; it and others hear of each change.
fn follow<R, W: Wire + Drop>(
    rt: &R,
    served: &mut ServedList<W>,
    address: Option<SocketAddr>,
) -> Result<bool, Fail>
where
    R: Net<Listener = TcpListener, Stream = TcpStream> + AllocGlobal,
{
    let address = address.ok_or("no address")?;
    let is_first = is_published(rt.alloc(), served, FIRST, 1);
    let mut staying = asking(rt, address)?;
    Ok(
        is_first
            && hears_of_both(rt.alloc(), served, &mut staying)
            && hears_anew(rt.alloc(), served, asking(rt, address))
            && hears_no_more(rt.alloc(), served, &mut staying)
            && hears_anew(rt.alloc(), served, asking(rt, address)),
    )
}

// A cache that serves nothing, and whose lists have to keep to these guards.
pub(crate) fn serving_none<W: Wire + Drop>(
    alloc: Global,
    wire: W,
    guards: Guards,
) -> Result<ServedList<W>, Fail> {
    let cache = Cache::new(alloc, 7, Intervals::USUAL)?;
    let turns = CacheLoop::new(alloc, wire, cache)?;
    Ok(ServedList::new(turns, guards, 0, BTreeSet::new(alloc), Written::Untold))
}

#[test]
fn routers_follow_a_list_that_changes(rt: HostRuntime) -> Result<(), Fail> {
    let wire = NetWire::listening(&rt, "127.0.0.1:0".parse()?)?;
    let address = wire.local_address();
    let served = serving_none(rt.alloc(), wire, Guards::NONE)?;
    assert!(rt; lend(served, |served| follow(&rt, served, address))?);
    Ok(())
}
