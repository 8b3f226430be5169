//! A list that is served under the exceptions of a SLURM file.

use crate::rereads::{asking, hears, list, serving_none};
use cache_program::{ListFault, Reread, ServedList, main_cache};
use cache_watch::FileAge;
use list_guards::{GuardFault, Guards};
use net_wires::NetWire;
use payload_sources::{SourceFault, SourceFile, Sources, Unopened};
use program_stages::{Ending, ends, lend, path_of, remove, write};
use std::alloc::Global;
use std::io::{self, ErrorKind};
use std::net::SocketAddr;
use std::test::Fail;
use wires::Wire;

const LIST: &str =
    "ASN,IP Prefix,Max Length,Trust Anchor\nAS65001,10.9.0.0/16,24,ta\nAS65001,10.8.4.0/22,24,ta\n";

// Takes out both payloads of the list, and puts in 10.0.0.0/16 up to length 24 of AS65002.
const SLURM: &str = r#"{"slurmVersion": 1,
    "validationOutputFilters": {
        "prefixFilters": [{"prefix": "10.9.0.0/16"}, {"asn": 65001, "prefix": "10.8.0.0/16"}, {"prefix": "2001:db8::/32"}],
        "bgpsecFilters": [{"asn": 65001}]},
    "locallyAddedAssertions": {
        "prefixAssertions": [{"asn": 65002, "prefix": "10.0.0.0/16", "maxPrefixLength": 24}],
        "bgpsecAssertions": []}}"#;

// Its second filter has a host bit.
const FAULTY: &str = r#"{"slurmVersion": 1,
    "validationOutputFilters": {
        "prefixFilters": [{"prefix": "10.9.0.0/16"}, {"prefix": "10.8.0.1/16"}],
        "bgpsecFilters": []},
    "locallyAddedAssertions": {"prefixAssertions": [], "bgpsecAssertions": []}}"#;

// Takes all out.
const NONE_LEFT: &str = r#"{"slurmVersion": 1,
    "validationOutputFilters": {
        "prefixFilters": [{"prefix": "0.0.0.0/0"}],
        "bgpsecFilters": []},
    "locallyAddedAssertions": {"prefixAssertions": [], "bgpsecAssertions": []}}"#;

const ONE_AT_LEAST: Guards = Guards {
    min_payloads: Some(1),
    max_payloads: None,
    max_shrink: None,
};

// Reads the list again under this SLURM file.
fn reread<W: Wire + Drop>(alloc: Global, served: &mut ServedList<W>, slurm: &str) -> Reread {
    let sources = Sources {
        list: LIST.as_bytes(),
        slurm: Some(slurm.as_bytes()),
        second: None,
    };
    served.reread(alloc, 0, FileAge::NEW, None, Ok(sources))
}

// Whether a SLURM file that isn't there is refused.
fn is_missing<W: Wire + Drop>(alloc: Global, served: &mut ServedList<W>) -> bool {
    let missing: Result<Sources<&[u8]>, Unopened> = Err(Unopened {
        file: SourceFile::Slurm,
        error: io::Error::from(ErrorKind::NotFound),
    });
    let led = served.reread(alloc, 0, FileAge::NEW, None, missing);
    led == Reread::Refused(ListFault::NoFile(SourceFile::Slurm))
}

// Whether a router gets what the exceptions make of the list, and goes on to where a SLURM file is faulty, takes out too much,
// or isn't there.
fn stays_in_force<W: Wire + Drop>(
    rt: &HostRuntime,
    served: &mut ServedList<W>,
    address: Option<SocketAddr>,
) -> Result<bool, Fail> {
    let alloc = rt.alloc();
    let less = GuardFault::TooFew {
        payloads: 0,
        wanted: 1,
    };
    let stays = reread(alloc, served, SLURM) == Reread::Published(1)
        && matches!(
            reread(alloc, served, FAULTY),
            Reread::Refused(ListFault::Source(SourceFault::Slurm(_)))
        )
        && reread(alloc, served, NONE_LEFT) == Reread::Refused(ListFault::Guard(less))
        && is_missing(alloc, served)
        && reread(alloc, served, SLURM) == Reread::Same
        && served.payloads() == 1;
    let mut router = asking(rt, address.ok_or("no address")?)?;
    Ok(stays && hears(alloc, served, &mut router, &list(0, 1)))
}

#[test]
fn exceptions_stay_in_force(rt: HostRuntime) -> Result<(), Fail> {
    let wire = NetWire::listening(&rt, "127.0.0.1:0".parse()?)?;
    let address = wire.local_address();
    let served = serving_none(rt.alloc(), wire, ONE_AT_LEAST)?;
    assert!(rt; lend(served, |served| stays_in_force(&rt, served, address))?);
    Ok(())
}

// Whether the program ends so with these words.
fn ends_with(rt: &HostRuntime, words: &[&str], status: u8, output: &str, errors: &str) -> bool {
    let ending = Ending {
        status,
        output,
        errors,
    };
    ends(rt.alloc(), words, ending, |words, output, errors| {
        main_cache(rt, words, output, errors)
    }) == Ok(true)
}

// Whether settings with this SLURM file are told so, and the list is served under it, or isn't.
fn is_told(rt: &HostRuntime, text: &str, is_good: bool) -> Result<bool, Fail> {
    let csv = write(rt, "under.csv", LIST)?;
    let slurm = write(rt, "under.json", text)?;
    let settings = format!(in rt.alloc();
        "listen = \"127.0.0.1:0\"\nsession = 7\nmin_payloads = 1\ncsv = \"{csv}\"\nslurm = \"{slurm}\"\n"
    )?;
    let path = write(rt, "under.toml", settings.as_str())?;
    let path = path.as_str();
    let told = if is_good {
        let output = format!(in rt.alloc();
            "{path}: settings that listen at 127.0.0.1:0\n{slurm}: a SLURM file of 2 filters and 1 assertions, with 2 entries skipped\n{csv}: a list of 1 payloads under it\n"
        )?;
        ends_with(rt, &["--check", path], 0, output.as_str(), "")
            && ends_with(rt, &[path, "2"], 0, "", "")
    } else {
        let errors = format!(in rt.alloc();
            "ovcache: settings: {slurm}: prefixFilters[1]: the member prefix: the address has bits behind the prefix\n"
        )?;
        ends_with(rt, &["--check", path], 1, "", errors.as_str())
            && ends_with(rt, &[path, "2"], 1, "", errors.as_str())
    };
    remove(rt, path)?;
    remove(rt, slurm.as_str())?;
    remove(rt, csv.as_str())?;
    Ok(told)
}

#[test]
fn a_slurm_file_is_told(rt: HostRuntime) -> Result<(), Fail> {
    assert!(rt; is_told(&rt, SLURM, true)?);
    assert!(rt; is_told(&rt, FAULTY, false)?);
    Ok(())
}

// A SLURM file that isn't there is a fault of the device.
#[test]
fn a_slurm_file_that_isnt_there_is_told(rt: HostRuntime) -> Result<(), Fail> {
    let csv = write(&rt, "alone.csv", LIST)?;
    let slurm = path_of(&rt, "no_such_slurm")?;
    let settings = format!(in rt.alloc();
        "listen = \"127.0.0.1:0\"\nsession = 7\ncsv = \"{csv}\"\nslurm = \"{slurm}\"\n"
    )?;
    let path = write(&rt, "no_slurm.toml", settings.as_str())?;
    let errors = format!(in rt.alloc();
        "ovcache: device: {slurm}: No such file or directory (os error 2)\n"
    )?;
    assert!(rt; ends_with(&rt, &[path.as_str(), "2"], 2, "", errors.as_str()));
    remove(&rt, path.as_str())?;
    Ok(remove(&rt, csv.as_str())?)
}
