//! A SLURM file, whose exceptions `ovbgpd` obeys before its commands.

use crate::bgp_statuses::{ends_with, fails};
use program_stages::{Ending, path_of, remove, write};
use std::test::Fail;

// The example of RFC 8416 section 3.5, without its comments.
const EXAMPLE: &str = r#"{"slurmVersion": 1,
    "validationOutputFilters": {
        "prefixFilters": [{"prefix": "192.0.2.0/24"}, {"asn": 64496}, {"prefix": "198.51.100.0/24", "asn": 64497}],
        "bgpsecFilters": [{"asn": 64496}, {"SKI": "<some base64 SKI>"}, {"asn": 64497, "SKI": "<some base64 SKI>"}]},
    "locallyAddedAssertions": {
        "prefixAssertions": [
            {"asn": 64496, "prefix": "198.51.100.0/24"},
            {"asn": 64496, "prefix": "2001:DB8::/32", "maxPrefixLength": 48}],
        "bgpsecAssertions": [
            {"asn": 64496, "SKI": "<some base64 SKI>", "routerPublicKey": "<some base64 public key>"}]}}"#;

// Its second filter has a host bit.
const FAULTY: &str = r#"{"slurmVersion": 1,
    "validationOutputFilters": {
        "prefixFilters": [{"prefix": "10.9.0.0/16"}, {"prefix": "10.8.0.1/16"}],
        "bgpsecFilters": []},
    "locallyAddedAssertions": {"prefixAssertions": [], "bgpsecAssertions": []}}"#;

// Commands behind those of the example, with the Loc-RIB that they leave. What is there already may be told again, and what the
// file puts in may be taken out.
#[rattlefmt::skip]
const COMMANDS: [(&str, &str); 4] = [
    ("network 198.51.100.0/24\n", "198.51.100.0/24 local Valid 4294967296\nend\n"),
    ("network 198.51.100.0/24\nfilter as 64496\nassert 198.51.100.0/24 24 64496\n", "198.51.100.0/24 local Valid 4294967296\nend\n"),
    ("network 198.51.100.0/24\nnoassert 198.51.100.0/24 24 64496\n", "198.51.100.0/24 local NotFound 4294967296\nend\n"),
    ("nofilter prefix 192.0.2.0/24\nnofilter as 64496\nnofilter both 198.51.100.0/24 64497\n", "end\n"),
];

// Whether settings with this SLURM file and these commands end so, behind two turns or when they are checked.
fn ends_under(
    rt: &HostRuntime,
    slurm: &str,
    commands: &str,
    ending: Ending<'_>,
) -> Result<bool, Fail> {
    let commands_path = write(rt, "excepted", commands)?;
    let text = format!(in rt.alloc();
        "as = 64496\nidentifier = \"192.0.2.1\"\ncommands = \"{commands_path}\"\nslurm = \"{slurm}\"\n"
    )?;
    let path = write(rt, "excepted.toml", text.as_str())?;
    let has_ended = ends_with(rt, &[path.as_str(), "2"], ending);
    remove(rt, path.as_str())?;
    remove(rt, commands_path.as_str())?;
    Ok(has_ended)
}

#[test]
fn exceptions_are_obeyed_before_commands(rt: HostRuntime) -> Result<(), Fail> {
    let slurm = write(&rt, "example.json", EXAMPLE)?;
    for (commands, output) in &COMMANDS {
        let well = Ending {
            status: 0,
            output: *output,
            errors: "",
        };
        assert!(rt;
            ends_under(&rt, slurm.as_str(), commands, well)?,
            "{commands}"
        );
    }
    Ok(remove(&rt, slurm.as_str())?)
}

// A faulty file is told with its place before the commands are looked at, and one that isn't there as a fault of the device.
#[test]
fn a_slurm_file_that_cant_be_had_is_told(rt: HostRuntime) -> Result<(), Fail> {
    let slurm = write(&rt, "faulty.json", FAULTY)?;
    let faulty = format!(in rt.alloc();
        "ovbgpd: settings: {slurm}: prefixFilters[1]: the member prefix: the address has bits behind the prefix\n"
    )?;
    assert!(rt; ends_under(&rt, slurm.as_str(), "no command", fails(1, faulty.as_str()))?);
    remove(&rt, slurm.as_str())?;
    let missing = path_of(&rt, "no_such_slurm")?;
    let told = format!(in rt.alloc();
        "ovbgpd: device: {missing}: No such file or directory (os error 2)\n"
    )?;
    assert!(rt; ends_under(&rt, missing.as_str(), "no command", fails(2, told.as_str()))?);
    Ok(())
}

// What `--check` tells of settings with this SLURM file.
fn is_told(rt: &HostRuntime, slurm: &str) -> Result<bool, Fail> {
    let commands = write(rt, "checked_under", "network 198.51.100.0/24\n")?;
    let text = format!(in rt.alloc();
        "as = 64496\nidentifier = \"192.0.2.1\"\ncommands = \"{commands}\"\nslurm = \"{slurm}\"\n"
    )?;
    let path = write(rt, "checked_under.toml", text.as_str())?;
    let output = format!(in rt.alloc();
        "{path}: settings of AS 64496 with 0 peers\n{slurm}: a SLURM file of 3 filters and 1 assertions, with 5 entries skipped\n{commands}: commands that are obeyed\n"
    )?;
    let well = Ending {
        status: 0,
        output: output.as_str(),
        errors: "",
    };
    let has_told = ends_with(rt, &["--check", path.as_str()], well);
    remove(rt, path.as_str())?;
    remove(rt, commands.as_str())?;
    Ok(has_told)
}

#[test]
fn a_check_tells_what_is_skipped(rt: HostRuntime) -> Result<(), Fail> {
    let slurm = write(&rt, "told.json", EXAMPLE)?;
    assert!(rt; is_told(&rt, slurm.as_str())?);
    Ok(remove(&rt, slurm.as_str())?)
}
