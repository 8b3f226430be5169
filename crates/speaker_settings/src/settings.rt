//! The settings of a speaker.
ghost use Rattle.std.specs.Prelude.{◌≡◌, ◌≤◌, ◌<◌, IfOk, IfSome, codes};
ghost use Rattle.toml.specs.Data.{Members, get_member};
ghost use Rattle.toml.specs.View.{items_view, table_view, view};
ghost use Rattle.settings_keys.specs.Causes.{IsBad};
ghost use Rattle.settings_keys.specs.Keys.{Answers, AnswersInMemory, IsTableOf, IsTold, IsToldIfThere, IsToldOrUsual};
ghost use Rattle.speaker_settings.specs.PeerSlots.{AreSlots, has_slot};
ghost use Rattle.speaker_settings.specs.ToldSettings.{ArePeers, ArePeersAt, AreTimers, AreTimersAt, IsAsn, IsIdentifier, IsPeer, IsRetry, IsSeconds, IsShortSeconds, IsSlot, IsSlotTimers, IsTextOf, IsToldBy};

use bgp_conf::PEER_SLOTS;
use bgp_fsm::{CONNECT_RETRY_SECONDS, IDLE_HOLD_SECONDS, PeerTimers};
use net_prefix::Asn;
use settings_keys::{
    Owner, SettingsFault, SettingsPlace, Wanted, address_if_told, address_of, again, bad_number,
    bad_text, bad_value, lacks, number_of, only_known, read_table, text_as, text_of, value_at,
    yes_or_no_of,
};
use std::alloc::Global;
use std::net::{Ipv4Addr, SocketAddr};
use toml::{Table, Value};

/// What `ovbgpd` is told by its settings.
#[derive(Drop)]
pub struct SpeakerSettings {
    /// The speaker's AS.
    pub asn: Asn,
    /// Its BGP Identifier.
    pub identifier: u32,
    /// The path of its commands.
    pub commands: String,
    /// The path of the SLURM file whose exceptions stand before its commands, if there is one.
    pub slurm: Option<String>,
    /// Where its RPKI cache is, if it has one.
    pub cache: Option<SocketAddr>,
    /// Whether its OPEN tells IPv4 unicast by the capability of RFC 4760 section 8.
    pub multiprotocol: bool,
    /// Where it listens, if it does.
    pub listen: Option<SocketAddr>,
    /// The path of the Unix socket at which operators are answered, if they are.
    pub control: Option<String>,
    /// For how many seconds octets may wait for a connection of which none goes (SendHoldTime of RFC 9687).
    pub send_hold: u32,
    /// For how many seconds a connection may stand from which no whole OPEN has come, if that is told.
    pub open_wait: Option<u32>,
    /// Whether it writes a log.
    pub log: bool,
    /// After how many seconds the log gets a status line, if it does.
    pub status: Option<u32>,
    /// Where scrapers ask for figures, if they do.
    pub metrics: Option<SocketAddr>,
    /// For how many seconds the session with the cache waits behind what failed until a load has brought the cache's own Retry
    /// Interval, from 1 to 7200, if that is told (RFC 8210 section 6).
    pub cache_retry: Option<u32>,
    /// For how many seconds at most peers are enabled only once payloads were loaded, if they wait for that.
    pub wait_for_cache: Option<u32>,
    /// The slot of each peer, and where the peer is.
    pub peers: Vec<(u8, SocketAddr)>,
    /// The slot of each peer, and for how long those of its timers run that may be set.
    pub timers: Vec<(u8, PeerTimers)>,
}

impl SpeakerSettings {
    /// The settings that the octets of a file tell in TOML: `as`, a number from 1 to 4294967295, `identifier`, the text of
    /// an IPv4 address other than 0.0.0.0, and `commands`, a text; and, where they are there, `multiprotocol` and `log`,
    /// `true` or `false`, `cache`, `listen` and `metrics`, each the text of an address and a port, `slurm` and `control`, texts,
    /// `cache_retry`, a number from 1 to 7200, `send_hold`, in the place of `SEND_HOLD_SECONDS`, `open_wait`, `status` and
    /// `wait_for_cache`, each a number from 1 to 4294967295, and the tables `peer`, each with `slot`, from 0 to 63 and none twice, `remote`, the text of an address and a
    /// port, and, where they are there, `connect_retry` and `idle_hold`, each a number from 1 to 65535, in the place of
    /// `CONNECT_RETRY_SECONDS` and `IDLE_HOLD_SECONDS`. There are no keys of other names. Anything else is `Settings`.
    pub fn read(alloc: Global, octets: &[u8]) -> Result<SpeakerSettings, SettingsFault>
        ensures told { AnswersInMemory (λ settings. (table : Members) × IsTableOf octets.now table × IsToldBy table settings) result }
        ensures own { IfOk result (λ settings. (1 ≤ settings.asn.0) × (1 ≤ settings.identifier)) }
        ensures seconds { IfOk result (λ settings. (1 ≤ settings.send_hold) × IfSome settings.open_wait (λ seconds. 1 ≤ seconds)) }
        ensures status { IfOk result (λ settings. IfSome settings.status (λ seconds. 1 ≤ seconds)) }
        ensures slots { IfOk result (λ settings. AreSlots settings.peers.items) }
    {
        let table = read_table(alloc, octets)?;
        SpeakerSettings::of(alloc, &table)
    }

    // The settings that the keys of a table tell.
    fn of(alloc: Global, table: &Table) -> Result<SpeakerSettings, SettingsFault>
        ensures told { AnswersInMemory (IsToldBy (table_view table.now)) result }
        ensures own { IfOk result (λ settings. (1 ≤ settings.asn.0) × (1 ≤ settings.identifier)) }
        ensures seconds { IfOk result (λ settings. (1 ≤ settings.send_hold) × IfSome settings.open_wait (λ seconds. 1 ≤ seconds)) }
        ensures status { IfOk result (λ settings. IfSome settings.status (λ seconds. 1 ≤ seconds)) }
        ensures slots { IfOk result (λ settings. AreSlots settings.peers.items) }
    {
        only_known(alloc, table, Owner::Speaker, &KEYS)?;
        let asn = asn_of(alloc, table)?;
        let identifier = identifier_of(alloc, table)?;
        let path = text_of(alloc, table, "commands")?;
        let commands = String::from_str(alloc, path)?;
        let slurm = path_if_told(alloc, table, "slurm")?;
        let cache = address_if_told(alloc, table, "cache")?;
        let multiprotocol = yes_or_no_of(alloc, table, "multiprotocol")?;
        let listen = address_if_told(alloc, table, "listen")?;
        let control = path_if_told(alloc, table, "control")?;
        let send_hold = send_hold_of(alloc, table)?;
        let open_wait = seconds_of(alloc, table, "open_wait")?;
        let log = yes_or_no_of(alloc, table, "log")?;
        let status = seconds_of(alloc, table, "status")?;
        let metrics = address_if_told(alloc, table, "metrics")?;
        let cache_retry = cache_retry_of(alloc, table)?;
        let wait_for_cache = seconds_of(alloc, table, "wait_for_cache")?;
        let peers = peers_of(alloc, table)?;
        let timers = timers_of(alloc, table)?;
        Ok(SpeakerSettings {
            asn,
            identifier,
            commands,
            slurm,
            cache,
            multiprotocol,
            listen,
            control,
            send_hold,
            open_wait,
            log,
            status,
            metrics,
            cache_retry,
            wait_for_cache,
            peers,
            timers,
        })
    }
}

// The keys of the settings, and of each peer's table.
const KEYS: [&str; 16] = [
    "as",
    "identifier",
    "commands",
    "slurm",
    "cache",
    "multiprotocol",
    "listen",
    "control",
    "send_hold",
    "open_wait",
    "log",
    "status",
    "metrics",
    "cache_retry",
    "wait_for_cache",
    "peer",
];

const PEER_KEYS: [&str; 4] = ["slot", "remote", "connect_retry", "idle_hold"];

// The speaker's AS, which is not 0.
fn asn_of(alloc: Global, table: &Table) -> Result<Asn, SettingsFault>
    ensures { Answers (IsTold IsAsn (get_member (codes "as") (table_view table.now))) result }
{
    let wanted = Wanted::Number(1, u32::MAX);
    match number_of(alloc, table, "as", wanted)? {
        None => Err(lacks(alloc, "as")),
        Some(0) => Err(bad_number(alloc, "as", 0, wanted)),
        Some(number) => Ok(Asn(number)),
    }
}

// The speaker's BGP Identifier: four numbers with dots between them, not all 0.
fn identifier_of(alloc: Global, table: &Table) -> Result<u32, SettingsFault>
    ensures { Answers (IsTold IsIdentifier (get_member (codes "identifier") (table_view table.now))) result }
{
    let wanted = Wanted::Identifier;
    let text = text_as(alloc, table, "identifier", wanted)?;
    let Ok(address) = text.parse::<Ipv4Addr>() else {
        return Err(bad_text(alloc, "identifier", text, wanted));
    };
    match address.to_bits() {
        0 => Err(bad_text(alloc, "identifier", text, wanted)),
        identifier => Ok(identifier),
    }
}

// The path at a key, if the key is there.
fn path_if_told(alloc: Global, table: &Table, key: &str) -> Result<Option<String>, SettingsFault>
    ensures { AnswersInMemory (λ told. IsToldIfThere IsTextOf (get_member key.now (table_view table.now)) told) result }
{
    if value_at(table, key).is_none() {
        return Ok(None);
    }
    let path = text_of(alloc, table, key)?;
    Ok(Some(String::from_str(alloc, path)?))
}

/// For how many seconds octets may wait for a connection of which none goes, where the settings don't tell: 8 minutes
/// (RFC 9687 section 4).
pub const SEND_HOLD_SECONDS: u32 = 480;

fn send_hold_of(alloc: Global, table: &Table) -> Result<u32, SettingsFault>
    ensures told { Answers (IsToldOrUsual IsSeconds 480 (get_member (codes "send_hold") (table_view table.now))) result }
    ensures some { IfOk result (λ seconds. 1 ≤ seconds) }
{
    match seconds_of(alloc, table, "send_hold")? {
        Some(seconds) => Ok(seconds),
        None => Ok(SEND_HOLD_SECONDS),
    }
}

// The seconds that a key may have.
const SECONDS: Wanted = Wanted::Number(1, u32::MAX);

// The seconds at a key, if the key is there: one at least.
fn seconds_of(alloc: Global, table: &Table, key: &str) -> Result<Option<u32>, SettingsFault>
    ensures told { Answers (IsToldIfThere IsSeconds (get_member key.now (table_view table.now))) result }
    ensures some { IfOk result (λ seconds. IfSome seconds (λ number. 1 ≤ number)) }
{
    match number_of(alloc, table, key, SECONDS)? {
        None => Ok(None),
        Some(0) => Err(bad_number(alloc, key, 0, SECONDS)),
        Some(seconds) => Ok(Some(seconds)),
    }
}

// The seconds that a Retry Interval may be (RFC 8210 section 6).
const RETRY: Wanted = Wanted::Number(1, 7_200);

// The Retry Interval of the session with the cache until a load has brought another, if it is told.
fn cache_retry_of(alloc: Global, table: &Table) -> Result<Option<u32>, SettingsFault>
    ensures { Answers (IsToldIfThere IsRetry (get_member (codes "cache_retry") (table_view table.now))) result }
{
    let Some(seconds) = number_of(alloc, table, "cache_retry", RETRY)? else {
        return Ok(None);
    };
    if seconds == 0 || 7_200 < seconds {
        return Err(bad_number(alloc, "cache_retry", seconds, RETRY));
    }
    Ok(Some(seconds))
}

// The slot and the address of each peer; none where there are no such tables.
fn peers_of(alloc: Global, table: &Table) -> Result<Vec<(u8, SocketAddr)>, SettingsFault>
    ensures told { AnswersInMemory (λ peers. ArePeersAt (get_member (codes "peer") (table_view table.now)) peers.items) result }
    ensures slots { IfOk result (λ peers. AreSlots peers.items) }
{
    let Some(value) = value_at(table, "peer") else {
        return Ok(Vec::new(alloc));
    };
    let Some(entries) = value.as_array() else {
        return Err(bad_value(alloc, "peer", value, Wanted::Tables));
    };
    each_peer(alloc, entries.as_slice())
}

// The slot and the address of the peer of each table, no slot twice.
fn each_peer(alloc: Global, entries: &[Value]) -> Result<Vec<(u8, SocketAddr)>, SettingsFault>
    ensures told { AnswersInMemory (λ peers. ArePeers (items_view entries.now) peers.items × AreSlots peers.items) result }
    ensures slots { IfOk result (λ peers. AreSlots peers.items) }
{
    let mut peers = Vec::new(alloc);
    for entry in entries {
        let number = peers.len() + 1;
        let peer = numbered_peer(alloc, entry, number)?;
        if has_slot(peers.as_slice(), peer.0) {
            return Err(slot_again(alloc, number, peer.0));
        }
        if peers.push(peer).is_err() {
            return Err(SettingsFault::NoMemory);
        }
    }
    Ok(peers)
}

// That an earlier table than the one of this number has the slot.
fn slot_again(alloc: Global, number: usize, slot: u8) -> SettingsFault
    ensures { IsBad result }
{
    again(alloc, "slot", slot as u32).at(SettingsPlace::Peer(number))
}

// The slot and the address of the peer of the table of this number.
fn numbered_peer(
    alloc: Global,
    entry: &Value,
    number: usize,
) -> Result<(u8, SocketAddr), SettingsFault>
    ensures { AnswersInMemory (IsPeer (view entry.now)) result }
{
    match peer_of(alloc, entry) {
        Ok(peer) => Ok(peer),
        Err(fault) => Err(fault.at(SettingsPlace::Peer(number))),
    }
}

fn peer_of(alloc: Global, entry: &Value) -> Result<(u8, SocketAddr), SettingsFault>
    ensures { AnswersInMemory (IsPeer (view entry.now)) result }
{
    let Some(table) = entry.as_table() else {
        return Err(bad_value(alloc, "peer", entry, Wanted::Table));
    };
    only_known(alloc, table, Owner::Peer, &PEER_KEYS)?;
    let slot = slot_of(alloc, table)?;
    let remote = address_of(alloc, table, "remote")?;
    Ok((slot, remote))
}

fn slot_of(alloc: Global, table: &Table) -> Result<u8, SettingsFault>
    ensures { Answers (IsTold IsSlot (get_member (codes "slot") (table_view table.now))) result }
{
    let wanted = Wanted::Number(0, PEER_SLOTS as u32 - 1);
    let Some(number) = number_of(alloc, table, "slot", wanted)? else {
        return Err(lacks(alloc, "slot"));
    };
    match u8::try_from(number) {
        Ok(slot) if slot < PEER_SLOTS => Ok(slot),
        _ => Err(bad_number(alloc, "slot", number, wanted)),
    }
}

// The slot and the timers of each peer; none where there are no such tables.
fn timers_of(alloc: Global, table: &Table) -> Result<Vec<(u8, PeerTimers)>, SettingsFault>
    ensures { AnswersInMemory (λ timers. AreTimersAt (get_member (codes "peer") (table_view table.now)) timers.items) result }
{
    let Some(value) = value_at(table, "peer") else {
        return Ok(Vec::new(alloc));
    };
    let Some(entries) = value.as_array() else {
        return Err(bad_value(alloc, "peer", value, Wanted::Tables));
    };
    each_timers(alloc, entries.as_slice())
}

// The slot and the timers of the peer of each table.
fn each_timers(alloc: Global, entries: &[Value]) -> Result<Vec<(u8, PeerTimers)>, SettingsFault>
    ensures { AnswersInMemory (λ timers. AreTimers (items_view entries.now) timers.items) result }
{
    let mut timers = Vec::new(alloc);
    for entry in entries {
        let number = timers.len() + 1;
        let told = numbered_timers(alloc, entry, number)?;
        if timers.push(told).is_err() {
            return Err(SettingsFault::NoMemory);
        }
    }
    Ok(timers)
}

// The slot and the timers of the peer of the table of this number.
fn numbered_timers(
    alloc: Global,
    entry: &Value,
    number: usize,
) -> Result<(u8, PeerTimers), SettingsFault>
    ensures { AnswersInMemory (IsSlotTimers (view entry.now)) result }
{
    match slot_timers_of(alloc, entry) {
        Ok(told) => Ok(told),
        Err(fault) => Err(fault.at(SettingsPlace::Peer(number))),
    }
}

fn slot_timers_of(alloc: Global, entry: &Value) -> Result<(u8, PeerTimers), SettingsFault>
    ensures { AnswersInMemory (IsSlotTimers (view entry.now)) result }
{
    let Some(table) = entry.as_table() else {
        return Err(bad_value(alloc, "peer", entry, Wanted::Table));
    };
    let slot = slot_of(alloc, table)?;
    let connect_retry = short_of(alloc, table, "connect_retry", CONNECT_RETRY_SECONDS)?;
    let idle_hold = short_of(alloc, table, "idle_hold", IDLE_HOLD_SECONDS)?;
    Ok((
        slot,
        PeerTimers {
            connect_retry,
            idle_hold,
        },
    ))
}

// The seconds that a timer of a peer may have.
const SHORT_SECONDS: Wanted = Wanted::Number(1, u16::MAX as u32);

// The seconds of a timer at a key: one at least; where the key isn't there the usual ones.
fn short_of(alloc: Global, table: &Table, key: &str, usual: u16) -> Result<u16, SettingsFault>
    ensures { Answers (IsToldOrUsual IsShortSeconds usual (get_member key.now (table_view table.now))) result }
{
    let Some(number) = number_of(alloc, table, key, SHORT_SECONDS)? else {
        return Ok(usual);
    };
    match u16::try_from(number) {
        Ok(seconds) if seconds != 0 => Ok(seconds),
        _ => Err(bad_number(alloc, key, number, SHORT_SECONDS)),
    }
}

/// Whether one of the peers has the slot.
pub fn has_slot(peers: &[(u8, SocketAddr)], slot: u8) -> bool
    ensures { result ≡ has_slot peers.now slot }
{
    peers.iter().any(|peer| peer.0 == slot)
}
