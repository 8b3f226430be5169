//! The settings of a cache.
ghost use Rattle.std.specs.Prelude.{◌≡◌, ◌≢◌, ◌≤◌, ◌<◌, IfOk, IfSome, MatchResult, None, codes, option_map, string_bytes, true};
ghost use Rattle.toml.specs.Data.{Members, get_member};
ghost use Rattle.toml.specs.View.{table_view};
ghost use Rattle.rtr_cache.specs.declared.other_session.OtherSession.TheVariants.{Report};
ghost use Rattle.cache_settings.specs.declared.settings.Stale.TheVariants.{Serve, Withdraw};
ghost use Rattle.rtr_codec.specs.Intervals.{are_lawful};
ghost use Rattle.settings_keys.specs.Causes.{IsBad};
ghost use Rattle.settings_keys.specs.Keys.{Answers, AnswersInMemory, IsNumber, IsTableOf, IsText, IsTold, IsToldIfThere, IsToldOrUsual};
ghost use Rattle.cache_settings.specs.ToldSettings.{AreGuards, AreIntervals, AreTerms, IsOtherSession, IsPatience, IsPerCent, IsSeconds, IsSession, IsStale, IsStaleWord, IsToldBy};

use cache_turns::Patience;
use list_guards::Guards;
use rtr_cache::OtherSession;
use rtr_codec::Intervals;
use settings_keys::{
    Owner, SettingsFault, Wanted, address_if_told, address_of, bad_number, bad_value, lacks,
    not_greater, number_of, only_known, read_table, text_of, value_at, yes_or_no_of,
};
use std::alloc::Global;
use std::net::SocketAddr;
use toml::Table;

/// Where a cache's session id comes from.
#[derive(Clone, Copy, Debug, PartialEq, Eq)]
pub enum SessionSource {
    /// The settings have it.
    Id(u16),
    /// The clock at the start, so that a restart has another one.
    Clock,
}

/// What becomes of a list that is older than it may be.
#[derive(Clone, Copy, Debug, PartialEq, Eq)]
pub enum Stale {
    /// It is served on, and the log warns.
    Serve,
    /// It is withdrawn, until one is read that isn't. Own choice: DECISIONS.md, "A stale list may be withdrawn".
    Withdraw,
}

/// What `ovcache` is told by its settings.
#[derive(Drop)]
pub struct CacheSettings {
    /// Where it listens.
    pub listen: SocketAddr,
    /// The path of its payload list.
    pub csv: String,
    /// The path of the SLURM file under whose exceptions it serves the list, if there is one.
    pub slurm: Option<String>,
    /// Where scrapers ask for its figures, if they may.
    pub metrics: Option<SocketAddr>,
    /// The path of the Unix socket at which operators ask, if they may.
    pub control: Option<String>,
    /// Where its session id comes from.
    pub session: SessionSource,
    /// What it answers a Serial Query of another session with.
    pub other_session: OtherSession,
    /// What each End of Data tells.
    pub intervals: Intervals,
    /// For how many seconds a router may be silent.
    pub patience: Patience,
    /// What a list has to keep to.
    pub guards: Guards,
    /// Whether what has expired is left out of a list.
    pub expires: bool,
    /// After how many seconds the list is read again, if it is.
    pub reread: Option<u32>,
    /// How many seconds ago it was written at most, else the log warns.
    pub max_age: Option<u32>,
    /// What becomes of a list that is older.
    pub stale: Stale,
    /// Whether it writes a log.
    pub log: bool,
    /// After how many seconds the log gets a status line, if it does.
    pub status: Option<u32>,
}

impl CacheSettings {
    /// The settings that the octets of a file tell in TOML: `listen`, the text of an address and a port, `csv`, a text, and
    /// `session`, a number of 16 bits or `"clock"`; and, where they are there, `other_session`, `"report"` or `"reset"`,
    /// `stale`, `"serve"` or, where `max_age` is there, `"withdraw"`,
    /// `refresh`, `retry` and `expire`, in place of the usual intervals and lawful together, `first`, 1 at least, `idle`,
    /// above `refresh`, `reread`, `max_age` and `status`, 1 at least, `min_payloads` and `max_payloads`, each a number
    /// of 32 bits, `max_shrink`, up to 100, `expires` and `log`, booleans, `slurm` and `control`, texts, and `metrics`, as
    /// `listen`. There are no keys of other names. Anything else is `Settings`.
    pub fn read(alloc: Global, octets: &[u8]) -> Result<CacheSettings, SettingsFault>
        ensures told { AnswersInMemory (λ settings. (table : Members) × IsTableOf octets.now table × IsToldBy table settings) result }
        ensures intervals { IfOk result (λ settings. are_lawful settings.intervals ≡ true) }
        ensures patience { IfOk result (λ settings. (1 ≤ settings.patience.first) × (settings.intervals.refresh < settings.patience.idle)) }
        ensures reread { IfOk result (λ settings. IfSome settings.reread (λ seconds. 1 ≤ seconds)) }
        ensures status { IfOk result (λ settings. IfSome settings.status (λ seconds. 1 ≤ seconds)) }
    {
        let table = read_table(alloc, octets)?;
        CacheSettings::of(alloc, &table)
    }

    // The settings that the keys of a table tell.
    fn of(alloc: Global, table: &Table) -> Result<CacheSettings, SettingsFault>
        ensures told { AnswersInMemory (IsToldBy (table_view table.now)) result }
        ensures intervals { IfOk result (λ settings. are_lawful settings.intervals ≡ true) }
        ensures patience { IfOk result (λ settings. (1 ≤ settings.patience.first) × (settings.intervals.refresh < settings.patience.idle)) }
        ensures reread { IfOk result (λ settings. IfSome settings.reread (λ seconds. 1 ≤ seconds)) }
        ensures status { IfOk result (λ settings. IfSome settings.status (λ seconds. 1 ≤ seconds)) }
    {
        only_known(alloc, table, Owner::Cache, &KEYS)?;
        let listen = address_of(alloc, table, "listen")?;
        let path = text_of(alloc, table, "csv")?;
        let csv = String::from_str(alloc, path)?;
        let metrics = address_if_told(alloc, table, "metrics")?;
        let slurm = path_if_told(alloc, table, "slurm")?;
        let control = path_if_told(alloc, table, "control")?;
        let terms = terms_of(alloc, table)?;
        Ok(CacheSettings {
            listen,
            csv,
            slurm,
            metrics,
            control,
            session: terms.session,
            other_session: terms.other_session,
            intervals: terms.intervals,
            patience: terms.patience,
            guards: terms.guards,
            expires: terms.expires,
            reread: terms.reread,
            max_age: terms.max_age,
            stale: terms.stale,
            log: terms.log,
            status: terms.status,
        })
    }
}

// The keys of the settings.
const KEYS: [&str; 21] = [
    "listen",
    "csv",
    "slurm",
    "session",
    "other_session",
    "refresh",
    "retry",
    "expire",
    "first",
    "idle",
    "min_payloads",
    "max_payloads",
    "max_shrink",
    "expires",
    "reread",
    "max_age",
    "stale",
    "log",
    "status",
    "metrics",
    "control",
];

// The path at a key, if the key is there.
fn path_if_told(alloc: Global, table: &Table, key: &str) -> Result<Option<String>, SettingsFault>
    ensures { AnswersInMemory (λ told. IsToldIfThere IsText (get_member key.now (table_view table.now)) (option_map string_bytes told)) result }
{
    if value_at(table, key).is_none() {
        return Ok(None);
    }
    let path = text_of(alloc, table, key)?;
    Ok(Some(String::from_str(alloc, path)?))
}

// The seconds that a key may have.
const SECONDS: Wanted = Wanted::Number(1, u32::MAX);

// What the settings tell besides where the cache listens and its list.
#[derive(Clone, Copy)]
struct Terms {
    session: SessionSource,
    other_session: OtherSession,
    intervals: Intervals,
    patience: Patience,
    guards: Guards,
    expires: bool,
    reread: Option<u32>,
    max_age: Option<u32>,
    stale: Stale,
    log: bool,
    status: Option<u32>,
}

fn terms_of(alloc: Global, table: &Table) -> Result<Terms, SettingsFault>
    ensures told { Answers (AreTerms (table_view table.now)) result }
    ensures intervals { IfOk result (λ terms. are_lawful terms.intervals ≡ true) }
    ensures patience { IfOk result (λ terms. (1 ≤ terms.patience.first) × (terms.intervals.refresh < terms.patience.idle)) }
    ensures reread { IfOk result (λ terms. IfSome terms.reread (λ seconds. 1 ≤ seconds)) }
    ensures status { IfOk result (λ terms. IfSome terms.status (λ seconds. 1 ≤ seconds)) }
{
    let session = session_of(alloc, table)?;
    let other_session = other_session_of(alloc, table)?;
    let intervals = intervals_of(alloc, table)?;
    let patience = patience_of(alloc, table, intervals)?;
    let guards = guards_of(alloc, table)?;
    let expires = yes_or_no_of(alloc, table, "expires")?;
    let reread = seconds_of(alloc, table, "reread")?;
    let max_age = seconds_of(alloc, table, "max_age")?;
    let stale = stale_of(alloc, table, max_age)?;
    let log = yes_or_no_of(alloc, table, "log")?;
    let status = seconds_of(alloc, table, "status")?;
    Ok(Terms {
        session,
        other_session,
        intervals,
        patience,
        guards,
        expires,
        reread,
        max_age,
        stale,
        log,
        status,
    })
}

// Where the session id comes from, which has to be told.
fn session_of(alloc: Global, table: &Table) -> Result<SessionSource, SettingsFault>
    ensures { Answers (IsTold IsSession (get_member (codes "session") (table_view table.now))) result }
{
    let Some(value) = value_at(table, "session") else {
        return Err(lacks(alloc, "session"));
    };
    if let Some("clock") = value.as_str() {
        return Ok(SessionSource::Clock);
    }
    let wanted = Wanted::Session;
    let Some(number) = value.as_integer() else {
        return Err(bad_value(alloc, "session", value, wanted));
    };
    match u16::try_from(number) {
        Ok(id) => Ok(SessionSource::Id(id)),
        Err(_) => Err(bad_value(alloc, "session", value, wanted)),
    }
}

// What a Serial Query of another session is answered with: an Error Report where the key isn't there.
fn other_session_of(alloc: Global, table: &Table) -> Result<OtherSession, SettingsFault>
    ensures { Answers (IsToldOrUsual IsOtherSession Report (get_member (codes "other_session") (table_view table.now))) result }
{
    let Some(value) = value_at(table, "other_session") else {
        return Ok(OtherSession::Report);
    };
    match value.as_str() {
        Some("report") => Ok(OtherSession::Report),
        Some("reset") => Ok(OtherSession::Reset),
        _ => Err(bad_value(alloc, "other_session", value, Wanted::OtherSession)),
    }
}

// What becomes of a list that is older than it may be: it is served on where the key isn't there. None is withdrawn where the
// settings don't say how old one may be.
fn stale_of(alloc: Global, table: &Table, max_age: Option<u32>) -> Result<Stale, SettingsFault>
    ensures { Answers (IsStale (table_view table.now) max_age) result }
{
    let stale = stale_word(alloc, table)?;
    needs_age(alloc, stale, max_age)?;
    Ok(stale)
}

fn needs_age(alloc: Global, stale: Stale, max_age: Option<u32>) -> Result<(), SettingsFault>
    ensures { MatchResult result (λ done. stale ≡ Withdraw → max_age ≢ None) (λ fault. IsBad fault × (stale ≡ Withdraw) × (max_age ≡ None)) }
{
    match (stale, max_age) {
        (Stale::Serve, _) => Ok(()),
        (Stale::Withdraw, Some(_)) => Ok(()),
        (Stale::Withdraw, None) => Err(lacks(alloc, "max_age")),
    }
}

fn stale_word(alloc: Global, table: &Table) -> Result<Stale, SettingsFault>
    ensures { Answers (IsToldOrUsual IsStaleWord Serve (get_member (codes "stale") (table_view table.now))) result }
{
    let Some(value) = value_at(table, "stale") else {
        return Ok(Stale::Serve);
    };
    match value.as_str() {
        Some("serve") => Ok(Stale::Serve),
        Some("withdraw") => Ok(Stale::Withdraw),
        _ => Err(bad_value(alloc, "stale", value, Wanted::Stale)),
    }
}

// What each interval may be (RFC 8210 section 6).
const REFRESH: Wanted = Wanted::Number(1, 86_400);

const RETRY: Wanted = Wanted::Number(1, 7200);

const EXPIRE: Wanted = Wanted::Number(600, 172_800);

// Which interval is out of its range, or that the last one isn't the greatest (RFC 8210 section 6).
fn unlawful(alloc: Global, intervals: Intervals) -> SettingsFault
    ensures { IsBad result }
{
    let Intervals {
        refresh,
        retry,
        expire,
    } = intervals;
    if refresh == 0 || refresh > 86_400 {
        return bad_number(alloc, "refresh", refresh, REFRESH);
    }
    if retry == 0 || retry > 7200 {
        return bad_number(alloc, "retry", retry, RETRY);
    }
    if expire < 600 || expire > 172_800 {
        return bad_number(alloc, "expire", expire, EXPIRE);
    }
    if expire <= refresh {
        return not_greater(alloc, "expire", expire, "refresh", refresh);
    }
    not_greater(alloc, "expire", expire, "retry", retry)
}

// The intervals; one whose key isn't there is the usual one.
fn intervals_of(alloc: Global, table: &Table) -> Result<Intervals, SettingsFault>
    ensures told { Answers (AreIntervals (table_view table.now)) result }
    ensures lawful { IfOk result (λ intervals. are_lawful intervals ≡ true) }
{
    let usual = Intervals::USUAL;
    let refresh = number_or(alloc, table, "refresh", usual.refresh, REFRESH)?;
    let retry = number_or(alloc, table, "retry", usual.retry, RETRY)?;
    let expire = number_or(alloc, table, "expire", usual.expire, EXPIRE)?;
    let intervals = Intervals {
        refresh,
        retry,
        expire,
    };
    if !intervals.are_lawful() {
        return Err(unlawful(alloc, intervals));
    }
    Ok(intervals)
}

// For how long a router may be silent: at first a minute, later up to the expire interval, where the keys aren't there.
// One that asks again when it is to, after the refresh interval, keeps its place.
fn patience_of(
    alloc: Global,
    table: &Table,
    intervals: Intervals,
) -> Result<Patience, SettingsFault>
    ensures told { Answers (IsPatience (table_view table.now) intervals) result }
    ensures first { IfOk result (λ patience. 1 ≤ patience.first) }
    ensures idle { IfOk result (λ patience. intervals.refresh < patience.idle) }
{
    let first = seconds_of(alloc, table, "first")?.unwrap_or(Patience::USUAL.first);
    let idle = seconds_of(alloc, table, "idle")?.unwrap_or(intervals.expire);
    if idle <= intervals.refresh {
        return Err(not_greater(alloc, "idle", idle, "refresh", intervals.refresh));
    }
    Ok(Patience { first, idle })
}

// The counts of payloads that a key may have.
const PAYLOADS: Wanted = Wanted::Number(0, u32::MAX);

// What a list has to keep to, as far as the keys are there.
fn guards_of(alloc: Global, table: &Table) -> Result<Guards, SettingsFault>
    ensures { Answers (AreGuards (table_view table.now)) result }
{
    let min_payloads = number_of(alloc, table, "min_payloads", PAYLOADS)?;
    let max_payloads = number_of(alloc, table, "max_payloads", PAYLOADS)?;
    let max_shrink = per_cent_of(alloc, table, "max_shrink")?;
    Ok(Guards {
        min_payloads,
        max_payloads,
        max_shrink,
    })
}

// The number per cent at a key, if the key is there: 100 at most.
fn per_cent_of(alloc: Global, table: &Table, key: &str) -> Result<Option<u8>, SettingsFault>
    ensures { Answers (IsToldIfThere IsPerCent (get_member key.now (table_view table.now))) result }
{
    let wanted = Wanted::Number(0, 100);
    match number_of(alloc, table, key, wanted)? {
        None => Ok(None),
        Some(share) if share <= 100 => Ok(Some(share as u8)),
        Some(share) => Err(bad_number(alloc, key, share, wanted)),
    }
}

// The number at a key, or the usual one where the key isn't there.
fn number_or(
    alloc: Global,
    table: &Table,
    key: &str,
    usual: u32,
    wanted: Wanted,
) -> Result<u32, SettingsFault>
    ensures { Answers (IsToldOrUsual IsNumber usual (get_member key.now (table_view table.now))) result }
{
    match number_of(alloc, table, key, wanted)? {
        Some(number) => Ok(number),
        None => Ok(usual),
    }
}

// The seconds at a key, if the key is there: one at least.
fn seconds_of(alloc: Global, table: &Table, key: &str) -> Result<Option<u32>, SettingsFault>
    ensures told { Answers (IsToldIfThere IsSeconds (get_member key.now (table_view table.now))) result }
    ensures some { IfOk result (λ seconds. IfSome seconds (λ number. 1 ≤ number)) }
{
    match number_of(alloc, table, key, SECONDS)? {
        None => Ok(None),
        Some(0) => Err(bad_number(alloc, key, 0, SECONDS)),
        Some(seconds) => Ok(Some(seconds)),
    }
}
