//! What the program says of itself.

/// What `--version` prints.
pub const VERSION: &str = "ovcache (Kenyodla) 1.0\n";

/// What `--help` prints.
pub const HELP: &str = "\
ovcache SETTINGS [TURNS]   serves the payload list of the settings to routers, for so many turns or for good
ovcache --check SETTINGS   reads the settings and their list, binds nothing, and says what it found
ovcache --help, --version

The keys of SETTINGS, a file in TOML:
listen         address and port where routers connect, as \"[::]:323\"
csv            path of the payload list, in CSV or JSON
slurm          path of a SLURM file (RFC 8416), under whose exceptions the list is served (none)
session        session id, 0 to 65535, or \"clock\"
other_session  what a query of another session is answered with, \"report\" or \"reset\" (\"report\")
refresh        seconds, 1 to 86400 (3600)
retry          seconds, 1 to 7200 (600)
expire         seconds, 600 to 172800 (7200), greater than refresh and retry
first          seconds until a router without a whole PDU loses its place, 1 at least (60)
idle           seconds until a silent router does, greater than refresh (expire)
reread         seconds until the list is read again, 1 at least (never)
min_payloads   payloads that a list has at least (any number)
max_payloads   payloads that it has at most (any number)
max_shrink     per cent of the served payloads that may go at once, 0 to 100 (any number)
expires        true or false: whether what has expired is left out of the list (false)
max_age        seconds since the list was written, else the log warns, 1 at least (never)
stale          what becomes of one that is older, \"serve\" or \"withdraw\" (\"serve\")
metrics        address and port where scrapers get the figures, as \"127.0.0.1:9847\" (none)
control        path of the Unix socket at which ovctl asks while it runs (none)
log            true or false: whether there is a log on the output (false)
status         seconds between two status lines of the log, 1 at least (none)

Exit status: 0 after the turns, 1 where words, settings or the list are refused, 2 where the system fails.
docs/GUIDE.md tells more.
";
