//! What the program says of itself.

/// What `--version` prints.
pub const VERSION: &str = "ovbgpd (Kenyodla) 1.0\n";

/// What `--help` prints.
pub const HELP: &str = "\
ovbgpd SETTINGS [TURNS]    speaks BGP with the peers of the settings, for so many turns or for good
ovbgpd --check SETTINGS    reads the settings, obeys their commands, binds nothing, and says what it found
ovbgpd --help, --version

The keys of SETTINGS, a file in TOML:
as             the speaker's AS, 1 to 4294967295
identifier     its BGP Identifier, as \"192.0.2.1\"
commands       path of its commands: peers, policies, networks, reachable next hops
slurm          path of a SLURM file (RFC 8416), whose exceptions are obeyed before the commands (none)
multiprotocol  true or false: whether its OPEN tells IPv4 unicast (false)
cache          address and port of its RPKI cache, as \"192.0.2.2:323\" (no cache)
listen         address and port where passive peers connect, as \"0.0.0.0:179\" (it doesn't listen)
control        path of the Unix socket at which ovctl asks while it runs (none)
send_hold      seconds after which a connection is closed that takes no octet (480)
open_wait      seconds after which one is closed from which no whole OPEN comes (none)
log            true or false: whether it writes a log (false)
status         seconds between two status lines of the log, 1 or more (none)
metrics        address and port where scrapers get the figures, as \"127.0.0.1:9848\" (none)
cache_retry    seconds after which the cache is tried again until a load tells its own interval, 1 to 7200 (600)
wait_for_cache seconds for which enabled peers wait at most until the cache's payloads are in force (none)
[[peer]]       a table for each slot that the commands fill:
  slot         number of the slot, 0 to 63, none twice
  remote       address and port of the peer
  connect_retry  seconds after which a connection is tried again, 1 to 65535 (120)
  idle_hold    seconds after which a closed session begins again, 1 to 65535 (30)

Exit status: 0 after the turns, with Loc-RIB on the output, 1 where words, settings or commands are refused, 2 where the
system fails. docs/GUIDE.md tells more.
";
