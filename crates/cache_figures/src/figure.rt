//! Figures that scrapers are told: their names, as StayRTR has them where they are the same, their helps and their kinds.
ghost use Rattle.std.specs.Prelude.{◌≡◌};
ghost use Rattle.cache_figures.specs.FiguresText.{help_of, kind_of, name_of};

use prometheus_text::MetricKind;

/// A figure.
#[derive(Clone, Copy, PartialEq, Eq)]
pub enum Figure {
    Vrps,
    Clients,
    Routers,
    Serial,
    Withdrawn,
    Session,
    Written,
    Read,
    Rereads,
    Octets,
    Lost,
    Closed,
    Turns,
}

impl Figure {
    /// Its name.
    pub fn name(self) -> &'static str
        ensures { result.now ≡ name_of self }
    {
        match self {
            Figure::Vrps => "rpki_vrps",
            Figure::Clients => "rtr_clients",
            Figure::Routers => "kenyodla_routers",
            Figure::Serial => "kenyodla_serial",
            Figure::Withdrawn => "kenyodla_list_withdrawn",
            Figure::Session => "kenyodla_session_id",
            Figure::Written => "kenyodla_list_written_seconds",
            Figure::Read => "kenyodla_list_read_seconds",
            Figure::Rereads => "kenyodla_rereads_total",
            Figure::Octets => "kenyodla_octets_total",
            Figure::Lost => "kenyodla_connections_lost_total",
            Figure::Closed => "kenyodla_connections_closed_total",
            Figure::Turns => "kenyodla_turns_total",
        }
    }

    /// What it is.
    pub fn help(self) -> &'static str
        ensures { result.now ≡ help_of self }
    {
        match self {
            Figure::Vrps => "Payloads that are served.",
            Figure::Clients => "Routers that are connected.",
            Figure::Routers => "Routers by the list that was handed out whole for each last.",
            Figure::Serial => "Serial that is served.",
            Figure::Withdrawn => "Whether the list is withdrawn since it is stale.",
            Figure::Session => "Session id of this run.",
            Figure::Written =>
                "Seconds since the list was written, by its metadata or else its file.",
            Figure::Read => "Seconds since the list that is served was in its file.",
            Figure::Rereads =>
                "How often the list was due or asked for behind the first by what each led to.",
            Figure::Octets => "Octets that came from routers and that went to them.",
            Figure::Lost => "Connections of routers that are over.",
            Figure::Closed => "Connections of routers that were closed from here.",
            Figure::Turns => "Turns that were taken.",
        }
    }

    /// How it goes on.
    pub fn kind(self) -> MetricKind
        ensures { result ≡ kind_of self }
    {
        match self {
            Figure::Vrps | Figure::Clients | Figure::Routers => MetricKind::Gauge,
            Figure::Serial | Figure::Session | Figure::Withdrawn => MetricKind::Gauge,
            Figure::Written | Figure::Read => MetricKind::Gauge,
            Figure::Rereads | Figure::Octets => MetricKind::Counter,
            Figure::Lost | Figure::Closed | Figure::Turns => MetricKind::Counter,
        }
    }
}
