//! Figures that scrapers are told: their names, their helps and their kinds.
ghost use Rattle.std.specs.Prelude.{◌≡◌};
ghost use Rattle.speaker_figures.specs.FiguresText.{help_of, kind_of, name_of};

use prometheus_text::MetricKind;

/// A figure.
#[derive(Clone, Copy, PartialEq, Eq)]
pub enum Figure {
    Sessions,
    Routes,
    Payloads,
    CacheSession,
    Received,
    Sent,
    Octets,
    Lost,
    Closed,
    Turns,
}

impl Figure {
    /// Its name.
    pub fn name(self) -> &'static str
        ensures { result.now ≡ name_of self }
    {
        match self {
            Figure::Sessions => "kenyodla_sessions",
            Figure::Routes => "kenyodla_best_routes",
            Figure::Payloads => "kenyodla_payloads",
            Figure::CacheSession => "kenyodla_cache_session",
            Figure::Received => "kenyodla_notifications_received_total",
            Figure::Sent => "kenyodla_notifications_sent_total",
            Figure::Octets => "kenyodla_octets_total",
            Figure::Lost => "kenyodla_connections_lost_total",
            Figure::Closed => "kenyodla_connections_closed_total",
            Figure::Turns => "kenyodla_turns_total",
        }
    }

    /// What it is.
    pub fn help(self) -> &'static str
        ensures { result.now ≡ help_of self }
    {
        match self {
            Figure::Sessions => "Sessions of peers by their state.",
            Figure::Routes => "Prefixes with a best route, as they were counted last.",
            Figure::Payloads => "Payloads in force, as they were counted last.",
            Figure::CacheSession => "1 for the state of the session with the cache.",
            Figure::Received => "NOTIFICATIONs that came from peers by their error code.",
            Figure::Sent => "NOTIFICATIONs that went to peers by their error code.",
            Figure::Octets => "Octets that came and that went.",
            Figure::Lost => "Connections, and attempts at one, that are over.",
            Figure::Closed => "Connections that were closed from here.",
            Figure::Turns => "Turns that were taken.",
        }
    }

    /// How it goes on.
    pub fn kind(self) -> MetricKind
        ensures { result ≡ kind_of self }
    {
        match self {
            Figure::Sessions | Figure::Routes => MetricKind::Gauge,
            Figure::Payloads | Figure::CacheSession => MetricKind::Gauge,
            Figure::Received | Figure::Sent | Figure::Octets => MetricKind::Counter,
            Figure::Lost | Figure::Closed | Figure::Turns => MetricKind::Counter,
        }
    }
}
