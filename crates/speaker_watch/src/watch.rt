//! Those who ask for a run's figures.
ghost use Rattle.std.specs.Prelude.{◌≡◌, Some};
ghost use Rattle.speaker_watch.specs.RunCounts.{none_counted, taking};

use crate::counts::{Counts, Standing};
use scrapers::Scrapers;
use speaker_figures::write_figures;
use std::alloc::Global;
use std::net::SocketAddr;
use watched_wires::WireEvent;

/// What a run has counted, and its scrapers, if there may be any.
#[derive(Drop)]
pub struct Watch<P> {
    counts: Counts,
    scrapers: Option<P>,
}

impl<P: Scrapers> Watch<P> {
    /// A run begins.
    pub fn new(scrapers: Option<P>) -> Self
        ensures { result.counts ≡ none_counted }
    {
        Watch {
            counts: Counts::new(),
            scrapers,
        }
    }

    /// Where scrapers connect, if they do.
    pub fn address(&self) -> Option<SocketAddr> {
        match &self.scrapers {
            Some(scrapers) => scrapers.address(),
            None => None,
        }
    }

    /// What was counted.
    pub fn counts(&self) -> &Counts
        ensures { result.now ≡ self.now.counts }
    {
        &self.counts
    }

    /// A turn was taken, in which this was seen. Then it is the scrapers' turn, where there may be any. Answers whether one
    /// waits for the figures.
    pub fn turn(&mut self, now: u64, seen: &[WireEvent]) -> bool
        ensures { self.new.counts ≡ taking seen.now self.old.counts }
    {
        self.counts.turn(seen);
        match &mut self.scrapers {
            Some(scrapers) => {
                scrapers.turn(now);
                scrapers.are_waiting()
            }
            None => false,
        }
    }

    /// At this moment there are so many routes and payloads.
    pub fn count(&mut self, now: u64, routes: u64, payloads: u64)
        ensures { self.new.counts ≡ record self.old.counts { counted = Some now; routes = routes; payloads = payloads } }
    {
        self.counts.count(now, routes, payloads);
    }

    /// Tells the figures to the scrapers who wait for them. Where there is no memory for them they wait on.
    pub fn tell(&mut self, alloc: Global, standing: &Standing)
        ensures { self.new.counts ≡ self.old.counts }
    {
        let mut text = Vec::new(alloc);
        if write_figures(&mut text, &self.counts.figures(standing)).is_err() {
            return;
        }
        if let Some(scrapers) = &mut self.scrapers {
            scrapers.tell(text.as_slice());
        }
    }
}
