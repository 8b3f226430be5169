//! What a run has counted, and those who ask for its figures.
ghost use Rattle.std.specs.Prelude.{◌≡◌};
ghost use Rattle.cache_figures.specs.RunCounts.{counting, none_counted};
ghost use Rattle.cache_watch.specs.Outcomes.{counted_as};

use crate::reread::Reread;
use cache_figures::{CacheFigures, RunFigures, write_figures};
use scrapers::Scrapers;
use std::alloc::Global;

/// What a run has counted, and its scrapers, if there may be any.
#[derive(Drop)]
pub struct Watch<P> {
    run: RunFigures,
    scrapers: Option<P>,
}

impl<P: Scrapers> Watch<P> {
    /// A run of this session id begins.
    pub fn new(session: u16, scrapers: Option<P>) -> Self
        ensures { result.run ≡ none_counted session }
    {
        Watch {
            run: RunFigures::new(session),
            scrapers,
        }
    }

    /// What the run has counted.
    pub fn run(&self) -> &RunFigures
        ensures { result.now ≡ self.now.run }
    {
        &self.run
    }

    /// Counts a turn, and what reading the list again has led to before it, where it was due.
    pub fn count(&mut self, led: Option<Reread>)
        ensures { self.new.run ≡ counting (counted_as led) self.old.run }
    {
        let outcome = match led {
            Some(led) => Some(led.outcome()),
            None => None,
        };
        self.run.count(outcome);
    }

    /// The turn of the scrapers, where there may be any. Answers whether one waits for the figures.
    pub fn attend(&mut self, now: u64) -> bool
        ensures { self.new.run ≡ self.old.run }
    {
        match &mut self.scrapers {
            Some(scrapers) => {
                scrapers.turn(now);
                scrapers.are_waiting()
            }
            None => false,
        }
    }

    /// Tells the figures to the scrapers who wait for them, with how many seconds ago the list was written, if that can
    /// be told. Where there is no memory for them they wait on.
    pub fn tell(&mut self, alloc: Global, cache: &CacheFigures, age: Option<u64>)
        ensures { self.new.run ≡ self.old.run }
    {
        let mut text = Vec::new(alloc);
        if write_figures(&mut text, cache, &self.run, age).is_err() {
            return;
        }
        if let Some(scrapers) = &mut self.scrapers {
            scrapers.tell(text.as_slice());
        }
    }
}
