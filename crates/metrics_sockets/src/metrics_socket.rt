//! A TCP port and its scrapers.

use scrapers::{SCRAPERS, Scraper, Scrapers, Stage};
use std::alloc::{AllocError, AllocGlobal, Global};
use std::io;
use std::net::{Net, SocketAddr, TcpListener, TcpStream};

// The place of a scraper.
type Place = Option<Scraper<TcpStream>>;

/// A listener that doesn't wait, and its scrapers.
#[derive(Drop)]
pub struct MetricsSocket {
    alloc: Global,
    listener: TcpListener,
    places: Vec<Place>,
}

impl MetricsSocket {
    /// Listens at this address.
    pub fn open<R>(rt: &R, address: SocketAddr) -> io::Result<MetricsSocket>
    where
        R: Net<Listener = TcpListener, Stream = TcpStream> + AllocGlobal,
    {
        let listener = TcpListener::bind(rt, address)?;
        listener.set_nonblocking(true)?;
        Ok(MetricsSocket {
            alloc: rt.alloc(),
            listener,
            places: empty_places(rt.alloc())?,
        })
    }

    // Lets in a scraper who has come, where there is a place.
    fn let_in(&mut self, now: u64) {
        let Some(place) = self.places.iter_mut().find(|place| place.is_none()) else {
            return;
        };
        let Ok((stream, _)) = self.listener.accept() else {
            return;
        };
        if stream.set_nonblocking(true).is_ok() {
            *place = Some(Scraper::new(self.alloc, stream, now));
        }
    }
}

impl Scrapers for MetricsSocket {
    fn address(&self) -> Option<SocketAddr> {
        self.listener.local_addr().ok()
    }

    fn turn(&mut self, now: u64) {
        self.let_in(now);
        for place in &mut self.places {
            visit(place, now);
        }
    }

    fn are_waiting(&self) -> bool {
        self.places.iter().any(is_waiting)
    }

    fn tell(&mut self, figures: &[u8]) {
        for place in &mut self.places {
            if let Some(scraper) = place {
                scraper.tell(figures);
            }
        }
    }
}

// Visits who is at the place, which is free where its connection is over.
fn visit(place: &mut Place, now: u64) {
    if let Some(scraper) = place {
        scraper.visit(now);
        if scraper.stage() == Stage::Over {
            *place = None;
        }
    }
}

// Whether one is at the place who waits for the figures.
fn is_waiting(place: &Place) -> bool {
    matches!(place, Some(scraper) if scraper.stage() == Stage::Waiting)
}

fn empty_places(alloc: Global) -> Result<Vec<Place>, AllocError> {
    let mut places = Vec::new(alloc);
    for _ in 0..SCRAPERS {
        places.push(None)?;
    }
    Ok(places)
}
