//! Scrapers: programs that ask for figures over HTTP/1.1, as Prometheus does.
//!
//! `Scraper` is one scraper's connection: the head of its request is gathered, 4,096 octets at most, and judged by
//! `prometheus_text`; anything but a request for the figures is answered at once, and a request for them waits until they are
//! told. Behind its answer the connection is over, and so it is 10 seconds after its coming, whatever it did
//! (`specs/Scraping.antt`). `Scrapers` is what all of them are to a program. The system's sockets stand beside.
#![tactic(auto)]

mod scraper;
mod scrapers;

pub use scraper::{SCRAPE_SECONDS, Scraper, Stage};
pub use scrapers::{SCRAPERS, Scrapers};
