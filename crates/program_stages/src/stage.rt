//! A host whose clock, listener and lists are the test's.

use std::alloc::{Alloc, Allocator, Global};
use std::cell::Cell;
use std::fs::{Metadata, OpenOptions};
use std::io::{self, ErrorKind};
use std::net::{Net, OpenListener, SocketAddr, TcpListener, TcpStream};
use std::os::fd::OwnedFd;
use std::rt::{Clock, Files};
use std::time::Duration;

/// The path that leads to each of a stage's lists, one opening after another.
pub const LIST_PATH: &str = "the-list";

// 2026-01-01T00:00:00Z.
const START: u64 = 1_767_225_600;

/// A host that hands out one listener, whose monotonic clock goes on by a second each time that it is asked, and at which
/// `LIST_PATH` leads to one path after another, and to nothing then.
#[derive(Drop)]
pub struct Stage<'a> {
    host: &'a HostRuntime,
    listener: &'a TcpListener,
    lists: &'a [String],
    opened: Cell<usize>,
    seconds: Cell<u64>,
}

impl<'a> Stage<'a> {
    pub fn new(host: &'a HostRuntime, listener: &'a TcpListener, lists: &'a [String]) -> Self {
        Stage {
            host,
            listener,
            lists,
            opened: Cell::new(0),
            seconds: Cell::new(0),
        }
    }
}

/// A listener that can't accept: it is the socket of a connection.
pub fn deaf_listener(host: &HostRuntime) -> io::Result<TcpListener> {
    let listener = TcpListener::bind(host, "127.0.0.1:0")?;
    let connected = TcpStream::connect(host, listener.local_addr()?)?;
    Ok(TcpListener::from(OwnedFd::from(connected)))
}

impl Net for Stage<'_> {
    type Stream = TcpStream;

    type Listener = TcpListener;

    fn bind(&self, _addr: SocketAddr) -> io::Result<TcpListener> {
        self.listener.try_clone()
    }

    fn connect(&self, addr: SocketAddr) -> io::Result<TcpStream> {
        self.host.connect(addr)
    }
}

impl Alloc for Stage<'_> {
    type A = Global;

    fn alloc(&self) -> Global {
        self.host.alloc()
    }
}

impl Clock for Stage<'_> {
    fn monotonic(&self) -> io::Result<Duration> {
        let seconds = self.seconds.get();
        self.seconds.set(seconds.saturating_add(1));
        Ok(Duration::from_secs(seconds))
    }

    fn since_1970(&self) -> io::Result<Duration> {
        let seconds = self.seconds.get().saturating_sub(1);
        Ok(Duration::from_secs(seconds.saturating_add(START)))
    }
}

fn none<T>() -> io::Result<T> {
    Err(io::Error::from(ErrorKind::Unsupported))
}

impl Files for Stage<'_> {
    type File = <HostRuntime as Files>::File;

    type Dir = <HostRuntime as Files>::Dir;

    fn open_file(&self, how: &OpenOptions, path: &str) -> io::Result<Self::File> {
        if path != LIST_PATH {
            return self.host.open_file(how, path);
        }
        let opened = self.opened.get();
        self.opened.set(opened.saturating_add(1));
        match self.lists.get(opened) {
            Some(list) => self.host.open_file(how, list.as_str()),
            None => Err(io::Error::from(ErrorKind::NotFound)),
        }
    }

    fn open_dir(&self, path: &str) -> io::Result<Self::Dir> {
        self.host.open_dir(path)
    }

    fn metadata(&self, path: &str) -> io::Result<Metadata> {
        self.host.metadata(path)
    }

    fn symlink_metadata(&self, path: &str) -> io::Result<Metadata> {
        self.host.symlink_metadata(path)
    }

    fn copy(&self, _from: &str, _to: &str) -> io::Result<u64> {
        none()
    }

    fn rename(&self, _from: &str, _to: &str) -> io::Result<()> {
        none()
    }

    fn remove_file(&self, _path: &str) -> io::Result<()> {
        none()
    }

    fn create_dir(&self, _path: &str) -> io::Result<()> {
        none()
    }

    fn remove_dir(&self, _path: &str) -> io::Result<()> {
        none()
    }

    fn remove_dir_all<B: Allocator>(&self, _alloc: B, _path: &str) -> io::Result<()> {
        none()
    }
}
