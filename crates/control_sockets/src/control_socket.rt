//! A Unix socket and its operators.
ghost use Rattle.std.specs.Prelude.{◌≡◌, [], IfOk, OnOk, length, string_bytes};
ghost use Rattle.control_sockets.specs.Places.{AreFree, HearsAt, IsSaidTo, IsVisited, LetsIn, Turns, line_at, wish_at};

use control_lines::{OPERATORS, Operator, Operators, Wish};
use std::alloc::{AllocError, AllocGlobal, Global};
use std::fs;
use std::io::{self, ErrorKind};
use std::net::Net;
use std::os::unix::fs::FileTypeExt;
use std::os::unix::net::{UnixListener, UnixStream};
use std::rt::Files;

// The place of an operator.
type Place = Option<Operator<UnixStream>>;

/// A Unix socket that doesn't wait, and its operators.
#[derive(Drop)]
pub struct ControlSocket {
    alloc: Global,
    // Where it was opened, so that contracts can say so: nothing else writes it.
    path: String,
    listener: UnixListener,
    places: Vec<Place>,
    is_busy: bool,
}

impl ControlSocket {
    /// Listens at this path.
    pub fn open<R: Net + Files + AllocGlobal>(rt: &R, path: &str) -> io::Result<ControlSocket>
        ensures opened { IfOk result (λ socket. string_bytes socket.path ≡ path.now) }
        ensures free { IfOk result (λ socket. AreFree socket.places.items) }
    {
        let listener = bound(rt, path)?;
        listener.set_nonblocking(true)?;
        Ok(ControlSocket {
            alloc: rt.alloc(),
            path: String::from_str(rt.alloc(), path)?,
            listener,
            places: empty_places(rt.alloc())?,
            is_busy: false,
        })
    }

    // Lets in an operator who has come, where there is a place.
    #[tactic(auto, unfolding(crate::specs::Places::most_operators))]
    fn let_in(&mut self, now: u64)
        ensures { LetsIn now self.old.places.items self.new.places.items }
    {
        let Some(key) = self.places.iter().position(|place| place.is_none()) else {
            return;
        };
        if key >= OPERATORS {
            return;
        }
        let Ok((stream, _)) = self.listener.accept() else {
            return;
        };
        if stream.set_nonblocking(true).is_err() {
            return;
        }
        if let Ok(operator) = Operator::new(self.alloc, stream, now)
            && let Some(place) = self.places.get_mut(key)
        {
            *place = Some(operator);
            self.is_busy = true;
        }
    }
}

impl Operators for ControlSocket {
    ghost wish = { λ socket key. wish_at socket.places.items key };

    ghost line = { λ socket key. line_at socket.places.items key };

    ghost turns = { λ now old new. Turns now old.places.items new.places.items };

    ghost hears = { λ key octets goes_on old new. HearsAt key octets goes_on old.places.items new.places.items };

    fn turn(&mut self, now: u64) {
        self.is_busy = false;
        self.let_in(now);
        for place in self.places.iter_mut() {
            if visit(place, now) {
                self.is_busy = true;
            }
        }
    }

    fn wish(&self, key: usize) -> Wish {
        match self.places.get(key) {
            Some(Some(operator)) => operator.wish(),
            _ => Wish::Nothing,
        }
    }

    fn line(&self, key: usize) -> &[u8] {
        match self.places.get(key) {
            Some(Some(operator)) => operator.line(),
            _ => &[],
        }
    }

    fn say(&mut self, key: usize, octets: &[u8], goes_on: bool) {
        if let Some(place) = self.places.get_mut(key)
            && say_to(place, octets, goes_on)
        {
            self.is_busy = true;
        }
    }

    fn is_busy(&self) -> bool {
        self.is_busy
    }
}

// Says this to who is at the place, and answers whether anybody is.
fn say_to(place: &mut Place, octets: &[u8], goes_on: bool) -> bool
    ensures { IsSaidTo goes_on octets.now place.old place.new }
{
    match place {
        Some(operator) => {
            operator.say(octets, goes_on);
            true
        }
        None => false,
    }
}

// Visits who is at the place, and answers whether octets came or went.
fn visit(place: &mut Place, now: u64) -> bool
    ensures { IsVisited now place.old place.new }
{
    let visited = match place {
        Some(operator) => operator.visit(now),
        None => return false,
    };
    match visited {
        Some(has_moved) => has_moved,
        None => {
            *place = None;
            true
        }
    }
}

fn empty_places(alloc: Global) -> Result<Vec<Place>, AllocError>
    ensures { IfOk result (λ places. AreFree places.items) }
{
    let mut places = Vec::new(alloc);
    make_places(&mut places)?;
    Ok(places)
}

// Makes the places, where there are none.
#[tactic(auto, unfolding(crate::specs::Places::most_operators))]
fn make_places(made: &mut Vec<Place>) -> Result<(), AllocError>
    requires { made.old.items ≡ [] }
    ensures { OnOk result (AreFree made.new.items) }
{
    for _ in 0..OPERATORS {
        made.push(None)?;
    }
    Ok(())
}

// A listener at the path, in the place of one that a program left that is gone.
fn bound<R: Net + Files + AllocGlobal>(rt: &R, path: &str) -> io::Result<UnixListener> {
    match UnixListener::bind(rt, path) {
        Err(error) if error.kind() == ErrorKind::AddrInUse && is_left(rt, path) => {
            fs::remove_file(rt, path)?;
            UnixListener::bind(rt, path)
        }
        bound => bound,
    }
}

// Whether there is a socket at the path, at which nobody listens.
fn is_left<R: Net + Files + AllocGlobal>(rt: &R, path: &str) -> bool {
    if !is_socket(rt, path) {
        return false;
    }
    match UnixStream::connect(rt, path) {
        Ok(_) => false,
        Err(error) => error.kind() == ErrorKind::ConnectionRefused,
    }
}

// Whether what stands at the path is a socket, and no file of another kind.
fn is_socket<R: Files + AllocGlobal>(rt: &R, path: &str) -> bool {
    match fs::symlink_metadata(rt, path) {
        Ok(metadata) => metadata.file_type().is_socket(),
        Err(_) => false,
    }
}
