//! Wires without a loop: what sockets tell, and that one at rest isn't asked.

use crate::made::made;
use crate::over_loopback::{connected, some_port};
use connect_faults::{ConnectFault, TellsFaults};
use net_wires::NetWire;
use program_stages::lend;
use std::alloc::AllocGlobal;
use std::io::{self, Write};
use std::net::{Ipv4Addr, Net, SocketAddr, SocketAddrV4, TcpListener, TcpStream};
use std::process::Abort;
use std::test::Fail;
use std::time::{Clock, Duration, Instant};
use wires::{Accepted, Attempt, Parting, Received, Sent, Wire};

// More turns than anything of these tests takes.
const TURNS: u32 = 10_000;

// How long a turn that found nothing rests.
fn short() -> Duration {
    Duration::from_millis(1)
}

// Longer than any rest of these tests.
fn long() -> Duration {
    Duration::from_secs(30)
}

// How an attempt ends.
fn outcome<W: Wire>(wire: &mut W, socket: &mut W::Socket) -> Attempt {
    for _ in 0..TURNS {
        let _none = wire.accept();
        match wire.attempt(socket) {
            Attempt::Pending => wire.wait(short()),
            outcome => return outcome,
        }
    }
    Attempt::Pending
}

// The next connection.
fn accepted<W: Wire>(wire: &mut W) -> Option<W::Socket> {
    for _ in 0..TURNS {
        match wire.accept() {
            Accepted::Connection(socket, _) => return Some(socket),
            Accepted::Nothing => wire.wait(short()),
            Accepted::Fault => return None,
        }
    }
    None
}

// A wire with a socket.
#[derive(Drop)]
struct Side<W: Wire> {
    wire: W,
    socket: W::Socket,
}

impl<W: Wire> Side<W> {
    // What comes next.
    fn received(&mut self, buf: &mut [u8]) -> Received {
        for _ in 0..TURNS {
            let _none = self.wire.accept();
            match self.wire.read(&mut self.socket, buf) {
                Received::Nothing => self.wire.wait(short()),
                received => return received,
            }
        }
        Received::Nothing
    }

    // What becomes of octets that are to go.
    fn sent(&mut self, octets: &[u8]) -> Sent {
        for _ in 0..TURNS {
            let _none = self.wire.accept();
            match self.wire.write(&mut self.socket, octets) {
                Sent::Nothing => self.wire.wait(short()),
                sent => return sent,
            }
        }
        Sent::Nothing
    }

    // Whether it becomes known that the connection ends.
    fn comes_to_an_end(&mut self) -> bool {
        for _ in 0..TURNS {
            let _none = self.wire.accept();
            if self.wire.is_ending(&self.socket) {
                return true;
            }
            self.wire.wait(short());
        }
        false
    }

    // Whether a read finds nothing.
    fn is_at_rest(&mut self) -> bool {
        self.wire.read(&mut self.socket, &mut [0; 8]) == Received::Nothing
    }

    // Whether no read finds anything as long as no turn begins.
    fn stays_at_rest(&mut self) -> bool {
        for _ in 0..TURNS {
            if !self.is_at_rest() {
                return false;
            }
        }
        true
    }

    // How many octets go before one would have to wait.
    fn filled(&mut self) -> u64 {
        for _ in 0..TURNS {
            let _none = self.wire.accept();
            let Sent::Octets(_) = self.wire.write(&mut self.socket, &[7; 4_096]) else {
                break;
            };
        }
        self.wire.octets_out()
    }

    // Takes so many octets, and whether they came.
    fn drains(&mut self, count: u64) -> bool {
        let mut buf = [0; 4_096];
        for _ in 0..TURNS {
            if self.wire.octets_in() == count {
                break;
            }
            let _some = self.received(&mut buf);
        }
        self.wire.octets_in() == count
    }
}

// Both sides of a connection: the one that listened, and the other.
#[derive(Drop)]
struct Sides<W: Wire> {
    server: Side<W>,
    router: Side<W>,
}

// The router's wire with a socket, once it is connected.
fn connecting<W: Wire + Drop>(rt: &impl Abort, wire: W, address: SocketAddr) -> Side<W> {
    let mut wire = wire;
    let mut socket = made(rt, wire.connect(address).ok_or(()));
    assert!(rt; outcome(&mut wire, &mut socket) == Attempt::Connected);
    Side { wire, socket }
}

// The server's wire with the socket of the connection that came.
fn accepting<W: Wire + Drop>(rt: &impl Abort, wire: W) -> Side<W> {
    let mut wire = wire;
    let socket = made(rt, accepted(&mut wire).ok_or(()));
    Side { wire, socket }
}

// A connection between two wires over loopback.
fn over_loopback<R>(rt: &R) -> Sides<NetWire<'_, R>>
where
    R: Net<Listener = TcpListener, Stream = TcpStream> + AllocGlobal + Abort,
{
    let server = made(rt, NetWire::listening(rt, some_port()));
    let address = made(rt, server.local_address().ok_or(()));
    let router = connecting(rt, made(rt, NetWire::new(rt)), address);
    let server = accepting(rt, server);
    Sides { server, router }
}

// Octets go to the router.
fn go_back<W: Wire>(server: &mut Side<W>, router: &mut Side<W>) -> bool {
    server.sent(&[4, 5]) == Sent::Octets(2) && router.received(&mut [0; 8]) == Received::Octets(2)
}

// The one says its last.
fn says_the_last<W: Wire>(router: &mut Side<W>) -> bool {
    router.sent(&[1, 2, 3]) == Sent::Octets(3)
}

// Then it closes the connection.
fn closes<W: Wire + Drop>(router: Side<W>) {
    let Side { mut wire, socket } = router;
    wire.close(socket, Parting::Closed);
}

// The other hears what was said. Fewer octets come than the buffer holds, and that the end of input is there already is known
// before they are read.
fn hears_the_last<W: Wire>(server: &mut Side<W>) -> bool {
    let mut buf = [0; 8];
    server.comes_to_an_end()
        && server.received(&mut buf) == Received::Octets(3)
        && buf == [1, 2, 3, 0, 0, 0, 0, 0]
        && server.wire.ends() == 0
}

fn hears_the_end<W: Wire>(server: &mut Side<W>) -> bool {
    server.received(&mut [0; 8]) == Received::End
        && server.wire.ends() == 1
        && server.wire.faults() == 0
}

// Octets go both ways; then the one closes the connection, and the other hears what it said before.
fn part<W: Wire + Drop>(sides: Sides<W>) -> bool {
    let Sides {
        mut server,
        mut router,
    } = sides;
    let stands = !server.wire.is_ending(&server.socket);
    let is_said = stands && go_back(&mut server, &mut router) && says_the_last(&mut router);
    closes(router);
    is_said && hears_the_last(&mut server) && hears_the_end(&mut server)
}

#[test]
fn octets_go_both_ways_and_an_end_comes_behind_them(rt: HostRuntime) {
    assert!(rt; part(over_loopback(&rt)));
}

// Octets that came are read only behind a turn's beginning, which hears of them.
fn is_asked_when_told<W: Wire + Drop>(sides: &mut Sides<W>) -> bool {
    let Sides { server, router } = sides;
    server.is_at_rest()
        && router.sent(&[1]) == Sent::Octets(1)
        && server.stays_at_rest()
        && server.received(&mut [0; 8]) == Received::Octets(1)
        && server.is_at_rest()
}

#[test]
fn a_socket_at_rest_is_asked_when_the_system_has_told(rt: HostRuntime) {
    assert!(rt; lend(over_loopback(&rt), |sides| is_asked_when_told(sides)));
}

// A write that had to wait goes once the other side has taken what went before.
fn goes_later<W: Wire + Drop>(sides: &mut Sides<W>) -> bool {
    let Sides { server, router } = sides;
    let count = router.filled();
    router.wire.write(&mut router.socket, &[7]) == Sent::Nothing
        && server.drains(count)
        && router.sent(&[8]) == Sent::Octets(1)
        && server.received(&mut [0; 8]) == Received::Octets(1)
}

#[test]
fn room_that_comes_back_is_told(rt: HostRuntime) {
    assert!(rt; lend(over_loopback(&rt), |sides| goes_later(sides)));
}

// A buffer takes no more than it holds, and what is behind that comes with the next read.
fn comes_in_pieces<W: Wire + Drop>(sides: &mut Sides<W>) -> bool {
    let Sides { server, router } = sides;
    let mut buf = [0; 2];
    router.sent(&[1, 2, 3]) == Sent::Octets(3)
        && server.received(&mut buf) == Received::Octets(2)
        && buf == [1, 2]
        && server.received(&mut buf) == Received::Octets(1)
        && buf == [3, 2]
}

#[test]
fn a_short_buffer_takes_what_it_holds(rt: HostRuntime) {
    assert!(rt; lend(over_loopback(&rt), |sides| comes_in_pieces(sides)));
}

// Of more octets than the system holds a part goes, and just that comes.
fn goes_in_part<W: Wire + Drop>(sides: &mut Sides<W>, octets: &[u8]) -> bool {
    let Sides { server, router } = sides;
    let Sent::Octets(count) = router.sent(octets) else {
        return false;
    };
    count < octets.len() && router.wire.octets_out() == count as u64 && server.drains(count as u64)
}

#[test]
fn a_full_buffer_takes_a_part(rt: HostRuntime) {
    let octets = made(&rt, vec![in rt.alloc(); 7; 33_554_432]);
    assert!(rt;
        lend(
            over_loopback(&rt),
            |sides| goes_in_part(sides, octets.as_slice())
        )
    );
}

// One side closes the connection although it hasn't read all: the other is told a fault by the next read, and by a write.
fn is_reset<W: Wire + Drop>(sides: Sides<W>) -> bool {
    let Sides {
        mut server,
        mut router,
    } = sides;
    let is_left = router.sent(&[1, 2]) == Sent::Octets(2)
        && server.received(&mut [0; 1]) == Received::Octets(1);
    closes(server);
    is_left
        && router.received(&mut [0; 8]) == Received::Fault
        && router.sent(&[3]) == Sent::Fault
        && router.wire.faults() == 2
}

#[test]
fn a_reset_is_a_fault(rt: HostRuntime) {
    assert!(rt; is_reset(over_loopback(&rt)));
}

// An attempt at an address where nobody listens.
fn fails_once<W: Wire>(router: &mut W, address: SocketAddr) -> bool {
    let mut has_failed = true;
    if let Some(mut socket) = router.connect(address) {
        has_failed = outcome(router, &mut socket) == Attempt::Fault;
        router.close(socket, Parting::Failed);
    }
    has_failed && router.faults() == 1
}

// Whether nothing comes to a wire without a listener, where the attempt fails.
fn is_alone<W: Wire>(router: &mut W, address: SocketAddr) -> bool {
    matches!(router.accept(), Accepted::Nothing) && fails_once(router, address)
}

#[test]
fn an_attempt_that_fails_is_one_fault(rt: HostRuntime) {
    // Nobody listens at port 1.
    let address = SocketAddr::V4(SocketAddrV4::new(Ipv4Addr::LOCALHOST, 1));
    let mut router = made(&rt, NetWire::new(&rt));
    assert!(rt; router.local_address().is_none() && is_alone(&mut router, address));
    assert!(rt; router.last_fault() == Some(ConnectFault::Refused));
}

// Behind a connection that came there is no rest, and the new socket is ready for octets that go.
fn comes<W: Wire>(server: &mut W) -> Option<W::Socket> {
    server.wait(long());
    let socket = accepted(server)?;
    server.wait(long());
    server.wait(long());
    Some(socket)
}

// Whether the next octet is there behind a rest.
fn wakes<W: Wire, S: Write>(side: &mut Side<W>, router: &mut S) -> bool {
    let is_written = router.write_all(&[1]).is_ok();
    side.wire.wait(long());
    let received = side.wire.read(&mut side.socket, &mut [0; 8]);
    is_written
        && received == Received::Octets(1)
        && side.wire.octets_in() == 1
        && side.wire.octets_out() == 0
}

// How long a rest takes that is to take so long, since nothing is ready.
fn rested<W: Wire>(rt: &impl Clock, server: &mut W, rest: Duration) -> io::Result<Duration> {
    server.wait(long());
    let start = Instant::now(rt)?;
    server.wait(rest);
    start.elapsed(rt)
}

// Whether it takes its time.
fn rests<W: Wire>(rt: &impl Clock, server: &mut W) -> bool {
    let rest = Duration::from_millis(20);
    match rested(rt, server, rest) {
        Ok(rested) => rested >= rest,
        Err(_) => false,
    }
}

// A rest ends at once where octets can go or come.
fn is_woken<W: Wire + Drop, S: Write>(
    rt: &(impl Clock + Abort),
    server: W,
    router: &mut S,
) -> bool {
    let mut wire = server;
    let socket = made(rt, comes(&mut wire).ok_or(()));
    let mut side = Side { wire, socket };
    wakes(&mut side, router) && rests(rt, &mut side.wire)
}

// The same over loopback.
fn is_woken_over_loopback<R>(rt: &R) -> bool
where
    R: Net<Listener = TcpListener, Stream = TcpStream> + AllocGlobal + Clock + Abort,
{
    let server = made(rt, NetWire::listening(rt, some_port()));
    let mut router = made(rt, connected(rt, server.local_address()));
    is_woken(rt, server, &mut router)
}

#[test]
fn a_rest_ends_when_a_socket_is_ready(rt: HostRuntime) -> Result<(), Fail> {
    let start = Instant::now(&rt)?;
    assert!(rt; is_woken_over_loopback(&rt));
    assert!(rt; start.elapsed(&rt)? < long());
    Ok(())
}
