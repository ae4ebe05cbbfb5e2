//! The listener of a server.
ghost use Rattle.std.specs.Prelude.{◌≡◌};
ghost use Rattle.libc.specs.Net.{SockOption};

use bq_program::{names_port, with_usual_port};
use libc::net;
use std::alloc::Global;
use std::io;
use std::net::{Net, TcpListener, TcpStream};
use std::os::fd::{AsRawFd, RawFd};

/// How many connections the system accepts before a seat takes them, if `net.core.somaxconn`
/// allows as many. It is beanstalkd's number.
const BACKLOG: i32 = 1024;

/// After how many seconds without a byte from a client the system asks whether its host is there.
const KEEP_IDLE: i32 = 60;

/// How many seconds the system waits for an answer before it asks again.
const KEEP_INTERVAL: i32 = 15;

/// How many questions may stay unanswered. Then the connection is broken: a read of it fails.
const KEEP_PROBES: i32 = 4;

/// Why there is no listener.
#[derive(Drop)]
pub(crate) enum NoListener {
    /// The address could not be completed, because an allocation failed.
    NoMemory,
    /// The system refused it.
    System(io::Error),
}

impl From<io::Error> for NoListener {
    fn from(error: io::Error) -> NoListener
        ensures { result ≡ NoListener.System error }
    {
        NoListener::System(error)
    }
}

/// Binds the address, at beanstalkd's port 11300 if it names none. Connections that are accepted
/// have keepalive set, so that a host that vanished without closing its connection does not keep a
/// seat: the connection ends two minutes after the last byte.
pub(crate) fn listen<R: Net<Listener = TcpListener, Stream = TcpStream>>(
    rt: &R,
    alloc: Global,
    address: &str,
) -> Result<TcpListener, NoListener> {
    let listener = bind(rt, alloc, address)?;
    let fd = listener.as_raw_fd();
    widen_backlog(fd)?;
    keep_alive(fd)?;
    Ok(listener)
}

fn bind<R: Net<Listener = TcpListener, Stream = TcpStream>>(
    rt: &R,
    alloc: Global,
    address: &str,
) -> Result<TcpListener, NoListener> {
    if names_port(address) {
        return Ok(TcpListener::bind(rt, address)?);
    }
    match with_usual_port(alloc, address) {
        Ok(address) => Ok(TcpListener::bind(rt, address.as_str())?),
        Err(_) => Err(NoListener::NoMemory),
    }
}

// A second call of `listen` changes the number that the first one set.
fn widen_backlog(fd: RawFd) -> io::Result<()> {
    check(net::listen(fd, BACKLOG))
}

// On Linux an accepted connection inherits these options from its listener.
fn keep_alive(fd: RawFd) -> io::Result<()> {
    set(fd, net::SOL_SOCKET, net::SO_KEEPALIVE, 1)?;
    set(fd, net::IPPROTO_TCP, net::TCP_KEEPIDLE, KEEP_IDLE)?;
    set(fd, net::IPPROTO_TCP, net::TCP_KEEPINTVL, KEEP_INTERVAL)?;
    set(fd, net::IPPROTO_TCP, net::TCP_KEEPCNT, KEEP_PROBES)
}

// Sets an option that is an `int`, in the first four bytes of its value.
fn set(fd: RawFd, level: i32, name: i32, number: i32) -> io::Result<()>
    requires { SockOption level name }
{
    let mut value = [0u8; 16];
    value[..4].copy_from_slice(&number.to_ne_bytes());
    check(unsafe { net::setsockopt(fd, level, name, &value, 4) })
}

fn check(status: i32) -> io::Result<()> {
    if status < 0 {
        return Err(io::Error::from_raw_os_error(os::errno()));
    }
    Ok(())
}
