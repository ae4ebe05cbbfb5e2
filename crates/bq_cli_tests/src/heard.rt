//! A host whose standard error is kept, and clients that visit a server on it.

use bq_cli::serve;
use bq_program::{Options, WhenFull};
use std::alloc::Global;
use std::fmt::Display;
use std::io::{Eprint, ErrorKind, Print, Read, Write};
use std::net::{Net, SocketAddr, TcpListener, TcpStream};
use std::rt::Clock;
use std::sync::atomic::{AtomicU64, Ordering};
use std::sync::{Mutex, Wait};
use std::thread::Threads;
use std::time::Duration;
use std::{io, thread};

/// A host that keeps what is written to its standard error.
#[derive(Drop)]
pub struct Heard<R> {
    host: R,
    alloc: Global,
    errors: Mutex<Vec<u8>>,
    // How often something was written to standard output.
    prints: AtomicU64,
    // By how many seconds its clock is ahead.
    ahead: AtomicU64,
    // How many clients have received what they should.
    content: AtomicU64,
}

impl<R: Wait> Heard<R> {
    /// Returns this host with no output and its own clock.
    pub fn new(host: R, alloc: Global) -> Heard<R> {
        Heard {
            host,
            alloc,
            errors: Mutex::new(Vec::new(alloc)),
            prints: AtomicU64::new(0),
            ahead: AtomicU64::new(0),
            content: AtomicU64::new(0),
        }
    }

    fn keep<D: Display + Drop>(&self, value: D, end: &str) -> io::Result<()> {
        let Ok(text) = format!(in self.alloc; "{value}{end}") else {
            return Err(io::Error::from(ErrorKind::OutOfMemory));
        };
        let is_kept = self.keep_text(text.as_str());
        drop(text);
        if is_kept {
            Ok(())
        } else {
            Err(io::Error::from(ErrorKind::OutOfMemory))
        }
    }

    // Appends a text. Returns false if an allocation fails.
    fn keep_text(&self, text: &str) -> bool {
        self.errors
            .lock(&self.host)
            .extend_from_slice(text.as_bytes())
            .is_ok()
    }

    /// Returns true if exactly this was written to standard error.
    pub fn has_errors(&self, text: &str) -> bool {
        self.errors.lock(&self.host).as_slice() == text.as_bytes()
    }
}

impl<R> Heard<R> {
    /// Returns true if something was written to standard output.
    pub fn has_printed(&self) -> bool {
        self.prints.load(Ordering::SeqCst) > 0
    }

    fn note_print(&self) -> io::Result<()> {
        self.prints.fetch_add(1, Ordering::SeqCst);
        Ok(())
    }
}

impl<R: Threads> Threads for Heard<R> {}

impl<R: Wait> Wait for Heard<R> {}

impl<R: Net> Net for Heard<R> {
    type Stream = R::Stream;

    type Listener = R::Listener;

    fn bind(&self, addr: SocketAddr) -> io::Result<R::Listener> {
        self.host.bind(addr)
    }

    fn connect(&self, addr: SocketAddr) -> io::Result<R::Stream> {
        self.host.connect(addr)
    }
}

impl<R: Clock> Clock for Heard<R> {
    fn monotonic(&self) -> io::Result<Duration> {
        let ahead = Duration::from_secs(self.ahead.load(Ordering::SeqCst));
        Ok(self.host.monotonic()?.saturating_add(ahead))
    }

    fn since_1970(&self) -> io::Result<Duration> {
        self.host.since_1970()
    }
}

impl<R> Print for Heard<R> {
    fn print<D: Display + Drop>(&self, _value: D) -> io::Result<()> {
        self.note_print()
    }

    fn println<D: Display + Drop>(&self, _value: D) -> io::Result<()> {
        self.note_print()
    }

    fn write_all(&self, _bytes: &[u8]) -> io::Result<()> {
        self.note_print()
    }
}

impl<R: Wait> Eprint for Heard<R> {
    fn eprint<D: Display + Drop>(&self, value: D) -> io::Result<()> {
        self.keep(value, "")
    }

    fn eprintln<D: Display + Drop>(&self, value: D) -> io::Result<()> {
        self.keep(value, "\n")
    }
}

/// Returns the options of a server with this many seats, each for this many connections.
pub fn options(seats: u16, sessions: u32) -> Options {
    Options {
        listen: None,
        still: false,
        seats,
        max_job_size: 65535,
        max_jobs: None,
        requeue_delay: 0,
        sessions: Some(sessions),
        event_loop: false,
        when_full: WhenFull::Wait,
    }
}

// Returns true if the server has closed a connection on which a client has sent `quit`.
fn is_closed(stream: &mut TcpStream) -> bool {
    let mut room = [0; 1];
    matches!(stream.read(&mut room), Ok(0))
}

// Returns true if the next bytes that a client receives are these, of which there are at most 64.
fn receives(stream: &mut TcpStream, bytes: &[u8]) -> bool {
    let mut room = [0; 64];
    let room = &mut room[..bytes.len().min(64)];
    stream.read_exact(room).is_ok() && *room == *bytes
}

// Returns true if a connected client is served as the text says.
fn is_answered(stream: &mut TcpStream, client: &str) -> bool {
    let (sends, answer) = client.split_once('|').unwrap_or((client, ""));
    stream.write_all(sends.as_bytes()).is_ok()
        && receives(stream, answer.as_bytes())
        && (!sends.ends_with("quit\r\n") || is_closed(stream))
}

// Returns true if a client that connects is served as the text says.
fn is_served<R: Net<Stream = TcpStream>>(host: &R, address: SocketAddr, client: &str) -> bool {
    match TcpStream::connect(host, address) {
        Ok(mut stream) => {
            let is_answered = is_answered(&mut stream, client);
            drop(stream);
            is_answered
        }
        Err(_) => false,
    }
}

// The clients of one thread visit the server, one after another.
fn visit<R: Net<Stream = TcpStream>>(heard: &Heard<R>, address: SocketAddr, clients: &'static str) {
    for client in clients.split(';') {
        if client == "a minute later" {
            heard.ahead.store(60, Ordering::SeqCst);
        } else if is_served(&heard.host, address, client) {
            heard.content.fetch_add(1, Ordering::SeqCst);
        }
    }
}

// Returns the status of a server that these clients visit.
fn status_of<R: Threads + Wait + Clock + Net<Listener = TcpListener, Stream = TcpStream> + Sync>(
    heard: &Heard<R>,
    options: &Options,
    listener: TcpListener,
    address: SocketAddr,
    visits: &'static str,
) -> Option<u8> {
    thread::scope(thread::scope_env(), &heard.host, |scope| {
        for clients in visits.split('&') {
            if scope.spawn(move || visit(heard, address, clients)).is_err() {
                return None;
            }
        }
        let control: &'static [u8] = b"";
        Some(serve(heard, heard.alloc, options, listener, control))
    })
}

/// Returns true if a server that these clients visit ends well, and this many of them receive what
/// they should. `&` separates threads, and `;` the clients of a thread, which visit one after
/// another. A client is what it sends and, after a bar, what it receives before it closes its
/// connection; after a `quit` the server closes it. `a minute later` in place of a client sets the
/// server's clock ahead.
pub fn serves<R: Threads + Wait + Clock + Net<Listener = TcpListener, Stream = TcpStream> + Sync>(
    heard: &Heard<R>,
    options: &Options,
    visits: &'static str,
    clients: u64,
) -> bool {
    let Ok(listener) = TcpListener::bind(&heard.host, "127.0.0.1:0") else {
        return false;
    };
    let Ok(address) = listener.local_addr() else {
        return false;
    };
    heard.content.store(0, Ordering::SeqCst);
    match status_of(heard, options, listener, address, visits) {
        Some(status) => status == 0 && heard.content.load(Ordering::SeqCst) == clients,
        None => false,
    }
}
