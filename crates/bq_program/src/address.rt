//! The address at which a server listens, as it is written on the command line.
ghost use Rattle.std.specs.Prelude.{◌≡◌, ◌++◌, IfOk, None, codes, string_bytes};
ghost use Rattle.bq_program.specs.Addresses.{begins_with, has, names_port, with_usual_port};

use std::alloc::{AllocError, Global};

/// What follows an address that names no port. The port is beanstalkd's.
const USUAL_PORT: &str = ":11300";

fn has_colon(text: &str) -> bool
    ensures { result ≡ has 58 text.now }
{
    text.split_once(':').is_some()
}

fn is_in_brackets(address: &str) -> bool
    ensures { result ≡ begins_with 91 address.now }
{
    address.starts_with('[')
}

/// Returns true if the address names a port: after its only colon or, if it is in brackets, after
/// the closing one and a colon.
pub fn names_port(address: &str) -> bool
    ensures { result ≡ names_port address.now }
{
    if is_in_brackets(address) {
        return match address.split_once(']') {
            Some((_host, rest)) => rest.starts_with(':'),
            None => false,
        };
    }
    match address.split_once(':') {
        Some((_host, rest)) => !has_colon(rest),
        None => false,
    }
}

// Returns true if the port of the address, where it names one, is a number from 0 to 65535.
pub(crate) fn is_port_readable(address: &str) -> bool {
    if !names_port(address) {
        return true;
    }
    match address.rsplit_once(":") {
        Some((_host, port)) => port.parse::<u16>().is_ok(),
        None => true,
    }
}

/// Returns the address with beanstalkd's port, for one that names none.
pub fn with_usual_port(alloc: Global, address: &str) -> Result<String, AllocError>
    ensures { IfOk result (λ word. string_bytes word ≡ with_usual_port address.now) }
{
    if has_colon(address) && !is_in_brackets(address) {
        return bracketed(alloc, address);
    }
    let mut word = String::from_str(alloc, address)?;
    word.push_str(USUAL_PORT)?;
    Ok(word)
}

// Returns the IPv6 address in brackets, with that port.
fn bracketed(alloc: Global, address: &str) -> Result<String, AllocError>
    ensures { IfOk result (λ word. string_bytes word ≡ codes "[" ++ address.now ++ codes "]:11300") }
{
    let mut word = String::from_str(alloc, "[")?;
    word.push_str(address)?;
    word.push_str("]")?;
    word.push_str(USUAL_PORT)?;
    Ok(word)
}

// Returns the address as it was written, or with the port if that was given by an option of its own.
// In that case colons in the address do not begin a port.
pub(crate) fn listen_word(
    alloc: Global,
    address: &str,
    port: Option<u16>,
) -> Result<String, AllocError>
    ensures alone { port ≡ None → IfOk result (λ word. string_bytes word ≡ address.now) }
{
    match port {
        None => String::from_str(alloc, address),
        Some(port) => with_port(alloc, address, port),
    }
}

fn with_port(alloc: Global, address: &str, port: u16) -> Result<String, AllocError> {
    if has_colon(address) && !is_in_brackets(address) {
        format!(in alloc; "[{address}]:{port}")
    } else {
        format!(in alloc; "{address}:{port}")
    }
}
