//! Where a file is written: what a path names, and the folder that has it.

use crate::stop::{Stop, failed, refused};
use std::alloc::{AllocError, Global};
use std::fs;
use std::io::{self, ErrorKind};
use std::random::RandomSource;

/// How many symbolic links are followed, as Linux does.
const LINK_LIMIT: usize = 40;

/// How many random characters the name of a new file has.
const LETTERS: usize = 8;

/// The characters, a to z and 2 to 7. Their count divides 256, so that each is as likely.
const ALPHABET: &[u8; 32] = b"abcdefghijklmnopqrstuvwxyz234567";

/// The path that a path names: itself, or what its symbolic links lead to, which need not be there.
pub(crate) fn place_named(rt: &HostRuntime, path: &str) -> Result<String, Stop> {
    // The system may refuse to follow a link of another user in a shared folder. It is asked first.
    if let Err(fault) = fs::metadata(rt, path) {
        if fault.kind() != ErrorKind::NotFound {
            return Err(unwritten(rt.alloc(), path, fault));
        }
    }
    let mut place = String::from_str(rt.alloc(), path)?;
    for _ in 0..LINK_LIMIT {
        match link_at(rt, place.as_str()) {
            Ok(None) => return named(rt.alloc(), place),
            Ok(Some(next)) => place = next,
            Err(fault) => return Err(unwritten(rt.alloc(), path, fault)),
        }
    }
    Err(refused(
        rt.alloc(),
        format_args!("{path}: expected at most {LINK_LIMIT} symbolic links one after the other"),
    ))
}

// The path to which a symbolic link leads, if there is one at the path.
fn link_at(rt: &HostRuntime, path: &str) -> io::Result<Option<String>> {
    match fs::symlink_metadata(rt, path) {
        Ok(there) if there.is_symlink() => {}
        _ => return Ok(None),
    }
    let target = fs::read_link(rt, path)?;
    let place = linked_path(rt.alloc(), path, target.as_str())?;
    Ok(Some(place))
}

/// The path to which a link at a path leads: from the link's folder on, if the target doesn't begin with a slash.
pub fn linked_path(alloc: Global, link: &str, target: &str) -> Result<String, AllocError> {
    match link.rsplit_once('/') {
        Some((folder, _)) if !target.starts_with('/') => { format!(in alloc; "{folder}/{target}") }
        _ => String::from_str(alloc, target),
    }
}

// The place, if its last part is a name.
fn named(alloc: Global, place: String) -> Result<String, Stop> {
    if place.as_str().is_empty() || place.as_str().ends_with('/') {
        return Err(refused(alloc, format_args!("{place}: expected the name of a file")));
    }
    Ok(place)
}

/// The folder of a path.
pub fn folder_of(path: &str) -> &str {
    match path.rfind('/') {
        None => ".",
        Some(0) => "/",
        Some(end) => &path[..end],
    }
}

/// A path in the same folder that nobody else is likely to have: `.NAME.CHARACTERS.new`, with random characters.
pub(crate) fn new_path_beside(rt: &HostRuntime, place: &str) -> Result<String, Stop> {
    let mut octets = [0; LETTERS];
    if let Err(fault) = rt.fill_bytes(&mut octets) {
        return Err(unwritten(rt.alloc(), place, fault));
    }
    let mut letters = String::new(rt.alloc());
    for octet in octets {
        letters.push(char::from(ALPHABET[usize::from(octet % 32)]))?;
    }
    Ok(match place.rsplit_once('/') {
        Some((folder, name)) => format!(in rt.alloc(); "{folder}/.{name}.{letters}.new")?,
        None => format!(in rt.alloc(); ".{place}.{letters}.new")?,
    })
}

/// The failure of a file that can't be written.
pub(crate) fn unwritten(alloc: Global, path: &str, fault: io::Error) -> Stop {
    match fault.kind() {
        ErrorKind::OutOfMemory => Stop::Memory,
        _ => failed(alloc, format_args!("{path} can't be written: {fault}")),
    }
}
