//! Files that are read whole, up to a stated length.

use crate::kinds::FileKind;
use crate::stop::{Stop, failed, refused};
use krb_file_formats::{Keytab, KeytabFault};
use krb_programs::read_front;
use std::alloc::Global;
use std::fs::{self, FileType, Metadata};
use std::io::{self, ErrorKind, Read};
use std::os::unix::fs::FileTypeExt;

/// The octets of a file, which is to be of this kind. One that is longer than its kind may be is refused, and so is what is no file. A pipe
/// is read.
pub fn octets_of(rt: &HostRuntime, path: &str, kind: FileKind) -> Result<Vec<u8>, Stop> {
    match fs::metadata(rt, path) {
        Ok(there) => check_readable(rt, path, kind, &there)?,
        Err(fault) => return Err(unread(rt.alloc(), path, fault)),
    }
    let octets = match read_front(rt, path, kind.limit().saturating_add(1)) {
        Ok(octets) => octets,
        Err(fault) => return Err(unread(rt.alloc(), path, fault)),
    };
    if kind.limit() < octets.len() as u64 {
        return Err(too_long(rt, path, kind));
    }
    Ok(octets)
}

// Refuses what is neither a file nor a pipe, and a file that is too long.
fn check_readable(
    rt: &HostRuntime,
    path: &str,
    kind: FileKind,
    there: &Metadata,
) -> Result<(), Stop> {
    if !there.is_file() && !there.file_type().is_fifo() {
        let other = other_than_file(there.file_type());
        return Err(refused(
            rt.alloc(),
            format_args!("{path} is {other}: expected a {kind}"),
        ));
    }
    if kind.limit() < there.len() {
        return Err(too_long(rt, path, kind));
    }
    Ok(())
}

fn too_long(rt: &HostRuntime, path: &str, kind: FileKind) -> Stop {
    let limit = kind.limit();
    refused(
        rt.alloc(),
        format_args!("{path} is too long: expected a {kind} of at most {limit} octets"),
    )
}

/// The first octets of standard input: all of them, or this many where it has more.
pub fn read_input(rt: &HostRuntime, count: u64) -> Result<Vec<u8>, Stop> {
    let mut octets = Vec::new(rt.alloc());
    match rt.stdin().take(count).read_to_end(&mut octets) {
        Ok(_) => Ok(octets),
        Err(fault) => Err(unread(rt.alloc(), "standard input", fault)),
    }
}

/// The stop where a file or a stream can't be read.
pub fn unread(alloc: Global, file: &str, fault: io::Error) -> Stop {
    match fault.kind() {
        ErrorKind::OutOfMemory => Stop::Memory,
        _ => failed(alloc, format_args!("{file} can't be read: {fault}")),
    }
}

/// What stands at a path, where that is no file.
pub(crate) fn other_than_file(there: FileType) -> &'static str {
    if there.is_dir() {
        "a folder"
    } else if there.is_fifo() {
        "a pipe"
    } else if there.is_socket() {
        "a socket"
    } else if there.is_symlink() {
        "a symbolic link"
    } else {
        "a device"
    }
}

/// Whether there is a file of this path.
pub fn is_there(rt: &HostRuntime, path: &str) -> bool {
    fs::metadata(rt, path).is_ok()
}

/// The keytab in a file.
pub fn keytab_in(rt: &HostRuntime, path: &str) -> Result<Keytab, Stop> {
    let octets = octets_of(rt, path, FileKind::Keytab)?;
    match Keytab::from_bytes(rt.alloc(), &octets) {
        Ok(keytab) => Ok(keytab),
        Err(KeytabFault::Memory) => Err(Stop::Memory),
        Err(fault) => Err(refused(rt.alloc(), format_args!("{path}: {fault}"))),
    }
}
