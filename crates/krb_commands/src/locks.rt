//! The lock by which one run at a time writes a file: that of the system on the file which the run replaces (flock).

use crate::places::unwritten;
use crate::reading::other_than_file;
use crate::stop::{Stop, failed, refused};
use std::alloc::{AllocError, Global};
use std::fs::{self, File, Metadata, OpenOptions, TryLockError};
use std::io::{self, ErrorKind, Read};
use std::os::unix::fs::MetadataExt;
use std::thread;
use std::time::Duration;

/// How often a lock is tried that another run has.
const TRIES: usize = 100;

/// The milliseconds between two tries. All tries take ten seconds.
const PAUSE: u64 = 100;

/// The file in which Linux lists the locks.
const LOCKS: &str = "/proc/locks";

/// How many octets of it are read.
const LOCKS_LIMIT: u64 = 1_048_576;

/// A file that this run has locked, as it was then.
#[derive(Drop)]
pub(crate) struct Locked {
    /// The file. Its lock ends where it is dropped.
    pub(crate) file: File,
    /// Which file it is, and its last change.
    pub(crate) state: FileState,
}

/// Which file it is, and its last change.
#[derive(Clone, Copy, PartialEq, Eq)]
pub(crate) struct FileState {
    device: u64,
    inode: u64,
    length: u64,
    modified_second: i64,
    modified_nanosecond: i64,
}

impl FileState {
    /// That of a file with this metadata.
    pub(crate) fn new(there: &Metadata) -> FileState {
        FileState {
            device: there.dev(),
            inode: there.ino(),
            length: there.len(),
            modified_second: there.mtime(),
            modified_nanosecond: there.mtime_nsec(),
        }
    }

    /// Whether a path names this file.
    pub(crate) fn is_named(&self, rt: &HostRuntime, path: &str) -> bool {
        match fs::metadata(rt, path) {
            Ok(there) => self.device == there.dev() && self.inode == there.ino(),
            Err(_) => false,
        }
    }
}

// What came of one try.
#[derive(Drop)]
enum Tried {
    Locked(Locked),
    // There is no file.
    Nothing,
    // Another run has the lock, or has replaced the file since it was opened.
    Busy,
}

/// Locks the file at a path, if there is one. It waits for up to ten seconds where another run has the lock.
pub(crate) fn lock_at(rt: &HostRuntime, path: &str) -> Result<Option<Locked>, Stop> {
    for _ in 0..TRIES {
        match try_lock_at(rt, path)? {
            Tried::Locked(locked) => return Ok(Some(locked)),
            Tried::Nothing => return Ok(None),
            Tried::Busy => thread::sleep(rt, Duration::from_millis(PAUSE)),
        }
    }
    Err(busy(rt, path))
}

fn try_lock_at(rt: &HostRuntime, path: &str) -> Result<Tried, Stop> {
    if !is_file_at(rt, path)? {
        return Ok(Tried::Nothing);
    }
    match locked_file(rt, path) {
        Ok(Some(file)) => if_current(rt, path, file),
        Ok(None) => Ok(Tried::Busy),
        Err(fault) => Err(unwritten(rt.alloc(), path, fault)),
    }
}

// Whether there is a file. What is no file is refused, and isn't opened.
fn is_file_at(rt: &HostRuntime, path: &str) -> Result<bool, Stop> {
    match fs::symlink_metadata(rt, path) {
        Ok(there) if there.is_file() => Ok(true),
        Ok(there) => {
            let other = other_than_file(there.file_type());
            Err(refused(
                rt.alloc(),
                format_args!("{path} is {other}: expected a file, or none yet"),
            ))
        }
        Err(fault) if fault.kind() == ErrorKind::NotFound => Ok(false),
        Err(fault) => Err(unwritten(rt.alloc(), path, fault)),
    }
}

// The file at a path with its lock, if no other run has that.
fn locked_file(rt: &HostRuntime, path: &str) -> io::Result<Option<File>> {
    let file = opened(rt, path)?;
    match file.try_lock() {
        Ok(()) => Ok(Some(file)),
        Err(TryLockError::WouldBlock) => Ok(None),
        Err(TryLockError::Error(fault)) => Err(fault),
    }
}

// The file at a path, open for writing where it may be: a lock on a file of another machine (NFS) takes that. Nothing is written to it.
fn opened(rt: &HostRuntime, path: &str) -> io::Result<File> {
    match OpenOptions::new().read(true).write(true).open(rt, path) {
        Ok(file) => Ok(file),
        Err(_) => fs::open(rt, path),
    }
}

// The locked file, if the path still names it.
fn if_current(rt: &HostRuntime, path: &str, file: File) -> Result<Tried, Stop> {
    let state = match file.metadata() {
        Ok(there) => FileState::new(&there),
        Err(fault) => return Err(unwritten(rt.alloc(), path, fault)),
    };
    if state.is_named(rt, path) {
        Ok(Tried::Locked(Locked { file, state }))
    } else {
        Ok(Tried::Busy)
    }
}

// The failure where another run has the lock.
fn busy(rt: &HostRuntime, path: &str) -> Stop {
    match holder_at(rt, path) {
        Ok(Some(holder)) => failed(
            rt.alloc(),
            format_args!(
                "{path} is written by process {holder}: expected it to end within 10 seconds"
            ),
        ),
        _ => failed(
            rt.alloc(),
            format_args!(
                "{path} is written by another process: expected it to end within 10 seconds"
            ),
        ),
    }
}

// The process that has locked the file at a path, if the system says which.
fn holder_at(rt: &HostRuntime, path: &str) -> io::Result<Option<u32>> {
    let there = fs::metadata(rt, path)?;
    let file = listed_file(rt.alloc(), there.dev(), there.ino())?;
    let mut octets = Vec::new(rt.alloc());
    fs::open(rt, LOCKS)?
        .take(LOCKS_LIMIT)
        .read_to_end(&mut octets)?;
    let list = str::from_utf8(&octets).unwrap_or("");
    Ok(
        list.split('\n')
            .find_map(|line| holder_in(line, file.as_str())),
    )
}

/// A file as Linux lists it with its locks: the two numbers of its device in hexadecimal digits, and its inode.
pub fn listed_file(alloc: Global, device: u64, inode: u64) -> Result<String, AllocError> {
    let major = ((device >> 8) & 0xfff) | ((device >> 32) & 0xffff_f000);
    let minor = (device & 0xff) | ((device >> 12) & 0xffff_ff00);
    format!(in alloc; "{major:02x}:{minor:02x}:{inode}")
}

/// The process of a line of that list, if the line is of a lock on this file: `1: FLOCK ADVISORY WRITE 4711 fe:00:2310181 0 EOF`.
pub fn holder_in(line: &str, file: &str) -> Option<u32> {
    let mut words = line.split_whitespace().skip(1);
    let (Some("FLOCK"), Some(_), Some(_), Some(process), Some(place)) = (
        words.next(),
        words.next(),
        words.next(),
        words.next(),
        words.next(),
    ) else {
        return None;
    };
    if place != file {
        return None;
    }
    process.parse::<u32>().ok()
}
