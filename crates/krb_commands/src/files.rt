//! Files that are written whole or not at all.

use crate::kinds::{FRONT_LIMIT, FileKind};
use crate::locks::{FileState, Locked, lock_at};
use crate::places::{folder_of, new_path_beside, place_named, unwritten};
use crate::stop::{Stop, failed, refused};
use std::fs::{self, File, OpenOptions};
use std::io::{self, ErrorKind, Read, Write};
use std::os::unix::fs::OpenOptionsExt;

/// Who may read and write a file that is made: its owner.
const MODE: u32 = 0o600;

/// How many random names are tried for a new file.
const NAMES: usize = 16;

/// A new file beside the one whose place it is to take. While it is there no other run writes that file: it waits.
#[derive(Drop)]
pub struct NewFile {
    // The path of its place.
    place: String,
    new_path: String,
    file: File,
    old: Option<Old>,
}

// The file that it replaces, locked.
#[derive(Drop)]
struct Old {
    locked: Locked,
    is_empty: bool,
}

/// Makes a new file beside the one of this path, which is there already or isn't. Where the path names a symbolic link, that stays, and the
/// new file takes the place of what it leads to. What is there has to be a file of this kind or empty, and none of the files of the paths
/// `read`, which the command reads.
pub fn begin(rt: &HostRuntime, path: &str, kind: FileKind, read: &[&str]) -> Result<NewFile, Stop> {
    begin_in_place(rt, path, Some(kind), read)
}

/// The same of a file that isn't there yet, or is empty.
pub fn begin_first(rt: &HostRuntime, path: &str, read: &[&str]) -> Result<NewFile, Stop> {
    begin_in_place(rt, path, None, read)
}

fn begin_in_place(
    rt: &HostRuntime,
    path: &str,
    kind: Option<FileKind>,
    read: &[&str],
) -> Result<NewFile, Stop> {
    let place = place_named(rt, path)?;
    let old = match lock_at(rt, place.as_str())? {
        Some(locked) => Some(replaceable(rt, path, locked, kind, read)?),
        None => None,
    };
    let (new_path, file) = create_beside(rt, place.as_str())?;
    Ok(NewFile {
        place,
        new_path,
        file,
        old,
    })
}

// The locked file at a path, if it may be replaced.
fn replaceable(
    rt: &HostRuntime,
    path: &str,
    locked: Locked,
    kind: Option<FileKind>,
    read: &[&str],
) -> Result<Old, Stop> {
    for other in read {
        if locked.state.is_named(rt, *other) {
            return Err(refused(
                rt.alloc(),
                format_args!(
                    "{path} is the file {other}, which the command reads: expected another file to write"
                ),
            ));
        }
    }
    let front = match front_of(rt, &locked.file) {
        Ok(front) => front,
        Err(fault) => return Err(unwritten(rt.alloc(), path, fault)),
    };
    let is_empty = front.is_empty();
    if is_empty || kind.is_some_and(|kind| kind.has_front(&front)) {
        return Ok(Old { locked, is_empty });
    }
    Err(kept(rt, path, kind))
}

// The first octets of a file.
fn front_of(rt: &HostRuntime, file: &File) -> io::Result<Vec<u8>> {
    let mut front = Vec::new(rt.alloc());
    file.take(FRONT_LIMIT).read_to_end(&mut front)?;
    Ok(front)
}

// The refusal of a file that stays.
fn kept(rt: &HostRuntime, path: &str, kind: Option<FileKind>) -> Stop {
    match kind {
        Some(kind) => refused(
            rt.alloc(),
            format_args!("{path} is there, and is no {kind}: expected a {kind}, or no such file"),
        ),
        None => refused(
            rt.alloc(),
            format_args!("{path} is there: expected no such file"),
        ),
    }
}

// A new file in the folder of a path, with its own path.
fn create_beside(rt: &HostRuntime, place: &str) -> Result<(String, File), Stop> {
    for _ in 0..NAMES {
        let new_path = new_path_beside(rt, place)?;
        match create(rt, new_path.as_str()) {
            Ok(file) => return Ok((new_path, file)),
            Err(fault) if fault.kind() == ErrorKind::AlreadyExists => {}
            Err(fault) => return Err(unwritten(rt.alloc(), place, fault)),
        }
    }
    Err(failed(
        rt.alloc(),
        format_args!("{place} can't be written: expected a free name in its folder"),
    ))
}

fn create(rt: &HostRuntime, path: &str) -> io::Result<File> {
    OpenOptions::new()
        .write(true)
        .create_new(true)
        .mode(MODE)
        .open(rt, path)
}

impl NewFile {
    /// Whether there was no file, or an empty one.
    pub fn is_first(&self) -> bool {
        match &self.old {
            Some(old) => old.is_empty,
            None => true,
        }
    }

    /// Writes the octets, and puts the file into its place. If that fails, the new file is removed, and the old file stands.
    pub fn finish(mut self, rt: &HostRuntime, octets: &[u8]) -> Result<(), Stop> {
        if let Err(stop) = self.put(rt, octets) {
            self.discard(rt);
            return Err(stop);
        }
        if let Err(fault) = sync_folder(rt, self.place.as_str()) {
            return Err(failed(
                rt.alloc(),
                format_args!(
                    "{} is written, but a crash may undo it: its folder can't be synchronised: {fault}",
                    self.place
                ),
            ));
        }
        Ok(())
    }

    /// Removes the new file.
    pub fn discard(self, rt: &HostRuntime) {
        // No other run has this name. So a file that can't be removed is in no run's way.
        let _ = fs::remove_file(rt, self.new_path.as_str());
    }

    // Writes the octets, and puts the file into its place.
    fn put(&mut self, rt: &HostRuntime, octets: &[u8]) -> Result<(), Stop> {
        if let Err(fault) = write_through(&mut self.file, octets) {
            return Err(unwritten(rt.alloc(), self.place.as_str(), fault));
        }
        match &self.old {
            Some(old) => self.replace(rt, old.locked.state),
            None => self.put_first(rt),
        }
    }

    // Puts the file into the place of the old one, if that is as it was.
    fn replace(&self, rt: &HostRuntime, old: FileState) -> Result<(), Stop> {
        let is_same = match fs::symlink_metadata(rt, self.place.as_str()) {
            Ok(there) => FileState::new(&there) == old,
            Err(_) => false,
        };
        if !is_same {
            return Err(self.changed(rt));
        }
        self.rename(rt)
    }

    // Puts the file into a place where none was. One that came meanwhile stays.
    fn put_first(&self, rt: &HostRuntime) -> Result<(), Stop> {
        match fs::hard_link(rt, self.new_path.as_str(), self.place.as_str()) {
            Ok(()) => {
                // The file has both names until this one is removed. Nobody looks for it.
                let _ = fs::remove_file(rt, self.new_path.as_str());
                Ok(())
            }
            Err(fault) if fault.kind() == ErrorKind::AlreadyExists => Err(self.changed(rt)),
            Err(_) => self.rename_first(rt),
        }
    }

    // The same where the disk knows no second name of a file.
    fn rename_first(&self, rt: &HostRuntime) -> Result<(), Stop> {
        match fs::symlink_metadata(rt, self.place.as_str()) {
            Err(fault) if fault.kind() == ErrorKind::NotFound => self.rename(rt),
            _ => Err(self.changed(rt)),
        }
    }

    fn rename(&self, rt: &HostRuntime) -> Result<(), Stop> {
        match fs::rename(rt, self.new_path.as_str(), self.place.as_str()) {
            Ok(()) => Ok(()),
            Err(fault) => Err(unwritten(rt.alloc(), self.place.as_str(), fault)),
        }
    }

    // The failure where another program wrote to the place.
    fn changed(&self, rt: &HostRuntime) -> Stop {
        failed(
            rt.alloc(),
            format_args!(
                "{} was changed meanwhile by another program, and stays so: expected no change during the run",
                self.place
            ),
        )
    }
}

fn write_through(file: &mut File, octets: &[u8]) -> io::Result<()> {
    file.write_all(octets)?;
    file.sync_all()
}

// Writes the folder of a path to disk, so that the path's new file is found after a crash.
fn sync_folder(rt: &HostRuntime, path: &str) -> io::Result<()> {
    let folder = fs::open(rt, folder_of(path))?;
    folder.sync_all()
}

/// Writes a file of these octets in the place of the one of this path, as [`begin`] and `finish` do.
pub fn write_file(
    rt: &HostRuntime,
    path: &str,
    kind: FileKind,
    read: &[&str],
    octets: &[u8],
) -> Result<(), Stop> {
    let new_file = begin(rt, path, kind, read)?;
    new_file.finish(rt, octets)
}
