//! The keytab of a service, which is read again where its file changed.

use krb_commands::{Stop, keytab_in};
use krb_file_formats::Keytab;
use std::fs;
use std::os::unix::fs::MetadataExt;

/// A keytab at a path, and its file as it was when it was read last.
#[derive(Drop)]
pub(crate) struct KeytabFile {
    path: String,
    state: Option<FileState>,
}

// What distinguishes a file from one that takes its place, and from itself after a change.
#[derive(Clone, Copy, PartialEq, Eq)]
struct FileState {
    device: u64,
    inode: u64,
    length: u64,
    modified_second: i64,
    modified_nanosecond: i64,
}

impl KeytabFile {
    /// The keytab at a path. It wasn't read yet.
    pub(crate) fn new(path: String) -> KeytabFile {
        KeytabFile { path, state: None }
    }

    /// The path.
    pub(crate) fn path(&self) -> &str {
        self.path.as_str()
    }

    /// Reads the keytab. A change while it is read counts as one after it.
    pub(crate) fn read(&mut self, rt: &HostRuntime) -> Result<Keytab, Stop> {
        self.state = state_at(rt, self.path.as_str());
        keytab_in(rt, self.path.as_str())
    }

    /// Reads the keytab again, if there is a file, and it isn't as it was when it was read last.
    pub(crate) fn read_if_changed(&mut self, rt: &HostRuntime) -> Result<Option<Keytab>, Stop> {
        let state = state_at(rt, self.path.as_str());
        if state.is_none() || state == self.state {
            return Ok(None);
        }
        let keytab = self.read(rt)?;
        Ok(Some(keytab))
    }
}

// The state of the file at a path, if there is one.
fn state_at(rt: &HostRuntime, path: &str) -> Option<FileState> {
    let Ok(there) = fs::metadata(rt, path) else {
        return None;
    };
    if !there.is_file() {
        return None;
    }
    Some(FileState {
        device: there.dev(),
        inode: there.ino(),
        length: there.len(),
        modified_second: there.mtime(),
        modified_nanosecond: there.mtime_nsec(),
    })
}
