//! The octets of a file, and a copy of them that rows damage.

use std::alloc::Global;
use test_support::Row;

/// The octets of a file, and a copy of them.
#[derive(Drop)]
pub(crate) struct Copies {
    /// The file's octets.
    pub(crate) whole: Vec<u8>,
    /// A copy of the file's octets, whole or damaged.
    pub(crate) bytes: Vec<u8>,
    pub(crate) is_damaged: bool,
}

impl Copies {
    /// The octets of a file, and an equal copy.
    pub(crate) fn new(whole: Vec<u8>) -> anyhow::Result<Copies> {
        Ok(Copies {
            bytes: whole.clone()?,
            whole,
            is_damaged: false,
        })
    }

    /// Leaves so many octets of the file in the damaged copy.
    pub(crate) fn cut(&mut self, row: &mut Row<'_>) -> anyhow::Result<bool> {
        self.bytes = self.whole.clone()?;
        self.bytes.truncate(row.number::<usize>());
        self.is_damaged = true;
        Ok(true)
    }

    /// Changes octets of the file from a position on in the damaged copy.
    pub(crate) fn set(&mut self, alloc: Global, row: &mut Row<'_>) -> anyhow::Result<bool> {
        self.bytes = self.whole.clone()?;
        self.is_damaged = true;
        let mut at = row.number::<usize>();
        for octet in row.octets(alloc) {
            if let Some(changed) = self.bytes.get_mut(at) {
                *changed = octet;
            }
            at = at.saturating_add(1);
        }
        Ok(true)
    }
}
