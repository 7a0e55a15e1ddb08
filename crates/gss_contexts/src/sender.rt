//! Making tokens.
ghost use Rattle.std.specs.Prelude.{◌≡◌, ◌<◌, ℕ, List, length, IfOk, IsTrue};
ghost use Rattle.gss_contexts.specs.Contexts.{is_newer};
ghost use Rattle.gss_contexts.specs.Tokens.{IsMarked, WritesMic, WritesWrap};
ghost use Rattle.gss_contexts.specs.declared.side.Protection.TheVariants.{Sealed, Checksum};

use crate::header::{flag_if, mic_header, wrap_header};
use crate::octets::{checksum, joined};
use crate::side::{Protection, Side};
use krb_constants::gss_api::{ACCEPTOR_SUBKEY, SEALED, SENT_BY_ACCEPTOR};
use krb_crypto::Key;
use std::alloc::{AllocError, Global};

/// The side that protects tokens, and its key.
#[derive(Drop)]
pub struct Sender {
    /// The key.
    pub key: Key,
    /// The sender's side.
    pub side: Side,
    /// Whether the key is the acceptor's subkey.
    pub acceptor_subkey: bool,
}

impl Sender {
    // Returns the flags of its tokens.
    fn flags(&self, sealed: bool) -> u8
        ensures marked { IsMarked self.now sealed result }
        ensures clear { result < 8 }
    {
        flag_if(self.side.is_acceptor(), SENT_BY_ACCEPTOR)
            | flag_if(sealed, SEALED)
            | flag_if(self.acceptor_subkey, ACCEPTOR_SUBKEY)
    }

    // Makes the MIC token of a message.
    pub(crate) fn mic_token(
        &self,
        alloc: Global,
        number: u64,
        message: &[u8],
    ) -> Result<Vec<u8>, AllocError>
        ensures { IfOk result (λ token. WritesMic self.now number message.now token.items) }
    {
        let header = mic_header(alloc, self.flags(false), number);
        let sum = checksum(alloc, &self.key, self.side.sign_usage(), message, &header)?;
        joined(alloc, &header, &sum)
    }

    // Makes the encrypted wrap token of a message, with this confounder.
    fn sealed_token(
        &self,
        alloc: Global,
        number: u64,
        message: &[u8],
        confounder: &[u8],
    ) -> Result<Vec<u8>, AllocError>
        requires newer { IsTrue (is_newer self.now.key.suite) }
        requires sized { length confounder.now ≡ 16 }
        ensures { IfOk result (λ token. WritesWrap self.now number Sealed confounder.now message.now token.items) }
    {
        let header = wrap_header(alloc, self.flags(true), 0, number);
        let plain = joined(alloc, message, &header)?;
        let usage = self.side.seal_usage();
        let text = self.key.encrypt(alloc, usage, &plain, confounder)?;
        joined(alloc, &header, &text)
    }

    // Makes the wrap token of a message that isn't encrypted.
    fn summed_token(
        &self,
        alloc: Global,
        number: u64,
        message: &[u8],
    ) -> Result<Vec<u8>, AllocError>
        ensures { (d : List ℕ) → IfOk result (λ token. WritesWrap self.now number Checksum d message.now token.items) }
    {
        let flags = self.flags(false);
        let bare = wrap_header(alloc, flags, 0, number);
        let sum = checksum(alloc, &self.key, self.side.seal_usage(), message, &bare)?;
        let header = wrap_header(alloc, flags, sum.len() as u16, number);
        let text = joined(alloc, message, &sum)?;
        joined(alloc, &header, &text)
    }

    // Makes the wrap token of a message.
    pub(crate) fn wrap_token(
        &self,
        alloc: Global,
        number: u64,
        message: &[u8],
        protection: Protection,
        confounder: &[u8],
    ) -> Result<Vec<u8>, AllocError>
        requires newer { IsTrue (is_newer self.now.key.suite) }
        requires sized { length confounder.now ≡ 16 }
        ensures { IfOk result (λ token. WritesWrap self.now number protection confounder.now message.now token.items) }
    {
        match protection {
            Protection::Sealed => self.sealed_token(alloc, number, message, confounder),
            Protection::Checksum => self.summed_token(alloc, number, message),
        }
    }
}
