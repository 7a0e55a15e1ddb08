//! `==` of tokens, PACs and NEGOEX messages is equality of all that contracts see of them.
//!
//! These types hold their bytes in a `Vec`, of which a contract says more than its bytes. Each law speaks of the words by which the
//! contracts of a type name what a value carries.
//!
//! `==` of two tokens, two PACs or two of their buffers is true exactly where a contract sees one thing of both ([`mic_tokens`],
//! [`wrap_tokens`], [`pacs`], [`buffers`]). So is `==` of two NEGOEX messages, checksums or extensions ([`nego_messages`],
//! [`exchange_messages`], [`verify_messages`], [`checksums`], [`extensions`]).

ghost use Rattle.std.specs.Prelude.{◌≡◌};
ghost use Rattle.std.specs.Bool.{Decides};
ghost use Rattle.microsoft_messages.specs.Buffers.{buffer_of, pac_buffers};
ghost use Rattle.equality_and_copies.specs.Seen.{seen_mic, seen_wrap};

use gss_contexts::{MicToken, WrapToken};
use microsoft_messages::{Pac, PacBuffer};
use negoex_messages::{Checksum, Exchange, Extension, Laid, Nego, Verify};

/// Two MIC tokens are equal exactly where they carry one thing, and have one payload.
pub fn mic_tokens()
    ensures { (v w : MicToken) → Decides (⟦<MicToken as PartialEq>⟧.eq v w) (seen_mic v ≡ seen_mic w) }
{}

/// Two wrap tokens are equal exactly where they carry one thing, and have one payload.
pub fn wrap_tokens()
    ensures { (v w : WrapToken) → Decides (⟦<WrapToken as PartialEq>⟧.eq v w) (seen_wrap v ≡ seen_wrap w) }
{}

/// Two buffers of PACs are equal exactly where their rows and their contents are.
pub fn buffers()
    ensures { (v w : PacBuffer) → Decides (⟦<PacBuffer as PartialEq>⟧.eq v w) (buffer_of v ≡ buffer_of w) }
{}

/// Two PACs are equal exactly where their buffers are.
pub fn pacs()
    ensures { (v w : Pac) → Decides (⟦<Pac as PartialEq>⟧.eq v w) (pac_buffers v ≡ pac_buffers w) }
{}

/// Two checksums are equal exactly where each field is.
pub fn checksums()
    ensures { (v w : Checksum) → Decides (⟦<Checksum as PartialEq>⟧.eq v w) (⟦<Checksum as Laid>⟧.view v ≡ ⟦<Checksum as Laid>⟧.view w) }
{}

/// Two extensions are equal exactly where type and value are.
pub fn extensions()
    ensures { (v w : Extension) → Decides (⟦<Extension as PartialEq>⟧.eq v w) (⟦<Extension as Laid>⟧.view v ≡ ⟦<Extension as Laid>⟧.view w) }
{}

/// Two messages of schemes are equal exactly where each field is.
pub fn nego_messages()
    ensures { (v w : Nego) → Decides (⟦<Nego as PartialEq>⟧.eq v w) (⟦<Nego as Laid>⟧.view v ≡ ⟦<Nego as Laid>⟧.view w) }
{}

/// Two messages of a scheme are equal exactly where each field is.
pub fn exchange_messages()
    ensures { (v w : Exchange) → Decides (⟦<Exchange as PartialEq>⟧.eq v w) (⟦<Exchange as Laid>⟧.view v ≡ ⟦<Exchange as Laid>⟧.view w) }
{}

/// Two messages of a checksum are equal exactly where each field is.
pub fn verify_messages()
    ensures { (v w : Verify) → Decides (⟦<Verify as PartialEq>⟧.eq v w) (⟦<Verify as Laid>⟧.view v ≡ ⟦<Verify as Laid>⟧.view w) }
{}
