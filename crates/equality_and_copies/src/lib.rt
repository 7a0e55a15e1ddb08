//! `==` of the types of X.509 and Kerberos is equality of values, and a copy of a value is the value.
//!
//! Each type of X.509 and of the Kerberos messages has the law [`Equality`], with the leaves and wrappers of its fields, and with the
//! faults. So have terms of contexts, groups, moments, settings, and records of keytabs and credential caches. Each type of the Kerberos
//! messages has the law [`Copies`], too; for the other types each contract of `clone` says it. A type with a parameter has a law where its
//! parameter has. Tokens, PACs and NEGOEX messages hold their bytes in a `Vec`, of which a contract says more than its bytes: the laws of
//! `layout_equality` speak of the words by which contracts name what a value carries.
//!
//! `==` of two values whose type has [`Equality`] is true exactly where they are one value (`is_equality`), and [`is_one_value`] compares
//! them so. `==` of two views is true exactly where they borrow one value ([`attribute_views`], [`extension_views`], [`name_views`]). A
//! copy by `clone` of a value whose type has [`Copies`] is the value (`is_copy`), and [`copy_of`] returns such a copy. Copies of a record's
//! fields, each by the field's own `clone`, are the fields ([`RowCopies`]). `==` of two tokens, two PACs or two of their buffers is true
//! exactly where a contract sees one thing of both ([`mic_tokens`], [`wrap_tokens`], [`pacs`], [`buffers`]). So is `==` of two NEGOEX
//! messages, checksums or extensions ([`nego_messages`], [`exchange_messages`], [`verify_messages`], [`checksums`], [`extensions`]).
#![tactic(auto)]

mod copies;
mod equality;
mod layout_equality;

pub use copies::{Copies, RowCopies, copy_of};
pub use equality::{Equality, attribute_views, extension_views, is_one_value, name_views};
pub use layout_equality::{
    buffers, checksums, exchange_messages, extensions, mic_tokens, nego_messages, pacs,
    verify_messages, wrap_tokens,
};
