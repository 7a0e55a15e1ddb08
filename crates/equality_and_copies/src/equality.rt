//! `==` of the types of X.509 and Kerberos is equality of values.
//!
//! Each type of X.509 and of the Kerberos messages has the law [`Equality`], with the leaves and wrappers of its fields, and with the
//! faults. So have terms of contexts, groups, moments, settings, and records of keytabs and credential caches. A type with a parameter has
//! it where its parameter has.
//!
//! `==` of two values whose type has [`Equality`] is true exactly where they are one value (`is_equality`), and [`is_one_value`]
//! compares them so. `==` of two views is true exactly where they borrow one value ([`attribute_views`], [`extension_views`],
//! [`name_views`]).

ghost use Rattle.std.specs.Prelude.{◌≡◌};
ghost use Rattle.std.specs.Bool.{Decides};

mod agreements;
mod algorithms;
mod attributes;
mod certificates;
mod contexts;
mod credentials;
mod data_types;
mod delegated;
mod extensions;
mod faults;
mod key_files;
mod keys;
mod kile;
mod layouts;
mod leaves;
mod messages;
mod names;
mod parameters;
mod parts;
mod passwords;
mod pkinit;
mod private_keys;
mod realms;
mod requests;
mod suites;
mod tokens;
mod usages;
mod views;
mod wrapped;

pub use views::{attribute_views, extension_views, name_views};

/// Types of which `==` is equality of values: it is true of two values where they are one, and of no others.
pub trait Equality: PartialEq {
    ghost is_equality: { (v w : Self) → Decides (Self.eq v w) (v ≡ w) };
}

/// Whether the two are one value.
pub fn is_one_value<T: Equality>(left: &T, right: &T) -> bool
    ensures { Decides result (left.now ≡ right.now) }
{
    left == right
}
