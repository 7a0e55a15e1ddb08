//! The fields of one table.
ghost use Rattle.std.specs.Prelude.{◌≡◌, nat_eq, option_map, string_bytes};
ghost use Rattle.std.specs.BTreeMap.{keys};
ghost use Rattle.std.specs.Cmp.Lexicographic.{pointwise};
ghost use Rattle.std.specs.List.{find, list_all};
ghost use Rattle.toml.specs.Data.{get_member};
ghost use Rattle.toml.specs.View.{view, array_view, table_view};
ghost use Rattle.krb_crypto.specs.Suites.{cipher_suites};
ghost use Rattle.krb_settings.specs.Steps.{IsAside, answer_shown};
ghost use Rattle.krb_settings.specs.Fields.{bytes_of, field_name, is_among, key_at, list_of, natural_at, natural_of, only, suite_at, suite_name, suite_named, text_at, text_of, value_at};

use crate::{Field, TableFault};
use hex::FromHexError;
use krb_crypto::CipherSuite;
use std::alloc::Global;
use toml::value::Array;
use toml::{Table, Value};

// Refuses a table with a key that is the name of none of the fields.
pub(crate) fn check_keys(table: &Table, fields: &[Field]) -> Result<(), TableFault>
    ensures { result ≡ only fields.now (table_view table.now) }
{
    if has_only(table, fields) {
        Ok(())
    } else {
        Err(TableFault::UnknownKey)
    }
}

fn has_only(table: &Table, fields: &[Field]) -> bool
    ensures { result ≡ list_all (λ key. is_among fields.now (string_bytes key)) (keys table.now) }
{
    table.keys().all(|key| is_among(fields, key.as_str()))
}

/// Whether a key is the name of one of the fields.
pub fn is_among(fields: &[Field], key: &str) -> bool
    ensures { result ≡ is_among fields.now key.now }
{
    fields.iter().any(|field| key == field.name())
}

// What a field holds, where the table has it.
pub(crate) fn get<'a>(table: &'a Table, field: Field) -> Option<&'a Value>
    ensures { option_map (λ v. view v.now) result ≡ get_member (field_name field) (table_view table.now) }
{
    table.get(field.name())
}

// What a field holds.
pub(crate) fn value_at<'a>(table: &'a Table, field: Field) -> Result<&'a Value, TableFault>
    ensures { answer_shown (λ v. view v.now) result ≡ value_at field (table_view table.now) }
{
    match get(table, field) {
        Some(value) => Ok(value),
        None => Err(TableFault::Missing(field)),
    }
}

// The value as a text.
pub(crate) fn text_of<'a>(field: Field, value: &'a Value) -> Result<&'a str, TableFault>
    ensures { answer_shown (λ t. t.now) result ≡ text_of field (view value.now) }
{
    match value.as_str() {
        Some(text) => Ok(text),
        None => Err(TableFault::WrongType(field)),
    }
}

// The value as a list.
pub(crate) fn list_of<'a>(field: Field, value: &'a Value) -> Result<&'a Array, TableFault>
    ensures { answer_shown (λ v. array_view v.now) result ≡ list_of field (view value.now) }
{
    match value.as_array() {
        Some(list) => Ok(list),
        None => Err(TableFault::WrongType(field)),
    }
}

// The value as a whole number that isn't negative.
fn natural_of(field: Field, value: &Value) -> Result<u64, TableFault>
    ensures { result ≡ natural_of field (view value.now) }
{
    match value.as_integer() {
        Some(number) if number >= 0 => Ok(number as u64),
        _ => Err(TableFault::WrongType(field)),
    }
}

// The text that a field holds.
pub(crate) fn text_at<'a>(table: &'a Table, field: Field) -> Result<&'a str, TableFault>
    ensures { answer_shown (λ t. t.now) result ≡ text_at field (table_view table.now) }
{
    text_of(field, value_at(table, field)?)
}

// The whole number that a field holds.
pub(crate) fn natural_at(table: &Table, field: Field) -> Result<u64, TableFault>
    ensures { result ≡ natural_at field (table_view table.now) }
{
    natural_of(field, value_at(table, field)?)
}

// The suite of this name.
#[tactic(auto, unfolding(crate::specs::Fields::suite_named))]
fn suite_named(name: &str) -> Result<CipherSuite, TableFault>
    ensures { result ≡ suite_named name.now }
{
    match named(name) {
        Some(suite) => Ok(suite),
        None => Err(TableFault::UnknownSuite),
    }
}

fn named(name: &str) -> Option<CipherSuite>
    ensures { result ≡ find (λ suite. pointwise nat_eq name.now (suite_name suite)) cipher_suites }
{
    CipherSuite::all()
        .iter()
        .copied()
        .find(|suite| name == suite_name(*suite))
}

/// The suite of a table.
pub fn suite_at(table: &Table) -> Result<CipherSuite, TableFault>
    ensures { result ≡ suite_at (table_view table.now) }
{
    suite_named(text_at(table, Field::Suite)?)
}

// The bytes that hexadecimal digits write.
pub(crate) fn bytes_of(alloc: Global, digits: &str) -> Result<Vec<u8>, TableFault>
    ensures { IsAside TableFault.Memory (λ v. v.items) (bytes_of digits.now) result }
{
    match hex::decode(alloc, digits) {
        Ok(bytes) => Ok(bytes),
        Err(FromHexError::OutOfMemory) => Err(TableFault::Memory),
        Err(_) => Err(TableFault::BadDigits),
    }
}

// The key of a table.
pub(crate) fn key_at(alloc: Global, table: &Table) -> Result<Vec<u8>, TableFault>
    ensures { IsAside TableFault.Memory (λ v. v.items) (key_at (table_view table.now)) result }
{
    bytes_of(alloc, text_at(table, Field::Key)?)
}

/// The name of a suite, as files have it (RFC 3961, section 8; RFC 3962, section 7; RFC 8009, section 4).
#[tactic(auto, unfolding(crate::specs::Fields::suite_name))]
pub fn suite_name(suite: CipherSuite) -> &'static str
    ensures { result.now ≡ suite_name suite }
{
    match suite {
        CipherSuite::Aes128CtsHmacSha196 => "aes128-cts-hmac-sha1-96",
        CipherSuite::Aes256CtsHmacSha196 => "aes256-cts-hmac-sha1-96",
        CipherSuite::Des3CbcSha1Kd => "des3-cbc-sha1-kd",
        CipherSuite::Aes128CtsHmacSha256128 => "aes128-cts-hmac-sha256-128",
        CipherSuite::Aes256CtsHmacSha384192 => "aes256-cts-hmac-sha384-192",
    }
}
