//! Random octets that are none.
ghost use Rattle.std.specs.Prelude.{◌≡◌, ◌==◌, IfOk};
ghost use Rattle.std.specs.List.{list_all};
ghost use Rattle.krb_kdcd.specs.Words.{is_repeated};

use crate::arguments::Served;
use crate::stop::Stop;
use byte_streams::{Source, Watched, read_full};
use krb_frames::WORDS_NEEDED;
use krb_programs::open_words;
use std::fs::{File, Files};
use std::io::ErrorKind;

/// A file of random octets that was opened.
#[derive(Drop)]
pub(crate) struct RandomFile<'a> {
    /// The path at which it was opened.
    pub(crate) path: &'a str,
    /// What it gives.
    pub(crate) octets: Watched<File>,
}

/// Opens the file of random octets that the arguments name, and looks at it.
///
/// A regular file is refused, and one whose first octets are one octet repeated, unless the octets may be fixed. No message gets the octets
/// that were looked at.
pub(crate) fn open_random<'a, F: Files<File = File>>(
    files: &F,
    served: Served<'a>,
) -> Result<RandomFile<'a>, Stop<'a>>
    ensures path { IfOk result (λ words. words.path.now ≡ served.entry.words.now) }
{
    let mut words = open_at(files, served.words)?;
    if !served.may_be_fixed {
        check_random(words.path, &mut words.octets)?;
    }
    Ok(words)
}

// Opens the file that has a path.
fn open_at<'a, F: Files<File = File>>(files: &F, path: &'a str) -> Result<RandomFile<'a>, Stop<'a>>
    ensures { IfOk result (λ words. words.path.now ≡ path.now) }
{
    match open_words(files, path) {
        Ok(octets) => Ok(RandomFile { path, octets }),
        Err(ErrorKind::OutOfMemory) => Err(Stop::Memory),
        Err(kind) => Err(Stop::Words(path, kind)),
    }
}

// Refuses a regular file, and one octet repeated.
fn check_random<'a>(path: &'a str, words: &mut Watched<File>) -> Result<(), Stop<'a>> {
    if is_regular(words.get_ref()) {
        return Err(Stop::FixedWords(path));
    }
    if begins_repeated(words) {
        return Err(Stop::RepeatedWords(path));
    }
    Ok(())
}

// Whether the system says of an opened file that it is a regular one.
fn is_regular(file: &File) -> bool {
    match file.metadata() {
        Ok(metadata) => metadata.is_file(),
        Err(_) => false,
    }
}

// Takes the first octets, as many as a message takes, and says whether they are one octet repeated. A device that ends or fails is refused
// where a message needs it.
fn begins_repeated<K: Source>(words: &mut K) -> bool {
    let mut first = [0; WORDS_NEEDED];
    match read_full(words, &mut first) {
        Ok(WORDS_NEEDED) => is_repeated(&first),
        _ => false,
    }
}

// Whether there is one octet or more, and all are the same.
fn is_repeated(octets: &[u8]) -> bool
    ensures { result ≡ is_repeated octets.now }
{
    match octets.split_first() {
        Some((first, rest)) => are_all(rest, *first),
        None => false,
    }
}

// Whether all octets are this one.
fn are_all(octets: &[u8], octet: u8) -> bool
    ensures { result ≡ list_all (λ other. other == octet) octets.now }
{
    octets.iter().all(|other| *other == octet)
}
