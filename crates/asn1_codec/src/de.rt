//! Reading values.
ghost use Rattle.std.specs.Prelude.{◌≡◌, ℕ, ◌+◌, ◌-◌, ◌^◌, ◌<◌, ◌≤◌, List, [], ◌∷◌, ◌++◌, length, MatchResult, MatchOption, IfOk, IfErr, IsTrue, false, true, Some};
ghost use Rattle.std.specs.Prelude.{◌↔◌, Result, Ok, Err, ◌⊎◌};
ghost use Rattle.std.specs.Io.KnownBytes.{Consumes};
ghost use Rattle.asn1_der.specs.Tree.{Tree, Trees, none, more, bare, IsWhole, AreWhole, wrapped, behind, der, ders};
ghost use Rattle.asn1_der.specs.Length.{element, length_octets};
ghost use Rattle.asn1_der.specs.Firsts.{may_begin};
ghost use Rattle.asn1_codec.specs.Cuts.{TakesNext, MissesNext, TellsNext};
ghost use Rattle.asn1_codec.specs.Named.{TellsEnd, TellsWholeEnd};
ghost use Rattle.asn1_codec.specs.Reads.{ReadsFront, ReadsWhole};
ghost use Rattle.asn1_codec.specs.Tails.{IsLengthTail, TookTail};
ghost use Rattle.asn1_codec.specs.Reading.{TookValue, TookBy, Refused, IsOwn, IsExcuse, IsSpelling, IsReadBy, IsLastBy, IsNotNext, TellsKind, result_faults};

use crate::fields::Fields;
use crate::input_end::named;
use crate::one_element::read_element;
use crate::row::Row1;
use crate::ser::Serialize;
use asn1_der::{Asn1DerError, Content, MOST_IN_PLACE, following, length_of};
use byte_streams::{PeekableReader, Source};
use std::alloc::Global;
use std::marker::Model;

// How many bytes a value from a reader has at most, where nothing else is said.
const MOST_BYTES: usize = 10_240;

/// A value that is read from its one DER spelling.
pub trait Deserialize: Serialize + Sized {
    ghost use Rattle.asn1_codec.specs.Reading.{Reading, TookValue, IsSpelling, Refused};

    /// Whether a value may begin with this identifier octet.
    fn may_start(first: u8) -> bool
        ensures { result ≡ may_begin Self.firsts first };

    /// Reads a value, and takes just its spelling. After a refusal the deserializer answers `InvalidData`
    /// from then on.
    fn deserialize<R: Source>(from: &mut Deserializer<R>) -> Result<Self, Asn1DerError>
        ensures { MatchResult result
            (λ value. TookValue Self.tree value from.old from.new)
            (λ fault. Refused (IsSpelling Self.tree) from.old from.new fault) };
}

/// A value that is read from bytes: from its one DER spelling, as each value of a [`Deserialize`] type, or as the type
/// says, for what a message leaves open. Fields, lists and tags hold values of the first kind alone.
pub trait FromDer: Sized + Drop {
    ghost use Rattle.asn1_der.specs.Seen.{Seen, as_is};
    ghost use Rattle.asn1_codec.specs.Named.{IsAnElement};
    ghost use Rattle.asn1_codec.specs.Reads.{IsOneValue};
    ghost use Rattle.asn1_codec.specs.Reading.{Reading, TookBy, IsReadBy, Refused};

    // Which bytes are read as a value.
    ghost reads: { Self → List ℕ → Type 0 };

    // What two values that the same bytes are read as have in common.
    ghost seen: { Seen Self } = { as_is };

    ghost one_value: { IsOneValue seen reads };

    // A value is read from one element.
    ghost is_element: { (value : Self) (bytes : List ℕ) → reads value bytes → IsAnElement bytes };

    /// Reads a value, and takes just the bytes that are read as it. After a refusal the deserializer answers
    /// `InvalidData` from then on.
    fn read_from<R: Source>(from: &mut Deserializer<R>) -> Result<Self, Asn1DerError>
        ensures { MatchResult result
            (λ value. TookBy reads value from.old from.new)
            (λ fault. Refused (IsReadBy reads) from.old from.new fault) };
}

impl<T: Deserialize + Drop> FromDer for T {
    ghost use Rattle.asn1_der.specs.Tree.{Writes};
    ghost use Rattle.asn1_der.specs.Seen.{Alike};
    ghost use Rattle.asn1_der.proofs.Spelling.{one_spelling_as};
    ghost use Rattle.asn1_codec.specs.Named.{element_of};

    ghost reads = { λ value bytes. Writes T.tree value bytes };

    ghost seen = { T.seen };

    ghost one_value = { λ v w a b x y first second e.
        let same = one_spelling_as (Alike T.seen) T.tree T.injective v w a b x y first second e
        in (same.0, same.1) };

    ghost is_element = { λ value bytes read. element_of (T.tree value) bytes read.0 read.1 };

    fn read_from<R: Source>(from: &mut Deserializer<R>) -> Result<Self, Asn1DerError> {
        T::deserialize(from)
    }
}

/// A reader of DER from any source, up to a limit.
///
/// The limit is the end of the content that is being read: there is no stack of open elements.
#[derive(Drop)]
pub struct Deserializer<R: Source> {
    alloc: Global,
    reader: PeekableReader<R>,
    limit: usize,
    failed: bool,
}

impl<R: Source> Model for Deserializer<R> {
    ghost use Rattle.std.specs.Prelude.{◌≡◌, ◌<◌, ◌^◌, false};
    ghost use Rattle.asn1_codec.specs.Reading.{Reading};
    ghost use Rattle.byte_streams.specs.Peeking.{left_of, failed_of, looked_of, kind_of, names_of};

    ghost Value = { Reading };

    ghost view = { λ d. record {
      left = left_of R.left d.reader;
      looked = looked_of d.reader;
      limit = d.limit;
      failed = d.failed;
      faults = failed_of R.failed d.reader;
      kind = kind_of R.last_fault d.reader;
      through = names_of R.through d.reader;
    } };

    // An octet is looked at below the limit alone.
    ghost invariant = { λ d. (d.limit < 2 ^ 64) × (d.limit ≡ 0 → looked_of d.reader ≡ false) };
}

impl<'a> Deserializer<&'a [u8]> {
    ghost use Rattle.asn1_codec.specs.Reading.{whole_input};

    /// A deserializer of the values in `input`, one after another.
    pub fn new_from_bytes(alloc: Global, input: &'a [u8]) -> Self
        ensures { result ≡ whole_input input.now }
    {
        Deserializer {
            alloc,
            limit: input.len(),
            reader: PeekableReader::new(input),
            failed: false,
        }
    }
}

impl<R: Source> Deserializer<R> {
    ghost use Rattle.asn1_codec.specs.Reading.{Reading, Took, TookNone, TookValue, IsSpelling, TookFields, AreFields, Refused, IsOctet, IsCount, HasOctets, IsFront, IsElement, IsLength, IsList, Tells, within, stopped};

    /// A deserializer of the values that `reader` gives, which takes at most `limit` bytes.
    pub fn new_from_reader(alloc: Global, reader: R, limit: usize) -> Self
        ensures { result ≡ record {
          left = R.left reader;
          looked = false;
          limit = limit;
          failed = false;
          faults = R.failed reader;
          kind = R.last_fault reader;
          through = R.through reader;
        } }
    {
        Deserializer {
            alloc,
            reader: PeekableReader::new(reader),
            limit,
            failed: false,
        }
    }

    /// The reader. An octet that was looked at is lost; behind a value that was read there is none.
    pub fn into_reader(self) -> R
        ensures left { self.looked ≡ false → R.left result ≡ self.left }
        ensures failed { R.failed result ≡ self.faults }
        ensures kind { R.last_fault result ≡ self.kind }
        ensures same { R.through result ≡ self.through }
    {
        let Deserializer { reader, .. } = self;
        reader.into_inner()
    }

    /// Refuses for `fault`, and gives it back: from now on each call answers `InvalidData`.
    ///
    /// A type's `deserialize` calls it where what was taken breaks a rule of the type's own.
    pub fn refuse(&mut self, fault: Asn1DerError) -> Asn1DerError
        ensures after { self.new ≡ stopped self.old }
        ensures fault { result ≡ fault }
    {
        self.failed = true;
        fault
    }

    /// Answers `InvalidData` after a refusal.
    pub(crate) fn ready(&self) -> Result<(), Asn1DerError>
        ensures { MatchResult result
            (λ _. self.now.failed ≡ false)
            (λ fault. (fault ≡ Asn1DerError.InvalidData) × (self.now.failed ≡ true)) }
    {
        if self.failed {
            Err(Asn1DerError::InvalidData)
        } else {
            Ok(())
        }
    }

    /// Takes one octet.
    pub(crate) fn take_octet(&mut self) -> Result<u8, Asn1DerError>
        ensures { MatchResult result
            (λ octet. Took (octet ∷ []) self.old self.new)
            (λ fault. Refused IsOctet self.old self.new fault) }
    {
        self.ready()?;
        if self.limit == 0 {
            return Err(self.refuse(Asn1DerError::TruncatedData));
        }
        match self.reader.take_one() {
            Ok(Some(octet)) => {
                self.limit -= 1;
                Ok(octet)
            }
            Ok(None) => Err(self.refuse(Asn1DerError::TruncatedData)),
            Err(kind) => Err(self.refuse(Asn1DerError::Other(kind))),
        }
    }

    /// Looks at the next octet, of which there is one.
    pub(crate) fn peek(&mut self) -> Result<u8, Asn1DerError>
        requires { 1 ≤ self.old.limit }
        ensures { MatchResult result
            (λ octet. TookNone self.old self.new × ((bytes : List ℕ) (first : ℕ)
            → self.old.left ≡ Some (first ∷ bytes) → first ≡ octet))
            (λ fault. Refused HasOctets self.old self.new fault) }
    {
        self.ready()?;
        match self.reader.peek_one() {
            Ok(Some(octet)) => Ok(octet),
            Ok(None) => Err(self.refuse(Asn1DerError::TruncatedData)),
            Err(kind) => Err(self.refuse(Asn1DerError::Other(kind))),
        }
    }

    /// Takes `count` octets. It stays out of line, since most contents are short.
    #[inline(never)]
    fn take_octets(&mut self, count: usize) -> Result<Vec<u8>, Asn1DerError>
        requires room { count ≤ self.old.limit }
        requires unlooked { self.old.looked ≡ false }
        ensures { MatchResult result
            (λ octets. Took octets.items self.old self.new × (length octets.items ≡ count))
            (λ fault. Refused (IsCount count) self.old self.new fault) }
    {
        self.ready()?;
        let mut octets = match vec![in self.alloc; 0u8; count] {
            Ok(octets) => octets,
            Err(_) => return Err(self.refuse(Asn1DerError::Memory)),
        };
        self.fill(&mut octets)?;
        Ok(octets)
    }

    /// Takes as many octets as `octets` has room for.
    fn fill(&mut self, octets: &mut [u8]) -> Result<(), Asn1DerError>
        requires room { length octets.old ≤ self.old.limit }
        requires unlooked { self.old.looked ≡ false }
        ensures { MatchResult result
            (λ _. Took octets.new self.old self.new)
            (λ fault. Refused (IsCount (length octets.old)) self.old self.new fault) }
    {
        self.ready()?;
        match self.reader.read_unlooked(octets) {
            Ok(count) => {
                if count < octets.len() {
                    return Err(self.refuse(Asn1DerError::TruncatedData));
                }
                self.limit -= count;
                Ok(())
            }
            Err(kind) => Err(self.refuse(Asn1DerError::Other(kind))),
        }
    }

    /// Takes length octets, and returns the length. Only a length below the limit is accepted.
    fn take_length(&mut self) -> Result<usize, Asn1DerError>
        ensures { MatchResult result
            (λ count. Took (length_octets count) self.old self.new)
            (λ fault. Refused (IsLength self.old.limit) self.old self.new fault) }
    {
        let first = self.take_octet()?;
        if first < 128 {
            return Ok(first as usize);
        }
        self.take_long_length(first)
    }

    /// Takes the length octets after the first, and returns the length. Only a length of at most the limit is accepted.
    ///
    /// It stays out of line, since most lengths are one octet.
    #[inline(never)]
    fn take_long_length(&mut self, first: u8) -> Result<usize, Asn1DerError>
        requires sound { self.old.failed ≡ false }
        requires unlooked { self.old.looked ≡ false }
        ensures { MatchResult result
            (λ count. TookTail first count self.old self.new)
            (λ fault. Refused (IsLengthTail (1 + self.old.limit) first) self.old self.new fault) }
    {
        let room = self.limit;
        let Some(more) = following(first) else {
            return Err(self.refuse(Asn1DerError::InvalidData));
        };
        if room < more {
            return Err(self.refuse(Asn1DerError::TruncatedData));
        }
        let mut octets = [first; 9];
        self.fill(&mut octets[1..1 + more])?;
        match length_of(&octets[..1 + more]) {
            Some(count) => Ok(count),
            None => Err(self.refuse(Asn1DerError::InvalidData)),
        }
    }

    /// Takes the identifier octet `tag` and length octets, and gives the length, which lies within the limit.
    #[inline(always)]
    pub(crate) fn open(&mut self, tag: u8) -> Result<usize, Asn1DerError>
        ensures { MatchResult result
            (λ count. Took (tag ∷ length_octets count) self.old self.new × (count ≤ self.new.limit))
            (λ fault. Refused (IsElement tag) self.old self.new fault) }
    {
        let first = self.take_octet()?;
        if first != tag {
            return Err(self.refuse(Asn1DerError::InvalidData));
        }
        let count = self.take_length()?;
        if self.limit < count {
            return Err(self.refuse(Asn1DerError::TruncatedData));
        }
        Ok(count)
    }

    /// Lowers the limit to `count`, and gives what lies behind.
    pub(crate) fn enter(&mut self, count: usize) -> usize
        requires room { count ≤ self.old.limit }
        requires unlooked { self.old.looked ≡ false }
        ensures inside { self.new ≡ within count self.old }
        ensures outside { result + count ≡ self.old.limit }
    {
        let outside = self.limit - count;
        self.limit = count;
        outside
    }

    /// Raises the limit to `outside`, from which `enter` lowered it, unless a call was refused.
    ///
    /// What was read is handed on as it stands then, be it a value or a fault: each way on copies a big one.
    pub(crate) fn leave(&mut self, outside: usize)
        requires { self.old.failed ≡ false → self.old.looked ≡ false }
        ensures sound { self.old.failed ≡ false → self.new ≡ within outside self.old }
        ensures refused { self.old.failed ≡ true → self.new ≡ self.old }
    {
        if !self.failed {
            self.limit = outside;
        }
    }

    /// Takes an element with the identifier octet `tag`, and gives its content (X.690, section 8.1).
    pub fn content(&mut self, tag: u8) -> Result<Vec<u8>, Asn1DerError>
        ensures { MatchResult result
            (λ content. Took (element tag content.items) self.old self.new)
            (λ fault. Refused (IsElement tag) self.old self.new fault) }
    {
        let count = self.open(tag)?;
        let content = self.take_octets(count)?;
        Ok(content)
    }

    /// Takes an element with the identifier octet `tag`, and gives its content, which takes no memory where it is
    /// short (X.690, section 8.1).
    #[inline(always)]
    pub fn short_content(&mut self, tag: u8) -> Result<Content, Asn1DerError>
        ensures { MatchResult result
            (λ content. Took (element tag content) self.old self.new)
            (λ fault. Refused (IsElement tag) self.old self.new fault) }
    {
        let count = self.open(tag)?;
        if count > MOST_IN_PLACE {
            let content = self.take_octets(count)?;
            return Ok(Content::from(content));
        }
        let mut octets = [0u8; MOST_IN_PLACE];
        self.fill(&mut octets[..count])?;
        Ok(Content::in_place(octets, count))
    }

    /// Takes a constructed element with the identifier octet `tag`, whose content is these fields.
    pub fn list<F: Fields>(&mut self, tag: u8) -> Result<F, Asn1DerError>
        requires { IsTrue F.sound }
        ensures { MatchResult result
            (λ fields. AreWhole (F.trees fields) × Took (element tag (ders (F.trees fields))) self.old self.new)
            (λ fault. Refused (IsList tag F.trees) self.old self.new fault) }
    {
        let count = self.open(tag)?;
        let outside = self.enter(count);
        let fields = F::read(self);
        self.leave(outside);
        fields
    }

    /// Takes a value under the further identifier octet `tag`.
    pub fn wrapped<T: Deserialize + Drop>(&mut self, tag: u8) -> Result<T, Asn1DerError>
        ensures { MatchResult result
            (λ value. TookValue (λ v. wrapped tag (T.tree v)) value self.old self.new)
            (λ fault. Refused (IsSpelling (λ v. wrapped tag (T.tree v))) self.old self.new fault) }
    {
        let count = self.open(tag)?;
        let rest = self.enter(count);
        let value = T::deserialize(self);
        if value.is_err() {
            return value;
        }
        self.finish()?;
        self.leave(rest);
        value
    }

    /// Takes a value under the further identifier octet `tag`, where it follows the octet `lead`: in a BIT STRING the octet 0
    /// (X.690, section 8.6.2).
    pub fn wrapped_behind<T: Deserialize + Drop>(
        &mut self,
        tag: u8,
        lead: u8,
    ) -> Result<T, Asn1DerError>
        ensures { MatchResult result
            (λ value. TookValue (λ v. behind lead (wrapped tag (T.tree v))) value self.old self.new)
            (λ fault. Refused (IsSpelling (λ v. behind lead (wrapped tag (T.tree v)))) self.old self.new fault) }
    {
        let count = self.open(tag)?;
        let rest = self.enter(count);
        let value = self.last_behind(lead);
        if value.is_err() {
            return value;
        }
        self.leave(rest);
        value
    }

    /// Takes the octet `lead` and a value after it, which are all that is left up to the limit.
    fn last_behind<T: Deserialize + Drop>(&mut self, lead: u8) -> Result<T, Asn1DerError>
        ensures { MatchResult result
            (λ value. TookFields (λ v. bare lead (more (T.tree v) none)) value self.old self.new)
            (λ fault. Refused (AreFields (λ v. bare lead (more (T.tree v) none)) self.old.limit) self.old self.new fault) }
    {
        let first = self.take_octet()?;
        if first != lead {
            return Err(self.refuse(Asn1DerError::InvalidData));
        }
        let fields: Row1<T> = Fields::read(self)?;
        let (value, ()) = fields;
        Ok(value)
    }

    /// Whether bytes are left up to the limit.
    pub(crate) fn remains(&self) -> bool
        ensures some { IsTrue result ↔ (1 ≤ self.now.limit) }
        ensures none { result ≡ false → self.now.looked ≡ false }
    {
        self.limit > 0
    }

    /// What memory is taken from.
    pub fn allocator(&self) -> Global {
        self.alloc
    }

    /// Whether the next octet begins a value of `T`: not at the limit. The octet stays unread.
    pub fn starts<T: Deserialize>(&mut self) -> Result<bool, Asn1DerError>
        ensures { MatchResult result
            (λ answer. TookNone self.old self.new × Tells T.firsts answer self.old)
            (λ fault. Refused (IsFront self.old.limit) self.old self.new fault) }
    {
        self.ready()?;
        if self.limit == 0 {
            return Ok(false);
        }
        let first = self.peek()?;
        Ok(T::may_start(first))
    }

    /// Refuses where bytes are left up to the limit.
    pub fn finish(&mut self) -> Result<(), Asn1DerError>
        ensures { MatchResult result
            (λ _. (self.new ≡ self.old) × (self.old.failed ≡ false) × (self.old.limit ≡ 0) × (self.old.looked ≡ false))
            (λ fault. Refused (λ bytes. (bytes ≡ []) × (length bytes ≡ self.old.limit)) self.old self.new fault) }
    {
        self.ready()?;
        if self.limit != 0 {
            return Err(self.refuse(Asn1DerError::InvalidData));
        }
        Ok(())
    }
}

impl<R: Source> Deserializer<R> {
    ghost use Rattle.std.specs.Prelude.{ℕ, List, ◌∷◌, Some, MatchResult};
    ghost use Rattle.asn1_codec.specs.Reading.{Reading, TookNone, Refused, HasOctets};

    /// Looks at the next octet, which is left below the limit.
    ///
    /// A type that is read by its next octet calls it first.
    pub fn peek_in_limit(&mut self) -> Result<u8, Asn1DerError>
        ensures { MatchResult result
            (λ octet. TookNone self.old self.new × ((bytes : List ℕ) (first : ℕ)
            → self.old.left ≡ Some (first ∷ bytes) → first ≡ octet))
            (λ fault. Refused HasOctets self.old self.new fault) }
    {
        self.ready()?;
        if !self.remains() {
            return Err(self.refuse(Asn1DerError::TruncatedData));
        }
        let octet = self.peek()?;
        Ok(octet)
    }
}

/// Reads the value whose spelling begins `input`. Bytes after it stay unread. No fault is a device's.
///
/// `TruncatedData` is the fault exactly where the input ends inside an element. After another fault nothing that follows the input makes it
/// one that begins with a value, unless memory ran out.
pub fn from_bytes<T: FromDer>(alloc: Global, input: &[u8]) -> Result<T, Asn1DerError>
    ensures value { ReadsFront T.seen T.reads input.now result }
    ensures own { IfErr result IsOwn }
    ensures end { IfErr result (TellsEnd T.reads input.now) }
{
    match first_value(alloc, input) {
        Ok(value) => Ok(value),
        Err(fault) => Err(named(fault, input)),
    }
}

/// Reads the value whose spelling is all of `input`. No fault is a device's.
///
/// `TruncatedData` is the fault exactly where the input ends inside an element. After another fault nothing that follows the input makes it
/// a value, unless memory ran out.
pub fn from_exact_bytes<T: FromDer>(alloc: Global, input: &[u8]) -> Result<T, Asn1DerError>
    ensures value { ReadsWhole T.seen T.reads input.now result }
    ensures own { IfErr result IsOwn }
    ensures end { IfErr result (TellsWholeEnd T.reads input.now) }
{
    match whole_value(alloc, input) {
        Ok(value) => Ok(value),
        Err(fault) => Err(named(fault, input)),
    }
}

// The value whose spelling begins `input`.
fn first_value<T: FromDer>(alloc: Global, input: &[u8]) -> Result<T, Asn1DerError>
    ensures value { ReadsFront T.seen T.reads input.now result }
    ensures own { IfErr result IsOwn }
{
    let mut from = Deserializer::new_from_bytes(alloc, input);
    let answer = T::read_from(&mut from);
    // The proof looks into the reader here: bytes in memory count no failure, so none is answered.
    let _ = &from.reader;
    answer
}

// The value whose spelling is all of `input`.
fn whole_value<T: FromDer>(alloc: Global, input: &[u8]) -> Result<T, Asn1DerError>
    ensures value { ReadsWhole T.seen T.reads input.now result }
    ensures own { IfErr result IsOwn }
{
    let mut from = Deserializer::new_from_bytes(alloc, input);
    let answer = read_last(&mut from);
    // The proof looks into the reader here: bytes in memory count no failure, so none is answered.
    let _ = &from.reader;
    answer
}

/// Reads the value whose spelling comes next from `reader`, of at most 10,240 bytes, and takes just these. See
/// [`from_reader_with_max_len`] for its faults.
pub fn from_reader<T: FromDer, R: Source>(alloc: Global, reader: &mut R) -> Result<T, Asn1DerError>
    ensures value { IfOk result (TakesNext T.reads MOST_BYTES (R.left reader.old) (R.left reader.new)) }
    ensures fault { IfErr result (MissesNext T.reads MOST_BYTES (R.left reader.old)) }
    ensures count { R.failed reader.new ≡ result_faults result (R.failed reader.old) }
    ensures kind { IfErr result (λ fault. TellsKind fault (R.last_fault reader.new)) }
    ensures same { R.through reader.new ≡ R.through reader.old }
    ensures end { IfErr result (TellsNext T.reads MOST_BYTES (R.left reader.old)) }
{
    from_reader_with_max_len(alloc, reader, MOST_BYTES)
}

/// Reads the value whose spelling comes next from `reader`, of at most `limit` bytes, and takes just these.
///
/// It takes one element into memory, and reads the value in it. `TruncatedData` is the fault only where what the reader has left, up to
/// the limit, ends inside an element. After another fault nothing that follows makes it begin with a value, unless memory ran out or
/// the reader failed.
pub fn from_reader_with_max_len<T: FromDer, R: Source>(
    alloc: Global,
    reader: &mut R,
    limit: usize,
) -> Result<T, Asn1DerError>
    ensures value { IfOk result (TakesNext T.reads limit (R.left reader.old) (R.left reader.new)) }
    ensures fault { IfErr result (MissesNext T.reads limit (R.left reader.old)) }
    ensures count { R.failed reader.new ≡ result_faults result (R.failed reader.old) }
    ensures kind { IfErr result (λ fault. TellsKind fault (R.last_fault reader.new)) }
    ensures same { R.through reader.new ≡ R.through reader.old }
    ensures end { IfErr result (TellsNext T.reads limit (R.left reader.old)) }
{
    let element = read_element(alloc, reader, limit)?;
    from_exact_bytes(alloc, element.as_slice())
}

/// Reads a value, behind which nothing is left up to the limit.
fn read_last<T: FromDer, R: Source>(from: &mut Deserializer<R>) -> Result<T, Asn1DerError>
    ensures { MatchResult result
        (λ value. TookBy T.reads value from.old from.new × (from.new.limit ≡ 0))
        (λ fault. Refused (IsLastBy T.reads from.old.limit) from.old from.new fault) }
{
    let value = T::read_from(from);
    if value.is_err() {
        return value;
    }
    from.finish()?;
    value
}
