//! Writing values.
ghost use Rattle.std.specs.Prelude.{◌≡◌, ℕ, ◌+◌, ◌^◌, ◌≤◌, List, [], ◌∷◌, ◌++◌, length, take, MatchResult, IfOk, IfErr, IsOk, false, true, Option, None, Some, ◌⊎◌, ◌<◌};
ghost use Rattle.asn1_der.specs.Tree.{Tree, Trees, der, ders, IsWhole, AreWhole};
ghost use Rattle.asn1_der.specs.Length.{element, length_octets};
ghost use Rattle.asn1_der.specs.Firsts.{Firsts, BeginsAmong};
ghost use Rattle.asn1_der.specs.Refusals.{refusal_of, RefusedAs};
ghost use Rattle.asn1_codec.specs.Sinks.{sink_fault};
ghost use Rattle.asn1_codec.specs.Writing.{WroteValue, NotWroteValue, NotWroteTo, Measured, NotMeasured, at_sink};
ghost use Rattle.asn1_codec.specs.Sinks.{as_full};

use crate::fields::WriteFields;
use crate::measure::{Measure, encoded_len, fields_len, len_of};
use asn1_der::{Asn1DerError, LengthOctets, Unsupported};
use byte_streams::{Sink, Space, WholeFault, write_whole};
use std::alloc::Global;
use std::marker::Model;

/// A value with a DER spelling.
///
/// `tree` is the value as a tree, and `firsts` the identifier octets that its values begin with. Whole values that differ in what
/// is `seen` of them have different spellings: of most types all is seen, of a text or a vector not its memory. A type that refuses
/// to write values says by `refusal` which and how; most refuse none. These are above the function, so that a type made of
/// others can name them.
pub trait Serialize {
    ghost use Rattle.asn1_der.specs.Seen.{Seen, as_is, Alike};
    ghost use Rattle.asn1_der.specs.declared.error.Unsupported.{Unsupported};
    ghost use Rattle.asn1_der.specs.Refusals.{refusal_of};
    ghost use Rattle.asn1_codec.specs.Writing.{Writing, WroteValue, NotWroteValue, Measured, NotMeasured};

    ghost tree: { Self → Tree };

    // What two values of one spelling have in common: all, where nothing else is said.
    ghost seen: { Seen Self } = { as_is };

    ghost refusal: { Option (Self → Option Unsupported) } = { None };

    ghost firsts: { Firsts };

    ghost begins: { (value : Self) → BeginsAmong firsts (tree value) };

    ghost injective: { (v w : Self) → IsWhole (tree v) → IsWhole (tree w) → der (tree v) ≡ der (tree w) → Alike seen v w };

    /// Writes the value's spelling, and gives how many bytes that took. A value that the type refuses leaves the
    /// sink as it was.
    fn serialize<W: Sink>(&self, to: &mut Serializer<W>) -> Result<usize, Asn1DerError>
        ensures { MatchResult result
            (WroteValue (refusal_of refusal self.now) (der (tree self.now)) to.old to.new)
            (NotWroteValue (refusal_of refusal self.now) (der (tree self.now)) to.old to.new) };

    /// The length of the value's spelling: 0 for what is written as nothing.
    final fn encoded_len(&self) -> Result<usize, Asn1DerError>
    where
        Self: Sized,
        ensures { MatchResult result
            (Measured (refusal_of refusal self.now) (der (tree self.now)))
            (NotMeasured Asn1DerError.UnsupportedValue (refusal_of refusal self.now) (der (tree self.now))) }
    {
        encoded_len(self)
    }
}

/// A writer of DER over any sink.
///
/// What stands inside a list or a tag is measured first and then written straight into the sink, so no memory is
/// taken. After a failed call each further one answers `InvalidSink`.
#[derive(Drop)]
pub struct Serializer<W: Sink> {
    writer: W,
    failed: bool,
    // Only lengths are computed, and nothing is written.
    measures: bool,
}

impl<W: Sink> Model for Serializer<W> {
    ghost use Rattle.std.specs.Prelude.{◌≡◌, true, None};
    ghost use Rattle.asn1_codec.specs.Writing.{Writing};

    ghost Value = { Writing };

    ghost view = { λ s. record {
      held = W.written s.writer;
      room = W.room s.writer;
      failed = s.failed;
      faults = W.failed s.writer;
      kind = W.last_fault s.writer;
      grows = W.grows;
      through = W.through s.writer;
    } };

    ghost invariant = { λ s. s.measures ≡ true → (W.written s.writer ≡ None) × (W.room s.writer ≡ None) };
}

impl<W: Sink> Serializer<W> {
    ghost use Rattle.asn1_der.specs.Tree.{wrapped, behind};
    ghost use Rattle.asn1_der.specs.declared.error.Unsupported.{Unsupported};
    ghost use Rattle.asn1_codec.specs.Writing.{Writing, Wrote, NotWrote, IsTooLong, halted, left_by};

    /// A serializer that writes to `writer`.
    pub fn new_to_writer(writer: W) -> Self
        ensures { result ≡ record {
          held = W.written writer;
          room = W.room writer;
          failed = false;
          faults = W.failed writer;
          kind = W.last_fault writer;
          grows = W.grows;
          through = W.through writer;
        } }
    {
        Serializer {
            writer,
            failed: false,
            measures: false,
        }
    }

    /// Refuses a value as its type says, and writes nothing.
    ///
    /// A type's `serialize` calls it for a value that it has no DER for.
    pub fn refuse(&mut self, why: Unsupported) -> Result<usize, Asn1DerError>
        ensures { MatchResult result
            (λ _. ⊥)
            (NotWroteValue (Some why) [] self.old self.new) }
    {
        self.ready()?;
        match why {
            Unsupported::OneValue => Err(Asn1DerError::UnsupportedValue),
            Unsupported::WholeType => Err(Asn1DerError::UnsupportedType),
        }
    }

    /// Answers `InvalidSink` after a failed call.
    pub(crate) fn ready(&self) -> Result<(), Asn1DerError>
        ensures { MatchResult result
            (λ _. self.now.failed ≡ false)
            (λ fault. (fault ≡ Asn1DerError.InvalidSink) × (self.now.failed ≡ true)) }
    {
        if self.failed {
            Err(Asn1DerError::InvalidSink)
        } else {
            Ok(())
        }
    }

    /// The sum of two lengths, where a number says it.
    pub(crate) fn sum(&mut self, first: usize, second: usize) -> Result<usize, Asn1DerError>
        ensures { MatchResult result
            (λ sum. (sum ≡ first + second) × (self.new ≡ self.old))
            (λ fault. (fault ≡ Asn1DerError.Memory) × (2 ^ 64 ≤ first + second) × (self.new ≡ halted self.old)) }
    {
        match first.checked_add(second) {
            Some(sum) => Ok(sum),
            None => {
                self.failed = true;
                Err(Asn1DerError::Memory)
            }
        }
    }

    /// The fault of a measurement, after which nothing is written.
    pub(crate) fn unmeasured(&mut self, fault: Asn1DerError) -> Asn1DerError
        ensures fault { result ≡ fault }
        ensures after { self.new ≡ left_by fault self.old }
    {
        if matches!(fault, Asn1DerError::Memory) {
            self.failed = true;
        }
        fault
    }

    /// Writes `bytes` as they stand.
    fn put(&mut self, bytes: &[u8]) -> Result<(), Asn1DerError>
        ensures { MatchResult result
            (λ _. Wrote bytes.now self.old self.new)
            (NotWrote None bytes.now self.old self.new) }
    {
        self.ready()?;
        if self.measures {
            return Ok(());
        }
        match write_whole(&mut self.writer, bytes) {
            Ok(()) => Ok(()),
            Err(fault) => {
                self.failed = true;
                Err(fault_of(fault))
            }
        }
    }

    /// Writes `bytes` as they stand, and gives how many they are.
    pub(crate) fn octets(&mut self, bytes: &[u8]) -> Result<usize, Asn1DerError>
        ensures { MatchResult result
            (WroteValue None bytes.now self.old self.new)
            (NotWroteValue None bytes.now self.old self.new) }
    {
        self.put(bytes)?;
        Ok(bytes.len())
    }

    /// Writes the octets before a content of this length, and gives the length of the whole element.
    pub(crate) fn header(&mut self, tag: u8, count: usize) -> Result<usize, Asn1DerError>
        ensures { MatchResult result
            (λ whole. Wrote (tag ∷ length_octets count) self.old self.new × (whole ≡ 1 + length (length_octets count) + count))
            (λ fault. (content : List ℕ) → length content ≡ count → NotWrote None (element tag content) self.old self.new fault) }
    {
        self.ready()?;
        if count < 128 {
            self.put(&[tag, count as u8])?;
            return Ok(2 + count);
        }
        self.long_header(tag, count)
    }

    /// Writes the octets before a content of this length, as `header` does. It stays out of line, since most lengths are one
    /// octet.
    #[inline(never)]
    fn long_header(&mut self, tag: u8, count: usize) -> Result<usize, Asn1DerError>
        requires { self.old.failed ≡ false }
        ensures { MatchResult result
            (λ whole. Wrote (tag ∷ length_octets count) self.old self.new × (whole ≡ 1 + length (length_octets count) + count))
            (λ fault. (content : List ℕ) → length content ≡ count → NotWrote None (element tag content) self.old self.new fault) }
    {
        let octets = LengthOctets::of(count);
        let whole = self.sum(1 + octets.as_bytes().len(), count)?;
        self.put(&[tag])?;
        self.put(octets.as_bytes())?;
        Ok(whole)
    }

    /// Writes one element: its identifier octet `tag`, its length and `content` (X.690, section 8.1).
    pub fn element(&mut self, tag: u8, content: &[u8]) -> Result<usize, Asn1DerError>
        ensures { MatchResult result
            (WroteValue None (element tag content.now) self.old self.new)
            (NotWroteValue None (element tag content.now) self.old self.new) }
    {
        let whole = self.header(tag, content.len())?;
        self.put(content)?;
        Ok(whole)
    }

    /// Writes one element whose content is `lead` and then `content`, as a BIT STRING's is (X.690, section 8.6.2).
    pub fn element_behind(
        &mut self,
        tag: u8,
        lead: u8,
        content: &[u8],
    ) -> Result<usize, Asn1DerError>
        ensures { MatchResult result
            (WroteValue None (element tag (lead ∷ content.now)) self.old self.new)
            (NotWroteValue None (element tag (lead ∷ content.now)) self.old self.new) }
    {
        let whole = self.header(tag, 1 + content.len())?;
        self.put(&[lead])?;
        self.put(content)?;
        Ok(whole)
    }

    /// Writes a constructed element of `fields` under the identifier octet `tag`.
    pub fn list<F: WriteFields>(&mut self, tag: u8, fields: &F) -> Result<usize, Asn1DerError>
        ensures { MatchResult result
            (WroteValue (F.refusal fields.now) (element tag (ders (F.trees fields.now))) self.old self.new)
            (NotWroteValue (F.refusal fields.now) (element tag (ders (F.trees fields.now))) self.old self.new) }
    {
        self.ready()?;
        let count = match fields_len(fields) {
            Ok(count) => count,
            Err(fault) => return Err(self.unmeasured(fault)),
        };
        let whole = self.header(tag, count)?;
        if self.measures {
            return Ok(whole);
        }
        let _ = fields.write(self)?;
        Ok(whole)
    }

    /// Writes a value under the further identifier octet `tag`; what is written as nothing stays so.
    pub fn wrapped<T: Serialize>(&mut self, tag: u8, value: &T) -> Result<usize, Asn1DerError>
        ensures { MatchResult result
            (WroteValue (refusal_of T.refusal value.now) (der (wrapped tag (T.tree value.now))) self.old self.new)
            (NotWroteValue (refusal_of T.refusal value.now) (der (wrapped tag (T.tree value.now))) self.old self.new) }
    {
        self.ready()?;
        let count = match len_of(value) {
            Ok(count) => count,
            Err(fault) => return Err(self.unmeasured(fault)),
        };
        if count == 0 {
            return Ok(0);
        }
        let whole = self.header(tag, count)?;
        if self.measures {
            return Ok(whole);
        }
        let _ = value.serialize(self)?;
        Ok(whole)
    }

    /// Writes a value under the further identifier octet `tag`, behind the octet `lead` there: in a BIT STRING behind 0
    /// (X.690, section 8.6.2). What is written as nothing stays so.
    pub fn wrapped_behind<T: Serialize>(
        &mut self,
        tag: u8,
        lead: u8,
        value: &T,
    ) -> Result<usize, Asn1DerError>
        ensures { MatchResult result
            (WroteValue (refusal_of T.refusal value.now) (der (behind lead (wrapped tag (T.tree value.now)))) self.old self.new)
            (NotWroteValue (refusal_of T.refusal value.now) (der (behind lead (wrapped tag (T.tree value.now)))) self.old self.new) }
    {
        self.ready()?;
        let count = match len_of(value) {
            Ok(count) => count,
            Err(fault) => return Err(self.unmeasured(fault)),
        };
        if count == 0 {
            return Ok(count);
        }
        let inside = self.sum(1, count)?;
        let whole = self.header(tag, inside)?;
        self.put(&[lead])?;
        if self.measures {
            return Ok(whole);
        }
        let _ = value.serialize(self)?;
        Ok(whole)
    }

    /// The sink.
    pub fn into_writer(self) -> W
        ensures held { W.written result ≡ self.held }
        ensures room { W.room result ≡ self.room }
        ensures through { W.through result ≡ self.through }
        ensures faults { W.failed result ≡ self.faults }
        ensures kind { W.last_fault result ≡ self.kind }
    {
        let Serializer { writer, .. } = self;
        writer
    }
}

impl<'a> Serializer<Space<'a>> {
    ghost use Rattle.asn1_codec.specs.Writing.{Writing};

    /// A serializer that writes into the front of `out`, and answers `InvalidSink` for what doesn't fit.
    pub fn new_to_bytes(out: &'a mut [u8]) -> Self
        ensures { result ≡ record {
          held = Some [];
          room = Some (length out.entry.now);
          failed = false;
          faults = 0;
          kind = None;
          grows = false;
          through = out.entry.ghost_name ∷ [];
        } }
    {
        Serializer::new_to_writer(Space::new(out))
    }
}

impl<'a> Serializer<&'a mut Vec<u8>> {
    ghost use Rattle.asn1_codec.specs.Writing.{Writing};

    /// A serializer that writes behind what `buffer` holds.
    pub fn new_to_byte_buf(buffer: &'a mut Vec<u8>) -> Self
        ensures { result ≡ record {
          held = Some buffer.entry.now.items;
          room = None;
          failed = false;
          faults = 0;
          kind = None;
          grows = true;
          through = buffer.entry.ghost_name ∷ [];
        } }
    {
        Serializer::new_to_writer(buffer)
    }
}

impl Serializer<Measure> {
    ghost use Rattle.asn1_codec.specs.Writing.{Writing};

    /// A serializer that writes nothing, by which lengths are measured.
    pub(crate) fn new_to_measure() -> Self
        ensures { result ≡ record { held = None; room = None; failed = false; faults = 0; kind = None; grows = false; through = [] } }
    {
        Serializer {
            writer: Measure,
            failed: false,
            measures: true,
        }
    }

    /// No call of it failed.
    pub(crate) fn close(self)
        ensures { self.faults ≡ 0 }
    {
        let Serializer {
            writer: Measure,
            ..
        } = self;
    }
}

/// A sink's fault, as the serializer answers it.
fn fault_of(fault: WholeFault) -> Asn1DerError
    ensures { result ≡ sink_fault fault }
{
    match fault {
        WholeFault::Full => Asn1DerError::InvalidSink,
        WholeFault::Failed(kind) => Asn1DerError::Other(kind),
        WholeFault::Memory => Asn1DerError::Memory,
    }
}

/// The spelling of a value (X.690), in memory of its length. Running out of memory is the only fault beside the type's own
/// refusal.
pub fn to_vec<T: Serialize>(alloc: Global, value: &T) -> Result<Vec<u8>, Asn1DerError>
    ensures bytes { IfOk result (λ bytes. bytes.items ≡ der (T.tree value.now)) }
    ensures written { IsOk result → refusal_of T.refusal value.now ≡ None }
    ensures fault { IfErr result (λ fault. RefusedAs (refusal_of T.refusal value.now) fault ⊎ (fault ≡ Asn1DerError.Memory)) }
{
    let count = len_of(value)?;
    let Ok(bytes) = Vec::with_capacity(alloc, count) else {
        return Err(Asn1DerError::Memory);
    };
    let mut to = Serializer::new_to_writer(bytes);
    match value.serialize(&mut to) {
        Ok(_) => Ok(to.into_writer()),
        Err(_) => Err(Asn1DerError::Memory),
    }
}

/// Writes the spelling of a value (X.690) to `writer`, and gives how many bytes that took. A value that the type
/// refuses leaves the writer as it was.
pub fn to_writer<T: Serialize, W: Sink>(value: &T, writer: &mut W) -> Result<usize, Asn1DerError>
    ensures { let view = at_sink W.written W.room W.failed W.last_fault W.grows W.through in MatchResult result
        (WroteValue (refusal_of T.refusal value.now) (der (T.tree value.now)) (view false writer.old) (view false writer.new))
        (NotWroteTo (refusal_of T.refusal value.now) (der (T.tree value.now)) (view false writer.old) (view false writer.new)) }
{
    let mut to = Serializer::new_to_writer(writer);
    let count = value.serialize(&mut to);
    let back = to.into_writer();
    let _ = &*back;
    count
}

/// Writes `bytes` as they stand to `writer`, and gives how many they are.
///
/// What is written octet by octet, as the length of an element alone, calls it.
pub fn write_octets<W: Sink>(bytes: &[u8], writer: &mut W) -> Result<usize, Asn1DerError>
    ensures { let view = at_sink W.written W.room W.failed W.last_fault W.grows W.through in MatchResult result
        (WroteValue None bytes.now (view false writer.old) (view false writer.new))
        (NotWroteTo None bytes.now (view false writer.old) (view false writer.new)) }
{
    let mut to = Serializer::new_to_writer(writer);
    let count = to.octets(bytes);
    let back = to.into_writer();
    let _ = &*back;
    count
}

/// Writes the spelling of a value (X.690) into the front of `out`, and gives how many bytes that took: `InvalidSink`
/// where it doesn't fit. No memory is taken.
pub fn to_bytes<T: Serialize>(value: &T, out: &mut [u8]) -> Result<usize, Asn1DerError>
    ensures bytes { IfOk result (λ n. (n ≡ length (der (T.tree value.now))) × (take n out.new ≡ der (T.tree value.now))) }
    ensures written { IsOk result → refusal_of T.refusal value.now ≡ None }
    ensures fault { IfErr result (λ fault. RefusedAs (refusal_of T.refusal value.now) fault
        ⊎ ((fault ≡ Asn1DerError.InvalidSink) × (length out.old < length (der (T.tree value.now))))) }
{
    let mut sink = Space::new(out);
    let count = to_writer(value, &mut sink);
    let Space { space, .. } = sink;
    let _ = &*space;
    match count {
        Ok(count) => Ok(count),
        Err(fault) => Err(full(fault)),
    }
}

/// The fault of a write into a slice, which wants no memory: what no number says the length of doesn't fit.
fn full(fault: Asn1DerError) -> Asn1DerError
    ensures { result ≡ as_full fault }
{
    match fault {
        Asn1DerError::Memory => Asn1DerError::InvalidSink,
        other => other,
    }
}

/// Writes the spelling of a value (X.690) behind what `buffer` holds, and gives how many bytes that took.
pub fn to_byte_buf<T: Serialize>(value: &T, buffer: &mut Vec<u8>) -> Result<usize, Asn1DerError>
    ensures bytes { IfOk result (λ n. (n ≡ length (der (T.tree value.now))) × (buffer.new.items ≡ buffer.old.items ++ der (T.tree value.now))) }
    ensures written { IsOk result → refusal_of T.refusal value.now ≡ None }
    ensures fault { IfErr result (λ fault.
        (RefusedAs (refusal_of T.refusal value.now) fault × (buffer.new.items ≡ buffer.old.items))
        ⊎ ((fault ≡ Asn1DerError.Memory) × ((n : ℕ) × (buffer.new.items ≡ buffer.old.items ++ take n (der (T.tree value.now)))))) }
{
    to_writer(value, buffer)
}
