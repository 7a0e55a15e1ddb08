//! Uses of keys as text.
ghost use Rattle.std.specs.Prelude.{◌≡◌, true, [], ◌++◌, MatchOption};
ghost use Rattle.std.specs.List.{flat_map};
ghost use Rattle.x509_certificates.specs.UseNames.{further_use, use_name, uses_among};

use crate::key_usage::KeyUsage;
use std::fmt;

// The numbers of the uses.
const USES: [usize; 9] = [0, 1, 2, 3, 4, 5, 6, 7, 8];

/// The names of the uses as RFC 5280 has them, as `digitalSignature, keyEncipherment`.
impl fmt::Display for KeyUsage {
    ghost use Rattle.std.specs.Prelude.{Some};
    ghost use Rattle.x509_certificates.specs.UseNames.{uses_text};

    ghost output = { λ usage. Some (uses_text usage.0) };

    fn fmt<W: fmt::Write>(&self, f: &mut fmt::Formatter<W>) -> fmt::Result {
        let uses = UsesAmong {
            usage: self,
            numbers: &USES,
        };
        write!(f, "{uses}")
    }
}

// The uses with these numbers that the usage has.
#[derive(Clone, Copy)]
struct UsesAmong<'a> {
    usage: &'a KeyUsage,
    numbers: &'a [usize],
}

impl<'a> fmt::Display for UsesAmong<'a> {
    ghost use Rattle.std.specs.Prelude.{Some};
    ghost use Rattle.x509_certificates.specs.UseNames.{uses_among};

    ghost output = { λ uses. Some (uses_among uses.usage.now.0 uses.numbers.now) };

    fn fmt<W: fmt::Write>(&self, f: &mut fmt::Formatter<W>) -> fmt::Result {
        let Some(leading) = leading_of(self.usage, self.numbers) else {
            return Ok(());
        };
        let name = use_name(leading.first);
        let further = FurtherUses {
            usage: self.usage,
            numbers: leading.further,
        };
        write!(f, "{name}{further}")
    }
}

// The first use that there is, and the numbers behind it.
#[derive(Clone, Copy)]
struct Leading<'a> {
    first: usize,
    further: &'a [usize],
}

fn leading_of<'a>(usage: &KeyUsage, numbers: &'a [usize]) -> Option<Leading<'a>>
    ensures { MatchOption result
        (uses_among usage.now.0 numbers.now ≡ [])
        (λ leading. uses_among usage.now.0 numbers.now ≡ use_name leading.first ++ flat_map (further_use usage.now.0) leading.further.now) }
{
    let mut rest = numbers;
    'numbers: while let [first, further @ ..] = rest {
        if usage.has_use(*first) {
            return Some(Leading {
                first: *first,
                further,
            });
        }
        rest = further;
    }
    None
}

// The uses behind the first.
#[derive(Clone, Copy)]
struct FurtherUses<'a> {
    usage: &'a KeyUsage,
    numbers: &'a [usize],
}

impl<'a> fmt::Display for FurtherUses<'a> {
    ghost use Rattle.std.specs.Prelude.{Some};
    ghost use Rattle.std.specs.List.{flat_map};
    ghost use Rattle.x509_certificates.specs.UseNames.{further_use};

    ghost output = { λ uses. Some (flat_map (further_use uses.usage.now.0) uses.numbers.now) };

    fn fmt<W: fmt::Write>(&self, f: &mut fmt::Formatter<W>) -> fmt::Result {
        for number in self.numbers {
            if self.usage.has_use(*number) {
                let name = use_name(*number);
                write!(f, ", {name}")?;
            }
        }
        Ok(())
    }
}

// The name of the use with this number.
fn use_name(number: usize) -> &'static str
    ensures { result.now ≡ use_name number }
{
    match number {
        0 => "digitalSignature",
        1 => "nonRepudiation",
        2 => "keyEncipherment",
        3 => "dataEncipherment",
        4 => "keyAgreement",
        5 => "keyCertSign",
        6 => "cRLSign",
        7 => "encipherOnly",
        _ => "decipherOnly",
    }
}
