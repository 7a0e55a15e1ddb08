//! Whole numbers as text.
ghost use Rattle.std.specs.Prelude.{◌≡◌, ◌<◌, true};
ghost use Rattle.std.specs.Fmt.{digit_glyph};

use crate::integer::IntegerAsn1;
use std::{fmt, str};

/// Displays the number in decimal where 64 bits hold it with its sign. Else it displays `0x` and the two's complement in hexadecimal
/// digits.
impl fmt::Display for IntegerAsn1 {
    ghost use Rattle.std.specs.Prelude.{Some};
    ghost use Rattle.picky_asn1.specs.IntegerText.{integer_text};

    ghost output = { λ z. Some (integer_text z) };

    fn fmt<W: fmt::Write>(&self, f: &mut fmt::Formatter<W>) -> fmt::Result {
        let Some(number) = self.to_i64() else {
            let digits = Hexadecimal(self.as_signed_bytes_be());
            return write!(f, "0x{digits}");
        };
        write!(f, "{number}")
    }
}

// Octets, each as two hexadecimal digits.
#[derive(Clone, Copy)]
struct Hexadecimal<'a>(&'a [u8]);

impl<'a> fmt::Display for Hexadecimal<'a> {
    ghost use Rattle.std.specs.Prelude.{Some};
    ghost use Rattle.std.specs.List.{flat_map};
    ghost use Rattle.picky_asn1.specs.IntegerText.{hexadecimal};

    ghost output = { λ octets. Some (flat_map hexadecimal octets.0.now) };

    fn fmt<W: fmt::Write>(&self, f: &mut fmt::Formatter<W>) -> fmt::Result {
        for octet in self.0 {
            let digits = TwoDigits(*octet);
            write!(f, "{digits}")?;
        }
        Ok(())
    }
}

// An octet as two hexadecimal digits.
#[derive(Clone, Copy)]
struct TwoDigits(u8);

impl fmt::Display for TwoDigits {
    ghost use Rattle.std.specs.Prelude.{Some};
    ghost use Rattle.picky_asn1.specs.IntegerText.{hexadecimal};

    ghost output = { λ octet. Some (hexadecimal octet.0) };

    fn fmt<W: fmt::Write>(&self, f: &mut fmt::Formatter<W>) -> fmt::Result {
        let digits = [digit_of(self.0 / 16), digit_of(self.0 % 16)];
        f.write_str(str::from_utf8(&digits).unwrap())
    }
}

// The hexadecimal digit of a number below 16.
fn digit_of(number: u8) -> u8
    requires { number < 16 }
    ensures value { result ≡ digit_glyph true number }
    ensures ascii { result < 128 }
{
    if number < 10 {
        b'0' + number
    } else {
        b'A' + (number - 10)
    }
}
