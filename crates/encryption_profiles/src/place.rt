//! The bytes of the copies that n-fold adds (RFC 3961, section 5.1), one after the other.

ghost use Rattle.std.specs.Prelude.{◌<◌};

/// A byte of the copies.
#[derive(Clone, Copy)]
pub struct Place {
    /// The count of a copy's bytes.
    pub len: usize,
    /// The byte's place in its copy.
    pub index: usize,
    /// The byte of the input in which its bits begin.
    pub byte: usize,
    /// The bit of that byte with which they begin, counted from the highest.
    pub bit: u32,
    ghost index_in: { index < len },
    ghost byte_in: { byte < len },
    ghost bit_in: { bit < 8 },
}

impl Place {
    ghost use Rattle.std.specs.Prelude.{◌≡◌, ℕ, ◌+◌, ◌-◌, ◌*◌, ◌%◌, length};
    ghost use Rattle.encryption_profiles.specs.NFold.{number_at};
    ghost use Rattle.encryption_profiles.specs.NFoldSteps.{IsPlace};

    /// The first byte of the first copy, of `len` bytes.
    pub fn first(len: usize) -> Place
        requires { 0 < len }
        ensures len { result.len ≡ len }
        ensures at { IsPlace 0 result }
    {
        Place {
            len,
            index: 0,
            byte: 0,
            bit: 0,
        }
    }

    /// The next place: in the same copy, or in the next one, which is rotated by 13 bits more.
    pub fn next(self) -> Place
        ensures len { result.len ≡ self.len }
        ensures at { (p : ℕ) → IsPlace p self → IsPlace (p + 1) result }
    {
        let len = self.len;
        if self.index + 1 < len {
            return Place {
                len,
                index: self.index + 1,
                byte: self.byte_after(),
                bit: self.bit,
            };
        }
        // 13 bits before the end of this copy's data, which is a byte after this place.
        if self.bit < 5 {
            return Place {
                len,
                index: 0,
                byte: self.byte_before(),
                bit: self.bit + 3,
            };
        }
        Place {
            len,
            index: 0,
            byte: self.byte,
            bit: self.bit - 5,
        }
    }

    /// The copies' byte at this place.
    pub fn read(self, input: &[u8]) -> u8
        requires { self.len ≡ length input.now }
        ensures { (p : ℕ) → IsPlace p self → result ≡ number_at input.now (8 * p) 8 }
    {
        let pair = u16::from_be_bytes([input[self.byte], input[self.byte_after()]]);
        (pair >> (8 - self.bit) & 0xFF) as u8
    }

    fn byte_after(self) -> usize
        ensures { result ≡ (self.byte + 1) % self.len }
    {
        if self.byte + 1 < self.len {
            self.byte + 1
        } else {
            0
        }
    }

    fn byte_before(self) -> usize
        ensures { result ≡ (self.byte + (self.len - 1)) % self.len }
    {
        if self.byte > 0 {
            self.byte - 1
        } else {
            self.len - 1
        }
    }
}
