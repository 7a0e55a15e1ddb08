//! The n-fold (RFC 3961, section 5.1) of five bytes, as a usage's constant has, to the 16 bytes of a block. All copies are
//! added at once, each as one number of 40 bits.

ghost use Rattle.std.specs.Prelude.{◌≡◌, ℕ, ◌+◌, ◌-◌, ◌*◌, ◌/◌, ◌%◌, ◌^◌, ◌<◌, length};
ghost use Rattle.encryption_profiles.specs.NFold.{n_fold_of, number_at, residue};

/// The count of copies of 40 bits in the least common multiple of 40 and 128.
const COPIES: usize = 16;

const TWO_TO_13: u64 = 1 << 13;

const TWO_TO_27: u64 = 1 << 27;

const TWO_TO_40: u128 = 1 << 40;

const TWO_TO_88: u128 = 1 << 88;

/// The n-fold of five bytes to 128 bits. The numbers of 128 bits that `n_fold` adds are the digits of the number that all
/// copies make, so that their ones' complement sum is this number's residue.
pub fn five_fold(constant: &[u8]) -> [u8; 16]
    requires { length constant.now ≡ 5 }
    ensures folded { result ≡ n_fold_of constant.now 128 }
    ensures sized { length result ≡ 16 }
{
    let mut copy = first_copy(constant);
    let mut sum = 0u128;
    for _ in 0..COPIES {
        sum = appended(sum, copy);
        copy = next_copy(copy);
    }
    sum.to_be_bytes()
}

// The five bytes as a number.
fn first_copy(constant: &[u8]) -> u64
    requires { length constant.now ≡ 5 }
    ensures { result ≡ number_at constant.now 0 40 }
{
    let front = u32::from_be_bytes([constant[0], constant[1], constant[2], constant[3]]);
    u64::from(front) * 256 + u64::from(constant[4])
}

// The copy rotated right by 13 bits.
fn next_copy(copy: u64) -> u64
    requires { copy < 2 ^ 40 }
    ensures { result ≡ copy % 2 ^ 13 * 2 ^ 27 + copy / 2 ^ 13 }
{
    copy % TWO_TO_13 * TWO_TO_27 + copy / TWO_TO_13
}

// The residue of a number that 40 bits follow: times 2 to the 40 turns the sum, and a carry comes in at the lowest bit.
fn appended(sum: u128, copy: u64) -> u128
    requires { copy < 2 ^ 40 }
    ensures { (t : ℕ) → sum ≡ residue (2 ^ 128 - 1) t
        → result ≡ residue (2 ^ 128 - 1) (t * 2 ^ 40 + copy) }
{
    let turned = sum % TWO_TO_88 * TWO_TO_40 + sum / TWO_TO_88;
    let (low, over) = turned.overflowing_add(u128::from(copy));
    low + over as u128
}
