//! Permutations by tables of places (FIPS 46-3). A string of bits is a number, its last bit the lowest.

ghost use Rattle.std.specs.Prelude.{◌≡◌, ◌≤◌, ◌&&◌, IsTrue, length, nat_lt, nat_le};
ghost use Rattle.std.specs.List.{list_all};
ghost use Rattle.block_ciphers.specs.Bits.{low_bits, permuted};

/// IP, the initial permutation.
#[rattlefmt::skip]
pub(crate) const INITIAL_PERMUTATION: [u8; 64] = [
    58, 50, 42, 34, 26, 18, 10, 2,
    60, 52, 44, 36, 28, 20, 12, 4,
    62, 54, 46, 38, 30, 22, 14, 6,
    64, 56, 48, 40, 32, 24, 16, 8,
    57, 49, 41, 33, 25, 17, 9, 1,
    59, 51, 43, 35, 27, 19, 11, 3,
    61, 53, 45, 37, 29, 21, 13, 5,
    63, 55, 47, 39, 31, 23, 15, 7,
];

/// The permutation that undoes it.
#[rattlefmt::skip]
pub(crate) const FINAL_PERMUTATION: [u8; 64] = [
    40, 8, 48, 16, 56, 24, 64, 32,
    39, 7, 47, 15, 55, 23, 63, 31,
    38, 6, 46, 14, 54, 22, 62, 30,
    37, 5, 45, 13, 53, 21, 61, 29,
    36, 4, 44, 12, 52, 20, 60, 28,
    35, 3, 43, 11, 51, 19, 59, 27,
    34, 2, 42, 10, 50, 18, 58, 26,
    33, 1, 41, 9, 49, 17, 57, 25,
];

/// PC-1, permuted choice 1.
#[rattlefmt::skip]
pub(crate) const PERMUTED_CHOICE_1: [u8; 56] = [
    57, 49, 41, 33, 25, 17, 9, 1, 58, 50, 42, 34, 26, 18,
    10, 2, 59, 51, 43, 35, 27, 19, 11, 3, 60, 52, 44, 36,
    63, 55, 47, 39, 31, 23, 15, 7, 62, 54, 46, 38, 30, 22,
    14, 6, 61, 53, 45, 37, 29, 21, 13, 5, 28, 20, 12, 4,
];

/// PC-2, permuted choice 2.
#[rattlefmt::skip]
pub(crate) const PERMUTED_CHOICE_2: [u8; 48] = [
    14, 17, 11, 24, 1, 5, 3, 28, 15, 6, 21, 10,
    23, 19, 12, 4, 26, 8, 16, 7, 27, 20, 13, 2,
    41, 52, 31, 37, 47, 55, 30, 40, 51, 45, 33, 48,
    44, 49, 39, 56, 34, 53, 46, 42, 50, 36, 29, 32,
];

/// The bits, of a string of `width` bits, at the places that a table names, in its order.
pub(crate) fn permute(table: &[u8], width: u32, string: u64) -> u64
    requires width { width ≤ 64 }
    requires sized { length table.now ≤ 64 }
    requires places { IsTrue (list_all (λ place. nat_lt 0 place && nat_le place width) table.now) }
    ensures { low_bits (length table.now) result ≡ permuted table.now (low_bits width string) }
{
    let mut permuted = 0;
    for place in table {
        let bit = (string >> (width - u32::from(*place))) & 1;
        permuted = (permuted << 1) | bit;
    }
    permuted
}
