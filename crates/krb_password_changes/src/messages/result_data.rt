//! What a reply carries.
ghost use Rattle.std.specs.Prelude.{◌≡◌, ◌<◌, length, IfOk, MatchOption};
ghost use Rattle.krb_password_changes.specs.ResultCodes.{result_number};
ghost use Rattle.krb_password_changes.specs.Results.{result_octets};

use crate::messages::result_code::ResultCode;
use byte_streams::{u16_be, u16_be_bytes};
use std::alloc::{AllocError, Global};

// How many octets a result code has.
const CODE_LEN: usize = 2;

/// What a reply carries, in its KRB-PRIV or as the e-data of its KRB-ERROR.
#[derive(Clone, Copy, Debug)]
pub struct ResultData<'a> {
    /// The number of the result code.
    pub number: u16,
    /// The text for the user, in UTF-8. It may be empty.
    pub text: &'a [u8],
}

/// Writes a result code with a text for the user.
pub fn result_bytes(alloc: Global, code: ResultCode, text: &str) -> Result<Vec<u8>, AllocError>
    ensures { IfOk result (λ bytes. bytes.items ≡ result_octets (result_number code) text.now) }
{
    let mut bytes = Vec::new(alloc);
    bytes.extend_from_slice(&u16_be_bytes(code.number()))?;
    bytes.extend_from_slice(text.as_bytes())?;
    Ok(bytes)
}

/// Reads a result code and a text. There is none in fewer than two octets.
pub fn read_result(octets: &[u8]) -> Option<ResultData<'_>>
    ensures { MatchOption result (length octets.now < 2) (λ carried. octets.now ≡ result_octets carried.number carried.text.now) }
{
    if octets.len() < CODE_LEN {
        return None;
    }
    let (_, text) = octets.split_at(CODE_LEN);
    Some(ResultData {
        number: u16_be(octets, 0),
        text,
    })
}
