//! Names of an account (MS-PAC, section 2.5).
ghost use Rattle.std.specs.Prelude.{◌+◌, ◌≤◌, length};
ghost use Rattle.krb_pac.specs.Reading.{Gives};
ghost use Rattle.krb_pac.specs.LogonInfo.{three_texts_at, names_at};

use crate::error::Found;
use crate::ndr::text_at;
use std::alloc::Global;
use std::marker::Model;

/// Texts of the account, in UTF-16. A contract sees their characters.
#[derive(Debug, Drop)]
pub struct LogonNames {
    /// EffectiveName: the name of the account.
    pub effective_name: Vec<u16>,
    /// FullName.
    pub full_name: Vec<u16>,
    /// LogonScript.
    pub logon_script: Vec<u16>,
    /// ProfilePath.
    pub profile_path: Vec<u16>,
    /// HomeDirectory.
    pub home_directory: Vec<u16>,
    /// HomeDirectoryDrive.
    pub home_directory_drive: Vec<u16>,
}

impl Model for LogonNames {
    ghost use Rattle.krb_pac.specs.LogonInfo.{Names};

    ghost Value = { Names };

    ghost view = { λ n. record {
      effective_name = n.effective_name.items;
      full_name = n.full_name.items;
      logon_script = n.logon_script.items;
      profile_path = n.profile_path.items;
      home_directory = n.home_directory.items;
      home_directory_drive = n.home_directory_drive.items;
    } };
}

// Three texts.
type ThreeTexts = (Vec<u16>, (Vec<u16>, Vec<u16>));

// Reads three texts, one behind the other, whose structures are at `heads`.
#[tactic(auto, unfolding(crate::specs::LogonInfo::three_texts_at))]
fn three_texts_at(alloc: Global, bytes: &[u8], heads: usize, place: usize) -> Found<ThreeTexts>
    requires { heads + 24 ≤ length bytes.now }
    ensures { Gives
        (λ found. ((found.0.0.items, (found.0.1.0.items, found.0.1.1.items)), found.1))
        result (three_texts_at heads place bytes.now) }
{
    let (first, at_second) = text_at(alloc, bytes, heads, place)?;
    let (second, at_third) = text_at(alloc, bytes, heads + 8, at_second)?;
    let (third, end) = text_at(alloc, bytes, heads + 16, at_third)?;
    Ok(((first, (second, third)), end))
}

/// Reads the characters of the six names at `place`, one behind the other. `fixed` is the place of the fixed part.
#[tactic(auto, unfolding(crate::specs::LogonInfo::names_at))]
pub(crate) fn names_at(alloc: Global, bytes: &[u8], fixed: usize, place: usize) -> Found<LogonNames>
    requires { fixed + 216 ≤ length bytes.now }
    ensures { Gives (λ found. found) result (names_at fixed place bytes.now) }
{
    let ((effective_name, (full_name, logon_script)), at_profile_path) = three_texts_at(
        alloc,
        bytes,
        fixed + 48,
        place,
    )?;
    let ((profile_path, (home_directory, home_directory_drive)), end) = three_texts_at(
        alloc,
        bytes,
        fixed + 72,
        at_profile_path,
    )?;
    Ok((
        LogonNames {
            effective_name,
            full_name,
            logon_script,
            profile_path,
            home_directory,
            home_directory_drive,
        },
        end,
    ))
}
