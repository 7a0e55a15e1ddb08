//! Moments and numbers of an account (MS-PAC, section 2.5).
ghost use Rattle.std.specs.Prelude.{◌≡◌, ◌+◌, ◌≤◌, length};
ghost use Rattle.krb_pac.specs.LogonInfo.{times_at, numbers_at};

use crate::ndr::u16_le;
use byte_streams::{array_at, u32_le, u64_le};

/// Moments of the account, in units of 100 nanoseconds from 1601 on. The greatest number of 63 bits is 'never'.
#[derive(Clone, Copy, Debug, PartialEq, Eq)]
pub struct LogonTimes {
    /// LogonTime.
    pub logon: u64,
    /// LogoffTime.
    pub logoff: u64,
    /// KickOffTime.
    pub kick_off: u64,
    /// PasswordLastSet.
    pub password_last_set: u64,
    /// PasswordCanChange.
    pub password_can_change: u64,
    /// PasswordMustChange.
    pub password_must_change: u64,
}

/// Numbers of the account.
#[derive(Clone, Copy, Debug, PartialEq, Eq)]
pub struct LogonNumbers {
    /// LogonCount.
    pub logon_count: u16,
    /// BadPasswordCount.
    pub bad_password_count: u16,
    /// UserId: the last part of the user's SID.
    pub user_id: u32,
    /// PrimaryGroupId: the last part of the primary group's SID.
    pub primary_group_id: u32,
    /// UserFlags.
    pub user_flags: u32,
    /// UserSessionKey.
    pub user_session_key: [u8; 16],
    /// UserAccountControl.
    pub user_account_control: u32,
}

/// Returns the moments in the fixed part at `fixed`.
#[tactic(auto, unfolding(crate::specs::LogonInfo::times_at))]
pub(crate) fn times_at(bytes: &[u8], fixed: usize) -> LogonTimes
    requires { fixed + 216 ≤ length bytes.now }
    ensures { result ≡ times_at fixed bytes.now }
{
    LogonTimes {
        logon: u64_le(bytes, fixed),
        logoff: u64_le(bytes, fixed + 8),
        kick_off: u64_le(bytes, fixed + 16),
        password_last_set: u64_le(bytes, fixed + 24),
        password_can_change: u64_le(bytes, fixed + 32),
        password_must_change: u64_le(bytes, fixed + 40),
    }
}

/// Returns the numbers in the fixed part at `fixed`.
#[tactic(auto, unfolding(crate::specs::LogonInfo::numbers_at))]
pub(crate) fn numbers_at(bytes: &[u8], fixed: usize) -> LogonNumbers
    requires { fixed + 216 ≤ length bytes.now }
    ensures { result ≡ numbers_at fixed bytes.now }
{
    LogonNumbers {
        logon_count: u16_le(bytes, fixed + 96),
        bad_password_count: u16_le(bytes, fixed + 98),
        user_id: u32_le(bytes, fixed + 100),
        primary_group_id: u32_le(bytes, fixed + 104),
        user_flags: u32_le(bytes, fixed + 116),
        user_session_key: array_at(bytes, fixed + 120),
        user_account_control: u32_le(bytes, fixed + 164),
    }
}
