//! What is written is read again, as nothing else.
ghost use Rattle.std.specs.Prelude.{◌≡◌, ℕ, ◌<◌, ◌^◌, List, Ok};
ghost use Rattle.krb_password_changes.specs.Frames.{frame_table, IsFrame};
ghost use Rattle.krb_password_changes.specs.Results.{result_octets};
ghost use Rattle.krb_password_changes.specs.declared.messages.version.Version.{Version};

/// The law that no row refuses a frame. It does nothing.
pub fn written_is_read()
    ensures { (version : Version) (ap private message : List ℕ) → IsFrame version ap private message → (frame_table message).gives (Ok version) }
{}

/// The law that a message is the frame of one version and of one pair of parts. It does nothing.
pub fn one_frame()
    ensures { (v w : Version) (a b p q message : List ℕ) → IsFrame v a p message → IsFrame w b q message → (v ≡ w) × (a ≡ b) × (p ≡ q) }
{}

/// The law that a reply carries one number and one text. It does nothing.
pub fn one_result()
    ensures { (n m : ℕ) (text other : List ℕ) → n < 2 ^ 16 → m < 2 ^ 16 → result_octets n text ≡ result_octets m other → (n ≡ m) × (text ≡ other) }
{}
