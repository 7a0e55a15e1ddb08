//! What holds of every name in a line. Each is a function that does nothing when it runs: its contract is the law.
ghost use Rattle.std.specs.Prelude.{◌≡◌, ℕ, List, ◌∷◌, IsTrue};
ghost use Rattle.krb_messages.specs.NameReading.{are_ascii, is_ascii};
ghost use Rattle.krb_log.specs.NameText.{IsVisible, shown_component, shown_name};

/// What is shown of a name has only printable ASCII characters, and no blank. So it is one word of its line, whatever the name is.
pub fn names_are_visible()
    ensures { (components : List (List ℕ)) (realm : List ℕ) → IsTrue (are_ascii (realm ∷ components)) → IsVisible (shown_name components realm) }
{}

/// Two components are shown alike only if they are the same.
pub fn one_component()
    ensures { (one other : List ℕ) → IsTrue (is_ascii one) → IsTrue (is_ascii other) → shown_component one ≡ shown_component other → one ≡ other }
{}
