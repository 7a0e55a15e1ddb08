//! Views, which lend what they show.
ghost use Rattle.std.specs.Prelude.{◌≡◌};
ghost use Rattle.std.specs.Bool.{Decides};
ghost use Rattle.equality_and_copies.specs.Views.{ShowOneAttribute, ShowOneExtension};

use x509_certificates::ExtensionView;
use x509_fields::{AttributeTypeAndValueParameters, NamePrettyFormatter, Rfc4514};

/// Two values of attributes that are borrowed are equal exactly where they are of one attribute, and what is borrowed is one value.
pub fn attribute_views()
    ensures { (v w : AttributeTypeAndValueParameters)
        → Decides (⟦<AttributeTypeAndValueParameters<'static> as PartialEq>⟧.eq v w) (ShowOneAttribute v w) }
{}

/// Two views of extensions are equal exactly where they are of one kind, and what is borrowed is one value.
pub fn extension_views()
    ensures { (v w : ExtensionView) → Decides (⟦<ExtensionView<'static> as PartialEq>⟧.eq v w) (ShowOneExtension v w) }
{}

/// Two names that are borrowed to be printed are equal exactly where they are one name, also in the notation of RFC 4514.
pub fn name_views()
    ensures printed { (v w : NamePrettyFormatter) → Decides (⟦<NamePrettyFormatter<'static> as PartialEq>⟧.eq v w) (v.0.now ≡ w.0.now) }
    ensures rfc4514 { (v w : Rfc4514) → Decides (⟦<Rfc4514<'static> as PartialEq>⟧.eq v w) (v.0.now ≡ w.0.now) }
{}
