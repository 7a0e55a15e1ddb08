//! EXTENSION: the extensions of a message (MS-NEGOEX, section 2.2.5.1.4).
ghost use Rattle.std.specs.Prelude.{◌≡◌};

use crate::error::NegoexError;
use crate::laid::{Laid, Wide};
use crate::leaves::ByteVector;
use crate::pairs::put_both;
use std::alloc::{AllocError, Global};

/// EXTENSION: an extension of a message.
#[derive(Debug, Drop, PartialEq, Eq)]
pub struct Extension {
    /// ExtensionType: the type of the extension.
    pub extension_type: u32,
    /// ExtensionValue: the bytes of the extension.
    pub extension_value: ByteVector,
}

/// Extensions, as an offset and a count.
pub type ExtensionVector = Vec<Extension>;

impl Clone for Extension {
    ghost is_clone = { λ extension copy. ⟦<Extension as Laid>⟧.view copy ≡ ⟦<Extension as Laid>⟧.view extension };

    fn clone(&self) -> Result<Extension, AllocError> {
        let extension_value = self.extension_value.clone()?;
        Ok(Extension {
            extension_type: self.extension_type,
            extension_value,
        })
    }
}

impl Laid for Extension {
    ghost use Rattle.std.specs.Prelude.{map};
    ghost use Rattle.negoex_messages.specs.Structs.{ExtensionValue, extension_layout};
    ghost use Rattle.negoex_messages.specs.StructLaws.{extension_laws};

    ghost Value = { ExtensionValue };

    ghost view = { λ e. (e.extension_type, map (λ b. b) e.extension_value.items) };

    ghost layout = { extension_layout };

    ghost laws = { extension_laws };

    fn from_header(alloc: Global, header: &[u8], message: &[u8]) -> Result<Self, NegoexError> {
        let (extension_type, extension_value): (u32, ByteVector) = Laid::from_header(
            alloc, header, message,
        )?;
        Ok(Extension {
            extension_type,
            extension_value,
        })
    }

    fn put(
        &self,
        alloc: Global,
        offset: usize,
        header: &mut Vec<u8>,
        payload: &mut Vec<u8>,
    ) -> Result<(), NegoexError> {
        put_both(
            alloc,
            &self.extension_type,
            &self.extension_value,
            offset,
            header,
            payload,
        )
    }

    fn payload_size(&self) -> usize {
        self.extension_value.payload_size()
    }
}

impl Wide for Extension {
    fn width() -> usize {
        12
    }
}
