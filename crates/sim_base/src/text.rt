//! Texts of bytes, and numbers in decimal.
ghost use Rattle.std.specs.Prelude.{◌≡◌, ◌++◌, length, decimal, IfOk, OnErr, OnOk};

use crate::Memory;
use itoa::Buffer;
use std::alloc::Global;
use std::marker::Model;

/// A text of any bytes. Contracts see the list of its bytes.
#[derive(Drop)]
pub struct Text {
    bytes: Vec<u8>,
}

impl Model for Text {
    ghost use Rattle.std.specs.Prelude.{List, ℕ};

    ghost Value = { List ℕ };

    ghost view = { λ t. t.bytes.items };
}

impl Text {
    /// A text of its own with these bytes.
    pub fn of(alloc: Global, bytes: &[u8]) -> Result<Text, Memory>
        ensures { IfOk result (λ text. text ≡ bytes.now) }
    {
        let bytes = Vec::from_slice(alloc, bytes)?;
        Ok(Text { bytes })
    }

    /// The text of these bytes; takes no memory.
    pub fn from_vec(bytes: Vec<u8>) -> Text
        ensures { result ≡ bytes.items }
    {
        Text { bytes }
    }

    /// The bytes as a slice.
    pub fn as_bytes(&self) -> &[u8]
        ensures { result.now ≡ self.now }
    {
        self.bytes.as_slice()
    }
}

/// Appends `n` in decimal, without leading zeros. Without memory nothing is appended.
pub fn push_number(out: &mut Vec<u8>, n: u64) -> Result<(), Memory>
    ensures appended { OnOk result (out.new.items ≡ out.old.items ++ decimal n) }
    ensures kept { OnErr result (out.new.items ≡ out.old.items) }
{
    let mut buffer = Buffer::new();
    out.extend_from_slice(buffer.format(n).as_bytes())?;
    Ok(())
}
