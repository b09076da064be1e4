//! Classes of bytes.
ghost use Rattle.std.specs.Prelude.{◌≡◌, ◌==◌, ℕ, Bool, not};

/// A class of bytes.
pub trait Class: Copy {
    /// Whether a byte is of the class.
    ghost holds: { Self → ℕ → Bool };

    /// Returns whether a byte is of the class.
    fn has(self, byte: u8) -> bool
        ensures { result ≡ holds self byte };
}

/// The class of one byte.
#[derive(Clone, Copy, Debug, PartialEq, Eq)]
pub struct Byte(pub u8);

/// The class of every other byte.
#[derive(Clone, Copy, Debug, PartialEq, Eq)]
pub struct NotByte(pub u8);

impl Class for Byte {
    ghost holds = { λ class byte. byte == class.0 };

    fn has(self, byte: u8) -> bool {
        byte == self.0
    }
}

impl Class for NotByte {
    ghost holds = { λ class byte. not (byte == class.0) };

    fn has(self, byte: u8) -> bool {
        byte != self.0
    }
}
