// Numbers of 16 and 32 bits as little-endian bytes, and back. A function for each size: std's methods have no trait in common, and one
// of our own would need the same call in an impl for each type.
ghost use Rattle.std.specs.Prelude.{◌≡◌, [], ◌∷◌};
ghost use Rattle.fields.specs.Bytes.{bytes_of, number_in};

// The bytes of a number, lowest first.
pub fn bytes16(n: u16) -> [u8; 2]
    ensures { result ≡ bytes_of 2 n }
{
    u16::to_le_bytes(n)
}

pub fn bytes32(n: u32) -> [u8; 4]
    ensures { result ≡ bytes_of 4 n }
{
    u32::to_le_bytes(n)
}

// The number of some bytes, lowest first.
pub fn number16(b0: u8, b1: u8) -> u16
    ensures { result ≡ number_in (b0 ∷ b1 ∷ []) }
{
    u16::from_le_bytes([b0, b1])
}

pub fn number32(b0: u8, b1: u8, b2: u8, b3: u8) -> u32
    ensures { result ≡ number_in (b0 ∷ b1 ∷ b2 ∷ b3 ∷ []) }
{
    u32::from_le_bytes([b0, b1, b2, b3])
}
