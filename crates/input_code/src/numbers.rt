// Little-endian numbers in bytes.
ghost use Rattle.std.specs.Prelude.{◌≡◌, ◌+◌, ◌≤◌, length};
ghost use Rattle.fields.specs.Bytes.{number_in, elements};
ghost use Rattle.input.specs.Line.{lengths_of};

use batch::Lengths;

// The word of four bytes from byte `at` on.
pub(crate) fn word_at(bytes: &[u8], at: usize) -> u32
    requires { at + 4 ≤ length bytes.now }
    ensures { result ≡ number_in (elements bytes.now at 4) }
{
    u32::from_le_bytes([bytes[at], bytes[at + 1], bytes[at + 2], bytes[at + 3]])
}

// The number of eight bytes from byte `at` on.
fn length_at(bytes: &[u8], at: usize) -> u64
    requires { at + 8 ≤ length bytes.now }
    ensures { result ≡ number_in (elements bytes.now at 8) }
{
    u64::from_le_bytes([
        bytes[at],
        bytes[at + 1],
        bytes[at + 2],
        bytes[at + 3],
        bytes[at + 4],
        bytes[at + 5],
        bytes[at + 6],
        bytes[at + 7],
    ])
}

// The four lengths at the start of some bytes.
pub(crate) fn lengths_of(bytes: &[u8]) -> Lengths
    requires { 32 ≤ length bytes.now }
    ensures { result ≡ lengths_of bytes.now }
{
    Lengths {
        source: length_at(bytes, 0),
        reconstructed: length_at(bytes, 8),
        forward: length_at(bytes, 16),
        backward: length_at(bytes, 24),
    }
}
