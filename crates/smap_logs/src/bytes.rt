//! What the bytes of a line may be.
ghost use Rattle.std.specs.Prelude.{◌≡◌};
ghost use Rattle.smap_logs.specs.Bytes as spec;

/// Whether a byte ends a URL to the left: no URL holds it.
pub(crate) fn ends_url(byte: u8) -> bool
    ensures { result ≡ spec.ends_url byte }
{
    byte == b' ' || byte == b'\n' || byte == 0
}

/// Whether a byte may be part of a scheme's name, behind its first letter.
pub(crate) fn is_scheme_byte(byte: u8) -> bool
    ensures { result ≡ spec.is_scheme_byte byte }
{
    byte.is_ascii_alphanumeric() || byte == b'+' || byte == b'-' || byte == b'.'
}
