//! Where the JSON text of a map is: a line may stand before it.
ghost use Rattle.std.specs.Prelude.{◌≡◌, ◌≤◌, ◌<◌, ◌==◌, drop, length, position, option_map, IfSome};
ghost use Rattle.smap_shape.specs.Text as spec;

fn line_feed(bytes: &[u8]) -> Option<usize>
    ensures place { result ≡ position (λ b. b == 10) bytes.now }
    ensures within { IfSome result (λ i. i < length bytes.now) }
{
    bytes.iter().position(|b| *b == 10)
}

/// Where the JSON text of a map begins: after the first line feed if the bytes begin with `)]}'` (ECMA-426,
/// "JSON Source Map"), and else at 0; none if they begin so and have no line feed.
pub fn json_start(bytes: &[u8]) -> Option<usize>
    ensures value { option_map (λ i. drop i bytes.now) result ≡ spec.json_text bytes.now }
    ensures within { IfSome result (λ i. i ≤ length bytes.now) }
{
    if !bytes.starts_with(b")]}'") {
        return Some(0);
    }
    match line_feed(bytes) {
        Some(at) => Some(at + 1),
        None => None,
    }
}

/// The JSON text of a map, from [`json_start`] on.
pub fn json_text(bytes: &[u8]) -> Option<&[u8]>
    ensures { option_map (λ t. t.now) result ≡ spec.json_text bytes.now }
{
    match json_start(bytes) {
        Some(start) => Some(&bytes[start..]),
        None => None,
    }
}
