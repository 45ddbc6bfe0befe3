// A byte looked up by a place that a call or a query brings.
ghost use Rattle.std.specs.Prelude.{◌≡◌, get_or};

// The byte at a place, 0 past the end.
pub fn byte_at(bytes: &[u8], at: usize) -> u8
    ensures { result ≡ get_or bytes.now at 0 }
{
    bytes.get(at).copied().unwrap_or(0)
}
