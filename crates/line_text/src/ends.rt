ghost use Rattle.line_text.specs.Ends.{FindsEnd};

use memchr::memchr;

/// Where the first line feed stands.
pub fn line_end(bytes: &[u8]) -> Option<usize>
    ensures { FindsEnd bytes.now result }
{
    memchr(b'\n', bytes)
}
