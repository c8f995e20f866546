//! How far a piece goes.

ghost use Rattle.std.specs.Prelude.{◌≡◌, ◌≤◌, IfSome, length, false, not};
ghost use Rattle.std.specs.List.{prefix_len};
ghost use Rattle.plm_token.specs.Characters.{is_name_character, is_line_feed};
ghost use Rattle.plm_token.specs.Inner.Front.{comment_length, string_length, string_closed};

/// Whether a name or a number may go on with this byte.
pub fn is_name_character(byte: u8) -> bool
    ensures { result ≡ is_name_character byte }
{
    matches!(byte, b'A'..=b'Z' | b'a'..=b'z' | b'0'..=b'9' | b'_' | b'$')
}

/// How many bytes at the front a name or a number may go on with.
pub fn name_length(bytes: &[u8]) -> usize
    ensures value { result ≡ prefix_len is_name_character bytes.now }
    ensures inside { result ≤ length bytes.now }
{
    for (i, b) in bytes.iter().enumerate() {
        if !is_name_character(*b) {
            return i;
        }
    }
    bytes.len()
}

/// How many bytes stand before the first line feed.
pub fn line_length(bytes: &[u8]) -> usize
    ensures value { result ≡ prefix_len (λ c. not (is_line_feed c)) bytes.now }
    ensures inside { result ≤ length bytes.now }
{
    for (i, b) in bytes.iter().enumerate() {
        if *b == b'\n' {
            return i;
        }
    }
    bytes.len()
}

/// How many bytes a comment has after its opening, if it is closed.
pub fn comment_length(bytes: &[u8]) -> Option<usize>
    ensures value { result ≡ comment_length false bytes.now }
    ensures inside { IfSome result (λ n. n ≤ length bytes.now) }
{
    let mut star = false;
    for (i, b) in bytes.iter().enumerate() {
        if star && *b == b'/' {
            return Some(i + 1);
        }
        star = *b == b'*';
    }
    None
}

/// How many bytes a string has after its opening apostrophe, and whether it is closed.
pub fn string_length(bytes: &[u8]) -> (usize, bool)
    ensures value { result.0 ≡ string_length false bytes.now }
    ensures closed { result.1 ≡ string_closed false bytes.now }
    ensures inside { result.0 ≤ length bytes.now }
{
    let mut pending = false;
    for (i, b) in bytes.iter().enumerate() {
        if *b == b'\'' {
            pending = !pending;
        } else if pending || !matches!(*b, b' '..=b'~') {
            return (i, pending);
        }
    }
    (bytes.len(), pending)
}
