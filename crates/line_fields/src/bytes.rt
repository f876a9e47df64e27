//! Which bytes an input text may have.

ghost use Rattle.std.specs.Prelude.{◌≡◌};
ghost use Rattle.std.specs.List.{list_all};
ghost use Rattle.line_fields.specs.Bytes.{is_common, is_input_text, is_line_text};

// Bytes that may stand anywhere are looked for in blocks of so many.
const BLOCK: usize = 4096;

// Whether a byte may stand anywhere in an input text.
fn is_common(byte: u8) -> bool
    ensures { result ≡ is_common byte }
{
    (b' ' <= byte && byte <= b'~' && byte != b'"') || byte == b'\n'
}

// Whether all bytes may stand anywhere. It always looks at all of them, so that it is compiled to
// look at many at once.
fn are_common(text: &[u8]) -> bool
    ensures { result ≡ list_all is_common text.now }
{
    let mut common = true;
    for byte in text {
        common &= is_common(*byte);
    }
    common
}

/// Whether a text has only the bytes that an input text may have: those from the blank to the tilde
/// but the double quote, line feeds, and carriage returns directly before a line feed.
///
/// It looks at many bytes at a time, and at each once, but twice at those of one block: in blocks,
/// up to the first one with a byte that may not stand anywhere, and from its beginning on at each
/// byte with the next.
pub fn is_plain(text: &[u8]) -> bool
    ensures { result ≡ is_input_text text.now }
{
    let mut rest = text;
    while rest.len() >= BLOCK && are_common(&rest[..BLOCK]) {
        rest = &rest[BLOCK..];
    }
    if rest.is_empty() {
        return true;
    }
    let last = rest.len() - 1;
    let mut allowed = true;
    for i in 0..last {
        let ends_line = (rest[i] == b'\r') & (rest[i + 1] == b'\n');
        allowed &= is_common(rest[i]) | ends_line;
    }
    allowed & is_common(rest[last])
}

/// Whether a line, given without its end, has only bytes from the blank to the tilde but the double
/// quote.
///
/// It always looks at all of them, so that it is compiled to look at many at once.
pub fn is_plain_line(line: &[u8]) -> bool
    ensures { result ≡ is_line_text line.now }
{
    let mut plain = true;
    for byte in line {
        plain &= b' ' <= *byte && *byte <= b'~' && *byte != b'"';
    }
    plain
}
