//! What to write in place of words that name a file.
ghost use Rattle.std.specs.Prelude.{◌≡◌, IfNone, IfSome, None, Some};
ghost use Rattle.line_words.specs.Words.{line_with_file};

/// What to write where a file was named after this command: the line that gives it the file, if it
/// is a command that reads standard input.
pub fn line_with_file(command: &str) -> Option<&'static str>
    ensures some { IfSome result (λ line. line_with_file command.now ≡ Some line.now) }
    ensures none { IfNone result (line_with_file command.now ≡ None) }
{
    let command = command.as_bytes();
    if command == b"run".as_slice() {
        Some("recline run < FILE")
    } else if command == b"serve".as_slice() {
        Some("recline serve < FILE")
    } else if command == b"collect".as_slice() {
        Some("recline collect < FILE")
    } else if command == b"check".as_slice() {
        Some("recline check < FILE")
    } else {
        None
    }
}
