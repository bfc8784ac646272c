use script_text::{line_of, text_of};
use std::alloc::Global;
use std::test::Fail;

/// Whether a text is a line, in play or for the server, as it is said here, and then the text of this line.
fn is_right(alloc: Global, text: &str, server: bool, is_line: bool) -> Result<bool, Fail> {
    match line_of(alloc, text.as_bytes(), server)? {
        Some(line) => Ok(is_line && text_of(alloc, &line)?.as_slice() == text.as_bytes()),
        None => Ok(!is_line),
    }
}

/// Whether a text is a line in both modes, in one of them or in none, as the word before it says.
pub(crate) fn is_spelled(alloc: Global, word: &str, text: &str) -> Result<bool, Fail> {
    Ok(
        is_right(alloc, text, false, word == "line" || word == "play")?
            && is_right(alloc, text, true, word == "line" || word == "server")?,
    )
}

/// Whether a text is read as the line whose fields are written so.
pub(crate) fn is_read_as(alloc: Global, text: &str, wanted: &str) -> Result<bool, Fail> {
    let server = text.ends_with(" compact");
    let line = line_of(alloc, text.as_bytes(), server)?.ok_or("no line")?;
    Ok(format!(in alloc; "{line:?}")?.as_str() == wanted)
}
