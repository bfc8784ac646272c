use std::alloc::Global;
use std::test::Fail;

/// What is written by a letter behind a backslash.
const LETTERS: [(char, char); 5] = [
    ('n', '\n'),
    ('r', '\r'),
    ('s', ' '),
    ('t', '\t'),
    ('d', '\u{7f}'),
];

/// The text that a text of the data stands for: `\s` is a space, and `\7*ab;` is `ab` seven times.
pub(crate) fn unfolded(alloc: Global, text: &str) -> Result<String, Fail> {
    let mut whole = String::new(alloc);
    let mut is_first = true;
    for piece in text.split('\\') {
        if is_first {
            whole.push_str(piece)?;
        } else {
            unfold(&mut whole, piece)?;
        }
        is_first = false;
    }
    Ok(whole)
}

// Puts what stood behind a backslash.
fn unfold(whole: &mut String, piece: &str) -> Result<(), Fail> {
    for (letter, meant) in LETTERS {
        if let Some(rest) = piece.strip_prefix(letter) {
            whole.push(meant)?;
            whole.push_str(rest)?;
            return Ok(());
        }
    }
    let (count, rest) = piece.split_once('*').ok_or("a backslash without `*`")?;
    let (text, rest) = rest.split_once(';').ok_or("a backslash without `;`")?;
    for _ in 0..count.parse::<u32>()? {
        whole.push_str(text)?;
    }
    whole.push_str(rest)?;
    Ok(())
}
