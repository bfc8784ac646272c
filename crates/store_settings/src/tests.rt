use super::*;
use std::alloc::{AllocError, Global};
use std::test::*;

/// Rows of words and what they ask for. A word has no space; two spaces stand round an empty one.
const PLACES: &str = "\
play --memory => play memory
play d => play dir d
new d => new dir d
play d/e.f => play dir d/e.f
play play => play dir play
play -- d => play dir d
play -- -d => play dir -d
play -- -- => play dir --
play -- --memory => play dir --memory
new -- new => new dir new
play --memory -- => play memory
 => word 0
Play d => word 0
pla d => word 0
load 1 2 d => word 0
check d => word 0
-- play d => word 0
--help => word 0
play => missing
play -- => missing
new => missing
play --memory d => word 2
play d --memory => word 2
play --memory --memory => word 2
play d e => word 2
play -- d e => word 3
play --memory -- d => word 3
play - => word 1
play -- - => word 2
play  => word 1
play --  => word 2
play -d => word 1
play --help => word 1
play --version => word 1
play -h => word 1
play --memory= => word 1
play --memory=d => word 1
play --mem => word 1
play --Memory => word 1
play --memoryx => word 1
new --memory => word 1
new d --memory => word 2
new d e => word 2";

const NUMBERS: &str = "\
play --memory --max 16 => play memory 16
play --max 16 --memory => play memory 16
play --max=16 d => play dir d 16
play d --max=4294967296 => play dir d 4294967296
play --max 4294967296 -- d => play dir d 4294967296
play -- --max => play dir --max
play --max 15 d => word 2
play --max=15 d => word 1
play --max 4294967297 d => word 2
play --max=4294967297 d => word 1
play --max 016 d => word 2
play --max +16 d => word 2
play --max 0x10 d => word 2
play --max -16 d => word 2
play --max 1e2 d => word 2
play --max  d => word 2
play --max= d => word 1
play --max - d => word 2
play --max -- d => word 2
play --max d => word 2
play --max16 d => word 1
play --maxi 16 d => word 1
play --max 99999999999999999999 d => word 2
play --max 16 --max 16 d => word 3
play --max=16 --max 17 d => word 2
play --max 16 --max=17 d => word 3
play --max 16 => missing
play d --max => missing
play --wal 9 d => word 1
play --wal=9 d => word 1
new --max 16 d => word 1
new d --max=16 => word 2";

/// A row of settings, with `;` for a newline, and what they say.
const SETTINGS: &str = "\
# nothing => 4096 4294967296 false 30
 => 4096 4294967296 false 30
wal = 1 => 1 4294967296 false 30
wal = 65536 => 65536 4294967296 false 30
wal=0x10 => 16 4294967296 false 30
'wal' = 7 => 7 4294967296 false 30
max_blocks = 16 => 4096 16 false 30
max_blocks = 4294967296 => 4096 4294967296 false 30
max_blocks = 1_000 => 4096 1000 false 30
daemon = true => 4096 4294967296 true 30
daemon = false => 4096 4294967296 false 30
compact_percent = 1 => 4096 4294967296 false 1
compact_percent = 99 => 4096 4294967296 false 99
wal = 9;max_blocks = 17;daemon = true;compact_percent = 50; => 9 17 true 50
compact_percent = 50;daemon = true;;max_blocks = 17 # at most;wal = 9 => 9 17 true 50";

const REFUSED: &str = "\
wal = 0
wal = 65537
wal = -1
wal = 1.0
wal = '1'
wal = true
wal = [1]
wal = 01
wal = 99999999999999999999
wal =
wal
wal = 1;wal = 1
Wal = 1
wal.x = 1
[wal]
max_blocks = 15
max_blocks = 4294967297
max_blocks = '16'
max_block = 16
daemon = 1
daemon = 'true'
daemon = True
daemons = true
compact_percent = 0
compact_percent = 100
compact_percent = 30.0
compact_percent = -30
percent = 30
[settings];wal = 1
wal = 1 max_blocks = 16
= 1
wal = 1;x = ";

/// The words of a row.
fn words_of(alloc: Global, row: &str) -> Result<Vec<String>, AllocError> {
    let mut words = Vec::new(alloc);
    for word in row.split(' ') {
        words.push(String::from_str(alloc, word)?)?;
    }
    Ok(words)
}

/// What words ask for, in a row's form.
fn told(alloc: Global, words: &[String]) -> Result<String, Fail> {
    let asked = match read_words(words) {
        Ok(asked) => asked,
        Err(Usage::Word(index)) => return Ok(format!(in alloc; "word {index}")?),
        Err(Usage::Missing) => return Ok(String::from_str(alloc, "missing")?),
    };
    let mut text = String::new(alloc);
    text.push_str(match asked.command {
        Command::Play => "play ",
        Command::New => "new ",
    })?;
    match asked.place {
        Place::Memory => text.push_str("memory")?,
        Place::Dir(dir) => {
            text.push_str("dir ")?;
            text.push_str(std::str::from_utf8(dir)?)?;
        }
    }
    if let Some(max) = asked.max {
        write!(text, " {max}")?;
    }
    Ok(text)
}

/// The rows of a table that aren't told as it says.
fn wrong_words(alloc: Global, table: &str) -> Result<String, Fail> {
    let mut wrong = String::new(alloc);
    for row in table.split('\n') {
        let (line, wanted) = row.split_once(" => ").ok_or("a row")?;
        let words = words_of(alloc, line)?;
        let found = told(alloc, words.as_slice())?;
        if found.as_str() != wanted {
            write!(wrong, "{row}, and not {found}; ")?;
        }
    }
    Ok(wrong)
}

#[test]
fn places_are_read(rt: HostRuntime) -> Result<(), Fail> {
    let wrong = wrong_words(rt.alloc(), PLACES)?;
    assert_eq!(rt; wrong.as_str(), "");
    Ok(())
}

#[test]
fn numbers_are_read(rt: HostRuntime) -> Result<(), Fail> {
    let wrong = wrong_words(rt.alloc(), NUMBERS)?;
    assert_eq!(rt; wrong.as_str(), "");
    Ok(())
}

/// What settings say, in a row's form; `;` stands for a newline.
fn said(alloc: Global, row: &str) -> Result<String, Fail> {
    let mut text = Vec::new(alloc);
    for byte in row.as_bytes() {
        text.push(if *byte == b';' { b'\n' } else { *byte })?;
    }
    let mut line = String::new(alloc);
    if let Some(found) = settings_of(alloc, text.as_slice())? {
        write!(
            line,
            "{} {} {} {}",
            found.wal, found.max_blocks, found.daemon, found.compact_percent
        )?;
    }
    Ok(line)
}

#[test]
fn settings_are_read(rt: HostRuntime) -> Result<(), Fail> {
    let alloc = rt.alloc();
    for row in SETTINGS.split('\n') {
        let (text, wanted) = row.split_once(" => ").ok_or("a row")?;
        let found = said(alloc, text)?;
        assert_eq!(rt; found.as_str(), wanted);
    }
    Ok(())
}

#[test]
fn other_settings_are_refused(rt: HostRuntime) -> Result<(), Fail> {
    let alloc = rt.alloc();
    for text in REFUSED.split('\n') {
        let found = said(alloc, text)?;
        assert_eq!(rt; found.as_str(), "");
    }
    let other = settings_of(alloc, b"wal = 1 # \xff")?;
    assert!(rt; other.is_none());
    Ok(())
}

#[test]
fn places_are_given(rt: HostRuntime) -> Result<(), Fail> {
    let alloc = rt.alloc();
    let memory = words_of(alloc, "play --memory --max 16")?;
    let dir = words_of(alloc, "play --max 16 d")?;
    let nowhere = words_of(alloc, "play d --memory")?;
    assert!(rt; place_of(memory.as_slice())? == Where::Memory);
    assert!(rt; place_of(nowhere.as_slice())? == Where::Nowhere);
    assert!(rt; place_of(&[])? == Where::Nowhere);
    match place_of(dir.as_slice())? {
        Where::Dir(place) => assert!(rt; place.as_slice() == b"d".as_slice()),
        _ => return Err("a folder".into()),
    }
    Ok(())
}

#[test]
fn the_word_at_fault_is_told(rt: HostRuntime) -> Result<(), Fail> {
    let alloc = rt.alloc();
    let words = words_of(alloc, "play --mx d")?;
    let text = usage_text(alloc, words.as_slice(), Usage::Word(1))?;
    assert!(rt; text.as_str().starts_with("refused: --mx\n\n"));
    assert!(rt; text.as_str().contains("Usage: forest play"));
    assert!(rt; text.as_str().contains("Usage: forest new"));
    let text = usage_text(alloc, words.as_slice(), Usage::Missing)?;
    assert!(rt; text.as_str().starts_with("a word is missing\n\n"));
    Ok(())
}
