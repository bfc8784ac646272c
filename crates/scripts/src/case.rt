use crate::plain::plain_run;
use block_host::MemorySource;
use host_memory::MemoryHost;
use play_run::{Played, play};
use std::alloc::{AllocError, Global};
use std::str;
use std::test::Fail;

/// How a run has ended.
#[derive(Drop, PartialEq, Eq)]
pub(crate) struct Ended {
    pub(crate) status: u8,
    pub(crate) said: String,
}

/// Which of the two runs a script.
#[derive(Clone, Copy, PartialEq, Eq)]
enum By {
    /// `play`, and the plain session beside it.
    Both,
    Play,
    Plain,
}

/// A script, and what is said for it.
#[derive(Drop)]
pub(crate) struct Case {
    alloc: Global,
    words: Vec<String>,
    by: By,
    // the last number that the store `default` has drawn before the script
    seq: u64,
    script: String,
    // none where it is what the plain session says
    said: Option<String>,
}

impl Case {
    pub(crate) fn new(alloc: Global) -> Result<Case, Fail> {
        Ok(Case {
            alloc,
            words: words_of(alloc, "play|--memory")?,
            by: By::Both,
            seq: 0,
            script: String::new(alloc),
            said: Some(String::new(alloc)),
        })
    }

    /// Takes a row more: its first word, and the text behind it.
    pub(crate) fn add(&mut self, word: &str, text: &str) -> Result<(), Fail> {
        match word {
            ">" => add_line(&mut self.script, text)?,
            "+" => self.script.push_str(text)?,
            "<" => add_line(self.said.as_mut().ok_or("`alike` with replies")?, text)?,
            "words" => self.words = words_of(self.alloc, text)?,
            "seq" => self.seq = text.parse()?,
            "by" => self.by = by_of(text)?,
            "alike" => self.said = None,
            _ => return Err(Fail::new("no row of a case")),
        }
        Ok(())
    }

    /// What was said or how it ended, where it isn't what stands in the rows and this status; else nothing.
    pub(crate) fn wrong(&self, status: u8) -> Result<String, Fail> {
        let wanted = Ended {
            status,
            said: self.wanted()?,
        };
        let mut wrong = String::new(self.alloc);
        if self.by != By::Plain {
            compare(&mut wrong, "play", &self.by_play()?, &wanted)?;
        }
        if self.by != By::Play {
            compare(&mut wrong, "plain", &self.by_plain()?, &wanted)?;
        }
        Ok(wrong)
    }

    fn wanted(&self) -> Result<String, Fail> {
        match &self.said {
            Some(said) => Ok(said.clone()?),
            None => Ok(self.by_plain()?.said),
        }
    }

    fn by_plain(&self) -> Result<Ended, Fail> {
        plain_run(self.alloc, self.seq, self.script.as_str())
    }

    // A run by `play` over a new store in memory.
    fn by_play(&self) -> Result<Ended, Fail> {
        let mut source = MemorySource::new(self.script.as_bytes().to_vec(self.alloc)?);
        let host = MemoryHost::formatted(self.alloc)?;
        ended_by(
            self.alloc,
            &play(self.alloc, self.words.as_slice(), &mut source, host),
        )
    }
}

fn ended_by(alloc: Global, played: &Played<MemoryHost>) -> Result<Ended, Fail> {
    Ok(Ended {
        status: played.status,
        said: String::from_str(alloc, str::from_utf8(played.host.said())?)?,
    })
}

// The words of the program, which stand apart by `|`.
fn words_of(alloc: Global, text: &str) -> Result<Vec<String>, AllocError> {
    let mut words = Vec::new(alloc);
    if text.is_empty() {
        return Ok(words);
    }
    for word in text.split('|') {
        words.push(String::from_str(alloc, word)?)?;
    }
    Ok(words)
}

fn by_of(text: &str) -> Result<By, Fail> {
    match text {
        "play" => Ok(By::Play),
        "plain" => Ok(By::Plain),
        _ => Err(Fail::new("neither `play` nor `plain`")),
    }
}

fn add_line(text: &mut String, line: &str) -> Result<(), AllocError> {
    text.push_str(line)?;
    text.push('\n')
}

fn compare(wrong: &mut String, by: &str, ended: &Ended, wanted: &Ended) -> Result<(), AllocError> {
    if *ended == *wanted {
        return Ok(());
    }
    let status = ended.status;
    let line = first_other(ended.said.as_str(), wanted.said.as_str());
    write!(wrong, " {by} ends with {status} and says {line:?}")
}

// The first line of what was said that isn't the one wanted.
fn first_other<'a>(said: &'a str, wanted: &str) -> &'a str {
    let mut lines = wanted.split('\n');
    for line in said.split('\n') {
        if lines.next() != Some(line) {
            return line;
        }
    }
    ""
}
