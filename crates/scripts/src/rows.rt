use crate::case::Case;
use crate::spelling::{is_read_as, is_spelled};
use crate::unfolded::unfolded;
use std::alloc::{AllocError, Global};
use std::test::Fail;

/// The rows of the files, one after another, and the cases that failed.
#[derive(Drop)]
pub(crate) struct Rows {
    alloc: Global,
    file: String,
    /// The title of the last case, or the text spelled last as it stands in the row.
    title: String,
    /// The case that isn't ended.
    case: Option<Case>,
    /// The text that was spelled last.
    spelled: String,
    ran: u64,
    failed: String,
}

impl Rows {
    pub(crate) fn new(alloc: Global) -> Rows {
        Rows {
            alloc,
            file: String::new(alloc),
            title: String::new(alloc),
            case: None,
            spelled: String::new(alloc),
            ran: 0,
            failed: String::new(alloc),
        }
    }

    /// Runs the cases of a file.
    pub(crate) fn read(&mut self, file: &str, text: &str) -> Result<(), Fail> {
        self.file = String::from_str(self.alloc, file)?;
        for row in text.split('\n') {
            let (word, rest) = row.split_once(' ').unwrap_or((row, ""));
            self.entitle(word, rest)?;
            self.take(word, unfolded(self.alloc, rest)?.as_str())?;
        }
        match self.case {
            None => Ok(()),
            Some(_) => Err(Fail::new("a case has no status")),
        }
    }

    /// The cases that failed, a line for each.
    pub(crate) fn failed(&self) -> Result<&str, Fail> {
        if self.ran == 0 {
            return Err(Fail::new("there is no case"));
        }
        Ok(self.failed.as_str())
    }

    fn entitle(&mut self, word: &str, rest: &str) -> Result<(), AllocError> {
        if let "case" | "line" | "play" | "server" | "bad" = word {
            self.title = String::from_str(self.alloc, rest)?;
        }
        Ok(())
    }

    fn take(&mut self, word: &str, text: &str) -> Result<(), Fail> {
        match word {
            "" | "#" => Ok(()),
            "line" | "play" | "server" | "bad" => self.spell(word, text),
            "as" => self.read_as(text),
            "case" => self.begin(),
            "status" => self.end(text.parse()?),
            _ => self
                .case
                .as_mut()
                .ok_or("a row of no case")?
                .add(word, text),
        }
    }

    // Notes that a case was run, and how it failed.
    fn note(&mut self, is_right: bool, wrong: &str) -> Result<(), AllocError> {
        self.ran = self.ran.saturating_add(1);
        if is_right {
            return Ok(());
        }
        let file = self.file.as_str();
        let title = self.title.as_str();
        write!(self.failed, "{file}: {title}:{wrong}\n")
    }

    fn spell(&mut self, word: &str, text: &str) -> Result<(), Fail> {
        self.spelled = String::from_str(self.alloc, text)?;
        let is_right = is_spelled(self.alloc, word, text)?;
        Ok(self.note(is_right, " is spelled otherwise")?)
    }

    fn read_as(&mut self, wanted: &str) -> Result<(), Fail> {
        let is_right = is_read_as(self.alloc, self.spelled.as_str(), wanted)?;
        Ok(self.note(is_right, " is read otherwise")?)
    }

    fn begin(&mut self) -> Result<(), Fail> {
        if self.case.is_some() {
            return Err(Fail::new("a case has no status"));
        }
        self.case = Some(Case::new(self.alloc)?);
        Ok(())
    }

    fn end(&mut self, status: u8) -> Result<(), Fail> {
        let case = self.case.take().ok_or("a status of no case")?;
        let wrong = case.wrong(status)?;
        Ok(self.note(wrong.is_empty(), wrong.as_str())?)
    }
}
