ghost use Rattle.std.specs.Prelude.{◌≡◌, nat_eq};
ghost use Rattle.std.specs.Cmp.Lexicographic.{pointwise};
ghost use Rattle.script_text.specs.Reading.{keyword_name, keyword_of};

/// A word of the language.
#[derive(Clone, Copy, Debug, PartialEq, Eq)]
pub(crate) enum Keyword {
    Use,
    Ro,
    Remove,
    Set,
    Del,
    Batch,
    Put,
    Get,
    BySeq,
    Commit,
    Markers,
    Rollback,
    Info,
    Snap,
    Latest,
    At,
    Close,
    Scan,
    Seqs,
    Up,
    Down,
    Compact,
    Begin,
    Copy,
    Delta,
    Switch,
    Cancel,
}

const KEYWORDS: [Keyword; 27] = [
    Keyword::Use,
    Keyword::Ro,
    Keyword::Remove,
    Keyword::Set,
    Keyword::Del,
    Keyword::Batch,
    Keyword::Put,
    Keyword::Get,
    Keyword::BySeq,
    Keyword::Commit,
    Keyword::Markers,
    Keyword::Rollback,
    Keyword::Info,
    Keyword::Snap,
    Keyword::Latest,
    Keyword::At,
    Keyword::Close,
    Keyword::Scan,
    Keyword::Seqs,
    Keyword::Up,
    Keyword::Down,
    Keyword::Compact,
    Keyword::Begin,
    Keyword::Copy,
    Keyword::Delta,
    Keyword::Switch,
    Keyword::Cancel,
];

impl Keyword {
    /// How the keyword is spelled.
    #[tactic(auto, unfolding(crate::specs::Reading::keyword_name))]
    fn name(self) -> &'static [u8]
        ensures { result.now ≡ keyword_name self }
    {
        match self {
            Keyword::Use => b"use",
            Keyword::Ro => b"ro",
            Keyword::Remove => b"remove",
            Keyword::Set => b"set",
            Keyword::Del => b"del",
            Keyword::Batch => b"batch",
            Keyword::Put => b"put",
            Keyword::Get => b"get",
            Keyword::BySeq => b"byseq",
            Keyword::Commit => b"commit",
            Keyword::Markers => b"markers",
            Keyword::Rollback => b"rollback",
            Keyword::Info => b"info",
            Keyword::Snap => b"snap",
            Keyword::Latest => b"latest",
            Keyword::At => b"at",
            Keyword::Close => b"close",
            Keyword::Scan => b"scan",
            Keyword::Seqs => b"seqs",
            Keyword::Up => b"up",
            Keyword::Down => b"down",
            Keyword::Compact => b"compact",
            Keyword::Begin => b"begin",
            Keyword::Copy => b"copy",
            Keyword::Delta => b"delta",
            Keyword::Switch => b"switch",
            Keyword::Cancel => b"cancel",
        }
    }

    fn is_spelled(self, word: &[u8]) -> bool
        ensures { result ≡ pointwise nat_eq (keyword_name self) word.now }
    {
        self.name() == word
    }

    /// The keyword that is spelled so.
    #[tactic(auto, unfolding(crate::specs::Reading::keyword_of))]
    pub(crate) fn of(word: &[u8]) -> Option<Keyword>
        ensures { result ≡ keyword_of word.now }
    {
        KEYWORDS
            .iter()
            .copied()
            .find(|keyword| keyword.is_spelled(word))
    }
}
