ghost use Rattle.std.specs.Prelude.{◌≡◌, IsTrue, OnErr};
ghost use Rattle.script_text.specs.Reading.{Gives, batch_at, batch_takes_memory, compact_at, compact_of, copy_at, del_at, direction_at, direction_of, item_at, item_of, item_takes_memory, items_at, lane_at, line_at, meta_at, put_at, read_only_at, read_only_of, scan_at, seqs_at, set_at, snap_at, snap_of, takes_memory, takes_memory_behind, text_takes_memory, three_texts_take_memory, use_at, verb_at, verb_of, verb_takes_memory};

use crate::keyword::Keyword;
use crate::reader::Reader;
use crate::unread::Unread;
use forest_model::{Bytes, Item, Items, Line, Verb};
use std::alloc::Global;

/// The greatest lane.
const LAST_LANE: u64 = 15;
/// The most items of a batch.
const MOST_ITEMS: u64 = 1024;
/// The most documents of a list.
const MOST_LISTED: u64 = 65536;
/// The most documents that one line copies.
const MOST_COPIED: u64 = 1_000_000;

impl<'a> Reader<'a> {
    /// The line that these words are, in a script for the server or for play.
    #[tactic(auto, unfolding(crate::specs::Reading::line_at, crate::specs::Reading::takes_memory))]
    pub(crate) fn line(&mut self, alloc: Global, server: bool) -> Result<Line, Unread>
        ensures gives { Gives result self.new (line_at server self.old) }
        ensures memory { result ≡ Err Unread.NoMemory → IsTrue (takes_memory self.old) }
    {
        let lane = self.lane()?;
        let verb = self.verb(alloc, server)?;
        self.end()?;
        Ok(Line { lane, verb })
    }

    #[tactic(auto, unfolding(crate::specs::Reading::lane_at))]
    fn lane(&mut self) -> Result<u8, Unread>
        ensures gives { Gives result self.new (lane_at self.old) }
        ensures never_memory { OnErr result (result ≡ Err Unread.NotALine) }
    {
        let lane = self.number()?;
        if lane <= LAST_LANE {
            return Ok(lane as u8);
        }
        Err(Unread::NotALine)
    }

    #[tactic(auto, unfolding(crate::specs::Reading::verb_at, crate::specs::Reading::verb_of, crate::specs::Reading::verb_takes_memory, crate::specs::Reading::takes_memory_behind))]
    fn verb(&mut self, alloc: Global, server: bool) -> Result<Verb, Unread>
        ensures gives { Gives result self.new (verb_at server self.old) }
        ensures memory { result ≡ Err Unread.NoMemory → IsTrue (verb_takes_memory self.old) }
    {
        match self.keyword()? {
            Keyword::Use => self.use_store(alloc),
            Keyword::Remove => Ok(Verb::Remove {
                name: self.text(alloc)?,
            }),
            Keyword::Set => self.set(alloc),
            Keyword::Del => Ok(Verb::Del {
                key: self.text(alloc)?,
            }),
            Keyword::Batch => self.batch(alloc),
            Keyword::Get => Ok(Verb::Get {
                key: self.text(alloc)?,
            }),
            Keyword::BySeq => Ok(Verb::BySeq {
                seq: self.number()?,
            }),
            Keyword::Commit => Ok(Verb::Commit),
            Keyword::Markers => Ok(Verb::Markers),
            Keyword::Rollback => Ok(Verb::Rollback {
                number: self.number()?,
            }),
            Keyword::Info => Ok(Verb::Info),
            Keyword::Snap => self.snap(alloc),
            Keyword::Scan => self.scan(alloc),
            Keyword::Seqs => self.seqs(),
            Keyword::Compact => self.compact(server),
            _ => Err(Unread::NotALine),
        }
    }

    #[tactic(auto, unfolding(crate::specs::Reading::use_at))]
    fn use_store(&mut self, alloc: Global) -> Result<Verb, Unread>
        ensures gives { Gives result self.new (use_at self.old) }
        ensures memory { result ≡ Err Unread.NoMemory → IsTrue (text_takes_memory self.old) }
    {
        let name = self.text(alloc)?;
        let read_only = self.read_only()?;
        Ok(Verb::UseStore { name, read_only })
    }

    #[tactic(auto, unfolding(crate::specs::Reading::read_only_at, crate::specs::Reading::read_only_of))]
    fn read_only(&mut self) -> Result<bool, Unread>
        ensures gives { Gives result self.new (read_only_at self.old) }
        ensures never_memory { OnErr result (result ≡ Err Unread.NotALine) }
    {
        if self.is_done() {
            return Ok(false);
        }
        match self.keyword()? {
            Keyword::Ro => Ok(true),
            _ => Err(Unread::NotALine),
        }
    }

    #[tactic(auto, unfolding(crate::specs::Reading::set_at, crate::specs::Reading::two_texts_take_memory, crate::specs::Reading::three_texts_take_memory))]
    fn set(&mut self, alloc: Global) -> Result<Verb, Unread>
        ensures gives { Gives result self.new (set_at self.old) }
        ensures memory { result ≡ Err Unread.NoMemory → IsTrue (three_texts_take_memory self.old) }
    {
        let key = self.text(alloc)?;
        let body = self.text(alloc)?;
        let meta = self.meta(alloc)?;
        Ok(Verb::Set { key, meta, body })
    }

    /// The meta at the end of a line, which isn't written where it is empty.
    #[tactic(auto, unfolding(crate::specs::Reading::meta_at))]
    fn meta(&mut self, alloc: Global) -> Result<Bytes, Unread>
        ensures gives { Gives result self.new (meta_at self.old) }
        ensures memory { result ≡ Err Unread.NoMemory → IsTrue (text_takes_memory self.old) }
    {
        if self.is_done() {
            return Ok(Bytes::new(alloc));
        }
        let meta = self.text(alloc)?;
        if meta.is_empty() {
            return Err(Unread::NotALine);
        }
        Ok(meta)
    }

    #[tactic(auto, unfolding(crate::specs::Reading::batch_at))]
    fn batch(&mut self, alloc: Global) -> Result<Verb, Unread>
        ensures gives { Gives result self.new (batch_at self.old) }
        ensures memory { result ≡ Err Unread.NoMemory → IsTrue (batch_takes_memory self.old) }
    {
        let items = self.items(alloc)?;
        if items.is_empty() {
            return Err(Unread::NotALine);
        }
        Ok(Verb::Batch { items })
    }

    /// Items to the end, but at most as many as a batch may have.
    fn items(&mut self, alloc: Global) -> Result<Items, Unread>
        ensures gives { Gives result self.new (items_at 1024 self.old) }
        ensures memory { result ≡ Err Unread.NoMemory → IsTrue (batch_takes_memory self.old) }
    {
        let mut items = Vec::new(alloc);
        for _ in 0..MOST_ITEMS {
            if self.is_done() {
                return Ok(Items::from_vec(items));
            }
            let item = self.item(alloc)?;
            items.push(item)?;
        }
        Ok(Items::from_vec(items))
    }

    #[tactic(auto, unfolding(crate::specs::Reading::item_at, crate::specs::Reading::item_of, crate::specs::Reading::del_at, crate::specs::Reading::item_takes_memory, crate::specs::Reading::item_takes_memory_behind))]
    fn item(&mut self, alloc: Global) -> Result<Item, Unread>
        ensures gives { Gives result self.new (item_at self.old) }
        ensures memory { result ≡ Err Unread.NoMemory → IsTrue (item_takes_memory self.old) }
    {
        match self.keyword()? {
            Keyword::Put => self.put(alloc),
            Keyword::Del => Ok(Item::Del {
                key: self.text(alloc)?,
            }),
            _ => Err(Unread::NotALine),
        }
    }

    #[tactic(auto, unfolding(crate::specs::Reading::put_at, crate::specs::Reading::two_texts_take_memory, crate::specs::Reading::three_texts_take_memory))]
    fn put(&mut self, alloc: Global) -> Result<Item, Unread>
        ensures gives { Gives result self.new (put_at self.old) }
        ensures memory { result ≡ Err Unread.NoMemory → IsTrue (three_texts_take_memory self.old) }
    {
        let key = self.text(alloc)?;
        let body = self.text(alloc)?;
        let meta = self.text(alloc)?;
        Ok(Item::Put { key, meta, body })
    }

    #[tactic(auto, unfolding(crate::specs::Reading::snap_at, crate::specs::Reading::snap_of, crate::specs::Reading::takes_memory_behind, crate::specs::Reading::snap_takes_memory_behind))]
    fn snap(&mut self, alloc: Global) -> Result<Verb, Unread>
        ensures gives { Gives result self.new (snap_at self.old) }
        ensures memory { result ≡ Err Unread.NoMemory → IsTrue (takes_memory_behind Keyword.Snap self.old) }
    {
        match self.keyword()? {
            Keyword::Latest => Ok(Verb::SnapLatest),
            Keyword::At => Ok(Verb::SnapAt {
                seq: self.number()?,
            }),
            Keyword::Get => Ok(Verb::SnapGet {
                key: self.text(alloc)?,
            }),
            Keyword::BySeq => Ok(Verb::SnapBySeq {
                seq: self.number()?,
            }),
            Keyword::Close => Ok(Verb::SnapClose),
            _ => Err(Unread::NotALine),
        }
    }

    /// Whether a list goes up.
    #[tactic(auto, unfolding(crate::specs::Reading::direction_at, crate::specs::Reading::direction_of))]
    fn direction(&mut self) -> Result<bool, Unread>
        ensures gives { Gives result self.new (direction_at self.old) }
        ensures never_memory { OnErr result (result ≡ Err Unread.NotALine) }
    {
        match self.keyword()? {
            Keyword::Up => Ok(true),
            Keyword::Down => Ok(false),
            _ => Err(Unread::NotALine),
        }
    }

    #[tactic(auto, unfolding(crate::specs::Reading::scan_at, crate::specs::Reading::takes_memory_behind))]
    fn scan(&mut self, alloc: Global) -> Result<Verb, Unread>
        ensures gives { Gives result self.new (scan_at self.old) }
        ensures memory { result ≡ Err Unread.NoMemory → IsTrue (takes_memory_behind Keyword.Scan self.old) }
    {
        let up = self.direction()?;
        let from = self.text(alloc)?;
        let count = self.count(MOST_LISTED)?;
        Ok(Verb::Scan { up, from, count })
    }

    #[tactic(auto, unfolding(crate::specs::Reading::seqs_at))]
    fn seqs(&mut self) -> Result<Verb, Unread>
        ensures gives { Gives result self.new (seqs_at self.old) }
        ensures never_memory { OnErr result (result ≡ Err Unread.NotALine) }
    {
        let up = self.direction()?;
        let from = self.number()?;
        let count = self.count(MOST_LISTED)?;
        Ok(Verb::Seqs { up, from, count })
    }

    /// The server's one line, or one of the five of play.
    #[tactic(auto, unfolding(crate::specs::Reading::compact_at, crate::specs::Reading::compact_of, crate::specs::Reading::copy_at))]
    fn compact(&mut self, server: bool) -> Result<Verb, Unread>
        ensures gives { Gives result self.new (compact_at server self.old) }
        ensures never_memory { OnErr result (result ≡ Err Unread.NotALine) }
    {
        if server {
            return Ok(Verb::Compact);
        }
        match self.keyword()? {
            Keyword::Begin => Ok(Verb::CompactBegin),
            Keyword::Copy => Ok(Verb::CompactCopy {
                count: self.count(MOST_COPIED)?,
            }),
            Keyword::Delta => Ok(Verb::CompactDelta),
            Keyword::Switch => Ok(Verb::CompactSwitch),
            Keyword::Cancel => Ok(Verb::CompactCancel),
            _ => Err(Unread::NotALine),
        }
    }
}
