//! What stands in a room, counted over its words.
ghost use Rattle.std.specs.Prelude.{◌≡◌, ◌<◌, ℕ, List, length, slice_index};
ghost use Rattle.jr_word.specs.Config.{IsLimited};
ghost use Rattle.jr_model.specs.State.{references, summary as summary_of};
ghost use Rattle.jr_model.specs.History.{History, state};
ghost use Rattle.jr_rule.specs.RowHistories.{IsHistoryOf, HasHistory};

use crate::words::{TOP, header_at, is_reference, slot_at};
use jr_model::Summary;
use jr_word::{Config, RefKind, SlotWord, TopWord};

/// A row of words that can be read.
pub(crate) trait RowWords {
    ghost words: { Self → List ℕ };

    /// The word at a place of the row.
    fn word(&self, at: usize) -> u64
        requires { at < length (words self.now) }
        ensures { result ≡ slice_index (words self.now) at };
}

impl RowWords for Vec<u64> {
    ghost words = { λ v. v.items };

    fn word(&self, at: usize) -> u64 {
        self[at]
    }
}

/// What stands in the room. It takes no memory.
pub(crate) fn summary<W: RowWords>(row: &W, config: &Config) -> Summary
    requires limited { IsLimited config.now }
    requires history { HasHistory config.now (W.words row.now) }
    ensures { (last : ℕ) (log : History) → IsHistoryOf config.now (W.words row.now) last log → result ≡ summary_of config.now last (state log) }
{
    let top = TopWord::parts(row.word(TOP)).unwrap();
    Summary {
        globals: references(row, config, RefKind::Global),
        weaks: references(row, config, RefKind::Weak),
        live: objects(row, config),
        used: top.used,
    }
}

/// How many references of the kind stand.
fn references<W: RowWords>(row: &W, config: &Config, kind: RefKind) -> u32
    requires limited { IsLimited config.now }
    requires history { HasHistory config.now (W.words row.now) }
    ensures { (last : ℕ) (log : History) → IsHistoryOf config.now (W.words row.now) last log → result ≡ references config.now last kind (state log) }
{
    let mut count = 0;
    for index in 0..config.slots {
        let word = row.word(slot_at(index as u16));
        if is_reference(kind, SlotWord::parts(word).unwrap()) {
            count += 1;
        }
    }
    count
}

/// How many objects are present.
fn objects<W: RowWords>(row: &W, config: &Config) -> u32
    requires limited { IsLimited config.now }
    requires history { HasHistory config.now (W.words row.now) }
    ensures { (last : ℕ) (log : History) → IsHistoryOf config.now (W.words row.now) last log → result ≡ (summary_of config.now last (state log)).live }
{
    let mut count = 0;
    for before in 0..config.objects {
        if row.word(header_at(config, before + 1)) != 0 {
            count += 1;
        }
    }
    count
}
