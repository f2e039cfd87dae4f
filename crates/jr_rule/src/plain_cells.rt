//! A plain vector of words, which one thread has. No history is stored.
ghost use Rattle.std.specs.Prelude.{◌≡◌, ◌<◌, ◌^◌, vec_len, slice_index, true};
ghost use Rattle.jr_word.specs.Config.{in_limits, IsLimited, row_words};

use crate::cells::{Cells, StepKind};
use crate::parts::{Parts, load_each};
use crate::words::{first_element, first_header};
use jr_word::{Config, Elem, HeaderParts};

/// The words of a row, which thread 0 alone has, with `LAST` as the last serial.
#[derive(Drop)]
pub struct PlainCells<const LAST: u32> {
    /// The words of the row.
    pub words: Vec<u64>,
    /// The sizes of the room.
    pub config: Config,
    ghost limits: { in_limits config ≡ true },
    ghost limited: { IsLimited config },
    ghost few: { LAST < 2 ^ 32 },
    ghost wide: { vec_len words ≡ row_words config },
}

impl<const LAST: u32> PlainCells<LAST> {
    /// The word at a place of the row.
    fn word(&self, at: usize) -> u64
        requires { at < vec_len self.now.words }
        ensures { result ≡ slice_index self.now.words.items at }
    {
        self.words[at]
    }
}

impl<const LAST: u32> Cells<()> for PlainCells<LAST> {
    ghost use Rattle.jr_rule.specs.Sights.{sight_of_words};
    ghost use Rattle.jr_rule.specs.CellLaws.{unit_one, words_sound};

    ghost sight = { λ s. sight_of_words s.config LAST s.words.items };

    ghost goes = { λ s t acts. Unit {0} };

    ghost joints = { λ s. 0 };

    ghost are_at = { λ s place. Unit {0} };

    ghost one = { λ s place. unit_one };

    fn config(&self, _place: ()) -> Config {
        self.config
    }

    fn last(&self, _place: ()) -> u32 {
        LAST
    }

    fn thread(&self, _place: ()) -> u8 {
        0
    }

    fn headers(&self, _place: ()) -> usize {
        first_header(&self.config)
    }

    fn elements(&self, _place: ()) -> usize {
        first_element(&self.config)
    }

    fn load<T: StepKind>(&mut self, _place: (), at: usize) -> u64 {
        self.word(at)
    }

    fn store<T: StepKind>(&mut self, _place: (), at: usize, new: u64) {
        self.words[at] = new;
    }

    fn add<T: StepKind>(&mut self, _place: (), at: usize, more: u64) -> u64 {
        let found = self.word(at);
        self.words[at] = found.wrapping_add(more);
        found
    }

    fn take<T: StepKind>(&mut self, _place: (), at: usize, less: u64) -> u64 {
        let found = self.word(at);
        self.words[at] = found.wrapping_sub(less);
        found
    }

    fn exchange<T: StepKind>(&mut self, _place: (), at: usize, old: u64, new: u64) -> u64 {
        let found = self.word(at);
        if found == old {
            self.words[at] = new;
        }
        found
    }

    ghost sound = { λ s place at. words_sound s.config LAST s.words.items s.limits s.limited s.few };
}

impl<const LAST: u32> Parts<()> for PlainCells<LAST> {
    #[inline(always)]
    fn load_part<E: Elem>(
        &mut self,
        place: (),
        object: u16,
        header: HeaderParts,
        start: u32,
        elements: &mut [E],
    ) {
        load_each(self, place, object, header, start, elements);
    }
}
