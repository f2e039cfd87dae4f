//! The row of words, the passes at it, and the operations on a word.
//!
//! All threads of a room share one row of 64-bit words.
//! A thread reads or changes a word by the five operations below alone, which are atomic and sequentially consistent (`SeqCst`, in `atomic_table`), so that all of them have one order.
//! (To join two seats or to cut one is a load of the gate too, which ignores what it finds.) Nobody waits for anybody here, and there is no lock.
//!
//! THE WORDS: word 0 is the gate, word 1 the top of the array space;
//! then come the slots of global and weak references, the local words thread by thread, the headers of objects 1 upward, and the element words. A row begins as zeros:
//! an open gate, no word reserved, each slot free with serial 0, and no object.
//!
//! WHO CHANGES WHICH WORD, by its thread's role (loads are open to the roles named in `steps.rt`):
//!
//!     word      outside           within                              collecting
//!     gate      add 1; 0 to shut; take 1                              take the shut bit
//!               announce
//!     top                         exchange: more                      store
//!     slot                        exchange                            exchange: a weak one is cleared
//!     local                       store, in the thread's own
//!     header                      exchange: 0 for an object's         store: 0, or with a new place
//!     element                     store: own range, known object      store: a move
//!
//! Whoever knocks may take its 1 from the gate again, and whoever announced may take the announced bit from it, or exchange that bit alone for the shut bit: no other word is theirs.
//!
//! THE GATE counts, in its low bits, the threads that went in, and has one bit for shut and one for announced, never both. A thread goes in by adding 1. Where it found neither bit, it is within.
//! Else it knocks: it may only take its 1 away again. A collector shuts by an exchange of 0, that is open with nobody counted, for the shut bit alone.
//! So while a thread is within nobody collects, and while one collects nobody is within. It opens by taking the bit away, since others may have knocked meanwhile, whose count stays.
//! Or it announces first that it will shut, by an exchange of the word of an open gate for the same with the announced bit: from then on whoever comes knocks, and those within may go on and leave.
//! It shuts by an exchange of the announced bit alone for the shut bit, so once the last has left, or takes the announced bit away again.
//! What a thread learns of objects or reserves in a stay (from its entry to its exit) holds until that exit, and no longer.
//!
//! A SLOT'S LIFE: it is free with a serial; claimed, by an exchange of just that word for kind, serial and object of a reference; read, by loads;
//! freed, by an exchange of just the word that a look in this stay found, for free with the next serial; and, after its last serial, retired, which no exchange expects.
//! Claims and frees of several threads may race: one exchange finds the word, and the others find that they lost.
//! A collector that clears a weak reference takes its object alone, so that its handle stays its own.
//!
//! WHY A STALE HANDLE NEVER MATCHES: a handle is a kind, a serial and an index, and a look compares kind and serial with the slot's word.
//! A slot's serial only goes up, by one at each deletion, and never wraps.
//! So each serial is given once, the word of a deleted reference never comes back, and an exchange that finds the word it expects knows that the slot was not freed and claimed in between:
//! there is no ABA.
//!
//! A LOCAL WORD is the object of a local reference, or 0. Its own thread alone stores it, and a collector alone loads it. The thread has its own list of what stands there.
//!
//! SPACE: a thread within loads the top and exchanges it for more; the words between are its own, since the top only rises while anybody is within.
//! It stores them, and publishes them by an exchange of a header, which is 0 where the number has no object, for kind, length and place.
//! Whoever is within and knows the header from the same stay may load and store the elements, of a string only load.
//! Words that are reserved and not published when their thread leaves belong to nobody, until a collection sets the top.
//!
//! A COLLECTION: while the gate is shut, all other words are the collector's alone.
//! It loads slots, local words, headers and elements, clears weak references to what nothing reaches, stores 0 in the headers of such objects, moves an object's elements down, from the first on,
//! and then stores its header with the new place, sets the top to the sum of the lengths, and opens the gate. No thread knows a header from before: each was outside in between.
//!
//! What always holds of the words is `specs/Rule.antt`, with what each word says in `specs/Image.antt`; `docs/STEP.md` tells how one step is proved.
ghost use Rattle.std.specs.Prelude.{◌≡◌, ◌+◌, ◌<◌, [], ◌∷◌, IfOk, IfErr, true};
ghost use Rattle.jr_word.specs.Config.{in_limits, row_words};
ghost use Rattle.jr_model.specs.declared.event.Role.TheVariants.{Outside};
ghost use Rattle.jr_steps.specs.Holdings.{empty};
ghost use Rattle.jr_rule.specs.Image.{header_at as place_of_header, element_at as place_of_element};
ghost use Rattle.jr_rule.specs.Sights.{IsSeatOf};
ghost use Rattle.jr_rule.specs.Rule.{crowd_of, HasCounted, IsAlone, IsCrowd, IsNote, IsSeated, IsSized, joints_at, once_more, stepping_pass, sizes, known, view_of, newcomers, others_of};

use crate::cells::{Cells, StepKind};
use crate::closing::ClosedWords;
use crate::parts::{Parts, load_each};
use crate::pass::Pass;
use crate::room::Room;
use crate::rule::{
    Again, Counting, Deal, Gather, Jot, Learning, LeaveFirst, Meeting, Rule, Sizes, Tell, View,
};
use crate::summing::summary;
use crate::words::{GATE, all_counted, first_element, first_header};
use atomic_table::{Seat, Table};
use jr_model::{Role, Summary};
use jr_word::{Config, Elem, GateWord, HeaderParts};
use std::alloc::{AllocError, Global};

/// One row of atomic words, which the holders of its passes share.
#[derive(Drop)]
pub struct Row {
    table: Table<(), View, Sizes, Rule, Global>,
    config: Config,
    last: u32,
    /// Where the header of object 1 is in the row.
    headers: usize,
    /// Where the first word of array space is in the row.
    elements: usize,
    ghost key: { table.shared.key ≡ sizes config last },
    ghost no_slots: { table.shared.table_id.slots ≡ 0 },
    ghost words: { table.shared.table_id.words ≡ row_words config },
    ghost sized: { IsSized config last },
    ghost first_header: { headers ≡ place_of_header config 1 },
    ghost first_element: { elements ≡ place_of_element config 0 },
}

impl Row {
    ghost use Rattle.std.specs.Prelude.{map, vec_capacity, vec_len, All};
    ghost use Rattle.jr_rule.specs.Passes.{AreOpened, IsOpened, IsAt, SumsUp, EndsAll, gathered, known_of};
    ghost use Rattle.jr_rule.specs.Parting.{HaveParted, IsParted, no_seat};

    /// A row of zeros, with one pass a thread, from thread 0 upward.
    pub(crate) fn open(
        alloc: Global,
        config: Config,
        last: u32,
    ) -> Result<(Row, Vec<Pass>), AllocError>
        requires { in_limits config ≡ true }
        ensures { IfOk result (λ r. AreOpened config last r.0 r.1.items) }
    {
        let words = vec![in alloc; 0u64; config.row_words()]?;
        let (table, seat) = Table::of_words(alloc, words.as_slice(), &Sizes { config, last })?;
        let headers = first_header(&config);
        let elements = first_element(&config);
        let row = Row {
            table,
            config,
            last,
            headers,
            elements,
        };
        let passes = row.deal_all(alloc, seat)?;
        Ok((row, passes))
    }

    /// One pass a thread, from thread 0 upward.
    fn deal_all(&self, alloc: Global, mut seat: Seat<(), View>) -> Result<Vec<Pass>, AllocError>
        requires room { seat.table_id ≡ self.now.table.shared.table_id }
        requires all { seat.me ≡ (view_of (newcomers self.now.config self.now.last self.now.config.threads 0), []) }
        ensures { IfOk result (λ passes. AreOpened self.now.config self.now.last self.now passes.items) }
    {
        let mut passes = Vec::with_capacity(alloc, self.config.threads as usize)?;
        for thread in 0..self.config.threads {
            passes.push(self.deal(&mut seat, thread as u8))?;
        }
        Ok(passes)
    }

    /// The seat's first pass, which is this thread's.
    fn deal(&self, seat: &mut Seat<(), View>, thread: u8) -> Pass
        requires room { seat.old.table_id ≡ self.now.table.shared.table_id }
        requires thread { thread < self.now.config.threads }
        requires first { seat.old.me ≡ (view_of (known self.now.config self.now.last thread [] empty 0 ∷ others_of seat.old.me.0.passes), []) }
        ensures seat { (seat.new.table_id ≡ seat.old.table_id) × (seat.new.me ≡ (view_of (others_of seat.old.me.0.passes), [])) }
        ensures pass { IsOpened self.now result × (result.thread ≡ thread) }
    {
        let dealt = self.table.shared.split_seat::<Deal>(seat);
        Pass {
            seat: dealt,
            thread,
            role: Role::Outside,
            fresh: true,
            hint: 0,
        }
    }

    /// What stands at the end of all passes of the seat.
    pub(crate) fn end(self, seat: Seat<(), View>) -> Summary
        requires room { seat.table_id ≡ self.table.shared.table_id }
        requires seated { IsSeated seat.me }
        requires first { ((stepping_pass seat.me).config ≡ self.config) × ((stepping_pass seat.me).last ≡ self.last) }
        ensures { EndsAll (stepping_pass seat.me) (others_of seat.me.0.passes) result }
    {
        let Row {
            table,
            config,
            last: _,
            headers: _,
            elements: _,
        } = self;
        let words = ClosedWords {
            closed: table.close_with(seat),
        };
        let summary = summary(&words, &config);
        let ClosedWords { closed } = words;
        closed.free();
        summary
    }

    /// What stands at the end of a pass.
    pub(crate) fn close(self, pass: Pass) -> Summary
        requires { IsAt self pass }
        ensures { SumsUp (known_of pass) result }
    {
        let Pass {
            seat,
            thread: _,
            role: _,
            fresh: _,
            hint: _,
        } = pass;
        self.end(seat)
    }

    /// The pass at the first seat and those at the rest look at the gate together, at the first seat: how many threads are inside, knocking, announcing or collecting.
    fn count(&self, first: &mut Seat<(), View>, rest: Seat<(), View>) -> u32
        requires room { first.old.table_id ≡ self.now.table.shared.table_id }
        requires same { rest.table_id ≡ first.old.table_id }
        requires first { IsAlone first.old.me }
        requires rest { IsCrowd rest.me }
        ensures room { first.new.table_id ≡ first.old.table_id }
        ensures counts { HasCounted (crowd_of 0 first.old.me [] rest.me) first.new.me result }
    {
        let shared = &self.table.shared;
        shared.join_seat::<Gather>(first, rest);
        let found = shared.load::<Counting>(first, GATE);
        all_counted(GateWord::parts(found).unwrap())
    }

    /// The pass at the seat and these look at the gate together, and stay at one seat where nobody is inside. Else they part again.
    pub(crate) fn count_beside(
        &self,
        mut seat: Seat<(), View>,
        others: Vec<Pass>,
    ) -> Result<Seat<(), View>, Parted>
        requires room { seat.table_id ≡ self.now.table.shared.table_id }
        requires first { IsAlone seat.me }
        requires others { All (λ p. IsAt self.now p) others.items }
        ensures ok { IfOk result (λ s. (s.table_id ≡ seat.table_id) × HasCounted (crowd_of (gathered others.items + 1) seat.me (map known_of others.items) no_seat) s.me 0) }
        ensures err { IfErr result (λ p. IsParted seat others.items p) }
    {
        let none = self.table.shared.split_seat::<LeaveFirst>(&mut seat);
        self.count_all(seat, none, others)
    }

    /// The same, where more passes sit at the rest.
    fn count_all(
        &self,
        mut first: Seat<(), View>,
        rest: Seat<(), View>,
        mut others: Vec<Pass>,
    ) -> Result<Seat<(), View>, Parted>
        requires room { first.table_id ≡ self.now.table.shared.table_id }
        requires same { rest.table_id ≡ first.table_id }
        requires first { IsAlone first.me }
        requires rest { IsCrowd rest.me }
        requires others { All (λ p. IsAt self.now p) others.items }
        ensures ok { IfOk result (λ s. (s.table_id ≡ first.table_id) × HasCounted (crowd_of (gathered others.items) first.me (map known_of others.items) rest.me) s.me 0) }
        ensures err { IfErr result (λ p. HaveParted first rest others.items (vec_len others) (vec_capacity others) p) }
    {
        let shared = &self.table.shared;
        let Some(pass) = others.pop() else {
            let inside = self.count(&mut first, rest);
            if inside == 0 {
                return Ok(first);
            }
            let rest = shared.split_seat::<LeaveFirst>(&mut first);
            return Err(Parted {
                inside,
                first,
                rest,
                others,
            });
        };
        let Pass {
            mut seat,
            thread,
            role,
            fresh,
            hint,
        } = pass;
        shared.join_seat::<Gather>(&mut seat, rest);
        match self.count_all(first, seat, others) {
            Ok(joined) => Ok(joined),
            Err(mut parted) => {
                let seat = shared.split_seat::<Deal>(&mut parted.rest);
                parted.others.push_reserved(Pass {
                    seat,
                    thread,
                    role,
                    fresh,
                    hint,
                });
                Err(parted)
            }
        }
    }
}

/// Passes that looked at the gate together and have parted again.
#[derive(Drop)]
pub(crate) struct Parted {
    /// How many threads are inside, knocking, announcing or collecting.
    pub(crate) inside: u32,
    /// The seat of the first pass, which looked.
    pub(crate) first: Seat<(), View>,
    /// That of those which were not among the others.
    pub(crate) rest: Seat<(), View>,
    /// The others, as they stood.
    pub(crate) others: Vec<Pass>,
}

/// A seat at the words of a room, on which other threads step too.
#[derive(Drop)]
pub struct RoomCells {
    pub(crate) seat: Seat<(), View>,
    pub(crate) thread: u8,
}

impl RoomCells {
    ghost use Rattle.std.specs.Prelude.{◌≡◌, ℕ};
    ghost use Rattle.jr_model.specs.declared.event.Act.TheVariants.{Meet};
    ghost use Rattle.jr_model.specs.History.{HasMet};
    ghost use Rattle.jr_steps.specs.Knowing.{view};
    ghost use mathlib.Core.List.{IsPrefix};
    ghost use Rattle.jr_rule.specs.Rule.{IsAlone, LooksBy, note_of, noted_pass, stepping_pass};

    /// The seat and another one of the room are joined, look at the gate together, and part.
    pub(crate) fn meet<const LAST: u32>(
        &mut self,
        room: &Room<LAST>,
        other: Seat<(), View>,
    ) -> Seat<(), View>
        requires there { IsSeatOf room.now.row.table.shared.table_id room.now.row.config room.now.row.last self.old.seat.table_id self.old.seat.me self.old.thread }
        requires row { other.table_id ≡ self.old.seat.table_id }
        requires alone { IsAlone other.me }
        ensures there { IsSeatOf room.now.row.table.shared.table_id room.now.row.config room.now.row.last self.new.seat.table_id self.new.seat.me self.new.thread }
        ensures same { (self.new.thread ≡ self.old.thread) × (self.new.seat.table_id ≡ self.old.seat.table_id) }
        ensures looked { LooksBy (Meet ∷ []) self.old.seat.me self.new.seat.me }
        ensures met { HasMet (view (stepping_pass other.me)) (view (stepping_pass self.new.seat.me)) }
        ensures other { (result.table_id ≡ other.table_id) × (result.me ≡ (view_of (stepping_pass other.me ∷ []), [])) }
        ensures counted { joints_at self.new.seat.me ≡ joints_at self.old.seat.me + joints_at other.me + 2 }
    {
        let shared = &room.row.table.shared;
        shared.join_seat::<Gather>(&mut self.seat, other);
        shared.load::<Meeting>(&mut self.seat, GATE);
        shared.split_seat::<LeaveFirst>(&mut self.seat)
    }

    /// A note of what the seat's pass has seen, in a seat of its own.
    pub(crate) fn note<const LAST: u32>(&mut self, room: &Room<LAST>) -> Seat<(), View>
        requires there { IsSeatOf room.now.row.table.shared.table_id room.now.row.config room.now.row.last self.old.seat.table_id self.old.seat.me self.old.thread }
        ensures same { (self.new.thread ≡ self.old.thread) × (self.new.seat.table_id ≡ self.old.seat.table_id) × (self.new.seat.me ≡ (once_more self.old.seat.me.0, self.old.seat.me.1)) }
        ensures note { (result.table_id ≡ self.old.seat.table_id) × (result.me ≡ (note_of self.old.seat.me.0, [])) }
    {
        let shared = &room.row.table.shared;
        shared.split_seat::<Jot>(&mut self.seat)
    }

    /// The seat and a note's are joined, and look at the gate together, which is no event; then nothing is left of the note.
    pub(crate) fn learn<const LAST: u32>(&mut self, room: &Room<LAST>, note: Seat<(), View>)
        requires there { IsSeatOf room.now.row.table.shared.table_id room.now.row.config room.now.row.last self.old.seat.table_id self.old.seat.me self.old.thread }
        requires row { note.table_id ≡ self.old.seat.table_id }
        requires note { IsNote note.me }
        ensures there { IsSeatOf room.now.row.table.shared.table_id room.now.row.config room.now.row.last self.new.seat.table_id self.new.seat.me self.new.thread }
        ensures same { (self.new.thread ≡ self.old.thread) × (self.new.seat.table_id ≡ self.old.seat.table_id) }
        ensures looked { LooksBy [] self.old.seat.me self.new.seat.me }
        ensures learned { IsPrefix (noted_pass note.me).seen (stepping_pass self.new.seat.me).seen }
        ensures counted { joints_at self.new.seat.me ≡ joints_at self.old.seat.me + joints_at note.me + 1 }
    {
        let shared = &room.row.table.shared;
        shared.join_seat::<Gather>(&mut self.seat, note);
        shared.load::<Learning>(&mut self.seat, GATE);
    }

    /// The same, but the note leaves the seat again, as it was.
    pub(crate) fn learn_again<const LAST: u32>(
        &mut self,
        room: &Room<LAST>,
        note: Seat<(), View>,
    ) -> Seat<(), View>
        requires there { IsSeatOf room.now.row.table.shared.table_id room.now.row.config room.now.row.last self.old.seat.table_id self.old.seat.me self.old.thread }
        requires row { note.table_id ≡ self.old.seat.table_id }
        requires note { IsNote note.me }
        ensures there { IsSeatOf room.now.row.table.shared.table_id room.now.row.config room.now.row.last self.new.seat.table_id self.new.seat.me self.new.thread }
        ensures same { (self.new.thread ≡ self.old.thread) × (self.new.seat.table_id ≡ self.old.seat.table_id) }
        ensures looked { LooksBy [] self.old.seat.me self.new.seat.me }
        ensures learned { IsPrefix (noted_pass note.me).seen (stepping_pass self.new.seat.me).seen }
        ensures note { (result.table_id ≡ note.table_id) × (result.me ≡ note.me) }
        ensures counted { joints_at self.new.seat.me ≡ joints_at self.old.seat.me + joints_at note.me + 2 }
    {
        let table = &room.row.table.shared;
        table.join_seat::<Gather>(&mut self.seat, note);
        let again = table.split_seat::<Again>(&mut self.seat);
        table.load::<Learning>(&mut self.seat, GATE);
        again
    }

    /// The same with the seat of other cells of the room, which have it again then. What leaves them meanwhile is their pass, and the seat that it left is spent.
    pub(crate) fn meet_cells<const LAST: u32>(&mut self, room: &Room<LAST>, other: &mut RoomCells)
        requires there { IsSeatOf room.now.row.table.shared.table_id room.now.row.config room.now.row.last self.old.seat.table_id self.old.seat.me self.old.thread }
        requires row { other.old.seat.table_id ≡ self.old.seat.table_id }
        requires alone { IsAlone other.old.seat.me }
        ensures there { IsSeatOf room.now.row.table.shared.table_id room.now.row.config room.now.row.last self.new.seat.table_id self.new.seat.me self.new.thread }
        ensures same { (self.new.thread ≡ self.old.thread) × (self.new.seat.table_id ≡ self.old.seat.table_id) }
        ensures looked { LooksBy (Meet ∷ []) self.old.seat.me self.new.seat.me }
        ensures met { HasMet (view (stepping_pass other.old.seat.me)) (view (stepping_pass self.new.seat.me)) }
        ensures other { (other.new.thread ≡ other.old.thread) × (other.new.seat.table_id ≡ other.old.seat.table_id) × (other.new.seat.me ≡ (view_of (stepping_pass other.old.seat.me ∷ []), [])) }
        ensures counted { joints_at self.new.seat.me ≡ joints_at self.old.seat.me + joints_at other.old.seat.me + 3 }
    {
        let shared = &room.row.table.shared;
        let pass = shared.split_seat::<Deal>(&mut other.seat);
        other.seat = self.meet(room, pass);
    }
}

impl<'a, const LAST: u32> Cells<&'a Room<LAST>> for RoomCells {
    ghost use Rattle.std.specs.Prelude.{◌≡◌};
    ghost use Rattle.jr_steps.specs.Knowing.{Goes};
    ghost use Rattle.jr_rule.specs.Sights.{sight_of_seat};
    ghost use Rattle.jr_rule.specs.CellLaws.{seat_one, seat_sound};

    ghost sight = { λ s. sight_of_seat s.seat.table_id s.seat.me };

    ghost goes = { λ s t acts. Goes (stepping_pass s.seat.me) acts (stepping_pass t.seat.me) };

    ghost joints = { λ s. joints_at s.seat.me };

    ghost are_at = { λ s room. IsSeatOf room.now.row.table.shared.table_id room.now.row.config room.now.row.last s.seat.table_id s.seat.me s.thread };

    ghost one = { λ s room. seat_one };

    fn config(&self, place: &'a Room<LAST>) -> Config {
        place.row.config
    }

    fn last(&self, _place: &'a Room<LAST>) -> u32 {
        LAST
    }

    fn thread(&self, _place: &'a Room<LAST>) -> u8 {
        self.thread
    }

    fn headers(&self, place: &'a Room<LAST>) -> usize {
        place.row.headers
    }

    fn elements(&self, place: &'a Room<LAST>) -> usize {
        place.row.elements
    }

    fn load<T: StepKind>(&mut self, place: &'a Room<LAST>, at: usize) -> u64 {
        let shared = &place.row.table.shared;
        shared.load::<Tell<T>>(&mut self.seat, at)
    }

    fn store<T: StepKind>(&mut self, place: &'a Room<LAST>, at: usize, new: u64) {
        let shared = &place.row.table.shared;
        shared.store::<Tell<T>>(&mut self.seat, at, new);
    }

    fn add<T: StepKind>(&mut self, place: &'a Room<LAST>, at: usize, more: u64) -> u64 {
        let shared = &place.row.table.shared;
        shared.fetch_add::<Tell<T>>(&mut self.seat, at, more)
    }

    fn take<T: StepKind>(&mut self, place: &'a Room<LAST>, at: usize, less: u64) -> u64 {
        let shared = &place.row.table.shared;
        shared.fetch_sub::<Tell<T>>(&mut self.seat, at, less)
    }

    fn exchange<T: StepKind>(
        &mut self,
        place: &'a Room<LAST>,
        at: usize,
        old: u64,
        new: u64,
    ) -> u64 {
        let shared = &place.row.table.shared;
        shared.compare_exchange::<Tell<T>>(&mut self.seat, at, old, new)
    }

    ghost sound = { λ s place at. seat_sound at };
}

impl<'a, const LAST: u32> Parts<&'a Room<LAST>> for RoomCells {
    #[inline(always)]
    fn load_part<E: Elem>(
        &mut self,
        place: &'a Room<LAST>,
        object: u16,
        header: HeaderParts,
        start: u32,
        elements: &mut [E],
    ) {
        load_each(self, place, object, header, start, elements);
    }
}
