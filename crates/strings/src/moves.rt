// MVW and MBT after their count was read: the tests of both ranges, then one element after another.
ghost use Rattle.std.specs.Prelude.{◌≡◌, ℕ, ◌+◌, ◌%◌, ◌<◌, ◌≤◌, not, ◌&&◌, ◌||◌, List, length, ◌==◌, nat_lt};
ghost use Rattle.acts.specs.Acts.{Act, Performs, exec, fin, done, on_tested};
ghost use Rattle.strings.specs.Copies.{Stretch, Test, Answers, ToldByPages, first_trouble, InMemory, lead, place_in, index_of, places_in, carried, copies};
ghost use Rattle.strings.specs.Strings.{word_at, purpose_of, touches, opens_all, present_all, tested, carrying, moved, past_ranges, move_act};

use crate::strings::{Element, count_at, is_none};
use acts::record::Registers;
use acts::replies::Stop;
use code::codes::Register;
use maps::pages::{Map, Maps, Place, Purpose, is_protecting};
use maps::troubles::Trouble;
use word::bits::{byte_of, with_byte};

// Whether n addresses from `first` on, of `round` in all, come to one below `few`.
fn comes_low(few: u16, round: u32, first: u16, n: u16) -> bool
    ensures { result ≡ (not (n == 0) && (nat_lt first few || nat_lt round (first + n))) }
{
    n != 0 && (first < few || round < u32::from(first) + u32::from(n))
}

impl Element {
    // What a store of an element needs.
    fn purpose(self) -> Purpose
        ensures { result ≡ purpose_of self }
    {
        match self {
            Element::Word => Purpose::Store,
            Element::Byte => Purpose::Both,
        }
    }

    // How many of the elements left lie on the page of the first, from there on.
    fn stretch(self, at: u16, left: u16) -> u16
        ensures { Stretch self at left result }
    {
        match self {
            Element::Word => left.min(1024 - at % 1024),
            Element::Byte => left.min(2048 - at % 2048),
        }
    }

    // The place in memory of an element that an access reaches.
    #[tactic(auto, using(crate::proofs::Ranges::leads, maps::proofs::Laws::place_below))]
    fn place(
        self,
        map: Map,
        purpose: Purpose,
        at: u16,
        r: Registers,
        pages: &[u16],
        memory: &[u16],
    ) -> usize
        requires { InMemory pages.now r.wmap (length memory.now) self map purpose at }
        ensures { result ≡ place_in self (lead pages.now r.wmap map (word_at self at)) at }
    {
        let maps = Maps {
            pages,
            wmap: r.wmap,
        };
        let word = self.word_at(at);
        let Ok(Place::Memory(index)) = maps.place(map, purpose, word, memory.len()) else {
            unreachable!();
        };
        match self {
            Element::Word => index,
            Element::Byte => index * 2 + (at % 2) as usize,
        }
    }

    // One element, by its place in memory.
    fn copy_one(self, source: usize, target: usize, memory: &mut [u16])
        requires { (index_of self source < length memory.old) × (index_of self target < length memory.old) }
        ensures { memory.new ≡ carried self source target memory.old }
    {
        match self {
            Element::Word => memory[target] = memory[source],
            Element::Byte => {
                let from = source / 2;
                let to = target / 2;
                let byte = byte_of(source % 2 == 1, memory[from]);
                memory[to] = with_byte(target % 2 == 1, memory[to], byte);
            }
        }
    }

    // One element after another, each seeing the earlier stores. The bound, here and below, ties three numbers to memory as
    // lent, which no type holds without the loan. By an index, as no iterator lends one slice to read and to write.
    #[tactic(auto, using(crate::proofs::Copying::copied_on), unfolding(crate::specs::Copies::copies))]
    fn copy_each(self, source: usize, target: usize, n: u16, memory: &mut [u16])
        requires { (source + n ≤ places_in self memory.old) × (target + n ≤ places_in self memory.old) }
        ensures { memory.new ≡ copies self source target n memory.old }
    {
        for k in 0..n as usize {
            self.copy_one(source + k, target + k, memory);
        }
    }
}

// Words to the places that lie one on: each is the first word, which is read once.
#[tactic(auto, using(crate::proofs::Copying::filled_all))]
fn fill_words(source: usize, n: u16, memory: &mut [u16])
    requires { source + 1 + n ≤ length memory.old }
    ensures { memory.new ≡ copies Element.Word source (source + 1) n memory.old }
{
    let first = memory[source];
    memory[source + 1..source + 1 + n as usize].fill(first);
}

// Words, each seeing the earlier stores.
fn copy_words(source: usize, target: usize, n: u16, memory: &mut [u16])
    requires { (source + n ≤ places_in Element.Word memory.old) × (target + n ≤ places_in Element.Word memory.old) }
    ensures { memory.new ≡ copies Element.Word source target n memory.old }
{
    if target == source + 1 {
        fill_words(source, n, memory);
    } else {
        Element::Word.copy_each(source, target, n, memory);
    }
}

// Bytes whose places are both even or both odd: the words between the first byte and the last are
// copied whole.
#[tactic(auto, using(crate::proofs::Alike::copies_alike))]
fn copy_bytes(source: usize, target: usize, n: u16, memory: &mut [u16])
    requires { (source % 2 ≡ target % 2) × (source + n ≤ places_in Element.Byte memory.old) × (target + n ≤ places_in Element.Byte memory.old) }
    ensures { memory.new ≡ copies Element.Byte source target n memory.old }
{
    let head = n.min((source % 2) as u16);
    Element::Byte.copy_each(source, target, head, memory);
    let i = source + head as usize;
    let j = target + head as usize;
    let words = (n - head) / 2;
    copy_words(i / 2, j / 2, words, memory);
    let done = words as usize * 2;
    Element::Byte.copy_each(i + done, j + done, (n - head) % 2, memory);
}

// A stretch of elements, each seeing the earlier stores. A call: drawn into the step, its loops took up to twice as long, by what
// else was drawn in there.
#[inline(never)]
fn copy_stretch(u: Element, source: usize, target: usize, n: u16, memory: &mut [u16])
    requires { (source + n ≤ places_in u memory.old) × (target + n ≤ places_in u memory.old) }
    ensures { memory.new ≡ copies u source target n memory.old }
{
    match u {
        Element::Word => copy_words(source, target, n, memory),
        Element::Byte => {
            if source % 2 == target % 2 {
                copy_bytes(source, target, n, memory);
            } else {
                Element::Byte.copy_each(source, target, n, memory);
            }
        }
    }
}

// Elements one after another, through a map.
#[derive(Clone, Copy)]
struct Span {
    element: Element,
    map: Map,
    at: u16,
    count: u16,
}

impl Span {
    // Whether an element lies in A or B.
    #[tactic(auto, using(crate::proofs::Touching::touches_ends, crate::proofs::Touching::touches_data))]
    fn touches_registers(self) -> bool
        ensures { result ≡ touches self.element self.map self.at self.count }
    {
        match self.map {
            Map::Execute => match self.element {
                Element::Word => comes_low(2, 0o100000, self.at % 0o100000, self.count),
                Element::Byte => comes_low(4, 0o200000, self.at, self.count),
            },
            Map::Data1 => false,
            Map::Data2 => false,
        }
    }

    // The first trouble that a test of words meets, where the last word on each page tells of those before it: the
    // range is walked a page at a time.
    // Drawn into its callers, as test_open and test_present are: called, they cost a short move a fifth more.
    #[inline(always)]
    #[tactic(auto, unfolding(crate::specs::Copies::first_trouble))]
    fn test_pages<F: Fn(u16) -> Result<(), Trouble>>(self, test: F) -> Result<(), Trouble>
        requires { F.IsAlwaysCallable test }
        ensures { (T : Test) → Answers T (F.post test) → ToldByPages T → result ≡ first_trouble T self.element self.at self.count }
    {
        let mut next = self.at;
        let mut left = self.count;
        while left > 0 {
            let stretch = self.element.stretch(next, left);
            let last = self.element.along(next, stretch - 1);
            test(self.element.word_at(last))?;
            next = self.element.along(next, stretch);
            left -= stretch;
        }
        Ok(())
    }

    // Whether every element is open to a purpose: with protection off nothing is closed.
    #[inline(always)]
    fn test_open(self, purpose: Purpose, r: Registers, pages: &[u16]) -> Result<(), Trouble>
        ensures { (m : List ℕ) (k : Act) → exec pages.now (opens_all self.element self.map purpose self.at self.count k) r m ≡ on_tested result (exec pages.now k r m) }
    {
        if !is_protecting(r.wmap) {
            return Ok(());
        }
        self.test_pages(|word| {
            let maps = Maps {
                pages,
                wmap: r.wmap,
            };
            if maps.is_open(self.map, purpose, word) {
                Ok(())
            } else {
                Err(Trouble::Closed)
            }
        })
    }

    // Whether every element is present, or else the first absent page.
    #[inline(always)]
    fn test_present(self, r: Registers, pages: &[u16], memory: &[u16]) -> Result<(), Trouble>
        ensures { (k : Act) → exec pages.now (present_all self.element self.map self.at self.count k) r memory.now ≡ on_tested result (exec pages.now k r memory.now) }
    {
        self.test_pages(|word| {
            let maps = Maps {
                pages,
                wmap: r.wmap,
            };
            maps.presence(self.map, word, memory.len())
        })
    }
}

// What is moved, from where to where, each through a map, and how many of it: both ranges have one element and one count, so
// that they are not two spans.
#[derive(Clone, Copy, Debug, PartialEq, Eq)]
pub struct Move {
    pub element: Element,
    pub from: Map,
    pub to: Map,
    pub source: u16,
    pub target: u16,
    pub count: u16,
}

impl Move {
    // The tests of both ranges: any element in A or B, then any closed page, then any absent one.
    #[tactic(auto, unfolding(acts::specs::Acts::exec))]
    fn test(self, r: Registers, pages: &[u16], memory: &[u16]) -> Result<(), Trouble>
        ensures { (k : Act) → exec pages.now (tested self k) r memory.now ≡ on_tested result (exec pages.now k r memory.now) }
    {
        let source = Span {
            element: self.element,
            map: self.from,
            at: self.source,
            count: self.count,
        };
        let target = Span {
            element: self.element,
            map: self.to,
            at: self.target,
            count: self.count,
        };
        if source.touches_registers() || target.touches_registers() {
            return Err(Trouble::InRegisters);
        }
        source.test_open(Purpose::Read, r, pages)?;
        target.test_open(self.element.purpose(), r, pages)?;
        source.test_present(r, pages, memory)?;
        target.test_present(r, pages, memory)
    }

    // After the tests: one element after another, upward, a stretch of them on one page of each range at a
    // time. A stretch is as long as both pages allow, so no count of turns is known before.
    #[tactic(auto, using(crate::proofs::Ranges::ready), unfolding(crate::specs::Strings::moving))]
    fn copy(self, r: Registers, pages: &[u16], memory: &mut [u16])
        requires { exec pages.now (tested self (fin (λ t. t))) r memory.old ≡ done r memory.old }
        ensures { (k : Act) → exec pages.now (carrying self k) r memory.old ≡ exec pages.now k r memory.new }
    {
        let u = self.element;
        let mut source = self.source;
        let mut target = self.target;
        let mut left = self.count;
        while left > 0 {
            let i = u.place(self.from, Purpose::Read, source, r, pages, memory);
            let j = u.place(self.to, u.purpose(), target, r, pages, memory);
            let stretch = u.stretch(target, u.stretch(source, left));
            copy_stretch(u, i, j, stretch, memory);
            source = u.along(source, stretch);
            target = u.along(target, stretch);
            left -= stretch;
        }
    }

    // The whole of a move, with the registers that follow it.
    #[tactic(auto, unfolding(acts::specs::Acts::exec))]
    fn carry_out(
        self,
        after: Registers,
        r: Registers,
        pages: &[u16],
        memory: &mut [u16],
    ) -> Result<Registers, Stop>
        ensures { (f : Registers → Registers) → f r ≡ after → Performs pages.now (moved self (fin f)) r memory.old result memory.new }
    {
        self.test(r, pages, memory)?;
        self.copy(r, pages, memory);
        Ok(after)
    }

    // A and B end past their ranges.
    fn past_ranges(self, r: Registers) -> Registers
        ensures { result ≡ past_ranges self r }
    {
        let u = self.element;
        r.with_register(Register::A, u.along(self.source, self.count))
            .with_register(Register::B, u.along(self.target, self.count))
            .ahead(3)
    }
}

// MVW and MBT.
#[tactic(auto, using(crate::proofs::Comparisons::ended))]
pub fn move_string(
    u: Element,
    r: Registers,
    pages: &[u16],
    memory: &mut [u16],
) -> Result<Registers, Stop>
    ensures { Performs pages.now (move_act u r) r memory.old result memory.new }
{
    let count = count_at(r, pages, memory)?;
    if is_none(count) {
        return Ok(r.ahead(3));
    }
    let job = Move {
        element: u,
        from: Map::Execute,
        to: Map::Execute,
        source: r.a,
        target: r.b,
        count,
    };
    job.carry_out(job.past_ranges(r), r, pages, memory)
}
