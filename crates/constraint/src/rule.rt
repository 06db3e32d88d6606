// What one constraint means: document 01, "Table text". Each method is equal to the definition of its name in specs/Meaning. A word w, and whether a
// and b tick, are handed on one by one, as the columns of the document's table have them: a struct of the three would be taken apart in each arm.
ghost use Rattle.std.specs.Prelude.{◌≡◌, true, ◌&&◌, ◌||◌, ◌∷◌, [], ltb, pos, negsuc, ◌<ℤ◌};
ghost use Rattle.constraint.specs.Ticks.{bits};
ghost use Rattle.constraint.specs.Lists.{all_known};
ghost use Rattle.constraint.specs.Look as l;
ghost use Rattle.constraint.specs.Meaning as m;
ghost use Rattle.constraint.specs.Million.{within_million};

use super::{Constraint, Counter, Definition, Delays, Kind, Range, Relation, Seen, TickSet, Word};

// 2^32 - 1: the most that an await's word and a delay's first word can be.
const MOST: i64 = 4_294_967_295;

impl Word {
    #[inline(always)]
    fn is_above(self) -> bool
        ensures { result ≡ m.above self }
    {
        self.first > 0
    }

    #[inline(always)]
    fn is_below(self) -> bool
        ensures { result ≡ m.below self }
    {
        self.first < 0
    }

    #[inline(always)]
    fn is(self, n: u8) -> bool
        ensures { result ≡ m.is n self }
    {
        self.first == n as i64
    }

    // Plus 1 for a, minus 1 for b.
    #[inline(always)]
    fn tallied(self, a: bool, b: bool) -> Word
        requires least { negsuc 1_000_000 <ℤ self.first }
        requires most { self.first <ℤ pos 1_000_001 }
        ensures { result ≡ m.moved (m.tally a b) self }
    {
        match (a, b) {
            (true, false) => self.with_first(self.first + 1),
            (false, true) => self.with_first(self.first - 1),
            _ => self,
        }
    }

    // The word with another first word.
    #[inline(always)]
    fn with_first(self, first: i64) -> Word
        ensures { result ≡ m.with_first self first }
    {
        Word {
            first,
            second: self.second,
        }
    }

    // b ticks: the pending ticks are one tick of b nearer.
    #[inline(always)]
    fn shifted(self) -> Word
        requires { l.delay_words self ≡ true }
        ensures { result ≡ m.shifted self }
    {
        Word {
            first: self.first / 2,
            second: self.second,
        }
    }

    // A tick is planned with the n-th next tick of b; 0 plans nothing.
    #[inline(always)]
    fn planned(self, n: u8) -> Word
        requires words { l.delay_words self ≡ true }
        requires left { self.second <ℤ pos 8 }
        ensures { result ≡ m.planned n self }
    {
        if n == 0 {
            return self;
        }
        let pending = TickSet::from_bits(self.first as u32).with(n - 1);
        Word {
            first: pending.bits() as i64,
            second: self.second + 1,
        }
    }
}

impl Relation {
    // Whether the relation allows a step in which a and b tick or not.
    #[inline(always)]
    fn allows(self, w: Word, a: bool, b: bool) -> bool
        ensures { result ≡ m.relates self w a b }
    {
        match self {
            Relation::Coincides => a == b,
            Relation::Excludes => !(a && b),
            Relation::SubClock => !a || b,
            Relation::StrictlyPrecedes => w.is_above() || !b,
            Relation::Precedes => w.is_above() || !b || a,
        }
    }

    #[inline(always)]
    fn counter(self) -> Counter
        ensures { result ≡ m.relation_counter self }
    {
        match self {
            Relation::Coincides | Relation::Excludes | Relation::SubClock => Counter::Fixed,
            Relation::StrictlyPrecedes | Relation::Precedes => Counter::Gap,
        }
    }

    #[inline(always)]
    fn look(self, w: Word, a: bool, b: bool) -> Seen
        ensures { result ≡ l.weighed (m.relation_counter self) (m.relates self w a b) a b w }
    {
        let holds = self.allows(w, a, b);
        match self {
            Relation::Coincides | Relation::Excludes | Relation::SubClock => Counter::Fixed.look(
                w, holds, a, b,
            ),
            Relation::StrictlyPrecedes | Relation::Precedes => Counter::Gap.look(w, holds, a, b),
        }
    }
}

impl Definition {
    // Whether the clock that is defined is due to tick in a step in which a and b tick or not.
    #[inline(always)]
    pub(crate) fn is_due(&self, w: Word, a: bool, b: bool) -> bool
        ensures { result ≡ m.due self.now w a b }
    {
        match self {
            Definition::Union => a || b,
            Definition::Inter => a && b,
            Definition::Lub => w.is_above() && b || w.is_below() && a || w.is(0) && (a && b),
            Definition::Glb => w.is_above() && a || w.is_below() && b || w.is(0) && (a || b),
            Definition::Await(_) => w.is(1) && a,
            Definition::StrictlySampled => w.is(1) && b,
            Definition::Sampled => w.is(2) && (a && b) || w.is(1) && b,
            Definition::Upto => w.is(1) && (a && !b),
            Definition::Deferred(_) => b && w.first.unsigned_abs() % 2 == 1,
        }
    }

    #[inline(always)]
    fn counter(&self) -> Counter
        ensures { result ≡ m.definition_counter self.now }
    {
        match self {
            Definition::Union | Definition::Inter => Counter::Fixed,
            Definition::Lub | Definition::Glb => Counter::Lead,
            Definition::Await(n) => Counter::Countdown(*n),
            Definition::StrictlySampled => Counter::StrictSample,
            Definition::Sampled => Counter::Sample,
            Definition::Upto => Counter::Until,
            Definition::Deferred(list) => Counter::Pending(*list),
        }
    }

    #[inline(always)]
    fn look(&self, w: Word, a: bool, b: bool, c: bool) -> Seen
        ensures { result ≡ l.weighed (m.definition_counter self.now) (m.◌exactly_when◌ c (m.due self.now w a b)) a b w }
    {
        let holds = c == self.is_due(w, a, b);
        match self {
            Definition::Union | Definition::Inter => Counter::Fixed.look(w, holds, a, b),
            Definition::Lub | Definition::Glb => Counter::Lead.look(w, holds, a, b),
            Definition::Await(n) => Counter::Countdown(*n).look(w, holds, a, b),
            Definition::StrictlySampled => Counter::StrictSample.look(w, holds, a, b),
            Definition::Sampled => Counter::Sample.look(w, holds, a, b),
            Definition::Upto => Counter::Until.look(w, holds, a, b),
            Definition::Deferred(list) => Counter::Pending(*list).look(w, holds, a, b),
        }
    }

    // The clocks of a definition, c, which it defines, and its operands, and its number or list, a row of 59 an arm. An await has one operand, which is
    // asked here, below and in the order of definitions, each time with other arms beside it.
    #[inline(always)]
    pub(crate) fn fits(&self, clocks: u8, a: u8, b: u8, c: u8) -> bool
        ensures { result ≡ (m.clocks_fit clocks (c ∷ m.operands self.now a b) && m.parameter_fits (m.definition_counter self.now)) }
    {
        match self {
            Definition::Await(n) => pair_fits(clocks, c, a) && 1 <= *n && *n <= 1_000_000,
            Definition::Deferred(list) => triple_fits(clocks, c, a, b) && list.in_limits(),
            _ => triple_fits(clocks, c, a, b),
        }
    }

    // Whether the operands of a definition are known.
    #[inline(always)]
    pub(crate) fn operands_known(&self, named: u8, earlier: TickSet, a: u8, b: u8) -> bool
        ensures { result ≡ all_known named (bits earlier) (m.operands self.now a b) }
    {
        match self {
            Definition::Await(_) => known(named, earlier, a),
            _ => both_known(named, earlier, a, b),
        }
    }
}

impl Range {
    #[inline(always)]
    fn new(start: i64, low: i64, high: i64) -> Range
        ensures { result ≡ m.row start low high }
    {
        Range {
            start,
            low,
            high,
            most_used: 0,
        }
    }

    #[inline(always)]
    fn contains(self, w: Word) -> bool
        ensures { result ≡ m.fits self w }
    {
        between(self.low, self.high, w.first) && between(0, self.most_used, w.second)
    }
}

#[inline(always)]
fn between(low: i64, high: i64, z: i64) -> bool
    ensures { result ≡ m.between low high z }
{
    low <= z && z <= high
}

impl Counter {
    #[inline(always)]
    fn range(&self) -> Range
        ensures { result ≡ m.counter_range self.now }
    {
        match self {
            Counter::Fixed => Range::new(0, 0, 0),
            Counter::Gap => Range::new(0, 0, 1_000_000),
            Counter::Lead => Range::new(0, -1_000_000, 1_000_000),
            Counter::Countdown(n) => {
                let most = (*n).min(MOST as u64) as i64;
                Range::new(most, 0, most)
            }
            Counter::StrictSample | Counter::Sample => Range::new(2, 0, 2),
            Counter::Until => Range::new(1, 0, 1),
            Counter::Pending(list) => Range {
                start: 0,
                low: 0,
                high: MOST,
                most_used: list.len() as i64,
            },
        }
    }

    // A word after a step in which a and b tick or not.
    #[inline(always)]
    fn moved(&self, w: Word, a: bool, b: bool) -> Word
        requires { m.fits (m.counter_range self.now) w ≡ true }
        ensures { result ≡ m.moved (m.change self.now w a b) w }
    {
        match self {
            Counter::Fixed => w,
            Counter::Gap => w.tallied(a, b),
            Counter::Lead => w.tallied(a, b),
            Counter::Countdown(_) => if w.is_above() && a {
                w.with_first(w.first - 1)
            } else {
                w
            },
            Counter::StrictSample => {
                if w.is(2) && a {
                    w.with_first(1)
                } else if w.is(1) && b {
                    w.with_first(0)
                } else {
                    w
                }
            }
            Counter::Sample => {
                if w.is(2) && a && b {
                    w.with_first(0)
                } else if w.is(2) && a {
                    w.with_first(1)
                } else if w.is(1) && b {
                    w.with_first(0)
                } else {
                    w
                }
            }
            Counter::Until => if w.is(1) && b { w.with_first(0) } else { w },
            Counter::Pending(list) => delayed(list, w, a, b),
        }
    }

    // What a step in which a and b tick or not comes to, by whether the constraint holds. Compiled for each counter, which is why each arm below
    // writes its counter out: chosen first and matched again here, looks take 47 % more instructions.
    #[inline(always)]
    fn look(&self, w: Word, holds: bool, a: bool, b: bool) -> Seen
        ensures { result ≡ l.weighed self.now holds a b w }
    {
        if !self.range().contains(w) {
            return Seen::Out;
        }
        if !holds {
            return Seen::Fails;
        }
        let v = self.moved(w, a, b);
        if !self.in_million(v) {
            return Seen::Leaves(v);
        }
        Seen::Moves(v)
    }

    // Whether a word is within its million, where it has one.
    #[inline(always)]
    fn in_million(&self, w: Word) -> bool
        ensures { result ≡ within_million self.now w }
    {
        match self {
            Counter::Gap | Counter::Lead => w.first.unsigned_abs() <= 1_000_000,
            _ => true,
        }
    }
}

// A delay's word after a step in which a and b tick or not: shifted on b; then, on a, the next number planned, if one is left.
#[inline(always)]
fn delayed(list: &Delays, w: Word, a: bool, b: bool) -> Word
    requires { l.delay_words w ≡ true }
    ensures { result ≡ m.delayed list.now w a b }
{
    let left = if b { w.shifted() } else { w };
    if !a {
        return left;
    }
    let used = left.second as usize;
    if list.len() <= used {
        return left;
    }
    left.planned(list.as_slice()[used])
}

impl Constraint {
    // The start and the range of the record's word.
    #[inline(always)]
    fn range(&self) -> Range
        ensures { result ≡ m.word_range self.now }
    {
        match &self.kind {
            Kind::Empty => Counter::Fixed.range(),
            Kind::Relates(relation) => (*relation).counter().range(),
            Kind::Defines(definition) => definition.counter().range(),
        }
    }

    // The record's word before the first step.
    #[inline(always)]
    pub fn start(&self) -> Word
        ensures { result ≡ m.start self.now }
    {
        Word {
            first: self.range().start,
            second: 0,
        }
    }

    // Whether a word is in the record's range.
    #[inline(always)]
    pub fn is_in_range(&self, w: Word) -> bool
        ensures { result ≡ m.in_range self.now w }
    {
        self.range().contains(w)
    }

    // What a step with these ticks comes to for the constraint and its word. The form is asked once. Compiled for each walk that calls it.
    #[inline(always)]
    pub fn look(&self, w: Word, ticks: TickSet) -> Seen
        ensures { result ≡ l.looked self.now w (bits ticks) }
    {
        let a = ticks.contains(self.first);
        let b = ticks.contains(self.second);
        match &self.kind {
            Kind::Empty => Counter::Fixed.look(w, true, a, b),
            Kind::Relates(relation) => (*relation).look(w, a, b),
            Kind::Defines(definition) => definition.look(w, a, b, ticks.contains(self.defined)),
        }
    }
}

// Two clocks below the clock count, and not one twice.
#[inline(always)]
pub fn pair_fits(clocks: u8, x: u8, y: u8) -> bool
    ensures { result ≡ m.clocks_fit clocks (x ∷ y ∷ []) }
{
    x < clocks && y < clocks && x != y
}

// Three clocks below the clock count, and not one twice.
#[inline(always)]
fn triple_fits(clocks: u8, x: u8, y: u8, z: u8) -> bool
    ensures { result ≡ m.clocks_fit clocks (x ∷ y ∷ z ∷ []) }
{
    pair_fits(clocks, x, y) && pair_fits(clocks, x, z) && pair_fits(clocks, y, z)
}

// Whether a clock is a named one, or one of those that earlier records define. How many clocks are named is the table's, and the clocks defined by
// earlier records grow record by record: they are no value of their own.
#[inline(always)]
fn known(named: u8, earlier: TickSet, i: u8) -> bool
    ensures { result ≡ (ltb i named || bits earlier i) }
{
    i < named || earlier.contains(i)
}

// Whether two clocks are.
#[inline(always)]
pub fn both_known(named: u8, earlier: TickSet, x: u8, y: u8) -> bool
    ensures { result ≡ all_known named (bits earlier) (x ∷ y ∷ []) }
{
    known(named, earlier, x) && known(named, earlier, y)
}
