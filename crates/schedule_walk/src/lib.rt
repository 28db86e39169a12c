// The items of a packed schedule gone through without records, by the grammar of its fields (FORMAT 6.1 to 6.3, 12.3). Each
// function goes through one form of the grammar, and hands back the bit behind it, or the fault that refuses it.
#![tactic(auto)]

ghost use Rattle.std.specs.Prelude.{[], ◌∷◌, ◌≡◌, ◌+◌, ◌*◌, ◌≤◌, ◌<◌, length};
ghost use Rattle.lists.specs.Lists.{each};
ghost use Rattle.definitions.specs.Bits.{bit};
ghost use Rattle.definitions.specs.Legal.{Every};
ghost use Rattle.definitions.specs.LegalSchedule.{most_parents, most_items};
ghost use Rattle.definitions.specs.ScheduleFields.{times, word_fields, name_fields, parent_fields, mark_fields, marks_fields, made_fields, line_fields, item_fields};
ghost use Rattle.definitions.specs.Packing.{item_count_bits};
ghost use Rattle.definitions.specs.Values.{name_values, parent_values, mark_values, counted_values};
ghost use Rattle.schedule_values.specs.Meeting.{bits_within, most_bits};
ghost use Rattle.tariff_definitions.specs.DecodedLaws.{OneOrTwo};
ghost use Rattle.schedule_walk.specs.Sorts.{number_of};
ghost use Rattle.schedule_walk.specs.Walking.{Reads, ReadsFlag, Goes, GoesItem, one, Anything, Many, NamedWord, named_values, ManyParents, listed_values, names_fields, name_bits, parent_bits, mark_bits, marks_bits, line_bits, made_bits, item_bits, names_bits};

use fields::Fault;
use schedule_fields::{Place, Rule};

// The bits of the number of items (FORMAT 6.1).
pub const COUNT_BITS: usize = 16;

// The sort of an item (FORMAT 13.1).
#[derive(Clone, Copy, PartialEq, Eq)]
pub enum Sort {
    Real,
    Virtual,
    Line,
}

// The number that a tariff has for it.
impl From<Sort> for usize {
    ghost from_gives = { λ s n. n ≡ number_of s };

    fn from(sort: Sort) -> usize {
        sort as usize
    }
}

// The sort of a resource, by its flag.
fn of_flag(is_virtual: bool) -> Sort
    ensures { number_of result ≡ bit is_virtual }
{
    if is_virtual {
        Sort::Virtual
    } else {
        Sort::Real
    }
}

// An item that was gone through: the bit behind it, its sort and its number of parents.
#[derive(Clone, Copy)]
pub struct Entry {
    pub at: usize,
    pub sort: Sort,
    pub parents: usize,
}

// A packed schedule, lent: its bytes, how many bits of them are read, and W, the number of words of the sheet that it belongs to.
#[derive(Clone, Copy)]
pub struct Walk<'a> {
    pub source: &'a [u8],
    end: usize,
    pub words: usize,
    ghost whole: { end ≡ bits_within (length source.now) },
    ghost some: { 0 < words },
}

impl<'a> Walk<'a> {
    // Through a schedule for a sheet of so many words.
    pub fn new(source: &'a [u8], words: usize) -> Walk<'a>
        requires { 0 < words }
        ensures { (result.source.now ≡ source.now) × (result.words ≡ words) }
    {
        Walk {
            source,
            end: schedule_values::bits_within(source.len()),
            words,
        }
    }

    // ---- single fields

    // The field with a rule. In line, so that what is known of the rule where a field is met decides there.
    #[inline(always)]
    fn field(self, at: usize, rule: Rule) -> Result<usize, Fault>
        requires { (at + rule.width ≤ most_bits) × (0 < rule.width) × (rule.width ≤ 16) }
        ensures { Reads rule.width rule.least rule.most self.entry.source.now at result }
    {
        schedule_values::meet(self.source, self.end, at, rule.width, false, rule)
    }

    // A flag, or any field of one bit (FORMAT 2.1).
    fn flag(self, at: usize) -> Result<bool, Fault>
        requires { at + 1 ≤ most_bits }
        ensures { ReadsFlag self.entry.source.now at result }
    {
        let rule = schedule_fields::rule_at(Place::NameFlag(0), 1);
        let value = self.field(at, rule)?;
        Ok(value == 1)
    }

    // A word, which is below W (FORMAT 2.5).
    fn word(self, at: usize) -> Result<usize, Fault>
        requires { at + 8 ≤ most_bits }
        ensures { Goes (word_fields self.entry.words) one Anything 8 self.entry.source.now at result }
    {
        self.field(
            at,
            schedule_fields::rule_at(Place::NameSecond(0), self.words),
        )?;
        Ok(at + 8)
    }

    // ---- names

    // A name (FORMAT 2.5).
    fn name(self, at: usize) -> Result<usize, Fault>
        requires { at + name_bits ≤ most_bits }
        ensures { Goes (name_fields self.entry.words) name_values OneOrTwo name_bits self.entry.source.now at result }
    {
        let first = self.word(at)?;
        let has_second = self.flag(first)?;
        if !has_second {
            return Ok(first + 1);
        }
        self.word(first + 1)
    }

    // So many names.
    fn each_name(self, at: usize, n: usize) -> Result<usize, Fault>
        requires { at + n * name_bits ≤ most_bits }
        ensures { Goes (times n (name_fields self.entry.words)) (each name_values) (Many OneOrTwo n) (n * name_bits) self.entry.source.now at result }
    {
        (0..n).try_fold(at, |q, _| self.name(q))
    }

    // The names of a schedule, their number first (FORMAT 6.1).
    #[tactic(auto, unfolding(definitions::specs::ScheduleFields::schedule_fields))]
    pub fn names(self) -> Result<usize, Fault>
        ensures { Goes (names_fields self.entry.words) (counted_values name_values) (Every OneOrTwo) names_bits self.entry.source.now 0 result }
    {
        let rule = schedule_fields::rule_at(Place::Names, self.words);
        let count = self.field(0, rule)?;
        self.each_name(rule.width, count)
    }

    // The number of items (FORMAT 6.1).
    pub fn item_count(self, at: usize) -> Result<usize, Fault>
        requires { at + item_count_bits ≤ most_bits }
        ensures { Reads item_count_bits 0 most_items self.entry.source.now at result }
    {
        self.field(at, schedule_fields::rule_at(Place::Items, self.words))
    }

    // ---- a synthesized resource

    // So many words.
    fn each_word(self, at: usize, n: usize) -> Result<usize, Fault>
        requires { at + n * 8 ≤ most_bits }
        ensures { Goes (times n (word_fields self.entry.words)) (each one) (Many Anything n) (n * 8) self.entry.source.now at result }
    {
        (0..n).try_fold(at, |q, _| self.word(q))
    }

    // A parent: how many words, and the words (FORMAT 6.2).
    #[tactic(auto, unfolding(definitions::specs::ScheduleFields::parent_fields))]
    fn parent(self, at: usize) -> Result<usize, Fault>
        requires { at + parent_bits ≤ most_bits }
        ensures { Goes (parent_fields self.entry.words) parent_values Anything parent_bits self.entry.source.now at result }
    {
        let rule = schedule_fields::rule_at(Place::ParentWords(0, 0), self.words);
        let count = self.field(at, rule)?;
        self.each_word(at + rule.width, count)
    }

    // So many parents.
    fn each_parent(self, at: usize, n: usize) -> Result<usize, Fault>
        requires { at + n * parent_bits ≤ most_bits }
        ensures { Goes (times n (parent_fields self.entry.words)) (each parent_values) (Many Anything n) (n * parent_bits) self.entry.source.now at result }
    {
        (0..n).try_fold(at, |q, _| self.parent(q))
    }

    // A mark (FORMAT 2.9).
    fn mark(self, at: usize) -> Result<usize, Fault>
        requires { at + mark_bits ≤ most_bits }
        ensures { Goes mark_fields mark_values Anything mark_bits self.entry.source.now at result }
    {
        let is_derive = self.flag(at)?;
        if !is_derive {
            return Ok(at + 1);
        }
        let rule = schedule_fields::rule_at(Place::Tag(0, 0), 1);
        self.field(at + 1, rule)?;
        Ok(at + 1 + rule.width)
    }

    // So many marks.
    fn each_mark(self, at: usize, n: usize) -> Result<usize, Fault>
        requires { at + n * mark_bits ≤ most_bits }
        ensures { Goes (times n mark_fields) (each mark_values) (Many Anything n) (n * mark_bits) self.entry.source.now at result }
    {
        (0..n).try_fold(at, |q, _| self.mark(q))
    }

    // The marks of a resource, their number first (FORMAT 6.2).
    #[tactic(auto, unfolding(definitions::specs::ScheduleFields::marks_fields))]
    fn marks(self, at: usize) -> Result<usize, Fault>
        requires { at + marks_bits ≤ most_bits }
        ensures { Goes marks_fields (counted_values mark_values) Anything marks_bits self.entry.source.now at result }
    {
        let rule = schedule_fields::rule_at(Place::Marks(0), 1);
        let count = self.field(at, rule)?;
        self.each_mark(at + rule.width, count)
    }

    // The name of its type, and its word.
    fn name_and_word(self, at: usize) -> Result<usize, Fault>
        requires { at + name_bits + 8 ≤ most_bits }
        ensures { Goes (λ k. name_fields self.entry.words (word_fields self.entry.words k)) named_values NamedWord (name_bits + 8) self.entry.source.now at result }
    {
        let named = self.name(at)?;
        self.word(named)
    }

    // n parents, and the marks.
    fn parents_and_marks(self, at: usize, n: usize) -> Result<usize, Fault>
        requires { (at + most_parents * parent_bits + marks_bits ≤ most_bits) × (n ≤ most_parents) }
        ensures { Goes (λ k. times n (parent_fields self.entry.words) (marks_fields k)) listed_values (ManyParents n) (most_parents * parent_bits + marks_bits) self.entry.source.now at result }
    {
        let listed = self.each_parent(at, n)?;
        self.marks(listed)
    }

    // A synthesized resource behind its lead bit (FORMAT 6.2).
    fn made(self, at: usize) -> Result<Entry, Fault>
        requires { at + made_bits ≤ most_bits }
        ensures { GoesItem (made_fields self.entry.words) (0 ∷ []) made_bits self.entry.source.now at result }
    {
        let head = self.name_and_word(at)?;
        let is_virtual = self.flag(head)?;
        let rule = schedule_fields::rule_at(Place::Parents(0), self.words);
        let count = self.field(head + 1, rule)?;
        let rest = self.parents_and_marks(head + 1 + rule.width, count)?;
        Ok(Entry {
            at: rest,
            sort: of_flag(is_virtual),
            parents: count,
        })
    }

    // ---- an extension line, and items

    // An extension line behind its lead bit (FORMAT 6.3).
    fn line(self, at: usize) -> Result<Entry, Fault>
        requires { at + line_bits ≤ most_bits }
        ensures { GoesItem (line_fields self.entry.words) (1 ∷ []) line_bits self.entry.source.now at result }
    {
        let named = self.name(at)?;
        self.flag(named)?; // whether it is virtual
        self.flag(named + 1)?; // whether it is a trait
        let last = self.word(named + 2)?;
        Ok(Entry {
            at: last,
            sort: Sort::Line,
            parents: 0,
        })
    }

    // An item, by its lead bit (FORMAT 6.1).
    pub fn item(self, at: usize) -> Result<Entry, Fault>
        requires { at + item_bits ≤ most_bits }
        ensures { GoesItem (item_fields self.entry.words) [] item_bits self.entry.source.now at result }
    {
        let is_line = self.flag(at)?;
        if !is_line {
            return self.made(at + 1);
        }
        self.line(at + 1)
    }
}
