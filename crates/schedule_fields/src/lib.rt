// A place in the grammar of a schedule's fields, by value: what the field there is, and the place behind its value
// (FORMAT 6.1 to 6.3, 12.2). Whoever reads, writes or walks a schedule goes from place to place.
#![tactic(auto, unfolding(definitions::specs::ScheduleFields::name_fields, definitions::specs::ScheduleFields::parent_fields, definitions::specs::ScheduleFields::mark_fields, definitions::specs::ScheduleFields::marks_fields, definitions::specs::ScheduleFields::made_fields, definitions::specs::ScheduleFields::line_fields, definitions::specs::ScheduleFields::item_fields, definitions::specs::ScheduleFields::schedule_fields))]

ghost use Rattle.std.specs.Prelude.{◌≡◌, ◌+◌, ◌-◌, ◌<◌};
ghost use Rattle.schedule_fields.specs.Places.{fields_at, RuleOf, Comes, names_at, items_at, parents_at, words_at, marks_at};
ghost use Rattle.schedule_fields.specs.Places.{behind_name, behind_lead, behind_made, behind_mark, behind_line, Follows};
ghost use Rattle.schedule_fields.specs.Places.{names_left, items_left, parents_left, words_left, marks_left, made_left};

// The limits: names, items, parents of a synthesized resource and the words of one of them, its marks, a mark's tag
// (FORMAT 6.1, 6.2).
const MOST_NAMES: usize = 64;

const MOST_ITEMS: usize = 65535;

const LEAST_PARENTS: usize = 2;

const MOST_PARENTS: usize = 17;

const MOST_PARENT_WORDS: usize = 3;

const MOST_MARKS: usize = 448;

const MOST_TAG: usize = 255;

// A field of a schedule. Its numbers say how many names, items, parents, words or marks come behind the one that it is in: of
// items first.
#[derive(Clone, Copy)]
pub enum Place {
    Names,
    NameWord(usize),
    NameFlag(usize),
    NameSecond(usize),
    Items,
    Lead(usize),
    MadeWord(usize),
    MadeFlag(usize),
    MadeSecond(usize),
    MadeResource(usize),
    MadeVirtual(usize),
    Parents(usize),
    ParentWords(usize, usize),
    ParentWord(usize, usize, usize),
    Marks(usize),
    Mark(usize, usize),
    Tag(usize, usize),
    LineWord(usize),
    LineFlag(usize),
    LineSecond(usize),
    LineVirtual(usize),
    LineTrait(usize),
    LineResource(usize),
    End,
}

// A field's width in bits, its least and its greatest value; all are 0 at the end. No Option: who walks a schedule asks for the
// rule at places that it names, and would have to open one each time.
#[derive(Clone, Copy)]
pub struct Rule {
    pub width: usize,
    pub least: usize,
    pub most: usize,
}

// A field that is 0 or 1 (FORMAT 2.1).
fn flag_rule() -> Rule
    ensures { result ≡ record { width = 1; least = 0; most = 1 } }
{
    Rule {
        width: 1,
        least: 0,
        most: 1,
    }
}

// A word of w (FORMAT 2.5).
fn word_rule(w: usize) -> Rule
    requires { 0 < w }
    ensures { result ≡ record { width = 8; least = 0; most = w - 1 } }
{
    Rule {
        width: 8,
        least: 0,
        most: w - 1,
    }
}

// A count or a tag.
fn count_rule(width: usize, least: usize, most: usize) -> Rule
    ensures { result ≡ record { width = width; least = least; most = most } }
{
    Rule { width, least, most }
}

// The field at a place, for a sheet of w words.
pub fn rule_at(place: Place, w: usize) -> Rule
    requires { 0 < w }
    ensures { RuleOf result (fields_at w place) }
{
    match place {
        Place::Names => count_rule(7, 0, MOST_NAMES),
        Place::Items => count_rule(16, 0, MOST_ITEMS),
        Place::Parents(_) => count_rule(5, LEAST_PARENTS, MOST_PARENTS),
        Place::ParentWords(..) => count_rule(2, 1, MOST_PARENT_WORDS),
        Place::Marks(_) => count_rule(9, 0, MOST_MARKS),
        Place::Tag(..) => count_rule(8, 0, MOST_TAG),
        Place::NameFlag(_)
        | Place::Lead(_)
        | Place::MadeFlag(_)
        | Place::MadeVirtual(_)
        | Place::Mark(..)
        | Place::LineFlag(_)
        | Place::LineVirtual(_)
        | Place::LineTrait(_) => flag_rule(),
        Place::NameWord(_)
        | Place::NameSecond(_)
        | Place::MadeWord(_)
        | Place::MadeSecond(_)
        | Place::MadeResource(_)
        | Place::ParentWord(..)
        | Place::LineWord(_)
        | Place::LineSecond(_)
        | Place::LineResource(_) => word_rule(w),
        Place::End => count_rule(0, 0, 0),
    }
}

// ---- where so many are left

// These functions and those behind a flag stay apart, though each is one `if`: an `if` for all would be given both places, and
// each pair would still be named by a function of its own, which is held to its own definition.

// n names, and then the number of items.
fn after_names(n: usize) -> Place
    ensures { Comes result (λ w. names_at w n) (names_left n) }
{
    if n == 0 {
        Place::Items
    } else {
        Place::NameWord(n - 1)
    }
}

// n items, and then the end.
fn after_items(n: usize) -> Place
    ensures { Comes result (λ w. items_at w n) (items_left n) }
{
    if n == 0 {
        Place::End
    } else {
        Place::Lead(n - 1)
    }
}

// m marks of a synthesized resource, and then n items.
fn after_marks(n: usize, m: usize) -> Place
    ensures { Comes result (λ w. marks_at w n m) (marks_left n m) }
{
    if m == 0 {
        after_items(n)
    } else {
        Place::Mark(n, m - 1)
    }
}

// p parents, and then the marks.
fn after_parents(n: usize, p: usize) -> Place
    ensures { Comes result (λ w. parents_at w n p) (parents_left n p) }
{
    if p == 0 {
        Place::Marks(n)
    } else {
        Place::ParentWords(n, p - 1)
    }
}

// k words of a parent, and then p parents.
fn after_words(n: usize, p: usize, k: usize) -> Place
    ensures { Comes result (λ w. words_at w n p k) (words_left n p k) }
{
    if k == 0 {
        after_parents(n, p)
    } else {
        Place::ParentWord(n, p, k - 1)
    }
}

// ---- behind a flag

// Behind the flag of a name in the order.
fn behind_name(n: usize, v: usize) -> Place
    ensures { Comes result (λ w. behind_name w n v) (1 + names_left n) }
{
    if v == 0 {
        after_names(n)
    } else {
        Place::NameSecond(n)
    }
}

// Behind an item's lead bit.
fn behind_lead(n: usize, v: usize) -> Place
    ensures { Comes result (λ w. behind_lead w n v) (6 + made_left n) }
{
    if v == 0 {
        Place::MadeWord(n) // a synthesized resource
    } else {
        Place::LineWord(n) // an extension line
    }
}

// Behind the flag of a synthesized resource's name.
fn behind_made(n: usize, v: usize) -> Place
    ensures { Comes result (λ w. behind_made w n v) (4 + made_left n) }
{
    if v == 0 {
        Place::MadeResource(n)
    } else {
        Place::MadeSecond(n)
    }
}

// Behind a mark's flag.
fn behind_mark(n: usize, m: usize, v: usize) -> Place
    ensures { Comes result (λ w. behind_mark w n m v) (1 + marks_left n m) }
{
    if v == 0 {
        after_marks(n, m)
    } else {
        Place::Tag(n, m)
    }
}

// Behind the flag of an extension line's name.
fn behind_line(n: usize, v: usize) -> Place
    ensures { Comes result (λ w. behind_line w n v) (4 + items_left n) }
{
    if v == 0 {
        Place::LineVirtual(n)
    } else {
        Place::LineSecond(n)
    }
}

// ---- one step

// The place behind the value v of the field at a place.
pub fn next(place: Place, v: usize) -> Place
    ensures { Follows place v result }
{
    match place {
        Place::Names => after_names(v),
        Place::NameWord(n) => Place::NameFlag(n),
        Place::NameFlag(n) => behind_name(n, v),
        Place::NameSecond(n) => after_names(n),
        Place::Items => after_items(v),
        Place::Lead(n) => behind_lead(n, v),
        Place::MadeWord(n) => Place::MadeFlag(n),
        Place::MadeFlag(n) => behind_made(n, v),
        Place::MadeSecond(n) => Place::MadeResource(n),
        Place::MadeResource(n) => Place::MadeVirtual(n),
        Place::MadeVirtual(n) => Place::Parents(n),
        Place::Parents(n) => after_parents(n, v),
        Place::ParentWords(n, p) => after_words(n, p, v),
        Place::ParentWord(n, p, k) => after_words(n, p, k),
        Place::Marks(n) => after_marks(n, v),
        Place::Mark(n, m) => behind_mark(n, m, v),
        Place::Tag(n, m) => after_marks(n, m),
        Place::LineWord(n) => Place::LineFlag(n),
        Place::LineFlag(n) => behind_line(n, v),
        Place::LineSecond(n) => Place::LineVirtual(n),
        Place::LineVirtual(n) => Place::LineTrait(n),
        Place::LineTrait(n) => Place::LineResource(n),
        Place::LineResource(n) => after_items(n),
        Place::End => Place::End,
    }
}
