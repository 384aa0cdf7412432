// How many answers agreed, and which was the first that did not.
ghost use Rattle.std.specs.Prelude.{◌≡◌, ◌+◌, ◌-◌, ◌^◌, min};

use crate::question::Question;
use case_count::Count;
use std::alloc::Global;
use std::fmt;

// The file that is asked about: a name, and a number among those of that name.
#[derive(Clone, Copy)]
struct Label<'a> {
    name: &'a str,
    number: usize,
}

#[derive(Clone, Copy)]
struct Disagreement<'a> {
    label: Label<'a>,
    question: Question,
    got: u64,
    expected: u64,
}

impl<'a> fmt::Display for Disagreement<'a> {
    fn fmt<W: fmt::Write>(&self, f: &mut fmt::Formatter<W>) -> fmt::Result {
        let Disagreement {
            label,
            question,
            got,
            expected,
        } = *self;
        let Label { name, number } = label;
        write!(
            f,
            "{question} in file {number} of \"{name}\" is {got} and not {expected}"
        )
    }
}

// Answers that are printed in one line, and the memory for the files that they are about.
#[derive(Clone, Copy)]
pub struct Group<'a> {
    heap: Global,
    name: &'a str,
    label: Label<'a>,
    count: Count,
    first: Option<Disagreement<'a>>,
}

impl<'a> Group<'a> {
    pub fn new(heap: Global, name: &'a str) -> Group<'a> {
        Group {
            heap,
            name,
            label: Label { name, number: 0 },
            count: Count::default(),
            first: None,
        }
    }

    pub fn heap(&self) -> Global {
        self.heap
    }

    pub fn count(&self) -> Count
        ensures { result ≡ self.now.count }
    {
        self.count
    }

    // The file that the next answers are about.
    pub fn begin(&mut self, name: &'a str, number: usize)
        ensures { self.new.count ≡ self.old.count }
    {
        self.label = Label { name, number };
    }

    // No wrong answer is lost: the count of them is 0 at the end only if each was as expected.
    pub fn compare(&mut self, question: Question, got: u64, expected: u64)
        ensures cases { self.new.count.cases ≡ min (self.old.count.cases + 1) (2 ^ 32 - 1) }
        ensures right { got ≡ expected → self.new.count.wrong ≡ self.old.count.wrong }
        ensures wrong { self.new.count.wrong ≡ 0
            → (self.old.count.wrong ≡ 0) × (got ≡ expected) }
    {
        if !self.count.compare(&got, &expected) {
            self.keep_first(question, got, expected);
        }
    }

    fn keep_first(&mut self, question: Question, got: u64, expected: u64)
        ensures { self.new.count ≡ self.old.count }
    {
        self.first.get_or_insert(Disagreement {
            label: self.label,
            question,
            got,
            expected,
        });
    }
}

impl<'a> fmt::Display for Group<'a> {
    fn fmt<W: fmt::Write>(&self, f: &mut fmt::Formatter<W>) -> fmt::Result {
        let name = self.name;
        let Count { cases, wrong } = self.count;
        match self.first {
            Some(first) => write!(
                f,
                "{name}: {cases} answers, {wrong} WRONG, the first: {first}"
            ),
            None => write!(f, "{name}: {cases} answers, {wrong} wrong"),
        }
    }
}
