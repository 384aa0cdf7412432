// The relation that the L records of a file make.
ghost use Rattle.std.specs.Prelude.{◌≡◌, ℕ, ◌+◌, ◌*◌, not, List, pos, ◌*ℤ◌, MatchOption, is_none};
ghost use Rattle.std.specs.Prelude.{is_some, position, slice_index};
ghost use Rattle.std.specs.Int.{w16};
ghost use Rattle.std.proofs.Common.{to_z};
ghost use Rattle.record_file.specs.Layout.{HasLetter, l_letter};
ghost use Rattle.record_file.specs.Reading.{Shows};
ghost use Rattle.file_books.specs.Inequalities.{combined, broken, keeps_all, InequalityForbids, RuleOf, Adds};

use crate::relation::Relation;
use record_file::{MOST_INEQUALITIES, RECORD_LENGTH, Record, bytes_of};

/// A rule p·x + q·y ≥ c on the values x of an option and y of a higher one.
#[derive(Clone, Copy)]
struct Inequality {
    option: usize,
    other: usize,
    p: i16,
    q: i16,
    c: i32,
}

impl Inequality {
    // The rule of a record, if it is an L record.
    fn of(record: Record) -> Option<Inequality>
        ensures { (file : List ℕ) (k : ℕ) → Shows file k «record».entry
            → MatchOption result (HasLetter file k l_letter → ⊥) (RuleOf file k) }
    {
        match record {
            Record::Inequality {
                option,
                other,
                coefficients,
            } => Some(Inequality {
                option: usize::from(option),
                other: usize::from(other),
                p: short_at(coefficients, 0),
                q: short_at(coefficients, 2),
                c: i32::from_le_bytes(bytes_of(coefficients, 4)),
            }),
            _ => None,
        }
    }

    fn combined(&self, x: u8, y: u8) -> i64
        ensures { result ≡ combined self.now.p self.now.q x y }
    {
        i64::from(product(self.p, x)) + i64::from(product(self.q, y))
    }

    // Whether values of two options keep the rule, as they do where it is on other options.
    fn permits(&self, option: usize, x: u8, other: usize, y: u8) -> bool
        ensures { result ≡ not (broken self.now option x other y) }
    {
        self.option != option || self.other != other || self.combined(x, y) >= i64::from(self.c)
    }
}

// The signed number in two bytes of a part of a record.
fn short_at(part: &[u8], at: usize) -> i16
    ensures { result ≡ to_z w16 (slice_index part.now at + slice_index part.now (at + 1) * 256) }
{
    i16::from_le_bytes(bytes_of(part, at))
}

// Multiplied in 32 bits, which is wide enough, so that the sum in 64 bits is bounded by the types alone.
fn product(coefficient: i16, value: u8) -> i32
    ensures { result ≡ coefficient *ℤ pos value }
{
    i32::from(coefficient) * i32::from(value)
}

/// The rules of the L records.
#[derive(Clone, Copy)]
pub struct Inequalities {
    // As many places as a file can have rules, since a book allocates nothing and is `Copy`.
    rules: [Option<Inequality>; MOST_INEQUALITIES],
}

impl Inequalities {
    const EMPTY: Inequalities = Inequalities {
        rules: [None; MOST_INEQUALITIES],
    };

    // Takes in a rule, at the first place that is free, and tells whether there is one.
    fn add(&mut self, rule: Inequality) -> bool
        ensures adds { Adds self.old.rules rule self.new.rules }
        ensures room { result ≡ is_some (position is_none self.old.rules) }
    {
        match first_free(&self.rules) {
            Some(free) => {
                self.rules[free] = Some(rule);
                true
            }
            None => false,
        }
    }
}

impl Relation for Inequalities {
    ghost allows = { λ s. keeps_all s.rules };

    ghost Forbids = { InequalityForbids };

    fn all() -> Inequalities {
        Inequalities::EMPTY
    }

    fn read(file: &[u8]) -> Inequalities {
        let mut inequalities = Inequalities::EMPTY;
        // Records are read by their numbers.
        for number in 0..file.len() / RECORD_LENGTH {
            if let Some(rule) = Record::read(file, number).and_then(Inequality::of) {
                // No file that the check accepts has a rule more, and of another the first sixteen rules count.
                if !inequalities.add(rule) {
                    return inequalities;
                }
            }
        }
        inequalities
    }

    fn contains(&self, option: usize, value: u8, other: usize, partner: u8) -> bool {
        self.rules
            .iter()
            .copied()
            .flatten()
            .all(|rule| rule.permits(option, value, other, partner))
    }
}

fn first_free(rules: &[Option<Inequality>]) -> Option<usize>
    ensures { result ≡ position is_none rules.now }
{
    rules.iter().position(Option::is_none)
}
