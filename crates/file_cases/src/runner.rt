// Runs cases, prints what came of them, and counts them.
ghost use Rattle.std.specs.Prelude.{◌≡◌, ◌+◌, ◌-◌, ◌^◌, min, false, ◌≢◌};

use crate::table::Case;
use crate::verdicts::Verdict;
use case_count::Count;
use std::alloc::Global;
use std::{fmt, io};

// What came of a case.
#[derive(Clone, Copy)]
pub struct Outcome {
    got: Verdict,
    expected: Verdict,
}

impl Outcome {
    pub fn is_wrong(self) -> bool
        ensures right { self.got ≡ self.expected → result ≡ false }
        ensures wrong { result ≡ false → self.got ≡ self.expected }
    {
        self.got != self.expected
    }
}

impl fmt::Display for Outcome {
    fn fmt<W: fmt::Write>(&self, f: &mut fmt::Formatter<W>) -> fmt::Result {
        let Outcome { got, expected } = *self;
        if self.is_wrong() {
            write!(f, "{got} WRONG, expected {expected}")
        } else {
            write!(f, "{got}")
        }
    }
}

#[derive(Drop)]
pub struct Runner<'a> {
    rt: &'a HostRuntime,
    count: Count,
}

impl<'a> Runner<'a> {
    pub fn new(rt: &'a HostRuntime) -> Runner<'a> {
        Runner {
            rt,
            count: Count::default(),
        }
    }

    pub fn heap(&self) -> Global {
        self.rt.alloc()
    }

    pub fn count(&self) -> Count
        ensures { result ≡ self.now.count }
    {
        self.count
    }

    // No wrong case is lost: the count of them is 0 at the end only if each case came as expected.
    fn run(&mut self, bytes: &[u8], expected: Verdict) -> Outcome
        ensures cases { self.new.count.cases ≡ min (self.old.count.cases + 1) (2 ^ 32 - 1) }
        ensures right { result.got ≡ expected → self.new.count.wrong ≡ self.old.count.wrong }
        ensures wrong { self.new.count.wrong ≡ 0
            → (self.old.count.wrong ≡ 0) × (result.got ≡ expected) }
    {
        let got = Verdict::of(bytes);
        self.count.compare(&got, &expected);
        Outcome { got, expected }
    }

    // Runs cases of which those that went wrong are printed, and then how many there were.
    pub(crate) fn run_group<F: FnOnce(&mut Runner<'a>) -> io::Result<()>>(
        &mut self,
        label: &str,
        cases: F,
    ) -> io::Result<()>
        requires { F.IsAlwaysCallable cases }
    {
        let mut group = Runner::new(self.rt);
        cases(&mut group)?;
        let Count { cases, wrong } = group.count;
        println!(self.rt; "{label}: {cases} cases, {wrong} wrong")?;
        self.count.add(group.count);
        Ok(())
    }

    pub fn show<L: fmt::Display + Drop>(
        &mut self,
        label: L,
        bytes: &[u8],
        expected: Verdict,
    ) -> io::Result<()> {
        let outcome = self.run(bytes, expected);
        println!(self.rt; "{label}: {outcome}")
    }

    pub fn show_if_wrong<L: fmt::Display + Drop>(
        &mut self,
        label: L,
        bytes: &[u8],
        expected: Verdict,
    ) -> io::Result<()> {
        let outcome = self.run(bytes, expected);
        if outcome.is_wrong() {
            println!(self.rt; "{label}: {outcome}")?;
        }
        Ok(())
    }

    pub fn run_line(&mut self, line: &str) -> io::Result<()> {
        match Case::read(self.heap(), line) {
            Ok(case) => self.show(case.label, case.bytes.as_slice(), case.expected),
            Err(why) => {
                self.count.add_failure();
                println!(self.rt; "unreadable: {line} ({why})")
            }
        }
    }
}
