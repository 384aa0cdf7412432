// The groups of answers that are compared one after the other, each printed in one line. A count of cases that are printed one by
// one would be another type: what both need is `case_count`.
ghost use Rattle.std.specs.Prelude.{◌≡◌};

use crate::group::Group;
use case_count::Count;
use std::alloc::{AllocError, Global};
use std::io;

#[derive(Drop)]
pub struct Session<'a> {
    rt: &'a HostRuntime,
    count: Count,
}

impl<'a> Session<'a> {
    pub fn new(rt: &'a HostRuntime) -> Session<'a> {
        Session {
            rt,
            count: Count::default(),
        }
    }

    pub fn heap(&self) -> Global {
        self.rt.alloc()
    }

    pub fn count(&self) -> Count
        ensures { result ≡ self.now.count }
    {
        self.count
    }

    // Prints a group, unless there was no memory for its files.
    pub(crate) fn run<F: FnOnce(&mut Group<'a>) -> Result<(), AllocError>>(
        &mut self,
        name: &'a str,
        compare: F,
    ) -> io::Result<()>
        requires { F.IsAlwaysCallable compare }
    {
        let mut group = Group::new(self.heap(), name);
        compare(&mut group)?;
        self.count.add(group.count());
        println!(self.rt; "{group}")
    }
}
