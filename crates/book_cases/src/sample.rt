// Files typed by hand.
use crate::group::Group;
use case_records::Record;
use std::alloc::{AllocError, Global};

#[derive(Clone, Copy)]
pub struct Sample {
    pub name: &'static str,
    pub records: &'static [Record],
}

impl Sample {
    pub fn file(self, heap: Global) -> Result<Vec<u8>, AllocError> {
        self.records
            .iter()
            .copied()
            .flat_map(Record::bytes)
            .collect(heap)
    }
}

// Samples that have some records before their own.
#[derive(Clone, Copy)]
pub struct Samples {
    pub before: &'static [Record],
    pub each: &'static [Sample],
}

// What is compared for a file: a trait, since a closure that takes a group and a file in a loop is not proved yet.
pub trait Comparison {
    fn compare(&self, group: &mut Group, file: &[u8]);
}

impl Samples {
    pub fn compare<C: Comparison>(
        self,
        group: &mut Group,
        comparison: &C,
    ) -> Result<(), AllocError> {
        for sample in self.each {
            group.begin(sample.name, 0);
            let records = self.before.iter().chain(sample.records);
            let bytes = records.copied().flat_map(Record::bytes);
            let file: Vec<u8> = bytes.collect(group.heap())?;
            comparison.compare(group, file.as_slice());
        }
        Ok(())
    }
}
