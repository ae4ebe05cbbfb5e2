//! The three boxes of a job.

use bq_index::{BoxSource, NoMemory};
use bq_jobs::NumberedJobs;
use std::alloc::Global;
use std::mem::size_of_val;

/// A heap that counts its boxes, and records the sizes of the last three.
#[derive(Drop)]
struct Weighing {
    heap: Global,
    asked: usize,
    sizes: [usize; 3],
}

impl BoxSource for Weighing {
    fn box_of<T: Drop>(&mut self, value: T) -> Result<Box<T>, NoMemory> {
        let [_, a, b] = self.sizes;
        self.sizes = [a, b, size_of_val(&value)];
        self.asked = self.asked.saturating_add(1);
        self.heap.box_of(value)
    }
}

// Returns true if room for a job is made by three boxes, and a job whose room is returned needs them
// again.
fn asks_for_three(jobs: &mut NumberedJobs, source: &mut Weighing) -> bool {
    let is_made = jobs.reserve_one_from(source).is_ok() && jobs.room() == 1 && source.asked == 3;
    jobs.give_back();
    is_made && jobs.room() == 0 && jobs.reserve_one_from(source).is_ok() && source.asked == 6
}

fn is_size(size: usize, most: usize) -> bool {
    0 < size && size <= most
}

// No box is larger than the first page of `bq_jobs` says: the place in the tube or at the holder,
// the place among delays and leases, and the box by id.
fn are_small(source: &Weighing) -> bool {
    let [place, timer, record] = source.sizes;
    is_size(place, 40) && is_size(timer, 40) && is_size(record, 120)
}

fn are_three(alloc: Global) -> bool {
    let mut source = Weighing {
        heap: alloc,
        asked: 0,
        sizes: [0; 3],
    };
    match NumberedJobs::new(alloc) {
        Ok(mut jobs) => {
            let are_three = asks_for_three(&mut jobs, &mut source) && are_small(&source);
            drop(jobs);
            are_three
        }
        Err(_) => false,
    }
}

#[test]
fn boxes_of_a_job(rt: HostRuntime) {
    assert!(rt; are_three(rt.alloc()));
}
