use semver_cuts::Cut;
use std::cmp::Ordering;
use std::hash::{DefaultHasher, Hash, Hasher};

// The six cuts of 3 and 5, in ascending order.
pub(crate) fn cut_at(place: usize) -> Cut<u64> {
    match place {
        0 => Cut::Start,
        1 => Cut::Before(3),
        2 => Cut::After(3),
        3 => Cut::Before(5),
        4 => Cut::After(5),
        _ => Cut::End,
    }
}

fn ordering_of<T: Ord>(first: &T, second: &T) -> Ordering {
    first.cmp(second)
}

// Returns `true` if each way to compare the cuts gives the order of their places.
fn are_ordered(first: &Cut<u64>, second: &Cut<u64>, wanted: Ordering) -> bool {
    first.cmp(second) == wanted
        && ordering_of(first, second) == wanted
        && (first < second) == wanted.is_lt()
        && (first == second) == wanted.is_eq()
}

#[test]
fn orders_the_cuts_of_numbers(rt: HostRuntime) {
    for i in 0..6usize {
        for j in 0..6usize {
            assert!(rt;
                are_ordered(&cut_at(i), &cut_at(j), i.cmp(&j)),
                "{i} and {j}"
            );
        }
    }
}

pub(crate) fn hash_of<T: Hash>(value: &T) -> u64 {
    let mut hasher = DefaultHasher::new();
    value.hash(&mut hasher);
    hasher.finish()
}

#[test]
fn hashes_equal_cuts_alike(rt: HostRuntime) {
    for i in 0..6usize {
        for j in 0..6usize {
            let alike = hash_of(&cut_at(i)) == hash_of(&cut_at(j));
            assert!(rt; alike == (i == j), "{i} and {j}");
        }
    }
}
