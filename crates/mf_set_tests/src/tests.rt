// What sets answer at the ends of words, together, and by their hashes.
ghost use Rattle.std.specs.Prelude.{◌≡◌, IfOk};

use mf_set::{BitSet, Memory};
use std::alloc::Global;
use std::cmp::Ordering;
use std::hash::{DefaultHasher, Hash, Hasher};
use std::test::Fail;

// The set of those of the numbers that are below the room.
fn set_of(alloc: Global, room: usize, numbers: &[usize]) -> Result<BitSet, Memory>
    ensures { IfOk result (λ s. s.room ≡ room) }
{
    let mut set = BitSet::with_room(alloc, room)?;
    for number in numbers {
        if *number < room {
            set.insert(*number);
        }
    }
    Ok(set)
}

fn hash_of(set: &BitSet) -> u64 {
    let mut state = DefaultHasher::new();
    set.hash(&mut state);
    state.finish()
}

#[test]
fn keeps_numbers_at_the_ends_of_words(rt: HostRuntime) -> Result<(), Fail> {
    let alloc = rt.alloc();
    let table: [(usize, &[usize]); 7] = [
        (0, &[]),
        (1, &[0]),
        (63, &[0, 62]),
        (64, &[0, 1, 63]),
        (65, &[63, 64]),
        (128, &[]),
        (128, &[0, 63, 64, 127]),
    ];
    for (room, numbers) in table {
        let mut set = set_of(alloc, room, numbers)?;
        assert_eq!(rt; set.room(), room, "at {room}");
        assert_eq!(rt; set.to_vec(alloc)?.as_slice(), numbers, "at {room}");
        assert_eq!(rt; set.count(), numbers.len(), "at {room}");
        assert_eq!(rt; set.is_empty(), numbers.is_empty(), "at {room}");
        assert!(rt; !set.contains(room), "at {room}");
        let copy = set.copy(alloc)?;
        assert!(rt; copy == set, "at {room}");
        assert_eq!(rt; hash_of(&copy), hash_of(&set), "at {room}");
        set.clear();
        assert!(rt; set.is_empty(), "at {room}");
        assert_eq!(rt; set.room(), room, "at {room}");
        assert_eq!(rt; set == copy, numbers.is_empty(), "at {room}");
    }
    Ok(())
}

#[test]
fn joins_and_compares(rt: HostRuntime) -> Result<(), Fail> {
    let alloc = rt.alloc();
    let mut set = set_of(alloc, 130, &[0, 63, 64, 129])?;
    let other = set_of(alloc, 130, &[63, 64, 100])?;
    assert_eq!(rt; set.first_common(&other), Some(63));
    assert_eq!(rt; set.next_from(65), Some(129));
    assert!(rt; !other.is_subset(&set));
    assert_eq!(rt; set.cmp(&other), Ordering::Greater);
    assert!(rt; set.union_with(&other));
    assert_eq!(rt;
        set.to_vec(alloc)?.as_slice(),
        [0, 63, 64, 100, 129].as_slice()
    );
    assert!(rt; other.is_subset(&set));
    assert!(rt; !set.union_with(&other));
    assert!(rt; set.meet_with(&other));
    assert!(rt; set == other);
    assert!(rt; !set.meet_with(&other));
    set.remove(64);
    assert!(rt; set.contains(63) && !set.contains(64));
    assert_eq!(rt; set.partial_cmp(&other), Some(Ordering::Less));
    assert_eq!(rt; set_of(alloc, 9, &[8])?.first_common(&other), None);
    Ok(())
}
