// Kept lists of numbers and of pairs, by example.
use kept::equality::Equality;
use kept::instances::ByEq;
use kept::list::Kept;
use kept::pairing::pair_off;

// A list that holds `xs`, or nothing where there are too few places.
fn kept_of<'a, T: Copy>(places: &'a mut [T], xs: &[T]) -> Kept<'a, T> {
    let mut kept = Kept::new(places);
    let _ = kept.extend_from_slice(xs);
    kept
}

#[test]
fn a_push_is_refused_when_full(rt: HostRuntime) {
    let mut places = [0u32; 2];
    let mut kept = Kept::new(&mut places);
    assert!(rt; kept.is_empty());
    assert!(rt; kept.push(7).is_ok());
    assert!(rt; kept.push(8).is_ok());
    assert!(rt; kept.push(9).is_err());
    assert_eq!(rt; kept.find(&ByEq, &9), None);
}

#[test]
fn the_first_of_several_is_found(rt: HostRuntime) {
    let mut places = [(0u32, 0u32); 3];
    let kept = kept_of(&mut places, &[(1, 2), (3, 4), (3, 4)]);
    assert_eq!(rt; kept.find(&ByEq, &(3, 4)), Some(1));
    assert_eq!(rt; kept.find(&ByEq, &(3, 2)), None);
}

#[test]
fn taking_off_keeps_the_order(rt: HostRuntime) {
    let mut places = [0u32; 4];
    let mut kept = kept_of(&mut places, &[5, 6, 7, 6]);
    assert!(rt; kept.take_off(&ByEq, &6));
    assert_eq!(rt; kept.find(&ByEq, &7), Some(1));
    assert_eq!(rt; kept.find(&ByEq, &6), Some(2));
}

#[test]
fn taking_an_absent_one_off_changes_nothing(rt: HostRuntime) {
    let mut places = [0u32; 2];
    let mut kept = kept_of(&mut places, &[5]);
    assert!(rt; !kept.take_off(&ByEq, &6));
    assert_eq!(rt; kept.len(), 1);
    assert_eq!(rt; kept.find(&ByEq, &5), Some(0));
}

#[test]
fn numbers_pair_off_in_any_order(rt: HostRuntime) {
    let mut room = [0u32; 3];
    assert_eq!(rt;
        pair_off(&ByEq, &[1, 2, 1], &[2, 1, 1], &mut room).ok(),
        Some(true)
    );
    assert_eq!(rt; pair_off(&ByEq, &[1, 1], &[1], &mut room).ok(), Some(false));
    assert_eq!(rt; pair_off(&ByEq, &[1], &[1, 1], &mut room).ok(), Some(false));
}

#[test]
fn pairs_pair_off_by_both_parts(rt: HostRuntime) {
    let mut room = [(0u32, 0u32); 2];
    assert_eq!(rt;
        pair_off(&ByEq, &[(1, 2), (2, 1)], &[(2, 1), (1, 2)], &mut room).ok(),
        Some(true)
    );
    assert_eq!(rt;
        pair_off(&ByEq, &[(1, 2), (2, 1)], &[(2, 2), (1, 1)], &mut room).ok(),
        Some(false)
    );
}

#[test]
fn pairing_wants_room_for_the_first_list(rt: HostRuntime) {
    let mut room = [0u32; 3];
    assert_eq!(rt; pair_off(&ByEq, &[1, 2, 3, 4], &[1], &mut room).ok(), None);
    assert_eq!(rt;
        pair_off(&ByEq, &[1], &[1, 2, 3, 4], &mut room).ok(),
        Some(false)
    );
}
