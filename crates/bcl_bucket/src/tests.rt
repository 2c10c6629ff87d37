use crate::{Control, Path, State, home_rank, start};
use bcl_segment::Layout;

#[test]
fn keys_start_at_these_places(rt: HostRuntime) {
    assert_eq!(rt; start(&0u64, 4), 0);
    assert_eq!(rt; start(&1u64, 4), 2);
    assert_eq!(rt; start(&2u64, 4), 1);
    assert_eq!(rt; start(&3u64, 4), 3);
    assert_eq!(rt; start(&4u64, 4), 2);
    assert_eq!(rt; start(&5u64, 4), 1);
    assert_eq!(rt; start(&6u64, 4), 3);
    assert_eq!(rt; start(&9u64, 4), 3);
    assert_eq!(rt; start(&12u64, 4), 3);
    assert_eq!(rt; start(&1u64, 8), 2);
    assert_eq!(rt; start(&3u64, 8), 7);
    assert_eq!(rt; start(&6u64, 8), 7);
    assert_eq!(rt; start(&27u64, 8), 6);
    assert_eq!(rt; start(&44u64, 8), 3);
    assert_eq!(rt; start(&((1u128 << 64) + 2), 4), 1);
    assert_eq!(rt; start(&((1u128 << 64) + 2), 8), 1);
}

#[test]
fn keys_are_at_home_where_their_path_begins(rt: HostRuntime) {
    let shape = Layout {
        ranks: 2,
        per_rank: 2,
    };
    assert_eq!(rt; home_rank(&3u64, shape), 1);
    assert_eq!(rt; home_rank(&6u64, shape), 1);
    assert_eq!(rt; home_rank(&2u64, shape), 0);
}

#[test]
fn a_path_goes_round(rt: HostRuntime) {
    let mut path = Path::new(2, 4);
    assert_eq!(rt; path.next(), Some(2));
    assert_eq!(rt; path.next(), Some(3));
    assert_eq!(rt; path.next(), Some(0));
    assert_eq!(rt; path.next(), Some(1));
    assert_eq!(rt; path.next(), None);
    assert_eq!(rt; path.next(), None);
}

#[test]
fn a_control_word_has_its_bits(rt: HostRuntime) {
    let control = Control {
        state: State::Ready,
        home: 1,
        readers: 2,
    };
    assert_eq!(rt; control.to_word(), 131330);
    assert_eq!(rt; Control::of_word(131330), Some(control));
    assert_eq!(rt; Control::of_word(4), None);
    assert_eq!(rt; Control::of_word(8), None);
    assert_eq!(rt; Control::of_word(1 << 32), None);
}
