//! When siblings are balanced, and the turns of small weights.
use balance::{Turn, balanced, double_law, link_here, repair};

#[test]
fn siblings_are_balanced_up_to_three_times(rt: HostRuntime) {
    assert!(rt; balanced(1, 3));
    assert!(rt; !balanced(1, 4));
    assert!(rt; link_here(3, 1));
    assert!(rt; !link_here(4, 1));
}

#[test]
fn a_node_is_turned_by_its_three_weights(rt: HostRuntime) {
    assert_eq!(rt; repair(2, 3, 3), Turn::None);
    assert_eq!(rt; repair(2, 3, 4), Turn::Single);
    assert_eq!(rt; repair(2, 5, 2), Turn::Double);
    assert!(rt; double_law(2, 2, 3, 2));
}
