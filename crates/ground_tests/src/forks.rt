//! Forks at concrete types, and cuts of the most workers.

use fork_join::{Cut, FreeGate, fork2};

#[test]
fn one_worker_runs_both_halves(rt: HostRuntime) {
    let left = |_part: Cut| -> u64 { 3 };
    let right = |_part: Cut| -> u64 { 4 };
    let both = fork2(&rt, &FreeGate, Cut::new(1, 1), 2, left, right);
    assert_eq!(rt; both, (3, 4));
}

#[test]
fn two_workers_run_a_half_each(rt: HostRuntime) {
    let left = |part: Cut| -> (u32, u64) { (part.workers, part.place) };
    let right = |part: Cut| -> (u32, u64) { (part.workers, part.place) };
    let both = fork2(&rt, &FreeGate, Cut::new(2, 1), 2, left, right);
    assert_eq!(rt; both, ((1, 2), (1, 3)));
}

#[test]
fn sixty_four_workers_are_halved_to_one_each(rt: HostRuntime) {
    let mut cut = Cut::new(64, 1);
    for _ in 0..6 {
        if cut.splits(1) {
            cut = cut.right();
        }
    }
    assert_eq!(rt; cut.workers, 1);
    assert_eq!(rt; cut.place, 127);
}
