ghost use Rattle.sat_links.specs.Queues.{IsQueue};

use crate::DecisionQueue;
use std::alloc::{AllocError, Global};
use std::process::Abort;
use std::test::Fail;

/// The variables of a queue, last to first: each is the last free one once those after it have values.
fn backwards(
    rt: &impl Abort,
    alloc: Global,
    queue: &DecisionQueue,
    vars: u64,
) -> Result<Vec<u64>, AllocError>
    requires { IsQueue vars queue.now }
{
    let mut values = vec![in alloc; None; vars as usize]?;
    let mut order = Vec::new(alloc);
    for _ in 0..vars {
        let Some(var) = queue.last_free(&values) else {
            break;
        };
        assert!(rt; 1 <= var);
        assert!(rt; var <= vars);
        values[var as usize - 1] = Some(true);
        order.push(var)?;
    }
    Ok(order)
}

/// Moves each of some variables to the end in turn.
fn move_each(rt: &impl Abort, queue: &mut DecisionQueue, vars: u64, moved: &[u64])
    requires { IsQueue vars queue.old }
    ensures { IsQueue vars queue.new }
{
    for var in moved {
        assert!(rt; 1 <= *var);
        assert!(rt; *var <= vars);
        queue.move_to_end(*var);
    }
}

#[test]
fn variables_move_to_the_end(rt: HostRuntime) -> Result<(), Fail> {
    let alloc = rt.alloc();
    let cases: [(u64, &[u64], &[u64]); 8] = [
        (0, &[], &[]),
        (1, &[], &[1]),
        (1, &[1], &[1]),
        (3, &[], &[3, 2, 1]),
        (3, &[1], &[1, 3, 2]),
        (3, &[2], &[2, 3, 1]),
        (3, &[3], &[3, 2, 1]),
        (3, &[1, 2, 2], &[2, 1, 3]),
    ];
    for (vars, moved, order) in &cases {
        let mut queue = DecisionQueue::new(alloc, *vars)?;
        move_each(&rt, &mut queue, *vars, *moved);
        assert_eq!(rt; backwards(&rt, alloc, &queue, *vars)?.as_slice(), *order);
    }
    Ok(())
}

#[test]
fn the_last_variable_without_a_value_is_found(rt: HostRuntime) -> Result<(), Fail> {
    let queue = DecisionQueue::new(rt.alloc(), 3)?;
    assert_eq!(rt; queue.last_free(&[Some(true), None, None]), Some(3));
    assert_eq!(rt; queue.last_free(&[None, Some(false), Some(true)]), Some(1));
    assert_eq!(rt;
        queue.last_free(&[Some(false), Some(true), Some(true)]),
        None
    );
    Ok(())
}
