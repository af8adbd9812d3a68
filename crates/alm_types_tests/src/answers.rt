//! The room of an answer.

use alm_common_tests::holds_at;
use alm_types::Answer;
use std::test::Fail;

#[test]
fn an_answer_takes_room_for_each_list_and_no_more_than_twice_it(
    rt: HostRuntime,
) -> Result<(), Fail> {
    for alarms in 1..=16_384_usize {
        let mut answer = Answer::new(rt.alloc());
        answer.reserve(alarms)?;
        let room = answer.list.capacity();
        holds_at((room, alarms), room <= alarms.max(4).saturating_mul(2))?;
    }
    Ok(())
}
