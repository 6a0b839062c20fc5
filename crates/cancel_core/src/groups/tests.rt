// That the calls succeed where memory is at hand.
ghost use Rattle.std.specs.Prelude.{◌≡◌, length};

use super::{CancelHandle, Groups};
use std::test::Fail;

// Joins a group that is there and isn't canceled.
fn join(groups: &mut Groups, handle: CancelHandle, serial: u64) -> Result<(), Fail>
    ensures { length groups.new ≡ length groups.old }
{
    if handle.group() < groups.count() && !groups.canceled(handle) {
        groups.associate(handle, serial)?;
    }
    Ok(())
}

#[test]
fn members_come_once_and_ascending(rt: HostRuntime) -> Result<(), Fail> {
    let mut groups = Groups::new(rt.alloc());
    let first = groups.new_canceller()?;
    let second = groups.new_canceller()?;
    assert_eq!(rt; groups.count(), 2);
    assert_eq!(rt; (first.group(), second.group()), (0, 1));
    let handle = groups.handle(&first);
    let other = groups.handle(&second);
    assert!(rt; !groups.canceled(handle));
    join(&mut groups, handle, 7)?;
    join(&mut groups, handle, 3)?;
    join(&mut groups, handle, 9)?;
    join(&mut groups, handle, 3)?;
    join(&mut groups, other, 5)?;
    groups.leave(handle, 9);
    groups.leave(handle, 8);
    assert_eq!(rt; groups.size(&first), 2);
    let Ok((third, members)) = groups.cancel(first) else {
        return Err(Fail::from("out of memory"));
    };
    assert_eq!(rt; members.as_slice(), [3, 7].as_slice());
    assert!(rt; groups.canceled(handle));
    assert!(rt; !groups.canceled(other));
    assert_eq!(rt; third.group(), 2);
    assert_eq!(rt; groups.size(&third), 0);
    assert_eq!(rt; groups.size(&second), 1);
    Ok(())
}
