//! Examples of commands, as the pages show them.
use fc_budget::Budget;
use fc_command::command::{
    Command, Items, Reply, ServeEnd, Side, World, ending, serve, serve_within,
};
use std::test::Fail;

#[test]
fn one_command(rt: HostRuntime) {
    let alloc = rt.alloc();
    // example: World::new, World::step
    let mut world = World::new(alloc);
    let put = world.step(Command::Insert(Side::First, 7u64, 70u64));
    assert!(rt; matches!(put, Reply::Value(None)));
    let found = world.step(Command::Get(Side::First, 7));
    assert!(rt; matches!(found, Reply::Value(Some(70))));
    // end
}

#[test]
fn a_list_of_commands(rt: HostRuntime) -> Result<(), Fail> {
    let alloc = rt.alloc();
    // example: World::within, World::run
    let budget = Budget::new(alloc, 4096);
    let mut world: World<u64, u64, _> = World::within(alloc, &budget);
    let add = Command::AddItem(Side::First, 7);
    let commands = vec![in alloc; add, Command::ContainsItem(Side::First, 7)]?;
    assert_eq!(rt; world.run(commands)?.len(), 2);
    // end
    Ok(())
}

#[test]
fn lines(rt: HostRuntime) -> Result<(), Fail> {
    let alloc = rt.alloc();
    // example: serve, ending
    let mut source = b"insert a 37 1\nget a 37\n".as_slice();
    let mut replies = Vec::new(alloc);
    let end = serve(alloc, &mut source, &mut replies);
    assert!(rt; replies.as_slice() == b"none\nsome 1\n".as_slice());
    assert!(rt; matches!(end, Ok(ServeEnd::Finished)));
    assert_eq!(rt; ending(&end).0, 0);
    // end
    Ok(())
}

#[test]
fn lines_in_a_budget(rt: HostRuntime) -> Result<(), Fail> {
    let alloc = rt.alloc();
    // example: serve_within
    let budget = Budget::new(alloc, 0);
    let mut source = b"insert a 37 1\n".as_slice();
    let mut replies = Vec::new(alloc);
    let _end = serve_within(alloc, &budget, &mut source, &mut replies);
    assert!(rt; replies.starts_with(b"refused"));
    // end
    Ok(())
}

#[test]
fn lists_of_items(rt: HostRuntime) -> Result<(), Fail> {
    let alloc = rt.alloc();
    // example: Items::as_slice, Items::into_vec
    let items = Items::from(vec![in alloc; 3u64, 1, 3]?);
    assert!(rt; items.as_slice() == [3, 1, 3].as_slice());
    assert_eq!(rt; items.into_vec().len(), 3);
    // end
    Ok(())
}
