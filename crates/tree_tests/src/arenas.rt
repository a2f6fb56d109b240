use Step::{Add, Move, Put, Remove};
use node_arena::{Arena, ArenaError, NodeId};
use std::process::Abort;
use std::test::Fail;

/// Makes a node, while there are numbers left.
fn add(
    arena: &mut Arena<u32>,
    parent: NodeId,
    index: usize,
    value: u32,
) -> Result<NodeId, ArenaError> {
    if arena.inserted() >= u64::MAX - 1 {
        return Err(ArenaError::NoMemory);
    }
    arena.insert(parent, index, value)
}

/// A call, with nodes by their places in the order in which they are made, the root first.
#[derive(Clone, Copy)]
enum Step {
    /// A parent, an index and a value.
    Add(usize, usize, u32),
    /// A node, its new parent and an index.
    Move(usize, usize, usize),
    /// A node and a value.
    Put(usize, u32),
    /// A node.
    Remove(usize),
}

/// A call, and its answer.
struct Row {
    shows: &'static str,
    step: Step,
    want: Result<(), ArenaError>,
}

/// The number of the node that was made at this place.
fn number(made: &[NodeId], place: usize) -> Result<NodeId, ArenaError> {
    match made.get(place) {
        Some(id) => Ok(*id),
        None => Err(ArenaError::Stale),
    }
}

/// Does a step, and notes the number of a new node.
fn take(arena: &mut Arena<u32>, made: &mut Vec<NodeId>, step: &Step) -> Result<(), ArenaError> {
    match step {
        Add(parent, index, value) => {
            let id = add(arena, number(made, *parent)?, *index, *value)?;
            if made.push(id).is_err() {
                return Err(ArenaError::NoMemory);
            }
            Ok(())
        }
        Move(node, parent, index) => {
            arena.move_to(number(made, *node)?, number(made, *parent)?, *index)
        }
        Put(node, value) => match arena.put(number(made, *node)?, *value) {
            Ok(_) => Ok(()),
            Err(error) => Err(error),
        },
        Remove(node) => arena.remove(number(made, *node)?),
    }
}

/// Each step has its answer.
fn follow(rt: &impl Abort, arena: &mut Arena<u32>, made: &mut Vec<NodeId>, rows: &[Row]) {
    for row in rows {
        assert_eq!(rt; take(arena, made, &row.step), row.want, "{}", row.shows);
    }
}

/// The values of the first four children, with 0 where there are fewer.
fn children(arena: &Arena<u32>, id: NodeId) -> [u32; 4] {
    let mut values = [0; 4];
    for index in 0..4 {
        if let Some(child) = arena.child(id, index) {
            if let Some(value) = arena.get(child) {
                values[index] = *value;
            }
        }
    }
    values
}

/// Node n stands on level n + 1.
#[test]
fn no_node_stands_on_level_65(rt: HostRuntime) -> Result<(), Fail> {
    static ROWS: &[Row] = &[
        Row {
            shows: "a node on level 65",
            step: Add(63, 0, 9),
            want: Err(ArenaError::TooDeep),
        },
        Row {
            shows: "the top of another tree",
            step: Add(0, 0, 70),
            want: Ok(()),
        },
        Row {
            shows: "its second level",
            step: Add(64, 0, 71),
            want: Ok(()),
        },
        Row {
            shows: "two levels below level 63",
            step: Move(64, 62, 0),
            want: Err(ArenaError::TooDeep),
        },
        Row {
            shows: "two levels below level 62",
            step: Move(64, 61, 1),
            want: Ok(()),
        },
        Row {
            shows: "both go",
            step: Remove(64),
            want: Ok(()),
        },
        Row {
            shows: "their places are used again",
            step: Add(0, 0, 72),
            want: Ok(()),
        },
        Row {
            shows: "a number that went, put",
            step: Put(64, 9),
            want: Err(ArenaError::Stale),
        },
        Row {
            shows: "the other one, as a parent",
            step: Add(65, 0, 9),
            want: Err(ArenaError::Stale),
        },
    ];
    let (mut arena, root) = Arena::new(rt.alloc(), 0, 100, 100)?;
    let mut made = Vec::new(rt.alloc());
    made.push(root)?;
    for level in 1..64 {
        assert_eq!(rt;
            take(&mut arena, &mut made, &Add(level - 1, 0, level as u32)),
            Ok(())
        );
    }
    follow(&rt, &mut arena, &mut made, ROWS);
    assert_eq!(rt; children(&arena, root), [72, 1, 0, 0]);
    Ok(())
}

#[test]
fn many_nodes_come_and_go(rt: HostRuntime) -> Result<(), Fail> {
    // the most nodes of a document, under three of the root's children
    let (mut arena, root) = Arena::new(rt.alloc(), 0, 131_072, 65_536)?;
    for place in 0..3 {
        let parent = add(&mut arena, root, place, 1)?;
        for index in 0..43_689 {
            add(&mut arena, parent, index, 2)?;
        }
    }
    add(&mut arena, root, 3, 3)?;
    assert_eq!(rt; arena.len(), 131_072);
    assert_eq!(rt; add(&mut arena, root, 4, 3), Err(ArenaError::Full));
    // 3 times 43,690 nodes and the last one go
    for _ in 0..4 {
        if let Some(child) = arena.child(root, 0) {
            assert_eq!(rt; arena.remove(child), Ok(()));
        }
    }
    assert_eq!(rt; (arena.len(), arena.inserted()), (1, 131_072));
    Ok(())
}
