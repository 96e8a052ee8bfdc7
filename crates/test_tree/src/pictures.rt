//! Trees drawn as text: a node's keys on a line, and its children below it, each two spaces further in.

use crate::insertion::{full_leaf, put_last};
use crate::removal::without;
use fc_tree_node::node::Node;
use std::alloc::{AllocError, Global};
use std::test::Fail;

const SPLIT: &str = "9
  1 2 3 4 5 6 7 8
  10 11 12 13 14 15 16
";

const MERGED: &str = "1 2 3 4 5 6 7 8 9 10 11 12 13 14 15
";

// Draws a node's keys on a line, after so many spaces.
fn draw_line(node: &Node<u64, u64>, spaces: &str, text: &mut String) -> Result<(), AllocError> {
    text.push_str(spaces)?;
    for i in 0..node.len() {
        let space = if i == 0 { "" } else { " " };
        write!(text, "{space}{}", node.pair(i).0)?;
    }
    text.push('\n')
}

// Draws a tree of one level or two.
fn draw(alloc: Global, root: &Node<u64, u64>) -> Result<String, AllocError> {
    let mut text = String::new(alloc);
    draw_line(root, "", &mut text)?;
    for i in 0..root.child_count() {
        draw_line(root.child(i), "  ", &mut text)?;
    }
    Ok(text)
}

#[test]
fn sixteen_keys_and_a_removal(rt: HostRuntime) -> Result<(), Fail> {
    let mut root = full_leaf(&rt, rt.alloc(), 1, 1)?;
    put_last(&rt, rt.alloc(), &mut root, 16, 2)?;
    assert!(&rt; draw(rt.alloc(), &root)?.as_str() == SPLIT);
    let root = without(&rt, root, 1, &[1, 6], 16).ok_or("no root")?;
    assert!(&rt; draw(rt.alloc(), &root)?.as_str() == MERGED);
    Ok(())
}
