//! Trees that are printed again.

use stack_text::{print_tree, read_tree};
use std::alloc::Global;
use std::test::Fail;

/// What is printed of the tree of a short text.
fn printed(alloc: Global, text: &[u8]) -> Result<Vec<u8>, Fail> {
    if text.len() > 1000 {
        return Err(Fail::from("too long"));
    }
    let tree = read_tree(alloc, text)?;
    Ok(print_tree(alloc, &tree)?)
}

#[test]
fn a_tree_is_printed_with_one_space(rt: HostRuntime) -> Result<(), Fail> {
    let text = b"; a comment \xff (\n ( a\t(b-2 ;c\n d)\r\n() )";
    let printed = printed(rt.alloc(), text)?;
    assert!(rt; printed.as_slice() == b"(a (b-2 d) ())".as_slice());
    Ok(())
}
