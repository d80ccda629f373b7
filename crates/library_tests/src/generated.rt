//! What is generated of a source, for callers who have no program of it.

use gypsy_check::check;
use gypsy_codegen::{MarkAt, generate, marks};
use gypsy_space::needs;
use gypsy_syntax::read_gypsy;
use piton_check::Checked;
use piton_linker::link;
use piton_syntax::print_piton;
use std::alloc::Global;
use std::test::Fail;

/// A source with one procedure.
const SOURCE: &[u8] = b"(program main
(proc main ((x integer)) () () () (mg-simple-constant-assignment x 7)))
";

/// What is printed of its system up to the first predefined program, for stacks that just suffice.
const SYSTEM: &[u8] = b"(piton main 7 3 0 ((c-c (nat 2))) ((int 0))
(main () ((x (nat 0)))
(push-local x)
(push-constant (int 7))
(call mg-simple-constant-assignment)
(jump L1)
(dl L0 () (push-constant (nat 1)))
(pop-global c-c)
(dl L1 () (ret)))
(mg-simple-variable-assignment (d x) ()
(push-local x)
(fetch-temp-stk)
(push-local d)
(deposit-temp-stk)
(ret))
";

/// The system of the source, and the marks of its code.
fn made(alloc: Global) -> Result<(Checked, Vec<MarkAt>), Fail> {
    let accepted = check(alloc, read_gypsy(alloc, SOURCE)?)?;
    let needs = needs(alloc, &accepted)?;
    let system = generate(alloc, &accepted, &needs, 7, 3, 0)?;
    let marks = marks(alloc, &accepted, &needs)?;
    Ok((system, marks))
}

/// What is printed of the system of the source.
fn printed(alloc: Global) -> Result<Vec<u8>, Fail> {
    let (checked, _marks) = made(alloc)?;
    Ok(print_piton(alloc, checked.system())?)
}

#[test]
fn a_system_is_generated_without_the_program(rt: HostRuntime) -> Result<(), Fail> {
    assert!(rt; printed(rt.alloc())?.starts_with(SYSTEM));
    Ok(())
}

/// The program, the address and the place of each mark.
fn marked(alloc: Global) -> Result<Vec<(u32, u32, u32)>, Fail> {
    let (checked, marks) = made(alloc)?;
    let linked = link(alloc, &checked)?;
    let mut marked = Vec::new(alloc);
    for mark in &marks {
        let row = linked.places.get(mark.program as usize);
        let address = row.and_then(|row| row.get(mark.at as usize));
        marked.push((mark.program, address.copied().unwrap_or(0), mark.place))?;
    }
    Ok(marked)
}

#[test]
fn code_is_marked_where_a_run_of_the_source_may_stand(rt: HostRuntime) -> Result<(), Fail> {
    let marked = marked(rt.alloc())?;
    assert!(rt;
        marked.as_slice() == [(0, 4, 48), (0, 14, 14), (0, 16, 14), (0, 21, 14)].as_slice()
    );
    Ok(())
}
