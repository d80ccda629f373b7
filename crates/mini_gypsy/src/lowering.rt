//! The source that a program becomes.

ghost use Rattle.std.specs.Prelude.{◌≡◌, ◌≤◌, ◌^◌, IfOk, length};
ghost use Rattle.stack_heap.specs.Heaps.{IfOkUnless};
ghost use Rattle.gypsy_syntax.specs.Views.SourceView.{proc_of, source_of};
ghost use Rattle.gypsy_check.specs.Accepted.{IsAccepted};
ghost use Rattle.mini_syntax.specs.{Lawful.{IsLawful}, MiniReading.{RefusesTextUnless}, ProgramView.{block_in}};
ghost use Rattle.mini_gypsy.specs.{Lowered.{lowered, main_procedure}, Promises.{Lowers}};

use crate::statements::block;
use crate::temporaries::{formals, temporaries};
use gypsy_check::{Accepted, CheckFault, check};
use gypsy_syntax::{Proc, Source, plain_form};
use mini_syntax::{InfixProgram, MiniFault, read_mini};
use stack_heap::Heap;
use stack_text::{Memory, Named};

/// The procedure that a program becomes.
fn main_procedure<H: Heap>(heap: H, program: &InfixProgram) -> Result<Proc, Memory>
    requires lawful { IsLawful program.now.declared.items (block_in program.now.body.items) }
    ensures { IfOkUnless (H.may_refuse heap) result (λ made.
        proc_of made ≡ main_procedure program.now.declared.items (block_in program.now.body.items)) }
{
    let declared = program.declared.as_slice();
    Ok(Proc {
        place: 0,
        name: Named::unplaced(heap, b"main".as_slice())?,
        formals: formals(heap, declared)?,
        conds: Vec::new(heap.handle()),
        locals: temporaries(heap)?,
        local_conds: Vec::new(heap.handle()),
        body: block(heap, declared, program.body.as_slice())?,
    })
}

/// The source that a program becomes.
fn source<H: Heap>(heap: H, program: &InfixProgram) -> Result<Source, Memory>
    requires lawful { IsLawful program.now.declared.items (block_in program.now.body.items) }
    ensures { IfOkUnless (H.may_refuse heap) result (λ made.
        source_of made ≡ lowered program.now.declared.items (block_in program.now.body.items)) }
{
    let mut procs = Vec::new(heap.handle());
    heap.push(&mut procs, main_procedure(heap, program)?)?;
    Ok(Source {
        place: 0,
        main: Named::unplaced(heap, b"main".as_slice())?,
        procs,
    })
}

/// The accepted source that a program becomes, which breaks no rule.
///
/// It has one procedure `main`, whose formals are the declared variables in order, and means the same as the program. The
/// only error is out of memory.
fn lower_program<H: Heap>(heap: H, program: &InfixProgram) -> Result<Accepted, Memory>
    requires lawful { IsLawful program.now.declared.items (block_in program.now.body.items) }
    ensures lowered { IfOkUnless (H.may_refuse heap) result (λ accepted.
        source_of accepted ≡ lowered program.now.declared.items (block_in program.now.body.items)) }
    ensures accepted { IfOk result (λ accepted. IsAccepted (source_of accepted)) }
{
    plain_form();
    let source = source(heap, program)?;
    match check(heap, source) {
        Ok(accepted) => Ok(accepted),
        Err(CheckFault::Memory) => Err(Memory),
        Err(CheckFault::Violation { rule: _, place: _ }) => unreachable!(),
    }
}

/// Lowers a text of at most 2^20 bytes to Micro-Gypsy.
///
/// The source has one procedure `main`, whose formals are the declared variables in order. From all values that fit, with
/// every size of both stacks that is main's own need or more, and at every bound it means the same as the text's program.
/// Its text is read again, and has at most 60 bytes for each byte of this one, and 2,000 more. The time is linear in the
/// text, but for names that were picked so that they meet in a hash table, whose seed is fixed.
///
/// # Errors
///
/// The first token that breaks one of the rules 1 to 4, with the least rule that it breaks; or else the least place and
/// then the least rule of 5 to 9; or out of memory.
pub fn lower<H: Heap>(heap: H, text: &[u8]) -> Result<Accepted, MiniFault>
    requires { length text.now ≤ 2 ^ 20 }
    ensures lowers { IfOk result (λ accepted. Lowers text.now (source_of accepted)) }
    ensures fault { RefusesTextUnless (H.may_refuse heap) text.now result }
{
    let program = read_mini(heap, text)?;
    let accepted = lower_program(heap, &program)?;
    Ok(accepted)
}
