//! Fetches the files that a command reads.
ghost use Rattle.std.specs.Prelude.{◌≡◌, ◌≤◌, ◌⊎◌, IfErr, IfOk, IfSome, length, map};
ghost use Rattle.stack_shelf.specs.{Causes.{NoneFell}, Shelf.{fetched}};
ghost use Rattle.command_line.specs.{Roles.{limit_of}, Gathered.{AreShort, roles_of, text_or_end, gathered}, CommandFiles.{names_of}};
ghost use Rattle.command_line.specs.Devices.{GivesOrEndsEarly, EndsAt, EndsAtOne, gave_each};

use crate::early_end::EarlyEnd;
use crate::role::{Role, RoleFile};
use crate::texts::{Text, Texts};
use crate::words::FileName;
use stack_heap::Heap;
use stack_shelf::{FetchFault, Shelf};

/// The text of one file.
fn fetch<H: Heap, S: Shelf>(
    heap: H,
    shelf: &mut S,
    role: Role,
    name: &str,
) -> Result<Text, EarlyEnd>
    ensures text { IfSome (S.files shelf.old) (λ files.
        GivesOrEndsEarly (λ text. text) result
        (text_or_end (role, name.now) (fetched files name.now (limit_of role)))) }
    ensures within { IfOk result (λ text. length text ≤ limit_of role) }
    ensures gave { IfOk result (λ text. shelf.new ≡ S.gave shelf.old name.now text) }
    ensures cause { IfErr result (EndsAt (H.may_refuse heap ⊎ S.may_refuse)
        (S.counts shelf.old) (S.counts shelf.new) name.now) }
    ensures files { S.files shelf.new ≡ S.files shelf.old }
    ensures counts { NoneFell (S.counts shelf.old) (S.counts shelf.new) }
{
    let limit = role.limit();
    match shelf.fetch_shared(heap, name, limit) {
        Ok(text) => Ok(Text::new(text)),
        Err(FetchFault::Missing) => {
            let name = FileName::new(heap, name)?;
            Err(EarlyEnd::Missing { name })
        }
        Err(FetchFault::TooLong) => Err(EarlyEnd::TooLong { limit }),
        Err(FetchFault::Failed) => {
            let name = FileName::new(heap, name)?;
            Err(EarlyEnd::ShelfFault { name })
        }
        Err(FetchFault::Memory) => Err(EarlyEnd::OutOfMemory),
    }
}

/// The texts of the files that a command reads, fetched in this order.
///
/// The first file that is missing, or has more bytes than its role allows, ends the command, and so does a shelf that fails. A
/// fault is told only where the shelf counted one at one of these names.
pub fn gather<H: Heap, S: Shelf>(
    heap: H,
    shelf: &mut S,
    inputs: &[RoleFile],
) -> Result<Texts, EarlyEnd>
    ensures texts { IfSome (S.files shelf.old) (λ files. GivesOrEndsEarly (λ texts. texts) result
        (gathered files (map (λ input. (input.role, input.name.now)) inputs.now))) }
    ensures roles { IfOk result (λ texts.
        roles_of texts ≡ roles_of (map (λ input. (input.role, input.name.now)) inputs.now)) }
    ensures short { IfOk result AreShort }
    ensures gave { IfOk result (λ texts. shelf.new ≡ gave_each S.gave shelf.old
        (map (λ input. (input.role, input.name.now)) inputs.now) texts) }
    ensures cause { IfErr result (EndsAtOne (H.may_refuse heap ⊎ S.may_refuse)
        (S.counts shelf.old) (S.counts shelf.new) (names_of (map (λ input. (input.role, input.name.now)) inputs.now))) }
    ensures files { S.files shelf.new ≡ S.files shelf.old }
    ensures counts { NoneFell (S.counts shelf.old) (S.counts shelf.new) }
{
    let mut texts = Texts::new(heap.handle());
    for input in inputs {
        let text = fetch(heap, shelf, input.role, input.name.as_str())?;
        texts.push(heap, input.role, text)?;
    }
    Ok(texts)
}
