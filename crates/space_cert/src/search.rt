//! Procedures in an order in which each one stands after those that it calls, and which of them reach themselves.

ghost use Rattle.std.specs.{Prelude.{◌≡◌, ◌<◌, ◌≤◌, ◌^◌, ◌∷◌, Some, List, length, reverse, IfOk}, List.{All}};
ghost use Rattle.stack_heap.specs.Heaps.{IfOkUnless, OnOkUnless};
ghost use Rattle.space_cert.specs.{Internal.Search.{earlier}, Internal.SearchState.{IsFound}, Internal.SearchView.{AreCalls, seen_calls}};

use crate::filling::filled;
use stack_heap::Heap;
use stack_text::Memory;

/// How far the search has come with a procedure.
#[derive(Clone, Copy, Debug)]
enum Mark {
    New,
    /// Its group isn't done; with its place among the entered ones.
    Entered(u32),
    Done,
}

/// Entered procedures each of which reaches the others: those from the place `first` to the next group's.
#[derive(Clone, Copy, Debug)]
struct Group {
    first: usize,
    /// How many calls were to be followed before the group's.
    from: usize,
    /// Whether its procedures reach themselves.
    again: bool,
}

/// The search along the calls.
#[derive(Drop)]
struct Search {
    main: u32,
    marks: Vec<Mark>,
    entered: Vec<u32>,
    /// The procedures of the calls that are to be followed.
    todo: Vec<u32>,
    /// The groups, which follow one another from the one of main: the topmost, and those below it.
    top: Group,
    below: Vec<Group>,
    /// The procedures that are done.
    order: Vec<u32>,
    /// The first of them that reaches itself.
    first: Option<u32>,
}

/// The first one of a procedure and those before.
fn earlier(procedure: u32, first: Option<u32>) -> u32
    ensures { Some result ≡ earlier procedure first }
{
    match first {
        None => procedure,
        Some(first) => procedure.min(first),
    }
}

impl Search {
    ghost use Rattle.space_cert.specs.Internal.SearchState.{with_call, with_entered, with_joined, with_top_done, IsSearch, left_to_do};
    ghost use Rattle.space_cert.specs.{Internal.SearchView.{HasAdvanced, HasFinished, search_of}, declared.search.Group.{Group}};

    /// The search begins with main.
    fn new<H: Heap>(heap: H, calls: &[Vec<u32>], main: u32) -> Result<Search, Memory>
        requires { main < length calls.now }
        ensures search { IfOkUnless (H.may_refuse heap) result
            (λ s. IsSearch (seen_calls calls.now) main (search_of s)) }
        ensures main { IfOk result (λ s. s.main ≡ main) }
    {
        let mut marks = filled(heap, Mark::New, calls.len())?;
        marks[main as usize] = Mark::Entered(0);
        let mut entered = Vec::new(heap.handle());
        heap.push(&mut entered, main)?;
        let todo = heap.copied(calls[main as usize].as_slice())?;
        Ok(Search {
            main,
            marks,
            entered,
            todo,
            top: Group {
                first: 0,
                from: 0,
                again: false,
            },
            below: Vec::new(heap.handle()),
            order: Vec::new(heap.handle()),
            first: None,
        })
    }

    /// A procedure that is new is entered, as a group of its own.
    fn enter<H: Heap>(&mut self, heap: H, calls: &[Vec<u32>], procedure: u32) -> Result<(), Memory>
        requires there { procedure < length calls.now }
        requires marked { procedure < length self.old.marks.items }
        requires few { length self.old.entered.items < 2 ^ 32 }
        ensures entered { OnOkUnless (H.may_refuse heap) result (search_of self.new
            ≡ with_entered (seen_calls calls.now) procedure self.old.todo.items (search_of self.old)) }
        ensures main { self.new.main ≡ self.old.main }
    {
        heap.push(&mut self.below, self.top)?;
        self.top = Group {
            first: self.entered.len(),
            from: self.todo.len(),
            again: false,
        };
        self.marks[procedure as usize] = Mark::Entered(self.entered.len() as u32);
        heap.push(&mut self.entered, procedure)?;
        heap.extend_from_slice(&mut self.todo, calls[procedure as usize].as_slice())?;
        Ok(())
    }

    /// The procedures of the top group are done.
    fn close<H: Heap>(&mut self, heap: H) -> Result<(), Memory>
        requires marked { All (λ p. p < length self.old.marks.items) self.old.entered.items }
        requires there { self.old.top.first ≤ length self.old.entered.items }
        ensures closed { OnOkUnless (H.may_refuse heap) result
            (search_of self.new ≡ with_top_done (search_of self.old)) }
        ensures main { self.new.main ≡ self.old.main }
    {
        while self.entered.len() > self.top.first {
            match self.entered.pop() {
                None => unreachable!(),
                Some(procedure) => {
                    self.marks[procedure as usize] = Mark::Done;
                    heap.push(&mut self.order, procedure)?;
                    if self.top.again {
                        self.first = Some(earlier(procedure, self.first));
                    }
                }
            }
        }
        Ok(())
    }

    /// The two topmost groups become one, whose procedures reach themselves.
    fn join(&mut self)
        ensures joined { (k : Group) (ks : List Group) → (search_of self.old).below ≡ k ∷ ks →
            search_of self.new ≡ with_joined k ks (search_of self.old) }
        ensures main { self.new.main ≡ self.old.main }
    {
        if let Some(group) = self.below.pop() {
            self.top = Group {
                first: group.first,
                from: group.from,
                again: true,
            };
        }
    }

    /// Follows a call, which was the last that was to be followed.
    fn follow<H: Heap>(&mut self, heap: H, calls: &[Vec<u32>], procedure: u32) -> Result<(), Memory>
        requires calls { AreCalls (seen_calls calls.now) }
        requires few { length calls.now < 2 ^ 32 }
        requires search { IsSearch (seen_calls calls.now) self.old.main (with_call procedure (search_of self.old)) }
        requires of_top { self.old.top.from ≤ length self.old.todo.items }
        ensures search { OnOkUnless (H.may_refuse heap) result
            (IsSearch (seen_calls calls.now) self.new.main (search_of self.new)) }
        ensures less { OnOkUnless (H.may_refuse heap) result (left_to_do (seen_calls calls.now) (search_of self.new)
            < left_to_do (seen_calls calls.now) (with_call procedure (search_of self.old))) }
        ensures main { self.new.main ≡ self.old.main }
    {
        match self.marks[procedure as usize] {
            Mark::New => self.enter(heap, calls, procedure),
            Mark::Done => Ok(()),
            Mark::Entered(place) => {
                if self.top.first <= place as usize {
                    self.top.again = true;
                } else {
                    heap.push(&mut self.todo, procedure)?;
                    self.join();
                }
                Ok(())
            }
        }
    }

    /// The top group is done; whether there is another.
    fn finish<H: Heap>(&mut self, heap: H) -> Result<bool, Memory>
        requires marked { All (λ p. p < length self.old.marks.items) self.old.entered.items }
        requires there { self.old.top.first ≤ length self.old.entered.items }
        ensures finished { IfOkUnless (H.may_refuse heap) result
            (λ more. HasFinished (search_of self.old) (search_of self.new) more) }
        ensures main { self.new.main ≡ self.old.main }
    {
        self.close(heap)?;
        match self.below.pop() {
            Some(group) => {
                self.top = group;
                Ok(true)
            }
            None => Ok(false),
        }
    }

    /// Makes a move; whether there is more to do.
    fn advance<H: Heap>(&mut self, heap: H, calls: &[Vec<u32>]) -> Result<bool, Memory>
        requires calls { AreCalls (seen_calls calls.now) }
        requires few { length calls.now < 2 ^ 32 }
        requires search { IsSearch (seen_calls calls.now) self.old.main (search_of self.old) }
        ensures advanced { IfOkUnless (H.may_refuse heap) result
            (λ more. HasAdvanced (seen_calls calls.now) self.old.main (search_of self.old)
            (search_of self.new) more) }
        ensures main { self.new.main ≡ self.old.main }
    {
        if self.todo.len() <= self.top.from {
            return self.finish(heap);
        }
        match self.todo.pop() {
            Some(procedure) => {
                self.follow(heap, calls, procedure)?;
                Ok(true)
            }
            None => unreachable!(),
        }
    }
}

/// The procedures that main reaches, main too, in an order in which each one stands after those that it calls, if none reaches
/// itself.
#[derive(Drop)]
pub(crate) struct CallOrder {
    pub procedures: Vec<u32>,
    /// The first one, in the source's order, that reaches itself.
    pub recursive: Option<u32>,
}

/// The procedures that main reaches.
pub(crate) fn call_order<H: Heap>(
    heap: H,
    calls: &[Vec<u32>],
    main: u32,
) -> Result<CallOrder, Memory>
    requires there { main < length calls.now }
    requires calls { AreCalls (seen_calls calls.now) }
    requires few { length calls.now < 2 ^ 32 }
    ensures { IfOkUnless (H.may_refuse heap) result
        (λ o. IsFound (seen_calls calls.now) main (reverse o.procedures.items) o.recursive) }
{
    let mut search = Search::new(heap, calls, main)?;
    while search.advance(heap, calls)? {}
    Ok(CallOrder {
        procedures: search.order,
        recursive: search.first,
    })
}
