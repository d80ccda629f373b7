//! One step of a run.

ghost use Rattle.std.specs.Prelude.{◌≡◌, [], IfErr};
ghost use Rattle.stack_heap.specs.Heaps.{IfOkUnless};
ghost use Rattle.gypsy_space.specs.Nodes.{seen_cond};
ghost use Rattle.gypsy_meaning.specs.{Internal.Entering.{IsUnchanged}, Internal.Turns.{IsCall, Leaves}, Internal.Stepping.{Does, IsReady}};
ghost use Rattle.gypsy_meaning.specs.Views.Work.{work_of};

use crate::running::{Crossing, Meaning};
use gypsy_semantics::Moved;
use gypsy_space::{CallSite, Condition, Needs};
use stack_heap::Heap;
use stack_text::Memory;
use std::rc::Rc;

impl Meaning {
    /// Makes the step of a call.
    fn call<H: Heap>(&mut self, heap: H, needs: &Needs, site: Rc<CallSite>) -> Result<Moved, Memory>
        requires ready { IsReady needs.now.procedures.items self.old }
        requires turn { IsCall site.value (work_of self.old.work) }
        ensures done { IfOkUnless (H.may_refuse heap) result (Does self.old self.new) }
        ensures unchanged { IfErr result (λ e. IsUnchanged self.old self.new) }
    {
        self.make_call(heap, needs, site)?;
        Ok(Moved::Moved)
    }

    /// Makes the step at the normal end of a procedure.
    fn end<H: Heap>(&mut self, heap: H, needs: &Needs) -> Result<Moved, Memory>
        requires ready { IsReady needs.now.procedures.items self.old }
        requires turn { work_of self.old.work ≡ [] }
        ensures done { IfOkUnless (H.may_refuse heap) result (Does self.old self.new) }
        ensures unchanged { IfErr result (λ e. IsUnchanged self.old self.new) }
    {
        if self.end_call(heap, needs)? {
            Ok(Moved::Moved)
        } else {
            self.end_main(needs);
            Ok(Moved::Ended)
        }
    }

    /// Makes the step in which a condition leaves a procedure.
    fn leave<H: Heap>(&mut self, heap: H, needs: &Needs, cond: Condition) -> Result<Moved, Memory>
        requires ready { IsReady needs.now.procedures.items self.old }
        requires turn { Leaves (seen_cond cond) (work_of self.old.work) }
        ensures done { IfOkUnless (H.may_refuse heap) result (Does self.old self.new) }
        ensures unchanged { IfErr result (λ e. IsUnchanged self.old self.new) }
    {
        if self.leave_call(heap, needs, cond)? {
            Ok(Moved::Moved)
        } else {
            self.leave_main(needs, cond);
            Ok(Moved::Ended)
        }
    }

    /// Makes a step of a run that isn't over.
    pub(crate) fn move_on<H: Heap>(&mut self, heap: H, needs: &Needs) -> Result<Moved, Memory>
        requires { IsReady needs.now.procedures.items self.old }
        ensures done { IfOkUnless (H.may_refuse heap) result (Does self.old self.new) }
        ensures unchanged { IfErr result (λ e. IsUnchanged self.old self.new) }
    {
        match self.step_within(heap, needs)? {
            None => Ok(Moved::Moved),
            Some(Crossing::Calls(site)) => self.call(heap, needs, site),
            Some(Crossing::Ends) => self.end(heap, needs),
            Some(Crossing::Leaves(cond)) => self.leave(heap, needs, cond),
        }
    }
}
